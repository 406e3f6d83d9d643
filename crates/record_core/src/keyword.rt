//! The keywords of the language.

ghost use Rattle.std.specs.Prelude.{◌≡◌, ◌≢◌, IfSome, IfNone};
ghost use Rattle.record_core.specs.Names.{keyword_text};

/// A word of the language that can't be a name. `epoch` isn't used in queries; it begins an epoch of an input text.
#[derive(Clone, Copy, Debug, PartialEq, Eq)]
pub enum Keyword {
    Input,
    Let,
    Output,
    Select,
    Where,
    Concat,
    Join,
    Group,
    Distinct,
    Except,
    Intersect,
    Iterate,
    Count,
    Sum,
    Min,
    Max,
    And,
    Or,
    Not,
    Epoch,
}

const KEYWORDS: [Keyword; 20] = [
    Keyword::Input,
    Keyword::Let,
    Keyword::Output,
    Keyword::Select,
    Keyword::Where,
    Keyword::Concat,
    Keyword::Join,
    Keyword::Group,
    Keyword::Distinct,
    Keyword::Except,
    Keyword::Intersect,
    Keyword::Iterate,
    Keyword::Count,
    Keyword::Sum,
    Keyword::Min,
    Keyword::Max,
    Keyword::And,
    Keyword::Or,
    Keyword::Not,
    Keyword::Epoch,
];

impl Keyword {
    /// The spelling of the keyword.
    pub fn text(self) -> &'static [u8]
        ensures { result.now ≡ keyword_text self }
    {
        match self {
            Keyword::Input => b"input",
            Keyword::Let => b"let",
            Keyword::Output => b"output",
            Keyword::Select => b"select",
            Keyword::Where => b"where",
            Keyword::Concat => b"concat",
            Keyword::Join => b"join",
            Keyword::Group => b"group",
            Keyword::Distinct => b"distinct",
            Keyword::Except => b"except",
            Keyword::Intersect => b"intersect",
            Keyword::Iterate => b"iterate",
            Keyword::Count => b"count",
            Keyword::Sum => b"sum",
            Keyword::Min => b"min",
            Keyword::Max => b"max",
            Keyword::And => b"and",
            Keyword::Or => b"or",
            Keyword::Not => b"not",
            Keyword::Epoch => b"epoch",
        }
    }

    /// The keyword with that spelling, if there is one.
    pub fn of(word: &[u8]) -> Option<Keyword>
        ensures found { IfSome result (λ k. word.now ≡ keyword_text k) }
        ensures none { IfNone result ((k : Keyword) → word.now ≢ keyword_text k) }
    {
        for keyword in KEYWORDS {
            if keyword.text() == word {
                return Some(keyword);
            }
        }
        None
    }
}
