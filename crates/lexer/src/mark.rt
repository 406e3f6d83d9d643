//! Marks: the tokens of one or two signs.

ghost use Rattle.std.specs.Prelude.{◌≡◌, IfSome, IfNone};
ghost use Rattle.lexer.specs.Marks.{mark_text, BeginsWith, IsLongestMark};

/// A token of one or two signs.
#[derive(Clone, Copy, PartialEq, Eq)]
pub enum Mark {
    NotEqual,
    AtMost,
    AtLeast,
    Slash,
    Semicolon,
    Comma,
    OpenRound,
    CloseRound,
    OpenSquare,
    CloseSquare,
    Equal,
    Below,
    Above,
    Plus,
    Minus,
    Star,
}

/// The marks, the longer ones first, so that the first one found is the longest.
const MARKS: [Mark; 16] = [
    Mark::NotEqual,
    Mark::AtMost,
    Mark::AtLeast,
    Mark::Slash,
    Mark::Semicolon,
    Mark::Comma,
    Mark::OpenRound,
    Mark::CloseRound,
    Mark::OpenSquare,
    Mark::CloseSquare,
    Mark::Equal,
    Mark::Below,
    Mark::Above,
    Mark::Plus,
    Mark::Minus,
    Mark::Star,
];

impl Mark {
    /// The spelling of the mark: one or two bytes.
    pub fn text(self) -> &'static [u8]
        ensures { result.now ≡ mark_text self }
    {
        match self {
            Mark::NotEqual => b"!=",
            Mark::AtMost => b"<=",
            Mark::AtLeast => b">=",
            Mark::Slash => b"/",
            Mark::Semicolon => b";",
            Mark::Comma => b",",
            Mark::OpenRound => b"(",
            Mark::CloseRound => b")",
            Mark::OpenSquare => b"[",
            Mark::CloseSquare => b"]",
            Mark::Equal => b"=",
            Mark::Below => b"<",
            Mark::Above => b">",
            Mark::Plus => b"+",
            Mark::Minus => b"-",
            Mark::Star => b"*",
        }
    }

    /// The mark at the front of the bytes; the longer one if two are there.
    pub(crate) fn at_front(bytes: &[u8]) -> Option<Mark>
        ensures found { IfSome result (λ m. IsLongestMark bytes.now m) }
        ensures none { IfNone result ((m : Mark) → ¬ (BeginsWith bytes.now m)) }
    {
        for mark in MARKS {
            if bytes.starts_with(mark.text()) {
                return Some(mark);
            }
        }
        None
    }
}
