//! A place in a query where a word can't come, and the rules by which a hint is found for it.

use crate::bracket::{FORMS, OpenBracket, form_bracket, is_form, last_open, open_bracket};
use crate::names::{is_like, is_name};
use crate::words::{begins_with, ends_in, first_word, is_among, last_word, split_word};
use record_core::Keyword;

/// The marks after which a number or a column can come.
const MARKS: [&str; 10] = [";", ",", "(", "[", "+", "-", "*", "=", "<", ">"];

/// A word that can't come at its place, and what is round it.
#[derive(Drop)]
pub struct Place<'a> {
    /// What comes before it, without the spaces there.
    pub before: &'a [u8],
    pub word: &'a [u8],
    pub behind: &'a [u8],
    /// The word right before it; empty where a sign is there.
    pub last: &'a [u8],
    /// The word right before that one.
    second: &'a [u8],
    /// The last bracket that isn't closed, round or square.
    open: Option<u8>,
    /// The last round bracket that isn't closed.
    pub bracket: Option<OpenBracket<'a>>,
    /// The last one that belongs to a form.
    form: Option<OpenBracket<'a>>,
}

/// What has to hold at a place, where a rule is to be used.
pub enum When {
    /// The word is one of these.
    Word(&'static [&'static str]),
    /// Nothing comes before.
    Start,
    /// What comes before ends in one of these.
    Ends(&'static [&'static str]),
    /// The word right before is one of these.
    After(&'static [&'static str]),
    /// The word right before that one is one of these.
    SecondAfter(&'static [&'static str]),
    /// What comes behind begins with one of these.
    Next(&'static [&'static str]),
    /// The same, where spaces may come between.
    Then(&'static [&'static str]),
    /// A name comes right before, which is declared there, or goes on behind.
    InName,
    /// A relation ends before.
    AfterRelation,
    /// A number or a column must come.
    Operand,
    /// A part of a form could end before.
    AfterPart,
    /// The word could be a name.
    Name,
    /// The word is a name that is like this one.
    Like(&'static str),
    /// The word is a keyword.
    Keyword,
    /// The word begins with a digit.
    Number,
    /// Some bracket is open, round or square.
    Open,
    /// None is.
    Closed,
    /// The last one that is open is this one.
    Bracket(u8),
    /// A round bracket is open.
    Round,
    /// The last round one that is open comes right after one of these words.
    In(&'static [&'static str]),
    /// It belongs to no form.
    InNumber,
    /// It is in its part of that number, counted from 0.
    Part(usize),
    /// It is in a later part than that.
    PartAfter(usize),
    /// The last round bracket that is open and belongs to a form belongs to this one.
    Within(&'static str),
    /// It is in a later part than its first.
    WithinLater,
}

/// What a rule says.
pub enum Hint {
    Text(&'static str),
    /// What is said of the word, as a form's name or a word of another language.
    OfWord,
    /// What is said of the word right before, which stands there as a form's name.
    OfCall,
    /// How the form is written whose bracket is open.
    Shape,
}

/// A rule: it is used where all of some conditions hold.
pub struct Rule {
    pub when: &'static [When],
    pub hint: Hint,
}

/// Whether a bracket is open and comes right after one of some words.
fn is_after(bracket: Option<OpenBracket<'_>>, words: &[&str]) -> bool {
    match bracket {
        Some(bracket) => is_among(words, bracket.name),
        None => false,
    }
}

/// In which of its parts a bracket is, counted from 0.
fn part_of(bracket: Option<OpenBracket<'_>>) -> usize {
    match bracket {
        Some(bracket) => bracket.semicolons,
        None => 0,
    }
}

impl Place<'_> {
    /// The place of a word between what comes before it, without the spaces there, and what comes behind it.
    pub fn new<'a>(before: &'a [u8], word: &'a [u8], behind: &'a [u8]) -> Place<'a> {
        let (front, last) = split_word(before);
        Place {
            before,
            word,
            behind,
            last,
            second: last_word(front),
            open: last_open(before),
            bracket: open_bracket(before),
            form: form_bracket(before),
        }
    }

    /// Whether a name is declared right before.
    fn is_declared(&self) -> bool {
        is_among(&["input", "let"], self.second)
    }

    /// Whether a name comes right before that is declared there, or goes on behind.
    fn is_in_name(&self) -> bool {
        self.is_declared() || is_name(self.last) && !first_word(self.behind).is_empty()
    }

    /// Whether a relation ends before: a name that isn't declared there, or a form.
    fn is_after_relation(&self) -> bool {
        !self.is_declared() && (is_name(self.last) || self.before.ends_with(b")"))
    }

    /// Whether a number or a column must come: behind a mark, in a bracket round numbers, or in a form's where its columns are.
    fn wants_operand(&self) -> bool {
        let is_number = match self.bracket {
            Some(bracket) if is_among(&["select", "where", "group", "join"], bracket.name) => {
                bracket.semicolons > 0
            }
            Some(bracket) => bracket.semicolons == 0 && !is_form(bracket.name),
            None => false,
        };
        is_number && ends_in(&MARKS, self.before)
    }

    /// Whether a part of a form could end before.
    fn is_after_part(&self) -> bool {
        !ends_in(&MARKS, self.before) && !is_among(&["sum", "min", "max"], self.last)
    }

    /// Whether a condition of a rule holds.
    fn holds(&self, condition: &When) -> bool {
        match condition {
            When::Word(words) => is_among(words, self.word),
            When::Start => self.before.is_empty(),
            When::Ends(ends) => ends_in(ends, self.before),
            When::After(words) => is_among(words, self.last),
            When::SecondAfter(words) => is_among(words, self.second),
            When::Next(beginnings) => begins_with(beginnings, self.behind),
            When::Then(beginnings) => begins_with(beginnings, self.behind.trim_ascii_start()),
            When::InName => self.is_in_name(),
            When::AfterRelation => self.is_after_relation(),
            When::Operand => self.wants_operand(),
            When::AfterPart => self.is_after_part(),
            When::Name => is_name(self.word),
            When::Like(name) => is_name(self.word) && is_like(name.as_bytes(), self.word),
            When::Keyword => Keyword::of(self.word).is_some(),
            When::Number => matches!(self.word, [b'0'..=b'9', ..]),
            When::Open => self.open.is_some(),
            When::Closed => self.open.is_none(),
            When::Bracket(bracket) => self.open == Some(*bracket),
            When::Round => self.bracket.is_some(),
            When::In(words) => is_after(self.bracket, words),
            When::InNumber => !is_after(self.bracket, &FORMS),
            When::Part(number) => part_of(self.bracket) == *number,
            When::PartAfter(number) => part_of(self.bracket) > *number,
            When::Within(form) => is_after(self.form, &[form]),
            When::WithinLater => part_of(self.form) > 0,
        }
    }

    /// Whether a rule is to be used.
    pub fn fits(&self, rule: &Rule) -> bool {
        for condition in rule.when {
            if !self.holds(condition) {
                return false;
            }
        }
        true
    }
}
