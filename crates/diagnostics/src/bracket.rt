//! The forms of relation, and the brackets that are open at the end of a beginning of a query.

use crate::words::{Said, is_among, last_word, said_of};

/// The most brackets that can be open.
const HEIGHT: usize = 64;

/// The forms, by the words before their brackets.
pub const FORMS: [&str; 10] = [
    "select",
    "where",
    "concat",
    "join",
    "group",
    "distinct",
    "except",
    "intersect",
    "iterate",
    "closure",
];

/// How a join is written.
pub const JOIN: &str = "the form is join(a, b; #0 = #0)";

/// How each form is written.
static SHAPES: [Said; 10] = [
    (&["select"], "the form is select(a; #0)"),
    (&["where"], "the form is where(a; #0 > 1)"),
    (&["concat"], "the form is concat(a, b)"),
    (&["except"], "the form is except(a, b)"),
    (&["intersect"], "the form is intersect(a, b)"),
    (&["join"], JOIN),
    (&["group"], "the form is group(a; #0; count)"),
    (&["distinct"], "the form is distinct(a)"),
    (&["iterate"], "the form is iterate(3; x = a; distinct(x))"),
    (&["closure"], "the form is closure(3; x = a; select(x; #0))"),
];

/// A round bracket that is open at the end of a beginning of a query.
#[derive(Clone, Copy)]
pub struct OpenBracket<'a> {
    /// The word right before it.
    pub name: &'a [u8],
    /// What comes before it.
    pub before: &'a [u8],
    /// How many `;` have come since, inside no other round bracket.
    pub semicolons: usize,
}

/// Whether a word names a form.
pub fn is_form(word: &[u8]) -> bool {
    is_among(&FORMS, word)
}

/// How the form with that name is written.
pub fn shape_of(form: &[u8]) -> Option<&'static str> {
    said_of(&SHAPES, form)
}

/// Where the last of some opening brackets stands that isn't closed.
fn last_opened(text: &[u8], opening: &[u8], closing: &[u8]) -> Option<usize> {
    let mut closed: usize = 0;
    for (at, byte) in text.iter().enumerate().rev() {
        if closing.contains(byte) {
            closed = closed.saturating_add(1);
        } else if opening.contains(byte) {
            if closed == 0 {
                return Some(at);
            }
            closed -= 1;
        }
    }
    None
}

/// How many `;` a text has that are inside no round bracket.
fn count_semicolons(text: &[u8]) -> usize {
    let mut open: usize = 0;
    let mut count: usize = 0;
    for byte in text {
        match *byte {
            b'(' => open = open.saturating_add(1),
            b')' => open = open.saturating_sub(1),
            b';' if open == 0 => count = count.saturating_add(1),
            _ => {}
        }
    }
    count
}

/// The last round bracket that isn't closed.
pub fn open_bracket(text: &[u8]) -> Option<OpenBracket<'_>> {
    let at = last_opened(text, b"(", b")")?;
    let before = text.get(..at).unwrap_or(&[]).trim_ascii_end();
    let behind = text.get(at.saturating_add(1)..).unwrap_or(&[]);
    Some(OpenBracket {
        name: last_word(before),
        before,
        semicolons: count_semicolons(behind),
    })
}

/// The last round bracket that isn't closed and belongs to a form.
pub fn form_bracket(text: &[u8]) -> Option<OpenBracket<'_>> {
    let mut bracket = open_bracket(text)?;
    for _outer in 0..HEIGHT {
        if is_form(bracket.name) {
            return Some(bracket);
        }
        bracket = open_bracket(bracket.before)?;
    }
    None
}

/// The last bracket that isn't closed, round or square.
pub fn last_open(text: &[u8]) -> Option<u8> {
    let at = last_opened(text, b"([", b")]")?;
    text.get(at).copied()
}
