//! What can come at a place of a query: each kind of word is tried there.

use crate::display::Part::Text;
use crate::display::{separator, write_parts};
use crate::words::Said;
use bumpalo::Bump;
use parser::{UNEXPECTED, parse};
use record_core::Refusal;
use std::alloc::{AllocError, Global};
use std::io;
use std::io::Write;

/// The longest text behind which words are tried, as each trial reads it once more.
const LENGTH: usize = 65536;

/// A word of each kind. A closure's word is a name, so it can come wherever a relation can.
const WORDS: &str = "a 1 #0 / ; , ( ) [ ] = != < <= > >= + - * input let output \
    select where concat except intersect join group distinct iterate count sum min max and or not";

/// Words that have a name together, where all of them can come; each row before those that are a part of it.
static KINDS: [Said; 6] = [
    (
        &[
            "a",
            "select",
            "where",
            "concat",
            "except",
            "intersect",
            "join",
            "group",
            "distinct",
            "iterate",
        ],
        "a relation",
    ),
    (&["1", "#0", "(", "-", "not", "["], "a condition"),
    (&["1", "#0", "(", "-"], "a number or a column"),
    (&["count", "sum", "min", "max"], "an aggregate"),
    (&["+", "-", "*"], "an operator"),
    (&["=", "!=", "<", "<=", ">", ">="], "a comparison"),
];

/// What can come at a place: a kind of words, or a word in quotes.
#[derive(Clone, Copy)]
struct Expected {
    text: &'static str,
    quote: &'static str,
}

/// A kind of words, by its name.
fn kind_called(text: &'static str) -> Expected {
    Expected { text, quote: "" }
}

/// Why a text is no query, if it isn't one.
fn refusal_of(alloc: Global, text: &[u8]) -> Option<Refusal> {
    let arena = Bump::new(alloc);
    parse(&arena, text).err()
}

/// Whether a beginning of a query can be followed by a word: whether no text that goes on so is refused for the order of words there.
fn follows(alloc: Global, before: &[u8], word: &str) -> Result<bool, AllocError> {
    let mut text = before.to_vec(alloc)?;
    text.push(b' ')?;
    text.extend_from_slice(word.as_bytes())?;
    match refusal_of(alloc, text.as_slice()) {
        None => Ok(true),
        Some(Refusal::NoMemory) => Err(AllocError),
        Some(Refusal::At { code, span }) => {
            Ok(code != UNEXPECTED || span.start as usize != before.len().saturating_add(1))
        }
    }
}

/// The words that can come after a beginning of a query.
fn following(alloc: Global, before: &[u8]) -> Result<Vec<&'static str>, AllocError> {
    let mut words = Vec::new(alloc);
    for word in WORDS.split(' ') {
        if follows(alloc, before, word)? {
            words.push(word)?;
        }
    }
    Ok(words)
}

/// Whether some words are all there.
fn has_all(words: &[&'static str], some: &[&'static str]) -> bool {
    for word in some {
        if !words.contains(word) {
            return false;
        }
    }
    true
}

/// The words without some of them.
fn without(
    alloc: Global,
    words: &[&'static str],
    some: &[&'static str],
) -> Result<Vec<&'static str>, AllocError> {
    let mut left = Vec::new(alloc);
    for word in words {
        if !some.contains(word) {
            left.push(*word)?;
        }
    }
    Ok(left)
}

/// What a word is that can come alone.
fn alone(word: &'static str) -> Expected {
    match word.as_bytes() {
        b"a" => kind_called("a name"),
        b"1" => kind_called("a number"),
        b"#0" => kind_called("a column"),
        _ => Expected {
            text: word,
            quote: "`",
        },
    }
}

/// Takes the words of each kind of which all are there, and notes its name.
fn take_kinds(
    alloc: Global,
    words: &mut Vec<&'static str>,
    found: &mut Vec<Expected>,
) -> Result<(), AllocError> {
    for (kind, name) in &KINDS {
        if has_all(words.as_slice(), kind) {
            found.push(kind_called(name))?;
            *words = without(alloc, words.as_slice(), kind)?;
        }
    }
    Ok(())
}

/// What can come after a beginning of a query.
fn possible_words(alloc: Global, before: &[u8]) -> Result<Vec<Expected>, AllocError> {
    let mut words = following(alloc, before)?;
    let mut found = Vec::new(alloc);
    take_kinds(alloc, &mut words, &mut found)?;
    for word in words.iter() {
        found.push(alone(word))?;
    }
    if refusal_of(alloc, before).is_none() {
        found.push(kind_called("the end of the query"))?;
    }
    Ok(found)
}

/// Writes what can come after a beginning of a query, as `, expected x, y or z`. Nothing where that is too long, or no memory is left.
pub fn write_expected<W: Write>(alloc: Global, before: &[u8], writer: &mut W) -> io::Result<()> {
    if before.len() > LENGTH {
        return Ok(());
    }
    let Ok(found) = possible_words(alloc, before) else {
        return Ok(());
    };
    let count = found.len();
    for (index, part) in found.iter().enumerate() {
        let sign = if index == 0 {
            ", expected "
        } else {
            separator(index, count, " or ")
        };
        let quote = Text(part.quote);
        write_parts(&[Text(sign), quote, Text(part.text), quote], writer)?;
    }
    Ok(())
}
