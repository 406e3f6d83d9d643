//! Hints for words that look like the syntax of another language.

use crate::bracket::last_open;
use crate::input_hint::COMPRESSED;
use crate::names::is_name;
use crate::place::Place;
use crate::rules::{BEGINNING, NUMBERED, STRINGS, of_place};
use crate::words::{first_word, is_among, last_word, split_word};
use record_core::Span;

/// The text is no query.
const FILES: &str =
    "the first file is the query, the second the input; a query begins with its inputs, as in input a/1;";

/// Whether the rest of a text goes on with a sign right after the text's first word, as a CSV file does.
fn is_separated(behind: &[u8]) -> bool {
    for byte in behind {
        if !byte.is_ascii_alphanumeric() && *byte != b'_' {
            return matches!(*byte, b',' | b';' | b'|');
        }
    }
    false
}

/// Whether a text begins with a word or a number that can't begin a query.
fn is_other(text: &[u8]) -> bool {
    let word = first_word(text.trim_ascii_start());
    !word.is_empty() && !is_among(&["input"], word)
}

/// The hint for a `:`, by the item that it is in.
fn of_colon(before: &[u8]) -> &'static str {
    let (front, last) = split_word(before);
    let item = last_word(front);
    if is_among(&["input"], item) {
        "an input is written input a/2;"
    } else if is_among(&["output"], item) || is_among(&["output"], last) {
        "an output is written output b = a;"
    } else {
        "a let is written let b = a;"
    }
}

/// The hint for a quote, by what is before it.
fn of_quote(before: &[u8]) -> &'static str {
    let last = last_word(before);
    if is_among(&["input", "let", "output"], last) {
        "a name has no quotes, as in input a/2;"
    } else if is_among(&["from"], last) {
        "a query names no file; the input is the second file, as in loom run QUERY INPUT"
    } else {
        STRINGS
    }
}

/// The hint for a byte that begins no word, by what is before and after it.
fn of_byte(before: &[u8], byte: u8, behind: &[u8]) -> Option<&'static str> {
    match (byte, behind) {
        (0x1f, [0x8b, ..]) if before.is_empty() => Some(COMPRESSED),
        (b'\'' | b'"', _) if before.is_empty() => Some(FILES),
        (b'A'..=b'Z', _) if before.is_empty() && is_separated(behind) => Some(FILES),
        _ if is_other(before) => Some(FILES),
        (b'A'..=b'Z', _) if before.is_empty() => Some(
            "a query begins with its inputs, in lower case, as in input a/1;",
        ),
        (b'A'..=b'Z', _) => Some("names and keywords are in lower case"),
        (b'\'' | b'"', _) => Some(of_quote(before)),
        (b'.', [b'0'..=b'9', ..]) if !is_name(last_word(before)) => Some(
            "numbers are whole; write 12.50 as 1250 cents",
        ),
        (b'.' | b'$', _) => Some(NUMBERED),
        (b'&', _) => Some("use `and`"),
        (b'|', _) => Some("use `or`"),
        (b'%', _) => Some("there is no division"),
        (b'^', _) => Some("a power is a product, as in #0 * #0"),
        (b'_', _) => Some("a number has only digits, and a name begins with a letter"),
        (b'~', _) => Some("unequal is written !="),
        (b':', _) => Some(of_colon(before)),
        (b'{' | b'}', _) => Some("brackets are ( ) and [ ]"),
        (0xef, [0xbb, 0xbf, ..]) if before.is_empty() => Some(
            "the text begins with a byte order mark; remove it",
        ),
        (0x80..=0xff, _) => Some("a query is ASCII text"),
        _ => None,
    }
}

/// The hint for a `#` with no number after it.
pub fn of_hash(before: &[u8]) -> &'static str {
    match before.trim_ascii_end() {
        [] => "there are no comments",
        [.., b';'] if last_open(before).is_none() => "there are no comments",
        _ => "expected a number right after it",
    }
}

/// The hint for a text that ends too early.
fn of_end(text: &[u8]) -> Option<&'static str> {
    match (last_open(text), text) {
        (Some(b'['), _) => Some("a [ is still open"),
        (Some(_), _) => Some("a ( is still open"),
        (None, [.., b';']) => Some("an output is missing"),
        (None, []) => Some(BEGINNING),
        (None, [.., b')']) => Some("a ; is missing"),
        _ => None,
    }
}

/// What is most likely meant where a text was refused at a place: a few words, if they are known. The codes are 1, for a byte that begins
/// no word, and 4, for a word that can't come there, or for the end of the text.
pub fn hint(text: &[u8], code: u8, span: Span) -> Option<&'static str> {
    let (start, end) = (span.start as usize, span.end as usize);
    let before = text.get(..start)?.trim_ascii_end();
    let word = text.get(start..end)?;
    let behind = text.get(end..)?;
    match (code, word) {
        (1, [byte]) => of_byte(before, *byte, behind),
        (4, []) => of_end(before),
        (4, _) if before.is_empty() && is_separated(behind) => Some(FILES),
        (4, _) => of_place(&Place::new(before, word, behind)),
        _ => None,
    }
}
