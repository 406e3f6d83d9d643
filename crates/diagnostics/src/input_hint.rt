//! Hints for words of an input text that look like another format.

use crate::words::{begins_with, is_among};

/// The line ends in two bytes.
const CARRIAGE_RETURN: &str = "the line ends in CR LF; remove the CR, as by tr -d '\\r'";

/// A sign comes between fields.
const SIGN: &str =
    "fields are separated by one space, not by , ; or |; for CSV see \"From CSV, and back\" in TEXTS.md";

/// The text is what gzip made.
pub const COMPRESSED: &str = "the text is compressed; unpack it first, as by gzip -dc";

/// Whether bytes begin as what gzip makes does.
pub fn is_compressed(bytes: &[u8]) -> bool {
    bytes.starts_with(b"\x1f\x8b")
}

/// Whether a word is a date, as 2024-01-31.
fn is_date(word: &[u8]) -> bool {
    for (place, byte) in word.iter().enumerate() {
        let is_right = if place == 4 || place == 7 {
            is_among(&["-", "/", "."], &[*byte])
        } else {
            byte.is_ascii_digit()
        };
        if !is_right {
            return false;
        }
    }
    word.len() == 10
}

/// Whether a word says that a value is missing.
fn is_null(word: &[u8]) -> bool {
    for null in ["null", "na", "n/a", "nan", "none", "\\n"] {
        if word.eq_ignore_ascii_case(null.as_bytes()) {
            return true;
        }
    }
    false
}

/// The hint for a word in which a sign is between fields in place of a space.
fn of_separator(word: &[u8]) -> Option<&'static str> {
    if word.contains(&b'\t') {
        Some("fields are separated by one space, not by a tab")
    } else if word.contains(&b',') || word.contains(&b';') || word.contains(&b'|') {
        Some(SIGN)
    } else {
        None
    }
}

/// The question where a line has two spaces together or one at its end, by its first word. An `epoch` line has no fields.
pub fn of_gap(first: &[u8]) -> &'static str {
    if is_among(&["epoch"], first) {
        ""
    } else {
        "; is a field empty?"
    }
}

/// Whether a text begins with a digit.
fn begins_with_digit(text: &[u8]) -> bool {
    matches!(text, [b'0'..=b'9', ..])
}

/// The hint for a line's first word, if it is no name.
pub fn of_first(word: &[u8]) -> &'static str {
    if word.starts_with(b"\xef\xbb\xbf") {
        "the text begins with a byte order mark; remove it"
    } else if is_compressed(word) {
        COMPRESSED
    } else if word.ends_with(b"\r") {
        CARRIAGE_RETURN
    } else if begins_with(&["#", "--", "//", "/*"], word) {
        "there are no comments"
    } else {
        of_separator(word).unwrap_or(of_letters(word))
    }
}

/// The hint for a line's first word whose letters make it no name.
fn of_letters(word: &[u8]) -> &'static str {
    if begins_with_digit(word) || begins_with(&["-", "+"], word) {
        "a record begins with the name of its input"
    } else if word.eq_ignore_ascii_case(b"epoch") {
        "epoch is in lower case"
    } else if word.len() > 32 {
        "a name has at most 32 bytes"
    } else {
        "a name has lower-case letters, digits and _"
    }
}

/// The hint for digits, with a sign or none, if they are no number.
fn of_digits(word: &[u8]) -> &'static str {
    if word.starts_with(b"+") {
        "a number has no +"
    } else if is_among(&["-0"], word) {
        "zero is written 0"
    } else if begins_with(&["-0", "0"], word) {
        "a number doesn't begin with 0"
    } else {
        "a number is at least -9223372036854775808 and at most 9223372036854775807"
    }
}

/// Whether each word of a line after the first begins with a letter or a quote, as in a header line.
fn is_header(line: &[u8]) -> bool {
    let mut is_space = false;
    for byte in line {
        if is_space && !byte.is_ascii_alphabetic() && *byte != b'"' {
            return false;
        }
        is_space = *byte == b' ';
    }
    !is_space
}

/// Whether a text has only digits, and at least one.
fn is_digits(text: &[u8]) -> bool {
    for byte in text {
        if !byte.is_ascii_digit() {
            return false;
        }
    }
    !text.is_empty()
}

/// The hint for a field of a line, if it is no number.
pub fn of_field(word: &[u8], line: &[u8]) -> &'static str {
    let digits = match word {
        [b'-' | b'+', rest @ ..] => rest,
        _ => word,
    };
    if word.ends_with(b"\r") {
        CARRIAGE_RETURN
    } else if let Some(hint) = of_separator(word) {
        hint
    } else if word.starts_with(b"#") {
        "there are no comments"
    } else if is_digits(digits) {
        of_digits(word)
    } else if is_date(word) {
        "a date is one number, as 20240131 or the number of days since some day"
    } else if is_null(word) {
        "there is no null; give what is missing a number"
    } else if digits.starts_with(b".") || begins_with_digit(digits) && digits.contains(&b'.') {
        "numbers are whole; write 12.50 as 1250 cents"
    } else if begins_with_digit(digits) {
        "a number is digits, with a - before them if negative"
    } else if is_header(line) {
        "if this is a header line, leave it out"
    } else {
        "fields are whole numbers; give each string a number"
    }
}
