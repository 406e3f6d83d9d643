//! Parts of lines: bytes, texts and counts as they are shown to a reader.

use std::fmt::{Display, Formatter};
use std::io::Write;
use std::{fmt, io};

/// The most bytes of a word that are shown.
const WORD: usize = 40;

/// The characters, each from one to another, that aren't shown as they are: controls, those without width, and those that turn the direction of
/// writing.
const HIDDEN: [(char, char); 6] = [
    ('\0', '\x1f'),
    ('\x7f', '\u{9f}'),
    ('\u{200b}', '\u{200f}'),
    ('\u{2028}', '\u{202e}'),
    ('\u{2060}', '\u{206f}'),
    ('\u{feff}', '\u{feff}'),
];

/// A part of a line. What is written is a list of these, so that one function writes all.
#[derive(Clone, Copy)]
pub enum Part<'a> {
    Text(&'a str),
    /// A text as `Plain` shows it.
    Path(&'a str),
    /// A word as `Word` shows it.
    Word(&'a [u8]),
    /// Bytes, of which those that are no letters, digits or signs of ASCII are shown by escapes: `\t`, `\r`, `\xef`.
    Escaped(&'a [u8]),
    /// Bytes of a query's line, each in one column. What might disturb a terminal, and what is no ASCII, is shown as `?`; a tab stays one.
    Shown(&'a [u8]),
    /// As many columns below such bytes: a tab stays one, and all else is a space.
    Below(&'a [u8]),
    /// So many of one character.
    Row(char, usize),
    Number(u64),
    /// A number in three columns or more.
    LineNumber(u64),
    /// A byte as `0xef`.
    Byte(u8),
    /// What is most likely meant, after what is wrong; nothing where it isn't known.
    Meant(Option<&'static str>),
}

/// Writes parts.
pub fn write_parts<W: Write>(parts: &[Part<'_>], writer: &mut W) -> io::Result<()> {
    for part in parts {
        write!(writer, "{part}")?;
    }
    Ok(())
}

/// Writes a line of these parts.
pub fn write_line<W: Write>(parts: &[Part<'_>], writer: &mut W) -> io::Result<()> {
    write_parts(parts, writer)?;
    write_parts(&[Part::Text("\n")], writer)
}

/// The beginning of bytes that are longer than that, and what shows that they go on.
pub fn shortened(bytes: &[u8], most: usize) -> (&[u8], &'static str) {
    match bytes.get(..most) {
        Some(front) if most < bytes.len() => (front, ".."),
        _ => (bytes, ""),
    }
}

/// What comes before the part of that index in a list of that many parts, whose last one comes after that word.
pub fn separator(index: usize, count: usize, last: &'static str) -> &'static str {
    if index == 0 {
        ""
    } else if index.saturating_add(1) == count {
        last
    } else {
        ", "
    }
}

/// How a character of white space is escaped.
fn escape(letter: char) -> Option<&'static str> {
    match letter {
        '\t' => Some("\\t"),
        '\r' => Some("\\r"),
        '\n' => Some("\\n"),
        _ => None,
    }
}

/// Whether a byte is a letter, a digit, a sign or the space of ASCII.
pub fn is_printable(byte: u8) -> bool {
    matches!(byte, b' '..=b'~')
}

/// Whether a character is shown as it is.
fn is_plain(letter: char) -> bool {
    for (first, last) in HIDDEN {
        if first <= letter && letter <= last {
            return false;
        }
    }
    true
}

/// What stands for a byte in one column.
fn shown(byte: u8) -> char {
    if byte == b'\t' || is_printable(byte) {
        char::from(byte)
    } else if byte == b'\r' {
        ' '
    } else {
        '?'
    }
}

/// Shows bytes by escapes.
fn escape_bytes<W: fmt::Write>(bytes: &[u8], f: &mut Formatter<W>) -> fmt::Result {
    for byte in bytes {
        let letter = char::from(*byte);
        match escape(letter) {
            Some(escape) => f.write_str(escape)?,
            None if is_printable(*byte) => f.write_char(letter)?,
            None => write!(f, "\\x{byte:02x}")?,
        }
    }
    Ok(())
}

/// Shows bytes in columns.
fn show_bytes<W: fmt::Write>(bytes: &[u8], f: &mut Formatter<W>) -> fmt::Result {
    for byte in bytes {
        f.write_char(shown(*byte))?;
    }
    Ok(())
}

/// Shows the blanks below bytes.
fn show_below<W: fmt::Write>(bytes: &[u8], f: &mut Formatter<W>) -> fmt::Result {
    for byte in bytes {
        let blank = if *byte == b'\t' { '\t' } else { ' ' };
        f.write_char(blank)?;
    }
    Ok(())
}

/// Shows so many of one character.
fn show_row<W: fmt::Write>(letter: char, count: usize, f: &mut Formatter<W>) -> fmt::Result {
    for _letter in 0..count {
        f.write_char(letter)?;
    }
    Ok(())
}

impl Display for Part<'_> {
    fn fmt<W: fmt::Write>(&self, f: &mut Formatter<W>) -> fmt::Result {
        match *self {
            Part::Text(text) => f.write_str(text),
            Part::Path(path) => Plain(path).fmt(f),
            Part::Word(word) => Word(word).fmt(f),
            Part::Escaped(bytes) => escape_bytes(bytes, f),
            Part::Shown(bytes) => show_bytes(bytes, f),
            Part::Below(bytes) => show_below(bytes, f),
            Part::Row(letter, count) => show_row(letter, count, f),
            Part::Number(number) => collector::Number(number).fmt(f),
            Part::LineNumber(number) => {
                let number = collector::Number(number);
                write!(f, "{number:>3}")
            }
            Part::Byte(byte) => write!(f, "0x{byte:02x}"),
            Part::Meant(Some(hint)) => {
                f.write_str(": ")?;
                f.write_str(hint)
            }
            Part::Meant(None) => Ok(()),
        }
    }
}

/// A word of a text; of a long one its beginning.
#[derive(Clone, Copy)]
pub struct Word<'a>(pub &'a [u8]);

impl Display for Word<'_> {
    fn fmt<W: fmt::Write>(&self, f: &mut Formatter<W>) -> fmt::Result {
        let (front, end) = shortened(self.0, WORD);
        escape_bytes(front, f)?;
        f.write_str(end)
    }
}

/// A text, as a path, of which what might disturb a terminal is shown by escapes: `\n`, `\u{1b}`.
#[derive(Clone, Copy)]
pub struct Plain<'a>(pub &'a str);

impl Display for Plain<'_> {
    fn fmt<W: fmt::Write>(&self, f: &mut Formatter<W>) -> fmt::Result {
        for letter in self.0.chars() {
            match escape(letter) {
                Some(escape) => f.write_str(escape)?,
                None if is_plain(letter) => f.write_char(letter)?,
                None => {
                    let code = u32::from(letter);
                    write!(f, "\\u{{{code:x}}}")?;
                }
            }
        }
        Ok(())
    }
}
