//! The texts of lines, and what is answered as a text.

use record_core::{Refusal, Span};
use std::alloc::{AllocError, Global};

/// What stands for a byte after a `\`.
const ESCAPES: [(&str, u8); 9] = [
    ("n", b'\n'),
    ("r", b'\r'),
    ("t", b'\t'),
    ("v", 11),
    ("f", 12),
    ("0", 0),
    ("q", b'"'),
    ("x80", 128),
    ("xff", 255),
];

/// Puts a byte, and the text that follows it, at the end.
fn put_byte(out: &mut Vec<u8>, byte: u8, rest: &str) -> Result<bool, AllocError> {
    out.push(byte)?;
    out.extend_from_slice(rest.as_bytes())?;
    Ok(true)
}

/// Puts one escape, and what follows it up to the next `\`, at the end; false where it is none.
fn put_escape(out: &mut Vec<u8>, part: &str) -> Result<bool, AllocError> {
    for (escape, byte) in &ESCAPES {
        if let Some(rest) = part.strip_prefix(*escape) {
            return put_byte(out, *byte, rest);
        }
    }
    Ok(false)
}

/// Puts a quoted text at the end, without its escapes; false where one isn't known.
fn put(out: &mut Vec<u8>, quoted: &str) -> Result<bool, AllocError> {
    for (number, part) in quoted.split('\\').enumerate() {
        if number == 0 {
            out.extend_from_slice(part.as_bytes())?;
        } else if !put_escape(out, part)? {
            return Ok(false);
        }
    }
    Ok(true)
}

/// How often a text is repeated: 1, or what stands before it, as `62*`.
fn repeats(before: &str) -> Option<u32> {
    let before = before.strip_prefix(" ").unwrap_or(before);
    if before.is_empty() {
        return Some(1);
    }
    before.strip_suffix("*")?.parse().ok()
}

/// The text of quoted pieces, as `"(" 3*"a " ")\n"`; nothing where a line has another form.
pub fn text_of(alloc: Global, pieces: &str) -> Result<Option<Vec<u8>>, AllocError> {
    let mut text = Vec::new(alloc);
    let mut parts = pieces.split('"');
    for _ in 0..pieces.len() {
        let before = parts.next().unwrap_or("");
        let Some(quoted) = parts.next() else {
            break;
        };
        let Some(count) = repeats(before) else {
            return Ok(None);
        };
        for _ in 0..count {
            if !put(&mut text, quoted)? {
                return Ok(None);
            }
        }
    }
    Ok(Some(text))
}

/// Two texts, as `"a" and "b"`.
pub fn two_texts(alloc: Global, pieces: &str) -> Result<Option<(Vec<u8>, Vec<u8>)>, AllocError> {
    let (first, second) = pieces.split_once("\" and ").unwrap_or((pieces, ""));
    let Some(first) = text_of(alloc, first)? else {
        return Ok(None);
    };
    Ok(text_of(alloc, second)?.map(|second| (first, second)))
}

/// Puts a text at the end, with `\n` for the end of a line.
fn put_lines(out: &mut String, text: &str) -> Result<(), AllocError> {
    for (number, line) in text.split('\n').enumerate() {
        if number > 0 {
            out.push_str("\\n")?;
        }
        out.push_str(line)?;
    }
    Ok(())
}

/// Bytes as a text, with `\n` for the end of a line.
pub fn quoted(alloc: Global, bytes: &[u8]) -> Result<String, AllocError> {
    let text = String::from_utf8_lossy(alloc, bytes)?;
    let mut out = String::new(alloc);
    put_lines(&mut out, text.as_str())?;
    Ok(out)
}

/// A word that is answered.
pub fn word(alloc: Global, word: &str) -> Result<String, AllocError> {
    String::from_str(alloc, word)
}

pub fn yes_or_no(alloc: Global, answer: bool) -> Result<String, AllocError> {
    word(alloc, if answer { "yes" } else { "no" })
}

/// `4..7`
pub fn place(alloc: Global, span: Span) -> Result<String, AllocError> {
    let (start, end) = (span.start, span.end);
    format!(in alloc; "{start}..{end}")
}

/// Why a text is refused.
pub fn refused(alloc: Global, refusal: Refusal) -> Result<String, AllocError> {
    match refusal {
        Refusal::NoMemory => word(alloc, "no memory"),
        Refusal::At { code, span } => {
            let place = place(alloc, span)?;
            format!(in alloc; "refused {code} at {place}")
        }
    }
}

/// Puts an item behind others, after a comma.
pub fn add(list: &mut String, item: &str) -> Result<(), AllocError> {
    if !list.is_empty() {
        list.push_str(", ")?;
    }
    list.push_str(item)
}
