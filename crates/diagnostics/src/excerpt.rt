//! A line of a text, shown with its number, and what is at a place in it marked.

use crate::display::Part::{Below, Escaped, LineNumber, Number, Path, Row, Shown, Text};
use crate::display::{shortened, write_line, write_parts};
use crate::words::until;
use record_core::Span;
use std::io;
use std::io::Write;

/// The most bytes of a line that are shown.
const WIDTH: usize = 200;

/// How many bytes of a longer line are shown before the place.
const BEFORE: usize = 80;

/// A line of a text: its number, counted from 1, its bytes without the line feed, and the place in it, which may be its end.
#[derive(Clone, Copy)]
struct Line<'a> {
    number: u64,
    bytes: &'a [u8],
    place: usize,
}

/// The line of a place. A line feed is the end of its line.
fn line_at(text: &[u8], place: usize) -> Line<'_> {
    let mut number: u64 = 1;
    let mut start: usize = 0;
    for (at, byte) in text.iter().enumerate() {
        if at < place && *byte == b'\n' {
            number = number.saturating_add(1);
            start = at.saturating_add(1);
        }
    }
    Line {
        number,
        bytes: until(text.get(start..).unwrap_or(&[]), b'\n'),
        place: place.saturating_sub(start),
    }
}

/// The line of that number, where the text's first line has the number `first`; empty where the text has fewer.
pub fn numbered_line(text: &[u8], first: u64, number: u64) -> &[u8] {
    if number <= first {
        return until(text, b'\n');
    }
    let mut line = first;
    for (at, byte) in text.iter().enumerate() {
        if *byte == b'\n' {
            line = line.saturating_add(1);
            if line == number {
                let rest = text.get(at.saturating_add(1)..).unwrap_or(&[]);
                return until(rest, b'\n');
            }
        }
    }
    &[]
}

/// Writes the line of a text in which a span begins, of a long one the part round the span, with `..` where bytes are left out. Below it
/// come carets below the span, as far as the line is shown; at least one.
pub fn write_marked<W: Write>(text: &[u8], span: Span, writer: &mut W) -> io::Result<()> {
    let line = line_at(text, span.start as usize);
    let most = line.bytes.len().saturating_sub(WIDTH);
    let from = line.place.saturating_sub(BEFORE).min(most);
    let (front, blank) = if from == 0 { ("", "") } else { ("..", "  ") };
    let (part, end) = shortened(line.bytes.get(from..).unwrap_or(&[]), WIDTH);
    let before = line.place.saturating_sub(from);
    let length = span.end.saturating_sub(span.start) as usize;
    let digits = line.number.checked_ilog10().unwrap_or(0).saturating_add(1);
    write_line(
        &[
            LineNumber(line.number),
            Text(" | "),
            Text(front),
            Shown(part),
            Text(end),
        ],
        writer,
    )?;
    write_line(
        &[
            Row(' ', digits.max(3) as usize),
            Text(" | "),
            Text(blank),
            Below(part.get(..before).unwrap_or(part)),
            Row('^', length.min(part.len().saturating_sub(before)).max(1)),
        ],
        writer,
    )
}

/// Writes a line of an input or a schedule with its number, of a long one the beginning.
pub fn write_numbered<W: Write>(bytes: &[u8], number: u64, writer: &mut W) -> io::Result<()> {
    let (front, end) = shortened(bytes, WIDTH);
    write_line(
        &[LineNumber(number), Text(" | "), Escaped(front), Text(end)],
        writer,
    )
}

/// Writes a text's name before what is wrong with it.
pub fn write_name<W: Write>(name: &str, writer: &mut W) -> io::Result<()> {
    write_parts(&[Path(name), Text(": ")], writer)
}

/// Writes a text's name, the number of a line, and the column of a place in it, which is counted from 1.
pub fn write_position<W: Write>(
    name: &str,
    line: u64,
    place: usize,
    writer: &mut W,
) -> io::Result<()> {
    let column = (place as u64).saturating_add(1);
    write_parts(
        &[
            Path(name),
            Text(":"),
            Number(line),
            Text(":"),
            Number(column),
            Text(": "),
        ],
        writer,
    )
}

/// Writes a text's name, and the line and the column of a place in the text.
pub fn write_place<W: Write>(
    name: &str,
    text: &[u8],
    place: usize,
    writer: &mut W,
) -> io::Result<()> {
    let line = line_at(text, place);
    write_position(name, line.number, line.place, writer)
}
