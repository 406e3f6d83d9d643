//! What is wrong with a query, with the names and the numbers involved.

use crate::display::Part::{Byte, Meant, Number, Text, Word};
use crate::display::{Part, is_printable, write_line, write_parts};
use crate::expected::write_expected;
use crate::hint::{hint, of_hash};
use crate::names::{form_name, write_no_form, write_unknown};
use crate::words::{begins_with, is_among};
use bumpalo::Bump;
use parser::parse;
use record_core::Span;
use refusals::explanation_of;
use std::alloc::Global;
use std::io;
use std::io::Write;
use typing::{Arities, arities_at_fault};

/// The bytes that a span covers, as far as the text goes.
pub fn span_bytes(text: &[u8], span: Span) -> &[u8] {
    let from = text.get(span.start as usize..).unwrap_or(&[]);
    let count = span.end.saturating_sub(span.start) as usize;
    from.get(..count).unwrap_or(from)
}

/// The numbers of fields that a refusal is about, where the text is read once more.
fn arities(alloc: Global, text: &[u8]) -> Option<Arities> {
    let arena = Bump::new(alloc);
    match parse(&arena, text) {
        Ok(program) => arities_at_fault(alloc, &program),
        Err(_) => None,
    }
}

/// Writes what the table says of a code.
pub fn write_summary<W: Write>(code: u8, writer: &mut W) -> io::Result<()> {
    match explanation_of(code) {
        Some(row) => write_line(&[Text(row.summary)], writer),
        None => Ok(()),
    }
}

/// What comes before a place, without the spaces there.
fn before(text: &[u8], span: Span) -> &[u8] {
    text.get(..span.start as usize)
        .unwrap_or(&[])
        .trim_ascii_end()
}

/// What comes after a number of fields: ` field` or ` fields`.
pub fn fields(count: u64) -> Part<'static> {
    Text(if count == 1 { " field" } else { " fields" })
}

/// The columns of a relation with that many fields, in two parts: `#0`, `#0 and #1`, `#0 to #2`.
fn columns(count: u64) -> (Part<'static>, Part<'static>) {
    match count {
        0 => (Text("none"), Text("")),
        1 => (Text("#0"), Text("")),
        2 => (Text("#0 and #1"), Text("")),
        _ => (Text("#0 to #"), Number(count.saturating_sub(1))),
    }
}

/// Writes what is wrong with a byte that begins no word.
fn write_byte<W: Write>(text: &[u8], span: Span, writer: &mut W) -> io::Result<()> {
    let word = span_bytes(text, span);
    let meant = hint(text, 1, span);
    match word {
        [b'#'] => {
            let hint = of_hash(before(text, span));
            write_line(&[Text("unexpected `#`: "), Text(hint)], writer)
        }
        [b'!'] => {
            let line = "unexpected `!`: unequal is written !=, and not [ ] negates a condition";
            write_line(&[Text(line)], writer)
        }
        [byte] if !is_printable(*byte) => {
            write_line(
                &[Text("unexpected byte "), Byte(*byte), Meant(meant)],
                writer,
            )
        }
        _ => write_line(
            &[
                Text("unexpected character `"),
                Word(word),
                Text("`"),
                Meant(meant),
            ],
            writer,
        ),
    }
}

/// What is wrong with a number.
fn of_number(text: &[u8], span: Span) -> &'static str {
    let word = span_bytes(text, span);
    if begins_with(&["0", "#0"], word) {
        "a number doesn't begin with 0"
    } else if is_among(&["9223372036854775808"], word) && before(text, span).ends_with(b"-") {
        "a number is at most 9223372036854775807; the least is written -9223372036854775807 - 1"
    } else {
        "a number is at most 9223372036854775807"
    }
}

/// Writes that a word can't come at its place, or that the text ends too early, and what is meant or what could come there.
fn write_unexpected<W: Write>(
    alloc: Global,
    text: &[u8],
    span: Span,
    writer: &mut W,
) -> io::Result<()> {
    let word = span_bytes(text, span);
    if word.is_empty() {
        write_parts(&[Text("the text ends too early")], writer)?;
    } else {
        write_parts(&[Text("unexpected `"), Word(word), Text("`")], writer)?;
    }
    let before = before(text, span);
    match (hint(text, 4, span), form_name(before)) {
        (None, Some(name)) if is_among(&["("], word) => {
            write_parts(&[Text(": ")], writer)?;
            write_no_form(name, writer)
        }
        (None, _) => {
            write_expected(alloc, before, writer)?;
            write_line(&[], writer)
        }
        (meant, _) => write_line(&[Meant(meant)], writer),
    }
}

/// Writes what is wrong with a text that is no program: codes 1 to 6.
fn write_reading<W: Write>(
    alloc: Global,
    text: &[u8],
    code: u8,
    span: Span,
    writer: &mut W,
) -> io::Result<()> {
    let word = span_bytes(text, span);
    match code {
        1 => write_byte(text, span, writer),
        2 => write_line(
            &[Word(word), Text(": "), Text(of_number(text, span))],
            writer,
        ),
        3 => {
            let length = Number(word.len() as u64);
            let end = Text(" bytes: a name has at most 32");
            write_line(&[Text("the name has "), length, end], writer)
        }
        4 => write_unexpected(alloc, text, span, writer),
        5 => {
            let end =
                "` is more than 64 deep: each operator, `and` or `or` of a row counts, so put parts of a long row in brackets";
            write_line(&[Text("`"), Word(word), Text(end)], writer)
        }
        _ => write_summary(code, writer),
    }
}

/// Writes what is wrong with a program that isn't well typed, where no number of fields is involved.
fn write_naming<W: Write>(code: u8, word: &[u8], writer: &mut W) -> io::Result<()> {
    let (front, word, end) = match code {
        12 => ("the name ", word, " is taken already"),
        17 => ("", word, " turns: a loop takes at most 65535"),
        18 => (
            "this loop is nested in 16 others: at most 15 are allowed",
            [].as_slice(),
            "",
        ),
        19 => ("", word, " is the 17th input: a query has at most 16"),
        20 if is_among(&["output"], word) => (
            "an output without a name is called out, and so is an earlier one",
            [].as_slice(),
            "",
        ),
        20 => ("an earlier output is called ", word, ""),
        23 => (
            "this is the 17th output: a query has at most 16",
            [].as_slice(),
            "",
        ),
        _ => return write_summary(code, writer),
    };
    write_line(&[Text(front), Word(word), Text(end)], writer)
}

/// Writes what is wrong with a program that isn't well typed, with the numbers of fields.
fn write_arities<W: Write>(
    code: u8,
    word: &[u8],
    arities: Arities,
    writer: &mut W,
) -> io::Result<()> {
    match (code, arities) {
        (13, Arities::One(count)) => {
            let (from, to) = columns(count);
            let middle = Text(": the relation has ");
            let comma = Text(", ");
            write_line(
                &[
                    Text("column "),
                    Word(word),
                    middle,
                    Number(count),
                    fields(count),
                    comma,
                    from,
                    to,
                ],
                writer,
            )
        }
        (14, Arities::Two(left, right)) => {
            let (first, second) = (Text("the first relation has "), Text(", and the second "));
            write_line(
                &[first, Number(left), fields(left), second, Number(right)],
                writer,
            )
        }
        (15, Arities::Two(start, body)) => {
            let (first, second) = (Text("the start has "), Text(", and the body "));
            write_line(
                &[first, Number(start), fields(start), second, Number(body)],
                writer,
            )
        }
        (16, Arities::One(count)) => {
            let end = Text(": a record has 1 to 16");
            write_line(&[Number(count), fields(count), end], writer)
        }
        _ => write_summary(code, writer),
    }
}

/// Writes what is wrong at a place of a query text, in one line: or where nothing else is known, what the table says of the code.
pub fn write_query_fault<W: Write>(
    alloc: Global,
    text: &[u8],
    code: u8,
    span: Span,
    writer: &mut W,
) -> io::Result<()> {
    let word = span_bytes(text, span);
    match code {
        1..=6 => write_reading(alloc, text, code, span, writer),
        11 => write_unknown(alloc, text, word, span, writer),
        13..=16 => match arities(alloc, text) {
            Some(arities) => write_arities(code, word, arities, writer),
            None => write_summary(code, writer),
        },
        _ => write_naming(code, word, writer),
    }
}
