//! Warnings: what is accepted in a query, and most likely a mistake.

use crate::display::Part::{Text, Word};
use crate::display::{Part, write_line};
use crate::excerpt::write_place;
use crate::query_fault::span_bytes;
use itoa::Buffer;
use record_core::Span;
use std::io;
use std::io::Write;

/// The places of what nothing uses.
#[derive(Drop)]
pub struct Unused {
    pub inputs: Vec<Span>,
    pub lets: Vec<Span>,
    /// Of loops.
    pub variables: Vec<Span>,
}

/// What is accepted, and most likely a mistake.
#[derive(Drop)]
pub struct Warnings {
    pub unused: Unused,
    pub doubts: Vec<Doubt>,
}

/// What comes out alike for each record.
#[derive(Clone, Copy)]
pub enum Doubt {
    /// A condition that each record meets, or none.
    Condition(Span, bool),
    /// A pair of columns that are two different numbers in each record.
    Pair(Span, i64, i64),
}

/// Writes a line of these parts after `PATH:LINE:COLUMN: `.
fn write_at<W: Write>(
    path: &str,
    text: &[u8],
    place: Span,
    parts: &[Part<'_>],
    writer: &mut W,
) -> io::Result<()> {
    write_place(path, text, place.start as usize, writer)?;
    write_line(parts, writer)
}

/// Writes that nothing uses the names at those places.
fn write_unused<'a, W: Write>(
    path: &str,
    text: &'a [u8],
    what: &'a str,
    places: &[Span],
    writer: &mut W,
) -> io::Result<()> {
    for place in places {
        let name = Word(span_bytes(text, *place));
        let parts = [Text("warning: "), Text(what), name, Text(" is not used")];
        write_at(path, text, *place, &parts, writer)?;
    }
    Ok(())
}

/// Writes that inputs are fed in the first epoch alone. The names of all inputs are at the places, and the numbers say which of them are meant.
pub fn write_early<W: Write>(
    path: &str,
    text: &[u8],
    places: &[Span],
    early: &[u32],
    writer: &mut W,
) -> io::Result<()> {
    for number in early {
        let Some(place) = places.get(*number as usize) else {
            continue;
        };
        let name = Word(span_bytes(text, *place));
        let end = Text(" is fed in epoch 0 only, and each epoch is answered by itself");
        let parts = [Text("warning: the input "), name, end];
        write_at(path, text, *place, &parts, writer)?;
    }
    Ok(())
}

/// Writes what comes out alike.
fn write_doubt<W: Write>(path: &str, text: &[u8], doubt: Doubt, writer: &mut W) -> io::Result<()> {
    match doubt {
        Doubt::Condition(place, is_true) => {
            let how = if is_true { "always" } else { "never" };
            let parts = [Text("warning: the condition is "), Text(how), Text(" true")];
            write_at(path, text, place, &parts, writer)
        }
        Doubt::Pair(place, left, right) => {
            let (mut first, mut second) = (Buffer::new(), Buffer::new());
            let parts = [
                Text("warning: these columns never meet: the left one is always "),
                Text(first.format(left)),
                Text(", and the right one "),
                Text(second.format(right)),
            ];
            write_at(path, text, place, &parts, writer)
        }
    }
}

/// Writes a line `PATH:LINE:COLUMN: warning: ..` for each.
pub fn write_warnings<W: Write>(
    path: &str,
    text: &[u8],
    warnings: &Warnings,
    writer: &mut W,
) -> io::Result<()> {
    let unused = &warnings.unused;
    write_unused(path, text, "the input ", &unused.inputs, writer)?;
    write_unused(path, text, "the let ", &unused.lets, writer)?;
    write_unused(
        path,
        text,
        "the loop's variable ",
        &unused.variables,
        writer,
    )?;
    for doubt in warnings.doubts.iter() {
        write_doubt(path, text, *doubt, writer)?;
    }
    Ok(())
}
