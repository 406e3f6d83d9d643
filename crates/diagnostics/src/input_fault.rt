//! What is wrong with a line of an input, with the names and the numbers involved.

use crate::display::Part::{Meant, Number, Text, Word};
use crate::display::{separator, write_line, write_parts};
use crate::input_hint::{COMPRESSED, is_compressed, of_field, of_first, of_gap};
use crate::query_fault::{fields, write_summary};
use crate::words::{is_among, until};
use bumpalo::Bump;
use decimal::signed_number;
use parser::parse;
use std::alloc::Global;
use std::io;
use std::io::Write;

/// The bytes of the longest line that says something: a name of 32, and 16 fields of 20, each after a space.
const LONGEST: usize = 368;

/// How many spaces a line has: as many as there are words after its first.
fn count_spaces(line: &[u8]) -> u64 {
    let mut count: u64 = 0;
    for byte in line {
        if *byte == b' ' {
            count = count.saturating_add(1);
        }
    }
    count
}

/// The first word after the first that is no number, and where it begins.
fn bad_field(line: &[u8]) -> Option<(usize, &[u8])> {
    for (at, byte) in line.iter().enumerate() {
        if *byte == b' ' {
            let place = at.saturating_add(1);
            let field = until(line.get(place..).unwrap_or(&[]), b' ');
            if signed_number(field).is_none() {
                return Some((place, field));
            }
        }
    }
    None
}

/// Where the second of two spaces that stand together is.
fn second_space(line: &[u8]) -> Option<usize> {
    let mut is_behind = false;
    for (at, byte) in line.iter().enumerate() {
        let is_space = *byte == b' ';
        if is_space && is_behind {
            return Some(at);
        }
        is_behind = is_space;
    }
    None
}

/// Where a malformed line has a space too many; its beginning where something else is wrong with it.
fn gap_place(line: &[u8]) -> usize {
    if line.starts_with(b" ") {
        0
    } else if line.ends_with(b" ") {
        line.len().saturating_sub(1)
    } else {
        second_space(line).unwrap_or(0)
    }
}

/// Where in a line that is refused with that code what is wrong begins; its beginning where the whole line is meant.
pub fn fault_place(code: u8, line: &[u8]) -> usize {
    match code {
        43 => line.len(),
        44 => match bad_field(line) {
            Some((place, _)) => place,
            None => 0,
        },
        46 if line.len() <= LONGEST => gap_place(line),
        _ => 0,
    }
}

/// How many fields a query declares for an input.
fn declared_fields(alloc: Global, query: &[u8], name: &[u8]) -> Option<u64> {
    let arena = Bump::new(alloc);
    let program = parse(&arena, query).ok()?;
    for input in program.inputs.iter() {
        if input.name.bytes() == name {
            return Some(input.arity);
        }
    }
    None
}

/// Writes what is wrong with a malformed line.
fn write_malformed<W: Write>(line: &[u8], writer: &mut W) -> io::Result<()> {
    let first = until(line, b' ');
    let question = Text(of_gap(first));
    if line.is_empty() {
        write_line(&[Text("the line is empty")], writer)
    } else if line.len() > LONGEST {
        let text = "the line has over 368 bytes, more than any right one";
        write_line(&[Text(text)], writer)
    } else if line.starts_with(b" ") {
        write_line(&[Text("the line begins with a space")], writer)
    } else if line.ends_with(b" ") {
        write_line(&[Text("the line ends with a space"), question], writer)
    } else if second_space(line).is_some() {
        write_line(&[Text("two spaces stand together"), question], writer)
    } else {
        let meant = Meant(Some(of_first(first)));
        write_line(&[Word(first), Text(" is not a valid name"), meant], writer)
    }
}

/// Writes what is wrong with a record that has a wrong number of fields.
fn write_fields<W: Write>(
    alloc: Global,
    query: &[u8],
    line: &[u8],
    writer: &mut W,
) -> io::Result<()> {
    let name = until(line, b' ');
    let Some(declared) = declared_fields(alloc, query, name) else {
        return write_summary(45, writer);
    };
    let parts = [
        Text("a record of "),
        Word(name),
        Text(" has "),
        Number(declared),
        fields(declared),
        Text(", and this line has "),
        Number(count_spaces(line)),
    ];
    write_line(&parts, writer)
}

/// Writes the names of a query's inputs.
fn write_inputs<W: Write>(alloc: Global, query: &[u8], writer: &mut W) -> io::Result<()> {
    let arena = Bump::new(alloc);
    let Ok(program) = parse(&arena, query) else {
        return Ok(());
    };
    let count = program.inputs.len();
    for (index, input) in program.inputs.iter().enumerate() {
        let sign = if index == 0 {
            ": the query has "
        } else {
            separator(index, count, " and ")
        };
        write_parts(&[Text(sign), Word(input.name.bytes())], writer)?;
    }
    Ok(())
}

/// Writes that no input has that name, and which names there are.
fn write_unknown<W: Write>(
    alloc: Global,
    query: &[u8],
    name: &[u8],
    writer: &mut W,
) -> io::Result<()> {
    write_parts(&[Text("no input is called "), Word(name)], writer)?;
    write_inputs(alloc, query, writer)?;
    write_line(&[], writer)
}

/// Writes what is wrong with a field that is no number.
fn write_bad_number<W: Write>(line: &[u8], writer: &mut W) -> io::Result<()> {
    let bad = match bad_field(line) {
        Some((_, field)) => field,
        None => line,
    };
    let meant = Meant(Some(of_field(bad, line)));
    write_line(&[Word(bad), Text(" is not a valid number"), meant], writer)
}

/// Writes what is wrong with a line of an input text, in one line: or where nothing else is known, what the table says of the code.
pub fn write_input_fault<W: Write>(
    alloc: Global,
    query: &[u8],
    code: u8,
    line: &[u8],
    writer: &mut W,
) -> io::Result<()> {
    let name = until(line, b' ');
    let is_early = code == 41 || code == 42;
    if is_early && is_among(&["epoch"], name) {
        return write_line(&[Text("an `epoch` line has no other words")], writer);
    }
    if is_early && is_among(&["input"], name) {
        let text = "this looks like a query; the query comes first, then the input";
        return write_line(&[Text(text)], writer);
    }
    match code {
        43 if is_compressed(line) => write_line(&[Text(COMPRESSED)], writer),
        41 => {
            let text = "no `epoch` line comes before this record of ";
            write_line(&[Text(text), Word(name)], writer)
        }
        42 => write_unknown(alloc, query, name, writer),
        44 => write_bad_number(line, writer),
        45 => write_fields(alloc, query, line, writer),
        46 => write_malformed(line, writer),
        _ => write_summary(code, writer),
    }
}
