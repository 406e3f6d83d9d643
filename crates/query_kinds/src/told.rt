//! What is said of the columns at a place where a query is refused.

use crate::fields::push_source;
use crate::tables::push_number;
use expr_tree::Input;
use itoa::Buffer;
use kind_check::{PUT_TOGETHER, merged};
use kinds::{Kind, Quantity};
use origins::{Origin, program_origins};
use parser::parse;
use record_core::{Refusal, Span};
use relations_read::{Part, reading_at};
use schema::{Schema, Table};
use schema_check::found_kinds;
use std::alloc::{AllocError, Allocator, Global};

/// The place whose columns are told of: that of the refusal, or round a loop's body the loop; none where a refusal is of no column.
fn told_place(code: u8, span: Span) -> Option<Span> {
    match code {
        13 | 14 | 26..=30 => Some(span),
        15 => Some(Span {
            start: span.start.saturating_sub(1),
            end: span.end,
        }),
        _ => None,
    }
}

/// Whether a text begins with a number, and not with a longer one.
fn begins_with(text: &[u8], number: u64) -> bool {
    let mut buffer = Buffer::new();
    match text.strip_prefix(buffer.format(number).as_bytes()) {
        Some(rest) => !matches!(rest, [b'0'..=b'9', ..]),
        None => false,
    }
}

/// Whether a text names a column.
fn names_column(text: &[u8], number: u64) -> bool {
    text.split(|byte| *byte == b'#')
        .skip(1)
        .any(|rest| begins_with(rest, number))
}

/// Whether a text names one of so many columns.
fn names_any(text: &[u8], count: u64) -> bool {
    for number in 0..count {
        if names_column(text, number) {
            return true;
        }
    }
    false
}

/// Appends the columns that two relations have at one place and that stand for different things, as a query names them.
fn push_different(
    alloc: Global,
    text: &mut Vec<u8>,
    left: &[Kind],
    right: &[Kind],
) -> Result<(), AllocError> {
    let nowhere = Span { start: 0, end: 0 };
    for number in 0..left.len() {
        if let (Some(first), Some(second)) = (left.get(number), right.get(number)) {
            if merged(alloc, &[*first], &[*second], nowhere).is_err() {
                text.extend_from_slice(b"#")?;
                push_number(text, number as u64)?;
            }
        }
    }
    Ok(())
}

/// Appends what a field stands for, after where it comes from; nothing of a number that the query gives.
fn push_meaning(text: &mut Vec<u8>, kind: Kind) -> Result<(), AllocError> {
    match kind {
        Kind::Text => text.extend_from_slice(b", a text"),
        Kind::Number(Quantity::Whole) => text.extend_from_slice(b", an int"),
        Kind::Number(Quantity::Date) => text.extend_from_slice(b", a date"),
        Kind::Number(Quantity::Time) => text.extend_from_slice(b", a time"),
        Kind::Number(Quantity::Bare) => Ok(()),
        Kind::Number(Quantity::Decimal(digits)) => {
            text.extend_from_slice(b", a decimal(")?;
            push_number(text, u64::from(digits))?;
            text.extend_from_slice(b")")
        }
    }
}

/// Appends the columns that a field's values are taken from, or that they are computed.
fn push_taken(
    text: &mut Vec<u8>,
    tables: &[Table],
    inputs: &[Input],
    from: &Origin,
) -> Result<(), AllocError> {
    match from {
        Origin::Computed => text.extend_from_slice(b"computed"),
        Origin::Taken(sources) => {
            for (at, source) in sources.iter().enumerate() {
                if at > 0 {
                    text.extend_from_slice(b" or ")?;
                }
                push_source(text, tables, inputs, *source)?;
            }
            Ok(())
        }
    }
}

/// What is known of the relations that are read at a place, one by one, with the inputs and their tables.
#[derive(Clone, Copy)]
struct Known<'a> {
    origins: &'a [Vec<Origin>],
    kinds: &'a [Vec<Kind>],
    inputs: &'a [Input],
    tables: &'a [Table],
}

/// Appends the line of a field.
fn push_field(
    text: &mut Vec<u8>,
    known: &Known<'_>,
    number: u64,
    words: &str,
    from: &Origin,
    kind: Kind,
) -> Result<(), AllocError> {
    text.extend_from_slice(b"#")?;
    push_number(text, number)?;
    text.extend_from_slice(words.as_bytes())?;
    text.extend_from_slice(b" is ")?;
    push_taken(text, known.tables, known.inputs, from)?;
    push_meaning(text, kind)?;
    text.extend_from_slice(b"\n")
}

/// Appends the lines of the fields of a relation that a text names, or of all if it names none of them.
fn push_fields(
    text: &mut Vec<u8>,
    known: &Known<'_>,
    at: usize,
    words: &str,
    named: &[u8],
) -> Result<(), AllocError> {
    let (Some(fields), Some(kinds)) = (known.origins.get(at), known.kinds.get(at)) else {
        return Ok(());
    };
    let is_named = names_any(named, fields.len() as u64);
    for at in 0..fields.len() {
        if let (Some(from), Some(kind)) = (fields.get(at), kinds.get(at)) {
            let number = at as u64;
            if !is_named || names_column(named, number) {
                push_field(text, known, number, words, from, *kind)?;
            }
        }
    }
    Ok(())
}

/// Appends the lines of the fields of each relation that is read: of two that are put together those that differ.
fn push_parts(
    alloc: Global,
    text: &mut Vec<u8>,
    known: &Known<'_>,
    parts: &[Part],
    query: &[u8],
    code: u8,
) -> Result<(), AllocError> {
    let mut different = Vec::new(alloc);
    if let [left, right] = known.kinds {
        push_different(alloc, &mut different, left, right)?;
    }
    for (at, part) in parts.iter().enumerate() {
        let named = if code == PUT_TOGETHER {
            different.as_slice()
        } else {
            query
                .get(part.columns.start as usize..part.columns.end as usize)
                .unwrap_or(&[])
        };
        push_fields(text, known, at, part.words, named)?;
    }
    Ok(())
}

/// A line for each column that a query names where it is refused, or for all that there are if it names none of them: where its values are taken
/// from, and what they stand for by the schema. Of a loop's variable it is what the loop starts with. Nothing where the refusal is of no column.
pub fn told_columns<A: Allocator + Copy>(
    alloc: Global,
    arena: A,
    query: &[u8],
    schema: &Schema,
    code: u8,
    span: Span,
) -> Result<Vec<u8>, Refusal> {
    let mut text = Vec::new(alloc);
    let Some(place) = told_place(code, span) else {
        return Ok(text);
    };
    let program = parse(arena, query)?;
    let reading = reading_at(alloc, arena, &program, place)?;
    let kinds = found_kinds(alloc, &reading.program, schema)?;
    let origins = program_origins(alloc, &reading.program)?;
    let known = Known {
        origins: &origins,
        kinds: &kinds.outputs,
        inputs: &reading.program.inputs,
        tables: &schema.inputs,
    };
    push_parts(alloc, &mut text, &known, &reading.parts, query, code)?;
    Ok(text)
}
