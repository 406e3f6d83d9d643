//! Texts that are read and checked: whether they are right, and where they aren't.

use crate::texts::{refused, word};
use expr_tree::{Program, Rel};
use parser::parse;
use record_core::Refusal;
use std::alloc::{AllocError, Allocator, Global};
use typing::{Typed, check};

/// `right`, or why it is refused.
fn shown(alloc: Global, refusal: Option<Refusal>) -> Result<String, AllocError> {
    match refusal {
        Some(refusal) => refused(alloc, refusal),
        None => word(alloc, "right"),
    }
}

/// Whether a text is read.
pub fn reads(alloc: Global, text: &[u8]) -> Result<String, AllocError> {
    shown(alloc, parse(alloc, text).err())
}

/// A program as a typed one, or why it is refused.
pub fn typed<A: Allocator>(alloc: Global, program: Program<A>) -> Result<Typed<A>, Refusal> {
    match check(alloc, program) {
        Ok(typed) => Ok(typed),
        Err((_, refusal)) => Err(refusal),
    }
}

/// The typed query of a text, whose tree lies there.
pub fn typed_in<A: Allocator + Copy>(
    global: Global,
    alloc: A,
    text: &[u8],
) -> Result<Typed<A>, Refusal> {
    typed(global, parse(alloc, text)?)
}

/// Whether the query of a text is well typed.
pub fn checks(alloc: Global, text: &[u8]) -> Result<String, AllocError> {
    shown(alloc, typed_in(alloc, alloc, text).err())
}

/// Lets go of the scalars of a select.
fn empty(relation: &mut Rel<Global>) {
    if let Rel::Select(_, _, scalars) = relation {
        scalars.clear();
    }
}

/// A query whose first output's select has no scalars any more.
fn without_scalars(alloc: Global, text: &[u8]) -> Result<Program<Global>, Refusal> {
    let mut program = parse(alloc, text)?;
    if let Some(output) = program.outputs.first_mut() {
        empty(&mut output.relation);
    }
    Ok(program)
}

/// Whether the query is well typed once the select of its first output has no scalars.
pub fn checks_without_scalars(alloc: Global, text: &[u8]) -> Result<String, AllocError> {
    match without_scalars(alloc, text) {
        Ok(program) => shown(alloc, typed(alloc, program).err()),
        Err(refusal) => refused(alloc, refusal),
    }
}

/// The numbers of inputs and of lets of a typed query, and the fields of its outputs.
pub fn types(alloc: Global, text: &[u8]) -> Result<String, AllocError> {
    match typed_in(alloc, alloc, text) {
        Ok(typed) => types_of(alloc, &typed),
        Err(refusal) => refused(alloc, refusal),
    }
}

/// Puts a number at the end, after a space.
fn put_number(alloc: Global, list: &mut String, number: u64) -> Result<(), AllocError> {
    list.push_str(format!(in alloc; " {number}")?.as_str())
}

fn types_of(alloc: Global, typed: &Typed<Global>) -> Result<String, AllocError> {
    let (inputs, lets) = (typed.inputs().len(), typed.program().lets.len());
    let mut list = format!(in alloc; "{inputs} inputs, {lets} lets, outputs of")?;
    for arity in typed.output_arities() {
        put_number(alloc, &mut list, *arity)?;
    }
    Ok(list)
}

/// Whether the reader refuses each beginning of a text as cut off: how many.
pub fn beginnings(alloc: Global, text: &[u8]) -> Result<String, AllocError> {
    let mut cut = 0usize;
    for end in 0..text.len() {
        match parse(alloc, &text[..end]).err() {
            Some(Refusal::At { code: 1 | 4, .. }) => cut = cut.saturating_add(1),
            _ => return format!(in alloc; "another answer to the first {end}"),
        }
    }
    format!(in alloc; "{cut} refused")
}

/// Whether there is no refusal, or one with a code of the reader and a span inside a text of that many bytes.
fn is_sound(refusal: Option<Refusal>, length: usize) -> bool {
    match refusal {
        None => true,
        Some(Refusal::At { code: 1..=5, span }) => {
            span.start <= span.end && span.end as usize <= length
        }
        Some(_) => false,
    }
}

/// How many changes of one byte of a text have a sound answer, if all have.
pub fn changes(alloc: Global, text: &[u8]) -> Result<String, AllocError> {
    let mut changed = text.to_vec(alloc)?;
    let mut sound = 0usize;
    for place in 0..text.len() {
        for byte in 0..=255u8 {
            changed[place] = byte;
            if !is_sound(parse(alloc, changed.as_slice()).err(), text.len()) {
                return format!(in alloc; "none to {byte} at {place}");
            }
            sound = sound.saturating_add(1);
        }
        changed[place] = text[place];
    }
    format!(in alloc; "{sound} sound")
}
