//! Canonical texts, trees that have none, and the way back.

use crate::texts::{quoted, refused, word, yes_or_no};
use bumpalo::Bump;
use expr_tree::{Program, Rel, Scalar, same};
use linked_list_allocator::LocalHeap;
use parser::parse;
use record_core::{Refusal, Span};
use std::alloc::{AllocError, Allocator, Global};
use writer::{is_source, read_back, write_program};

const NOWHERE: Span = Span { start: 0, end: 0 };

/// The canonical text of a text.
pub fn written(alloc: Global, text: &[u8]) -> Result<String, AllocError> {
    match parse(alloc, text) {
        Ok(program) => written_of(alloc, &program),
        Err(refusal) => refused(alloc, refusal),
    }
}

fn written_of(alloc: Global, program: &Program<Global>) -> Result<String, AllocError> {
    if !is_source(program) {
        return word(alloc, "no source");
    }
    let mut out = Vec::new(alloc);
    if write_program(program, &mut out).is_err() {
        return word(alloc, "no memory");
    }
    quoted(alloc, out.as_slice())
}

/// Puts a scalar in place of all those of a select.
fn put_scalar(relation: &mut Rel<Global>, scalar: Scalar<Global>) -> Result<(), AllocError> {
    if let Rel::Select(_, _, scalars) = relation {
        scalars.clear();
        scalars.push(scalar)?;
    }
    Ok(())
}

/// Whether a program is a source once the select of its first output has that scalar.
fn is_source_with(
    program: &mut Program<Global>,
    scalar: Scalar<Global>,
) -> Result<bool, AllocError> {
    if let Some(output) = program.outputs.first_mut() {
        put_scalar(&mut output.relation, scalar)?;
    }
    Ok(is_source(program))
}

/// Whether `select(a; SCALAR)` is a source.
fn is_selected(alloc: Global, scalar: Scalar<Global>) -> Result<bool, Refusal> {
    let mut program = parse(alloc, b"output select(a; #0);")?;
    Ok(is_source_with(&mut program, scalar)?)
}

/// The scalar of a number, or of the column of a `#`.
fn scalar_of(text: &str) -> Option<Scalar<Global>> {
    match text.strip_prefix("#") {
        Some(digits) => Some(Scalar::Column(NOWHERE, digits.parse().ok()?)),
        None => Some(Scalar::Literal(NOWHERE, text.parse().ok()?)),
    }
}

/// Whether a number, or the column of a `#`, is a source in a select.
pub fn scalar_is_source(alloc: Global, text: &str) -> Result<String, AllocError> {
    let Some(scalar) = scalar_of(text) else {
        return word(alloc, "no scalar");
    };
    match is_selected(alloc, scalar) {
        Ok(answer) => yes_or_no(alloc, answer),
        Err(refusal) => refused(alloc, refusal),
    }
}

/// Lets go of the pairs of a join.
fn empty(relation: &mut Rel<Global>) {
    if let Rel::Join(_, _, _, pairs) = relation {
        pairs.clear();
    }
}

/// Whether a text is a source, and whether it still is once the join of its first output has no pairs.
pub fn is_source_without_pairs(alloc: Global, text: &[u8]) -> Result<String, AllocError> {
    match parse(alloc, text) {
        Ok(mut program) => yes_or_no(alloc, is_source_with_pairs_only(&mut program)),
        Err(refusal) => refused(alloc, refusal),
    }
}

fn is_source_with_pairs_only(program: &mut Program<Global>) -> bool {
    let before = is_source(program);
    if let Some(output) = program.outputs.first_mut() {
        empty(&mut output.relation);
    }
    before && !is_source(program)
}

/// Whether a text's program, written and read back under that allocator, is the same.
fn returns_in<B: Allocator + Copy>(
    memory: Global,
    program: &Program<Global>,
    alloc: B,
) -> Result<bool, Refusal> {
    if !is_source(program) {
        return Ok(false);
    }
    let again = read_back(memory, program, alloc)?;
    Ok(same(program, &again))
}

/// Whether a program that is written and read back is the same in memory, in an arena and in a large heap, and is refused in a small one.
fn all_return(memory: Global, program: &Program<Global>) -> Result<bool, AllocError> {
    let arena = Bump::new(memory);
    let large = LocalHeap::new(memory, 65_536)?;
    let small = LocalHeap::new(memory, 64)?;
    Ok(
        returns_in(memory, program, memory) == Ok(true)
            && returns_in(memory, program, &arena) == Ok(true)
            && returns_in(memory, program, &large) == Ok(true)
            && returns_in(memory, program, &small) == Err(Refusal::NoMemory),
    )
}

/// What comes of a text that is written and read back.
pub fn returns(memory: Global, text: &[u8]) -> Result<String, AllocError> {
    match parse(memory, text) {
        Ok(program) => yes_or_no(memory, all_return(memory, &program)?),
        Err(refusal) => refused(memory, refusal),
    }
}
