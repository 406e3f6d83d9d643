//! Normal forms, from text to text.

use crate::held::put;
use crate::queries::{typed, typed_in};
use crate::texts::{quoted, refused, word, yes_or_no};
use bumpalo::Bump;
use expr_tree::{Comparison, Cond, Operator, Program, Rel, Scalar, rel_size};
use linked_list_allocator::LocalHeap;
use normalise::normalise;
use parser::parse;
use record_core::{NoMemory, Refusal, Span};
use std::alloc::{AllocError, Allocator, Global};
use typing::Typed;
use writer::{is_source, write_program};

/// The text of a query's normal form; empty where it has none, and `None` where the query is refused.
fn text_in<A: Allocator + Copy>(
    global: Global,
    alloc: A,
    query: &[u8],
) -> Result<Option<Vec<u8>>, AllocError> {
    match normal_in(global, alloc, query) {
        Ok(normal) => Ok(written(global, normal.program())),
        Err(_) => Ok(None),
    }
}

/// The normal form of a query whose tree lies there.
fn normal_in<A: Allocator + Copy>(
    global: Global,
    alloc: A,
    query: &[u8],
) -> Result<Typed<A>, Refusal> {
    Ok(normalise(typed_in(global, alloc, query)?)?)
}

fn written<A: Allocator>(global: Global, program: &Program<A>) -> Option<Vec<u8>> {
    let mut text = Vec::new(global);
    if is_source(program) && write_program(program, &mut text).is_err() {
        return None;
    }
    Some(text)
}

/// The same in a heap, which is empty afterwards.
fn text_in_heap(global: Global, query: &[u8]) -> Result<Option<Vec<u8>>, AllocError> {
    let heap = LocalHeap::new(global, 65536)?;
    let text = text_in(global, &heap, query)?;
    Ok(if heap.used() == 0 { text } else { None })
}

/// The same in an arena, which is empty afterwards.
fn text_in_arena(global: Global, query: &[u8]) -> Result<Option<Vec<u8>>, AllocError> {
    let mut arena = Bump::new(global);
    let text = text_in(global, &arena, query)?;
    Ok(if arena.reset().is_ok() { text } else { None })
}

/// The text of a query's normal form, which is the same in memory, in an arena and in a heap.
pub fn normal(global: Global, query: &[u8]) -> Result<String, AllocError> {
    let text = text_in(global, global, query)?;
    if text_in_arena(global, query)? != text || text_in_heap(global, query)? != text {
        return word(global, "not the same everywhere");
    }
    let Some(text) = text else {
        return word(global, "refused");
    };
    if text.is_empty() {
        return word(global, "no text");
    }
    quoted(global, text.as_slice())
}

/// The one scalar of a query's normal form, where that is a number.
pub fn folded(alloc: Global, query: &[u8]) -> Result<String, AllocError> {
    match normal_in(alloc, alloc, query) {
        Ok(normal) => number_of(alloc, normal.program()),
        Err(refusal) => refused(alloc, refusal),
    }
}

fn number_of(alloc: Global, program: &Program<Global>) -> Result<String, AllocError> {
    match program.outputs.first() {
        Some(output) => number_in(alloc, &output.relation),
        None => word(alloc, "no output"),
    }
}

fn number_in(alloc: Global, relation: &Rel<Global>) -> Result<String, AllocError> {
    match relation {
        Rel::Select(_, _, scalars) => match scalars.as_slice() {
            [Scalar::Literal(_, number)] => format!(in alloc; "{number}"),
            _ => word(alloc, "no number"),
        },
        _ => word(alloc, "no select"),
    }
}

/// A typed copy of a program.
fn typed_copy<A: Allocator + Copy>(
    global: Global,
    alloc: A,
    program: &Program<Global>,
) -> Result<Typed<A>, Refusal> {
    typed(global, program.copy_in(alloc)?)
}

/// Whether the normaliser was refused memory, where there was room for the query.
fn refused_in<A: Allocator + Copy>(global: Global, alloc: A, program: &Program<Global>) -> bool {
    match typed_copy(global, alloc, program) {
        Ok(typed) => normalise(typed).is_err(),
        Err(_) => false,
    }
}

/// Whether there is room for the query alone somewhere between a heap that has no room for it and one that has room for all.
pub fn crowds(alloc: Global, query: &[u8]) -> Result<String, AllocError> {
    match parse(alloc, query) {
        Ok(program) => crowded(alloc, &program),
        Err(refusal) => refused(alloc, refusal),
    }
}

fn crowded(alloc: Global, program: &Program<Global>) -> Result<String, AllocError> {
    let mut refused = false;
    for step in 0..128usize {
        let heap = LocalHeap::new(alloc, 128 + 16 * step)?;
        refused = refused_in(alloc, &heap, program) || refused;
        if heap.used() != 0 {
            return word(alloc, "memory is in use");
        }
    }
    yes_or_no(alloc, refused)
}

const HERE: Span = Span { start: 0, end: 1 };

/// The scalars `#0 + 1`.
fn one_more(alloc: Global) -> Result<Vec<Scalar<Global>>, NoMemory> {
    let left = Scalar::Column(HERE, 0);
    let right = Scalar::Literal(HERE, 1);
    let mut scalars = Vec::new(alloc);
    scalars.push(Scalar::binary(alloc, HERE, Operator::Add, left, right)?)?;
    Ok(scalars)
}

/// `select(OF; #0 + 1)` in the place of a relation.
fn put_select(alloc: Global, of: &mut Rel<Global>) -> Result<(), NoMemory> {
    let scalars = one_more(alloc)?;
    let select = Rel::select(alloc, HERE, of.take(), scalars)?;
    put(of, select);
    Ok(())
}

/// `where(OF; #0 = 1)` in the place of a relation.
fn put_where(alloc: Global, of: &mut Rel<Global>) -> Result<(), NoMemory> {
    let left = Scalar::Column(HERE, 0);
    let right = Scalar::Literal(HERE, 1);
    let equal = Cond::Compare(HERE, Comparison::Equal, left, right);
    let filter = Rel::filter(alloc, HERE, of.take(), equal)?;
    put(of, filter);
    Ok(())
}

/// That many selects or wheres over a relation.
fn put_chain(
    alloc: Global,
    relation: &mut Rel<Global>,
    count: u32,
    wheres: bool,
) -> Result<(), NoMemory> {
    for _ in 0..count {
        if wheres {
            put_where(alloc, relation)?;
        } else {
            put_select(alloc, relation)?;
        }
    }
    Ok(())
}

/// The size of the first output's relation; 0 where there is none.
fn size_of(program: &Program<Global>) -> u64 {
    match program.outputs.first() {
        Some(output) => rel_size(&output.relation),
        None => 0,
    }
}

/// The size of the first output's normal form.
fn size_of_normal(alloc: Global, program: Program<Global>) -> Result<u64, Refusal> {
    let normal = normalise(typed(alloc, program)?)?;
    Ok(size_of(normal.program()))
}

/// `input a/1; output a;` with that many selects or wheres over the name.
fn chain(alloc: Global, count: u32, wheres: bool) -> Result<Program<Global>, Refusal> {
    let mut program = parse(alloc, b"input a/1; output a;")?;
    if let Some(output) = program.outputs.first_mut() {
        put_chain(alloc, &mut output.relation, count, wheres)?;
    }
    Ok(program)
}

fn size_of_normal_chain(alloc: Global, count: u32, wheres: bool) -> Result<u64, Refusal> {
    size_of_normal(alloc, chain(alloc, count, wheres)?)
}

/// The size of the normal form of many selects or wheres over one another, as `1000 wheres`. A thousand are higher than a text may be.
pub fn size_of_chain(alloc: Global, text: &str) -> Result<String, AllocError> {
    let (count, form) = text.split_once(' ').unwrap_or((text, ""));
    match size_of_normal_chain(alloc, count.parse().unwrap_or(0), form == "wheres") {
        Ok(size) => format!(in alloc; "{size}"),
        Err(refusal) => refused(alloc, refusal),
    }
}
