//! Trees of texts, under three allocators; which are the same; sizes and depths.

use crate::texts::{refused, word, yes_or_no};
use bumpalo::Bump;
use expr_tree::{Program, same};
use linked_list_allocator::LocalHeap;
use parser::parse;
use record_core::Refusal;
use std::alloc::{AllocError, Allocator, Global};

/// An arena, and a heap of 65,536 bytes.
#[derive(Drop)]
struct Places {
    arena: Bump,
    heap: LocalHeap,
}

impl Places {
    fn new(alloc: Global) -> Result<Places, AllocError> {
        Ok(Places {
            arena: Bump::new(alloc),
            heap: LocalHeap::new(alloc, 65536)?,
        })
    }

    /// Whether nothing lies in the heap, and the arena can be reset.
    fn are_free(&mut self) -> bool {
        self.heap.used() == 0 && self.arena.reset().is_ok()
    }
}

/// Whether a text's tree there is the same.
fn is_read<B: Allocator + Copy>(
    first: &Program<Global>,
    text: &[u8],
    alloc: B,
) -> Result<bool, Refusal> {
    Ok(same(first, &parse(alloc, text)?))
}

/// Whether a copy of a tree is the same as the first.
fn is_copied<A: Allocator, B: Allocator + Copy>(
    first: &Program<Global>,
    of: &Program<A>,
    alloc: B,
) -> Result<bool, Refusal> {
    Ok(same(first, &of.copy_in(alloc)?))
}

/// Whether a copy of a copy in a heap is the same.
fn is_copied_back(
    alloc: Global,
    first: &Program<Global>,
    heap: &LocalHeap,
) -> Result<bool, Refusal> {
    match first.copy_in(heap) {
        Ok(in_heap) => is_copied(first, &in_heap, alloc),
        Err(no_memory) => Err(Refusal::from(no_memory)),
    }
}

/// The same of all of them.
fn are_same(alloc: Global, text: &[u8], places: &Places, others: &Places) -> Result<bool, Refusal> {
    let first = parse(alloc, text)?;
    Ok(
        is_read(&first, text, &places.arena)?
            && is_read(&first, text, &places.heap)?
            && is_copied(&first, &first, alloc)?
            && is_copied(&first, &first, &others.arena)?
            && is_copied(&first, &first, &others.heap)?
            && is_copied_back(alloc, &first, &others.heap)?,
    )
}

/// Whether a text's trees are the same in memory, in an arena and in a heap, and their copies in others, all of which are empty afterwards.
pub fn copies(alloc: Global, text: &[u8]) -> Result<String, AllocError> {
    let mut places = Places::new(alloc)?;
    let mut others = Places::new(alloc)?;
    let answer = are_same(alloc, text, &places, &others);
    if !places.are_free() || !others.are_free() {
        return word(alloc, "memory is in use");
    }
    match answer {
        Ok(answer) => yes_or_no(alloc, answer),
        Err(refusal) => refused(alloc, refusal),
    }
}

/// Whether a heap has no room for a copy.
fn refuses_copy(program: &Program<Global>, heap: &LocalHeap) -> bool {
    program.copy_in(heap).is_err()
}

/// Whether a heap has no room for a text.
fn refuses_text(text: &[u8], heap: &LocalHeap) -> bool {
    parse(heap, text).err() == Some(Refusal::NoMemory)
}

/// Whether a heap of 64 bytes refuses a text and a copy of its tree, and is empty afterwards.
pub fn crowds(alloc: Global, text: &[u8]) -> Result<String, AllocError> {
    let heap = LocalHeap::new(alloc, 64)?;
    match parse(alloc, text) {
        Ok(program) => yes_or_no(
            alloc,
            refuses_copy(&program, &heap) && refuses_text(text, &heap) && heap.used() == 0,
        ),
        Err(refusal) => refused(alloc, refusal),
    }
}

/// Whether the trees of two texts are the same.
fn are_alike(alloc: Global, first: &[u8], second: &[u8]) -> Result<bool, Refusal> {
    Ok(same(&parse(alloc, first)?, &parse(alloc, second)?))
}

pub fn alike(alloc: Global, first: &[u8], second: &[u8]) -> Result<String, AllocError> {
    match are_alike(alloc, first, second) {
        Ok(answer) => yes_or_no(alloc, answer),
        Err(refusal) => refused(alloc, refusal),
    }
}

/// The size and the depth of a text's tree.
pub fn size(alloc: Global, text: &[u8]) -> Result<String, AllocError> {
    match parse(alloc, text) {
        Ok(program) => {
            let (size, depth) = (program.size(), program.depth());
            format!(in alloc; "{size}, {depth} deep")
        }
        Err(refusal) => refused(alloc, refusal),
    }
}
