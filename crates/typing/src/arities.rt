//! The numbers of fields at the place of a refusal, for an explanation.

use crate::names::Names;
use crate::program::arities_in;
use expr_tree::Program;
use std::alloc::{Allocator, Global};

/// The numbers of fields that a refusal is about.
#[derive(Clone, Copy)]
pub enum Arities {
    /// Of the relation that hasn't the column; or of the input or the form that has 0 fields, or over 16.
    One(u64),
    /// Of the two relations of a `concat`, an `except` or an `intersect`; or of a loop's start and its body.
    Two(u64, u64),
}

/// The numbers of fields that the refusal of `check` is about, where its code is 13 to 16. `None` for other refusals, and where
/// there is no memory. It takes the time of a check.
pub fn arities_at_fault<A: Allocator>(alloc: Global, program: &Program<A>) -> Option<Arities> {
    let mut names = Names::new(alloc);
    match arities_in(alloc, &mut names, program) {
        Ok(_arities) => None,
        Err(_refusal) => names.about(),
    }
}
