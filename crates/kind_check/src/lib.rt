//! Whether a query makes sense of what its numbers stand for.
//!
//! `check_kinds` takes the kinds of the fields of each input, and finds those of each output, or the first place where kinds don't go together: where a
//! text is added or ordered, say, or a day is joined with a text. The contract for the layers above: it finds just what `kinds` says, so of a query that
//! it passes the answer doesn't depend on which numbers stand for which texts (`kinds::laws::law_renaming`).
//!
//! Below stand `field_kinds`, `kinds`, `expr_tree`, `record_core` and `semantics`.
#![tactic(auto)]

mod program;
mod relation;
mod scope;

pub use field_kinds::{COMPARED, COMPUTED, JOINED, PUT_TOGETHER, merged, same_kinds};
pub use program::check_kinds;
