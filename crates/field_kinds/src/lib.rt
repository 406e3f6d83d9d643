//! What the numbers of scalars, aggregates and lists of fields stand for, and what conditions and joins may compare.
//!
//! Each call takes the kinds of the fields of its records, and finds just what `kinds` says, or the first place where kinds don't go together. The
//! kinds of relations and programs are put together of these calls.
//!
//! Below stand `kinds`, `expr_tree`, `record_core` and `semantics`.
#![tactic(auto)]

mod codes;
mod columns;
mod condition;
mod quantity;
mod scalar;

pub use codes::{COMPARED, COMPUTED, JOINED, PUT_TOGETHER, refusal_at};
pub use columns::{copied, group_kinds, joined, may_join, merged, same_kinds, select_kinds};
pub use condition::may_ask;
