//! What vertices with parameters compute from a batch: the values of a select, the condition of a where, the aggregates of a group.
//!
//! The contract for the layers above: the clauses of each type's functions say what they compute, in the words of the definitions (`semantics`).
//! Nothing here keeps anything from one batch to the next; the shards of vertices do. Built on `semantics`, `expr_tree`, `rows`, `record_core` and
//! `arrayvec`.
#![tactic(auto)]

mod determined;
mod filter;
mod group;
mod select;

pub use filter::Where;
pub use group::{Group, Numbers};
pub use select::Select;
