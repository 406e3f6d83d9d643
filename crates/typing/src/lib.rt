//! Names, arities and loops of a query, checked.
//!
//! `check` takes a program and gives it back typed, or whole with the first of its faults in the order of the checks: the
//! inputs, the lets, the outputs, each relation from its parts to itself.
//!
//! The contract for the layers above: a `Typed` is well typed, with the arities that it shows. It uses `expr_tree`, whose
//! trees are checked, `semantics`, which says what is well typed, `record_core`, `arrayvec` and `indexmap`; the normaliser and
//! lowering take a `Typed`.
#![tactic(auto)]

mod arities;
mod columns;
pub mod laws;
mod limits;
mod names;
mod program;
mod refusals;
mod relation;
mod typed;

pub use arities::{Arities, arities_at_fault};
pub use limits::{MAX_INPUTS, MAX_LOOPS, MAX_OUTPUTS, MAX_TURNS};
pub use program::check;
pub use typed::{OutputArities, Typed};
