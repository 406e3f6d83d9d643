//! The trees of a query, under the caller's allocator.
//!
//! Nodes carry the place that they were read from. Children lie in boxes and vectors of the tree's own allocator `A`, any
//! allocator that is `Copy`. Contracts see a tree as plain data with spans (`specs/`), whatever its allocator, and its meaning is
//! that of the query without spans (crate `semantics`).
//!
//! The contract for the layers above: a tree's value is the same under every allocator, and scalars and conditions evaluate to
//! their meaning. Below stand `record_core` and `semantics`; the parser makes trees, typing checks them, the normaliser rewrites
//! them, lowering reads them.
#![tactic(auto)]

mod condition;
mod copy;
mod depth;
mod evaluation;
mod program;
mod relation;
mod sameness;
mod scalar;
mod size;

pub use condition::{Comparison, Cond, CondParts, Connective};
pub use copy::{copy_cond, copy_rel, copy_scalar, copy_scalars, copy_values};
pub use depth::{cond_depth, rel_depth, scalar_depth};
pub use evaluation::{eval_scalar, holds, negated, operate};
pub use program::{Input, Let, Output, Program};
pub use relation::{Agg, Column, LoopForm, Pair, Rel, RelParts, SetOperator};
pub use sameness::{
    same, same_aggs, same_columns, same_cond, same_pairs, same_rel, same_scalar, same_scalars,
};
pub use scalar::{Operator, Scalar, ScalarParts};
pub use size::{cond_size, rel_size, scalar_size};
