//! The normaliser: a typed query rewritten to one to which no rule applies.
//!
//! The contract for the layers above: `normalise` gives the normal form that the rules lead to, and a query has one alone. It has the same
//! inputs, the same arities and the same meaning, is no larger, nothing is left to rewrite in it, and each let is reached. Nodes are rewritten
//! from the leaves up and keep their boxes: memory is taken only to join two conditions, and for the lets that are kept and the names that
//! they use. Each rule looks at a node and what is right below it, and each use of a rule takes a node away; only scalars that take
//! the place of a column are looked at again, where the select that they make meets a further one.
//!
//! `add_free` tells which names a relation takes from outside.
//!
//! It uses `typing`, whose typed queries are taken and given, `expr_tree`, `record_core`, and `semantics`, which says what the rules
//! are. Lowering takes a `Typed`, normalised or not.
#![tactic(auto)]

mod columns;
mod names;
mod program;
mod relation;
mod replacement;
mod scalars;

pub use names::{NameSet, add_free, add_free_in_outputs};
pub use program::normalise;
