//! Where the values of each field of a query's outputs come from.
//!
//! `program_origins` says of each field of each output from which columns of the inputs its values are taken unchanged, or that they are computed. The laws
//! say what that means: what stands in the field stands in one of those columns of some record of that input.
//!
//! Below stand `field_origins`, `expr_tree`, `record_core` and `semantics`.
#![tactic(auto)]

pub mod laws;
mod program;
mod relation;
mod scope;

pub use field_origins::{Origin, Source};
pub use program::program_origins;
