//! Whether a query goes with a schema, and what its fields stand for by it.
//!
//! `check_schema` finds the tables of a query's inputs and outputs by their names, takes the kinds of the inputs' columns, and finds those of the outputs
//! (`kind_check`), which have to be what the schema says. A constant's number is its place among the constants. The contract for the layers above: it
//! finds just what the definition says (`specs`), so of a query that it passes the answer doesn't depend on the numbers of other texts.
//!
//! Below stand `kind_check`, `schema`, `expr_tree` and what they use.
#![tactic(auto)]

mod checking;
mod tables;

pub use checking::{QueryKinds, check_schema, found_kinds};
pub use tables::OTHER_TABLE;
