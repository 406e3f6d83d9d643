//! Where the values of the fields of a record come from, and what the forms of a query make of that.
//!
//! Each call takes the origins of the fields that a form is about, and gives those of the fields that it makes. `settled` gives those of a loop,
//! whose body is looked at once.
//!
//! Below stand `expr_tree` and `semantics`.
#![tactic(auto)]

mod fields;
mod loops;
mod source;
mod sources;

pub use fields::{columns, copied_fields, group_origins, joined, merged, select_origins};
pub use loops::settled;
pub use source::{Origin, Source};
