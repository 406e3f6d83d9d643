//! The inputs that a query declares.

use crate::name::Name;

/// An input of a query: its name, and the number of fields of its records, 1 to 16.
#[derive(Drop)]
pub struct DeclaredInput {
    pub name: Name,
    pub arity: u64,
}
