//! What the numbers of a query's records stand for: texts and quantities.
//!
//! `program_kinds` says of each output's fields which kind they have, by those of the inputs, if what the query computes makes sense: it adds no texts and
//! orders none, and doesn't join a day with a text. The law says what that is good for: of such a query the answer doesn't depend on which numbers stand
//! for which texts.
#![tactic(auto)]

mod kind;
pub mod laws;

pub use kind::{Kind, Quantity};
