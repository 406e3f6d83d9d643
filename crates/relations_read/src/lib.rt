//! Which relations a query reads at a place of its text: those that the smallest relation there is made of, or an output's where it is named.
//!
//! `reading_at` gives them as the outputs of a program, so that what is found of a query's outputs is found of them too. It is for explanations: no
//! clause says what it gives.
#![tactic(auto)]

mod place;

pub use place::{Part, Reading, reading_at};
