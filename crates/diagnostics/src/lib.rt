//! Faults, and how they are reported: a line, the place in the text, what is wrong there, and what a refusal's number means.
//!
//! A `Fault` has a code, with the bytes or the line where it was found. `explain_fault` shows that place in the texts that were read, and
//! says what is wrong there with the names and the numbers involved; `write_path_hint` helps where something else stands for a path;
//! `write_warnings` and `write_early` tell what is accepted, and most likely a mistake;
//! `row_of_word` finds the table's row of a number, and `write_explanation` writes it. The contract for the layer above: a fault's status,
//! and that the text of a row is written whole, or a beginning of it where the writer failed, or nothing. This crate uses the parser and
//! typing, which read a query's text once more, the parser also to try which words can come at a place; the table of refusals, and the
//! collector's writer; and below these `grammar`, `expr_tree`, `decimal` and `record_core`. `Plain` and `Word` show what a command line has,
//! with escapes for what might disturb a terminal.
#![tactic(auto)]

mod bracket;
mod codes;
mod display;
mod excerpt;
mod expected;
mod explain;
mod explanation;
mod fault;
mod hint;
mod input_fault;
mod input_hint;
mod names;
mod place;
mod query_fault;
mod read_texts;
mod reason;
mod rules;
mod schedule_fault;
mod warnings;
mod words;

pub use display::{Plain, Word};
pub use explain::{TextNames, explain_fault};
pub use explanation::{row_of_word, write_explanation};
pub use fault::Fault;
pub use read_texts::Texts;
pub use reason::{write_path_hint, write_told};
pub use warnings::{Doubt, Unused, Warnings, write_early, write_warnings};
