//! From a program to its canonical text.
//!
//! A program has a text where it is a source: `is_source` decides that, and `write_program` appends the text, a line for each item.
//! The text is defined as words and the gaps between them (`specs/`): brackets come only where the tree asks for them.
//!
//! The contract for the layers above: the text written reads as the program, spans aside, where it is no longer than a query text
//! may be, and so `parse` gives that program again under any allocator, or is refused for memory (`read_back`). What is read is
//! a source. It uses `expr_tree` with the trees, `semantics`, `record_core`, `lexer` and `grammar` with what a text is,
//! `parser`, which reads it, and `itoa`.
#![tactic(auto)]

mod condition;
mod laws;
mod list;
mod program;
mod push;
mod rank;
mod relation;
mod round_trip;
mod scalar;
mod source;

pub use laws::{read_is_source, written_reads_back};
pub use program::write_program;
pub use round_trip::read_back;
pub use source::is_source;
