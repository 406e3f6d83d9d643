//! From a text to the program that it is.
//!
//! The text is lexed whole, and its tokens are then looked at from left to right with one token ahead: a function for each
//! class of phrases takes what a phrase needs from the front of the tokens. The trees lie in the caller's allocator.
//!
//! The contract for the layers above: `parse` is `Ok` only with a program that the text is (`Reads` of crate `grammar`, where no
//! text is two programs), and a numbered refusal comes only at a text that is none, with the code that says why. It uses
//! `lexer`, `grammar`, `expr_tree` and `record_core`; typing checks what is read here.
#![tactic(auto)]

mod condition;
mod fault;
mod item;
mod list;
mod output;
mod program;
mod refusals;
mod relation;
mod scalar;
mod scan;

pub use program::parse;
pub use refusals::UNEXPECTED;
