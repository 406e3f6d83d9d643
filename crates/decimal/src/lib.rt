//! Whole numbers in their one decimal spelling, the one in which they print.
//!
//! The contract for the layers above: a text is read as a number exactly if printing that number gives the text, byte for byte. So `01`, `-0`, `+1`
//! and the empty text aren't numbers. Query texts, through the lexer, and input texts use it.
#![tactic(auto)]

mod numerals;

pub use numerals::{number, signed_number};
