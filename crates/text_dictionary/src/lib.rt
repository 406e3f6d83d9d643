//! The dictionary of texts: different texts, each with its place, from 0, as its number.
//!
//! The contract for the layers above: a text has at most one number, and a number at most one text. New texts go to the end, and none moves.
#![tactic(auto)]

mod dictionary;

pub use dictionary::Dictionary;
