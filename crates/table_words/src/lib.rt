//! The words of `encode`, `decode` and `kinds`, read by `clap`: what a line asks for. And what the lines of all commands for CSV files have in common.
#![tactic(auto)]

mod line;

pub use line::{
    Asked, DICTIONARY, Decoding, FILES, LineError, Listing, OUTPUT, matches_of, read_words,
    texts_of,
};
