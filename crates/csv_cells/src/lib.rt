//! Cells of CSV files as numbers, and back.
//!
//! The contract for the layers above: `read_row` finds the numbers that stand for a record's fields, `write_row` the fields that numbers stand for,
//! and in every column a number stands for at most one text. So what was read and is written again is the same, byte for byte. `encode_text` reads a
//! whole CSV text by the rules of crate `csv`, and gives the lines of an input text. The numbers of texts are their places in a dictionary, to which
//! new ones are only added.
#![tactic(auto)]

mod cell;
mod column;
mod encoding;
mod laws;
mod row;

pub use cell::{read_cell, write_cell};
pub use column::{Column, Empty, Kind};
pub use encoding::{TextFault, append_line, encode_text};
pub use laws::{law_one_number, law_read_by_grammar, through_numbers};
pub use row::{RowFault, read_row, write_row};
pub use text_dictionary::Dictionary;
