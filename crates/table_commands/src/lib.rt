//! The commands `encode`, `decode` and `kinds`, from words to what is written.
//!
//! A program asks `is_of_tables` whether a line is of one of these commands, and then calls `answer_tables`; all other lines are `console`'s. At a
//! fault nothing is written to standard output, or of an input that is to have an end mark a text that doesn't end with it, unless the writer or the
//! dictionary's file failed.
#![tactic(auto)]

mod answering;
mod decoding;
mod encoding;
mod input_writer;
mod listing;

pub use answering::{answer_tables, is_of_tables, refuse, report};
pub use decoding::output_of;
pub use encoding::{InputFault, append_input};
pub use table_files::{
    DiskDrafts, Draft, Drafts, Fault, WordFault, begin_dictionary, encoding_dictionary, grown_text,
    is_input_twice, keep_dictionary, paths_of, read_file, schema_of, table_fault, write_with,
};
