//! The command `follow --schema`: a CSV file that arrives, and the rows of each of its epochs once it is complete.
//!
//! A program asks `is_table_follow` whether a line is one, and then calls `answer_table_follow`. It reads the file of the input that has an epoch
//! for each value of a column piece by piece, and the other files before. `csv_epochs` hands out its epochs, and each is answered by itself as
//! `run --schema` answers files, by the same calls: an epoch's rows depend on no other epoch, but for their order, which is that of the texts' numbers.
//!
//! The contract: at status 0 standard output took a CSV file with the rows of each epoch: those of the query's answer to the files, with the epoch's
//! records in the place of the file that arrives, under the epoch's number; no value of an epoch is less than the one before. At a fault it took the
//! rows of the first epochs, or nothing; where the writer failed, a beginning of these. That the whole file is that of `run --schema` is only tested.
#![tactic(auto)]

mod answering;
mod files;
mod stream;

pub use answering::{answer_table_follow, is_table_follow};
pub use files::follow_tables;
