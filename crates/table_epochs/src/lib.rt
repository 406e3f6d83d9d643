//! The epochs of a CSV text that arrives: the rows of each epoch's answer, once it is complete.
//!
//! `follow_text` reads a text piece by piece. `csv_epochs` hands out its epochs, and each is answered by itself as `run --schema` answers files, by
//! the same calls, with the other files as they are: an epoch's rows depend on no other epoch, but for their order, which is that of the texts' numbers.
//!
//! The contract: at its end a CSV file of the rows of each epoch was written, under the epoch's number; at a fault the rows of the first epochs, or
//! nothing; where the writer failed, a beginning of these. No value of an epoch is less than the one before.
#![tactic(auto)]

mod epoch_answer;
mod following;
mod numbering;

pub use epoch_answer::{Following, Stream};
pub use following::{check_files, follow_end, follow_text};
