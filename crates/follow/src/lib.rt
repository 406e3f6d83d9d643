//! Answers while the input still comes.
//!
//! `follow` reads an input text piece by piece. It feeds each record as its line arrives, and seals every input at the next line `epoch`. It writes a
//! line for each record that is emitted for the first incomplete epoch, and a line that says that the epoch is complete once it has passed at every
//! output. The contract for the layers above is `Follows` of `specs/`: what was written is an answer to the lines that were read. The lines of a
//! complete epoch are its whole answer, and those of the next one are part of what is meant.
//!
//! A board takes about 16,384 lines. At the next epoch, once all epochs before it are complete, a new board takes its place: on the old board no
//! active pointstamp is left that could result in a record. So memory holds those lines and one epoch, however long the input is.
//!
//! One thread reads, claims and ends events, and writes. With several workers, events that may have many rows are computed by a thread each. It
//! works until there is nothing to do before it reads more. Built on `driver`, which claims and ends events, on `alone`, which defines when a board is
//! at rest, on `collector`, which reads lines, and on the crates below them.
#![tactic(auto)]

mod answering;
mod batches;
mod following;
mod intake;
mod line_stop;
mod line_texts;
mod numbering;
mod outcome;
mod position;
mod renewing;
mod reporting;
mod rounds;
mod slot;
mod worker_count;

pub use following::{Manner, follow};
pub use line_stop::law_longest_line;
pub use numbering::FirstEpoch;
pub use outcome::Ending;
pub use worker_count::WorkerCount;
