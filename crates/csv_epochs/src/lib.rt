//! The epochs of a CSV text as it arrives.
//!
//! The records of a text are grouped by their cell in one column: consecutive records with the same cell are one epoch. A `Splitter` takes the text
//! piece by piece, and hands out each epoch as soon as a record with another cell has come whole: the bytes of the header row, and then those of the
//! epoch's records, which together are a small text of CSV. The contract for the layers above: what was handed out and what is held, one behind the
//! other, is the text that was taken; each epoch is whole records that all have its cell, and the record behind it has another; a text that is refused
//! isn't strict (`csv_strict`). `specs/Cells.antt` says what the cell of a record is, and `specs/Epochs.antt` what an epoch is.
#![tactic(auto)]

mod epoch;
mod laws;
mod lines;
mod open;
mod place;
mod row;
mod splitter;

pub use epoch::{Ending, Epoch, SplitFault};
pub use laws::{law_next_epoch, law_strict};
pub use place::Place;
pub use splitter::Splitter;
