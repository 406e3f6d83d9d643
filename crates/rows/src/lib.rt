//! Rows of numbers, kept flat: the records of a message, and the states that are searched by rows.
//!
//! The contract for the layers above: a `Batch` is seen as its list of records with their repeats, which isn't empty; it keeps the
//! different ones, each with a count, and is shared without being copied. `Rows` is a list of rows while it is built, and
//! `CountedRows` one of rows with counts. A `RowSet` is a list of different rows and says whether a row is new; a `Tally` counts
//! them too. A `RowIndex` is a list of rows and finds those whose key columns equal a given row's. `Lists` are lists of one length,
//! by their place. A call costs what comes in and what goes out, never what is stored, and a refused one changes nothing unless it
//! says so.
//!
//! Built on `record_core` and `semantics`. Shards and the exchange between workers keep their records so.
#![tactic(auto)]

mod batch;
mod builder;
mod chains;
mod columns;
mod counted;
mod counts_by_place;
mod different;
mod fault;
mod index;
mod lists;
mod numbers;
mod set;
mod tally;

pub use batch::Batch;
pub use builder::{MAX_ARITY, Rows};
pub use columns::field;
pub use counted::{CountedRows, MAX_COUNT};
pub use fault::WorkFault;
pub use index::RowIndex;
pub use lists::Lists;
pub use set::RowSet;
pub use tally::Tally;
