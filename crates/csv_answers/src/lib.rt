//! An answer as a CSV file, by a schema.
//!
//! The contract for the layers above: `decode` writes a header row, and the records of one output in the answer's order, and refuses an answer only
//! at the first line that is none of it. A file is written record by record: between `new_file` and `finish` the text is exactly that of the records
//! so far (`IsFile`). `Fault` says what is wrong with a CSV file that is read, too.
#![tactic(auto)]

mod decoding;
mod refusal;
mod writing;

pub use decoding::{decode, law_refused_answer};
pub use refusal::{Fault, TableRefusal};
pub use writing::{finish, new_file, write_cells};
