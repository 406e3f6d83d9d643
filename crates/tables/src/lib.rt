//! CSV files as an input text, and an answer as a CSV file, by a schema.
//!
//! The contract for the layers above: `encode` gives the lines of exactly the numbers that stand for a file's records, with a line `epoch` before
//! each new value of the column by which the table has its epochs. Lines go to a `LineSink` as a file is read, so at a refusal some may have gone. A file
//! is refused only for what a refusal says of it: its text by `csv_strict`, its header row, or a cell. The texts of a schema's constants are numbered
//! before any cell. `decode` refuses an answer only at the first line that is none of it.
#![tactic(auto)]

mod dictionary_file;
mod encoding;
mod file;
mod header;
mod line_sink;
mod records;
mod refusal;

pub use csv_answers::{Fault, TableRefusal, decode, law_refused_answer};
pub use dictionary_file::{dictionary_text, law_read_again, read_dictionary};
pub use encoding::{
    MemoryFiles, TableFiles, begins_with_constants, encode, encode_texts, has_epochs,
    law_constants, law_refused_input,
};
pub use line_sink::{LineSink, SinkFault};
pub use refusal::{EncodeFault, EncodeRefusal, FileFault};
