//! The text formats: reads the input text into epochs, and writes the output text.
//!
//! Built on `record_core`, `semantics`, `decimal`, `rows` and `itoa`; it knows nothing of graphs or of the engine. The console above reads bytes,
//! runs the query over the epochs of `read_input`, and writes the results with `write_epochs`. The contract for it: epochs and bytes are related by
//! the text formats of `specs/`, and a refusal names the first faulty line. An `InputReader` reads an input that comes piece by piece, as lines or as the
//! numbers of records, with the same contract. A `Sorter` sorts the records of an epoch: `Alone` in the caller's thread,
//! or one of a crate above, which may give each `Partition` to a thread.
#![tactic(auto)]

mod bytes;
mod codes;
mod cutting;
mod draft;
mod end_mark;
mod epochs;
mod first_line;
mod input_reader;
mod input_records;
mod laws;
mod line;
mod number;
mod output;
mod partition;
mod piecewise;
mod quick;
mod reading;
mod recorded;
mod refusal;
mod sameness;
mod sorter;
mod sources;
mod splitting;
mod trace;
mod transcript;
mod watched;
mod writing;

pub use bytes::{ReadFault, read_all, read_at_most};
pub use codes::{BAD_NUMBER, MALFORMED, NO_LINE_FEED};
pub use cutting::cut_lines;
pub use end_mark::Marked;
pub use epochs::Epochs;
pub use first_line::{Stop, next_line};
pub use input_reader::InputReader;
pub use laws::{law_one_answer, law_one_reading};
pub use line::{Line, find_input, first_word, is_word, read_fields, rest_is_filled};
pub use number::Number;
pub use output::{OutFault, OutputEpochs, push_partition, push_sorted, write_epochs};
pub use partition::Partition;
pub use piecewise::push_row_line;
pub use reading::{join_parts, read_input, read_part};
pub use recorded::Recorded;
pub use refusal::{Fault, InputRefusal};
pub use sameness::same_batches;
pub use sorter::{Alone, Sorter};
pub use sources::Sources;
pub use splitting::{around, find};
pub use trace::Trace;
pub use transcript::{Opened, Transcript, open_marked, open_named};
pub use watched::Watched;
pub use writing::{Broken, put};
