//! What a line of `check`, `run` or `follow` with `--schema` names: a schema, the paths of its inputs' files, and a query, read before any CSV file.
//!
//! `begin_run` refuses a query that doesn't go with the schema, by `query_kinds`, and with `--explain` leaves what is said of the columns there,
//! which `write_columns` writes. An `EngineSink` takes the input text of the CSV files for an engine, which gets their records as numbers: only the lines
//! of `every epoch` inputs, where another input has epochs, are written and read. The contract: what `begin_run` gives was read of the files that the line names, and the query goes with the schema; the answer of an
//! `EngineSink` is the query's to all that it took.
#![tactic(auto)]

mod beginning;
mod columns;
mod engine_sink;
mod fault;
mod job;

pub use beginning::{Begun, asked_output, begin_run, listed_fields};
pub use columns::write_columns;
pub use engine_sink::EngineSink;
pub use fault::RunFault;
pub use job::Job;
