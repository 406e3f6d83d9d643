//! What may go wrong in the commands for CSV files: its status, and its one line.
#![tactic(auto)]

mod fault;

pub use fault::{Detail, Fault, WordFault, dictionary_fault, schema_fault, table_fault};
