//! The commands `check --schema` and `run --schema`.
//!
//! A program asks `is_table_check` whether a line is one of `check --schema`, and then calls `answer_table_check`. It writes what the query's fields stand
//! for. For `run --schema` these are `is_table_run` and `answer_table_run`: CSV files in, and a CSV file out. It does in memory what `encode`, `run` and
//! `decode` do in turn, by the same calls of `table_commands` and `tables`, and refuses what `table_queries` refuses before any CSV file. The engine takes
//! the rows of the files as numbers, block by block as they are read. Neither the files nor a text of them is held, but for the lines of `every epoch`
//! inputs where another input has epochs.
//!
//! The contract: at status 0 standard output took a CSV file of the rows of the query's answer to the input text of the CSV files. At any
//! other but 6 it is as it was. That a dictionary's file stays as it was then, and that it is kept at status 0, is only tested.
#![tactic(auto)]

mod answering;
mod checking;
mod running;

pub use answering::{answer_table_run, is_table_run, report_run};
pub use checking::{answer_table_check, is_table_check};
pub use running::{run_job, run_tables};
