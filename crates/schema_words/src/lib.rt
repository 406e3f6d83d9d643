//! The words of `check`, `run` and `follow` with the option `--schema`, read by `clap`: what a line asks for.
#![tactic(auto)]

mod check_line;
mod run_line;
mod schema_line;

pub use check_line::{TableCheck, read_check_words};
pub use run_line::{TableRun, read_run_words};
pub use schema_line::names_option;
