//! The command line: its words, what they ask for, and why they are refused.
//!
//! `options` reads the words. The contract for the layer above: the options are what the matches of the words hold, by clap's own
//! definition of what matches, and of two texts at most one is standard input. Of Loom it uses no crate, only `clap` and `thiserror`; the console
//! does what the options ask for.
#![tactic(auto)]

mod command;
mod first_epoch;
mod heap_size;
mod line_fault;
mod line_options;
mod query;
mod script_form;
mod standard_input;
mod unknown_words;
mod usage;
mod usages;
mod worker_count;

pub use command::{flag_of, options, query_of, text_of, workers_of};
pub use first_epoch::FirstEpoch;
pub use heap_size::HeapSize;
pub use line_fault::LineFault;
pub use line_options::{GraphForm, Options};
pub use query::Query;
pub use script_form::ScriptForm;
pub use usage::{Form, Parameter, Usage, with_usages};
pub use usages::{EXPLAIN, INLINE, QUERY, WORKERS};
pub use worker_count::Workers;
