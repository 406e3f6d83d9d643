//! Texts read and written by several threads, by `rayon`, with what one thread would read and write.
//!
//! | Call | What it does | Fails |
//! |---|---|---|
//! | `read_by_threads` | reads an input text, in parts side by side where it is long | the first faulty line, or memory |
//! | `ParallelSorter` | sorts and formats the records of an epoch, by several threads where there are many | memory |
//!
//! Where a thread can't be started, others do its work. Below are `collector`, which reads parts and puts them together, and `sample_sort`, which
//! sorts and formats partitions.
#![tactic(auto)]

mod reading;
mod sorting;

pub use reading::read_by_threads;
pub use sorting::ParallelSorter;
