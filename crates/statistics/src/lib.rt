//! Shows where the work of a run went: what each vertex computed, received and sent, by worker.
//!
//! A run is counted by `driver::Tally`, whose contract says what its numbers are. `Statistics` adds what is known before the run: the graph, and what
//! is fed, as the engine cuts it; it gives both as lines, or in a drawing. The lines have the counters' numbers; of what is fed, and of messages and
//! epochs, no clause says that the numbers are right.
//!
//! Built on `driver`, `collector`, `graph_text` and the crates below them; `commands` writes the text.
#![tactic(auto)]

mod fed;
mod lines;

pub use fed::Statistics;
