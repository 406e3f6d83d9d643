//! The commands, from bytes to bytes. Each reads its texts, does what it is for, and writes:
//!
//! | Call | Reads | Writes |
//! |---|---|---|
//! | `run` | a query and an input | the answer, and if asked what each vertex did |
//! | `InMemory` | the same, in memory, the input as lines and records | nothing: the answer is given back |
//! | `follow_query` | the same | the answer, while the input still comes |
//! | `check_query`, `check_input` | a query, and an input too | the query's arities |
//! | `graph_query` | a query | its graph, which crate `compile` makes |
//! | `format_query` | a query | its canonical form |
//! | `script_query` | a query | its script of SQL |
//! | `replay_schedule` | a query and a schedule | what the schedule's lines print |
//!
//! The contract: where `run` answers Ok, what was written is the output text of what the query means on the epochs of the input text. It holds of
//! texts whose bytes are known, and of any others for what their readers have handed over. What was read is left in `Texts`, for what is said of a
//! fault.
#![tactic(auto)]

mod checking;
mod counting;
mod fault;
mod following;
mod formatting;
mod graph_answer;
mod graphing;
mod in_memory;
mod input_check;
mod intake;
mod laws;
mod reading;
mod replaying;
mod run_options;
mod running;
mod scripting;
mod streams;
mod writing;

pub use checking::check_query;
pub use diagnostics::{Fault, Texts};
pub use execution::{Gate, NoGate, Telling, Watcher};
pub use following::follow_query;
pub use formatting::format_query;
pub use graphing::graph_query;
pub use in_memory::InMemory;
pub use input_check::check_input;
pub use laws::{law_followed, law_one_answer, law_replayed};
pub use replaying::replay_schedule;
pub use run_options::{FollowOptions, RunOptions};
pub use running::run;
pub use schedule::ViewKind;
pub use scripting::script_query;
pub use streams::Streams;
