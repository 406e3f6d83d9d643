//! The dispatcher that a program calls with the words of its line.
//!
//! `answer` reads the words, opens the texts that they name, does what they ask for by a call of `commands`, reports a fault, and gives the status. Of
//! what the texts' readers have handed over it leaves the transcripts. Only programs use this crate.
#![tactic(auto)]

mod disk;
mod dispatch;
mod laws;
mod named_texts;
mod on_line;
mod transcripts;

pub use collector::Sources;
pub use command_line::{FirstEpoch, GraphForm, HeapSize, LineFault, Options, Query, Workers};
pub use commands::{
    Fault, FollowOptions, Gate, InMemory, NoGate, RunOptions, Streams, Telling, Texts, ViewKind,
    Watcher, check_input, check_query, follow_query, format_query, graph_query, replay_schedule,
    run, script_query,
};
pub use compile::{Arithmetic, CompileFault, Form, Request, compile, law_one_graph};
pub use disk::{Disk, DiskText};
pub use dispatch::{answer, refuse};
pub use laws::law_answered;
pub use transcripts::Transcripts;
