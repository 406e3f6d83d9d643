//! The board: the core state of a run. It has the inputs, the workers' mailboxes, requests and shards, what was emitted, and each
//! worker's view of the active pointstamps. It computes nothing: a claim hands out an event, a worker computes it elsewhere (`events`),
//! and a commit takes it back.
//!
//! The contract for the layers above:
//!
//! - A call that changes a board is one step of the engine's definition (`machine`), allowed and taken in whatever world the board
//!   shows (`specs/Kept.antt`, `Goes`); or it is refused, and the board is unchanged.
//! - At every moment, for every epoch and each output, what was emitted there is part of what the program means there on what was fed,
//!   and all of it once the epoch has passed at that output (`Board::law_headline`, `specs/Promises.antt`). That holds for every
//!   well-typed program, every number of workers and every order of the calls. A `Look` keeps it while the board goes on.
//! - A view may be late (`views`), but it never lets through what the active pointstamps hold back. The board reports an epoch as passed
//!   only when it has passed, and exactly then if nothing waits for the first worker. A worker is idle only when its view is up to date.
//!   What has passed stays passed, and what was reported so is reported so from then on (`specs/Lateness.antt`, `KeepsCalled`). On a drained
//!   board every epoch has passed (`Board::law_drained`).
//! - A claim lets go of what the event's shard keeps of one time that has passed at its vertex, as the worker sees it. So what is kept is
//!   that of the times that can still come; a shard shows what the world says at each of those (`specs/Showing.antt`, `ShowsIn`).
//! - An event is known by its token (`tokens`): only an event that this board handed out can come back to it, and only once.
//!
//! A worker is in one of three states:
//!
//! | State | Begins with | Ends with |
//! |---|---|---|
//! | free | the opening, a commit | a claim or a pick |
//! | holding an event | a claim or a pick | a commit, or abandoning the event |
//! | lost | abandoning its event | never: the board is stopped |
//!
//! Calls that change a board, and who makes them:
//!
//! | Call | By | What it does | Refused, in this order |
//! |---|---|---|---|
//! | `feed` | the owner of the input | records come at the open epoch | stopped, unknown, closed, fields, memory |
//! | `feed_cut` | the owner of the input | the same for records that are already cut into messages; computes nothing | the same |
//! | `seal` | the owner of the input | the open epoch ends, the next is open | stopped, unknown, closed, last epoch, memory |
//! | `close` | the owner of the input | no more records come | stopped, unknown, closed |
//! | `merge`, `gather` | a worker | the records of one message, or of up to 64, join the first's | answers no: stopped, unknown, not free, memory, none alike |
//! | `claim` | a worker | hands out an event that the worker may process, messages before notifications; one that sees none catches up first | answers stopped, busy, drained, idle |
//! | `pick` | a replay | hands out the worker's event of that number | stopped, holding, no such event |
//! | `commit` | the holder of the computed event | ends it: shard, messages, request and records go to their places | memory: the event comes back whole |
//! | `abandon`, `abandon_done` | the holder of the event | drops the event, and the board stops | never |
//! | `catch_up` | anyone | a worker's view takes in all that waits for it | never; does nothing if nothing waits |
//! | `apply` | anyone | it takes in one batch | the same |
//! | `passed_count` | anyone | counts the epochs that have passed, and keeps the number | never |
//!
//! `look`, `emitted`, `fed`, `passed`, `known_passed` and the other calls read, and anyone may make them.
//!
//! A stopped board still accepts commits. An abandoned event counts as active for good, so the epochs that it could touch never pass.
//! Only `feed`, `feed_cut`, `seal`, `merge`, `gather`, `commit` and `look` take memory, and they take it before anything changes.
//!
//! Each feed, seal, close, merge and commit posts its changes of the active pointstamps to the views as one batch. Room for it is reserved
//! before anything changes, along with room for the closes of all inputs, so that a close takes no memory.
//!
//! Built on `events`, `views` and the crates below them, and on `arrayvec`. A board has no lock: one caller at a time.
#![tactic(auto)]

mod board;
mod choices;
mod claimed;
mod codes;
mod delivery;
mod emitted;
mod epochs;
mod frontier;
mod gathering;
mod inputs;
mod lag;
mod look;
mod merging;
mod new_boards;
mod new_parts;
mod order;
mod passed;
mod posting;
mod refusal;
mod sent;
mod slot;
mod state;
mod worker;
mod worker_set;

pub use board::Board;
pub use claimed::{Claimed, CommitRefusal};
pub use codes::WRONG_FIELD_COUNT;
pub use events::{Done, Gate, Work};
pub use gathering::gather;
pub use look::{Look, OutputLook};
pub use refusal::StepRefusal;
pub use sent::{HEAVY, Sent};
pub use views::Views;
pub use worker_set::WorkerSet;
