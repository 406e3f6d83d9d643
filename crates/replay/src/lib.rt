//! Runs schedules, line by line, on a board.
//!
//! `replay` does what the lines of a schedule say, one after another in the caller's thread, so that any interleaving of workers can be repeated. It
//! builds the text of what they print. The contract for the layers above is `Replays` of `specs/`. From whatever world the board shows, each line
//! does one of these: it takes the engine's step that it names; or it is refused with a code, and changes nothing; or it abandons the event that it
//! took, since a count would be too large; or it prints whether an epoch has passed, and its answer so far, which keeps the main promise.
//!
//! If each worker has its own view, a line can also let one worker apply what another posted; what a worker sees and may take then depends on what it
//! has applied. If they share one view (`Direct`), it depends on the board alone.
//!
//! Built on `driver`, which computes, commits and abandons events, on `schedule`, which reads the texts, on `collector`, and on the crates below them.
//! The console reads both files and writes the text.
#![tactic(auto)]

mod answer;
mod hand;
mod input_lines;
mod refusal;
mod replaying;
mod schedule_answer;
mod worker_lines;

pub use replaying::replay;
pub use schedule_answer::replay_text;
