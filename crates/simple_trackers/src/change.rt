//! Changes of the active pointstamps, and questions.

use path_summary::Pointstamp;

/// A change of the active pointstamps, or the question whether a pointstamp is in the frontier.
#[derive(Drop)]
pub enum Change {
    Add(Pointstamp),
    Remove(Pointstamp),
    Ask(Pointstamp),
}
