//! What vertices do to times.

/// No change, into a loop, out of it, or to its next turn.
#[derive(Clone, Copy, PartialEq, Eq)]
pub enum Action {
    Stay,
    Enter,
    Leave,
    Next,
}
