//! The codes of the refusals of a call.

/// A feed, a seal or a close of an input that is already closed.
pub const INPUT_CLOSED: u8 = 31;
/// A feed, a seal or a close of an input that doesn't exist.
pub const UNKNOWN_INPUT: u8 = 32;
/// A fed record that doesn't have the number of fields that its input declares.
pub const WRONG_FIELD_COUNT: u8 = 33;
/// A pick for a worker that has no choice of that number, or for a worker that doesn't exist.
pub const NO_SUCH_EVENT: u8 = 34;
/// A pick for a worker that holds an event, even one that was abandoned.
pub const HOLDS_EVENT: u8 = 35;
/// An event was abandoned, which stops the board for good.
pub const STOPPED: u8 = 37;
/// A seal at epoch 4294967295, the last one.
pub const LAST_EPOCH: u8 = 38;
