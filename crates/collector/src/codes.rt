//! The codes of the refusals of a line, whose place is the line's number.

/// `a 1` before the first `epoch`.
pub const NO_EPOCH: u8 = 41;
/// `c 1` where no input is named `c`.
pub const UNKNOWN_INPUT: u8 = 42;
/// A last line without line feed.
pub const NO_LINE_FEED: u8 = 43;
/// `a 01`, `a +1`, `a x`: a word that must be a number, and isn't one in its printed form.
pub const BAD_NUMBER: u8 = 44;
/// `a 1 2` where the input `a` has one field.
pub const WRONG_FIELDS: u8 = 45;
/// A line that isn't well formed: `a  1`, `a 1 ` or an empty line.
pub const MALFORMED: u8 = 46;
/// `epoch` for the 4,294,967,296th time.
pub const TOO_MANY_EPOCHS: u8 = 47;
