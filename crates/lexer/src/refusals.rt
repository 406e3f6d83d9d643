//! The codes of the refusals, with the place of each.

/// A byte that begins no token, or a `#` without a digit, or a `!` without a `=` directly after it. Its place is the byte.
pub const NO_TOKEN: u8 = 1;
/// A number with a leading zero or above 9223372036854775807. Its place is the whole run of digits, with the `#` of a column.
pub const BAD_NUMBER: u8 = 2;
/// A name of more than 32 bytes. Its place is the whole run of name bytes.
pub const NAME_TOO_LONG: u8 = 3;
/// A text of more than 1,048,576 bytes. Its place is the empty one at 1048576.
pub const TEXT_TOO_LONG: u8 = 6;
