//! What the cells of a column are.

/// What a column's cells spell.
#[derive(Clone, Copy, PartialEq, Eq)]
pub enum Kind {
    /// A whole number from -9223372036854775808 to 9223372036854775807, as `-7`.
    Int,
    /// A number with that many digits after the point, 1 to 18, as `-12.50` with 2. It stands as a multiple of its last digit's worth.
    Decimal(u8),
    /// A day from `0000-01-01` to `9999-12-31`. It stands as the number of days since 1970-01-01.
    Date,
    /// A time of day, as `09:42:19`. It stands as the number of seconds since midnight.
    Time,
    /// Any text. It stands as its place in the dictionary.
    Text,
}

/// What a cell with no byte is.
#[derive(Clone, Copy)]
pub enum Empty {
    /// It is refused.
    Refused,
    /// It is a text as any other. Only in a column of texts it is ever read.
    Kept,
    /// It stands as this number, for which then no other cell stands.
    Number(i64),
}

/// How a column's cells are read.
#[derive(Clone, Copy)]
pub struct Column {
    pub kind: Kind,
    pub empty: Empty,
}
