//! What a number stands for.

/// What a number counts or measures.
#[derive(Clone, Copy)]
pub enum Quantity {
    /// A whole number.
    Whole,
    /// A number with that many digits after the point, as a multiple of its last digit's worth.
    Decimal(u8),
    /// A day.
    Date,
    /// A time of day, in seconds.
    Time,
    /// A number that the query gives. It may stand for any quantity.
    Bare,
}

/// What a field of a record stands for.
#[derive(Clone, Copy)]
pub enum Kind {
    /// A text, by its place in a dictionary.
    Text,
    /// A quantity.
    Number(Quantity),
}
