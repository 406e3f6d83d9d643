//! Where the values of a field come from.

/// A column of an input.
#[derive(Clone, Copy)]
pub struct Source {
    /// The input's number in the program's order, from 0.
    pub input: u64,
    /// The column's number, from 0.
    pub column: u64,
}

/// Where the values of a field come from.
#[derive(Drop)]
pub enum Origin {
    /// They are computed.
    Computed,
    /// Each is taken unchanged from one of these columns, of which none is there twice.
    Taken(Vec<Source>),
}
