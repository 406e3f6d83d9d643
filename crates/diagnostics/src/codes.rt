//! The code of the one refusal of a query that has no place.

/// A graph of more than 4096 vertices.
pub const TOO_MANY_VERTICES: u8 = 21;
