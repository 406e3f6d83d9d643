//! The limits of the language that a check keeps; of a record's fields it is `record_core::MAX_FIELDS`.

/// The inputs of a query, at most.
pub const MAX_INPUTS: usize = 16;

/// The outputs of a query, at most.
pub const MAX_OUTPUTS: usize = 16;

/// The turns of one loop, at most.
pub const MAX_TURNS: u64 = 65535;

/// The loops inside one another, at most.
pub const MAX_LOOPS: u32 = 16;
