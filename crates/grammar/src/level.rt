//! How tightly operators and connectives bind.

/// The levels of the operators between scalars, the tightest first: `*`, then `+` and `-`.
#[derive(Clone, Copy)]
pub enum OperatorLevel {
    Products,
    Sums,
}

/// The levels of the connectives between conditions, the tightest first: `and`, then `or`.
#[derive(Clone, Copy)]
pub enum ConnectiveLevel {
    Conjunctions,
    Disjunctions,
}
