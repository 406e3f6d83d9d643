//! What each refusal of a query, an input, a schedule, a schema or a CSV file means.
//!
//! One table, in six parts, is what `loom explain`, `--explain` and the table of ERRORS.md say. The contract for the layers
//! above: `row_of` gives the first row of a code, and nothing exactly where no row has it. It uses no other crate; the crates that
//! refuse have their codes as constants of their own.
#![tactic(auto)]

mod table;

pub use table::{
    Explanation, NUMBERS, OF_KINDS, OF_LINES, OF_QUERIES, OF_SCHEMAS, OF_STEPS, OF_TABLES,
    explanation_of, row_of,
};
