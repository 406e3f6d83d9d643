//! What the fields of a query's text stand for by a schema, in words.
//!
//! `kinds_text` reads and types a query, checks it against a schema, and lists its inputs and outputs with the names and kinds of their fields, where
//! those of the outputs come from, and the numbers of the schema's constants. The contract for the layers above: what is listed is that of a query
//! which goes with the schema, and where it doesn't, the query is refused. `told_columns` says which columns a refusal is about, for an explanation.
//! Below stand `compile` and `parser`, which read queries, `relations_read`, `schema_check` and `origins`.
#![tactic(auto)]

mod fields;
mod listing;
mod tables;
mod told;

pub use listing::kinds_text;
pub use told::told_columns;
