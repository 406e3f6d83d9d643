//! Scripts of SQL read back: a text says one script. There is no program code here.
//!
//! `sql` writes the text of a script as its `Text` has it. The laws say that this grammar isn't ambiguous: from the text alone follow the database,
//! the arithmetic, the given tables, the tables that are made, each with its query, and the results. Plain arithmetic has no word for wrapping, so a
//! plain text says the script in which nothing is wrapped, as `sql_meaning` does of plain scripts.
//!
//! Below stand `sql`, `sql_meaning`, `semantics` and `record_core`.
#![tactic(auto)]

pub mod laws;
