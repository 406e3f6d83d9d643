//! Queries as SQL: the script of a query, and its text for PostgreSQL, SQLite or Spark.
//!
//! A program becomes a list of tables, each made by one query over tables before it, and of each output one that holds its rows. What such a script
//! means, and that it means the program, is `sql_meaning`'s; the contract here is that the text is that of the script.
//!
//!     tree -> count       the tables that it takes at most; over 4096 it is refused, and nothing is made
//!     tree -> script      the tables, which borrow the tree's parts; for PostgreSQL some closures are one recursive table
//!     script -> text       of the tables that are asked for, and of those that one reads that is made
//!
//! Below stand `expr_tree`, `sql_meaning`, `semantics`, `record_core` and `itoa`.
#![tactic(auto)]

mod columns;
mod condition;
mod counting;
mod form;
mod linear;
mod push;
mod query;
mod recursion;
mod relation;
mod scalar;
mod scope;
mod statement;
mod table;
mod wanted;
mod whole;
mod widths;

pub use counting::{MAX_TABLES, TOO_MANY_TABLES};
pub use form::{Arithmetic, Dialect, Epochs, Form, Layout, Request};
pub use statement::sql_text;
pub use wanted::{NO_SUCH_OUTPUT, SEVERAL_OUTPUTS};
