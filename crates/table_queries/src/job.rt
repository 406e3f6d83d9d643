//! What is run.

use command_line::Workers;
use schema::{Schema, Table};

/// A query and the files that it runs on, by a schema.
#[derive(Clone, Copy)]
pub struct Job<'s, 'a> {
    pub schema: &'s Schema,
    /// The files of the schema's inputs, in its order.
    pub paths: &'s [&'a str],
    /// The output that is written.
    pub table: &'s Table,
    pub query: &'s [u8],
    pub workers: Workers,
    /// The name of the dictionary that is kept.
    pub dictionary: Option<&'a str>,
}
