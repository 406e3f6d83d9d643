//! How a script of SQL is to be written.

/// The database that a script is for, and whether its numbers wrap at 64 bits. SQLite's can't. For PostgreSQL it may be one statement.
#[derive(Clone, Copy)]
pub enum ScriptForm {
    Postgres { wrapped: bool, statement: bool },
    Sqlite,
    Spark { wrapped: bool },
}
