//! Where the text of a query is.

/// The query of a line.
#[derive(Clone, Copy)]
pub enum Query<'a> {
    /// The text of the file with this path; `-` is standard input.
    File(&'a str),
    /// This text, given on the line itself with `-e`.
    Inline(&'a str),
}
