//! The table of refusals in a Markdown text.

use refusals::Explanation;
use std::alloc::{AllocError, Global};

/// A row of the table.
#[derive(Clone, Copy)]
pub struct Row<'a> {
    /// The number of its line, from 1.
    pub line: usize,
    pub code: &'a str,
    pub summary: &'a str,
    pub place: &'a str,
}

/// The line over the table.
const HEADER: &str = "| Number | What is wrong | What the place covers |";

/// Whether the text has the table.
pub fn has_table(text: &str) -> bool {
    text.lines().any(|line| line == HEADER)
}

/// The row of a line `| 13 | what is wrong | what the place covers |`.
fn row_of<'a>(line: usize, text: &'a str) -> Option<Row<'a>> {
    let cells = text.strip_prefix("|")?.strip_suffix("|")?;
    let (code, rest) = cells.split_once('|')?;
    let (summary, place) = rest.split_once('|')?;
    Some(Row {
        line,
        code: code.trim(),
        summary: summary.trim(),
        place: place.trim(),
    })
}

/// The rows under the header and the line below it, up to the first line that is no row.
pub fn rows<'a>(alloc: Global, text: &'a str) -> Result<Vec<Row<'a>>, AllocError> {
    let mut found = Vec::new(alloc);
    for (before, line) in text
        .lines()
        .enumerate()
        .skip_while(|(_, line)| *line != HEADER)
        .skip(2)
    {
        match row_of(before.saturating_add(1), line) {
            Some(row) => found.push(row)?,
            None => break,
        }
    }
    Ok(found)
}

/// Whether the row says what the explanation says.
pub fn is_explained(row: &Row, explanation: &Explanation) -> bool {
    matches!(row.code.parse::<u8>(), Ok(code) if code == explanation.code)
        && row.summary == explanation.summary
        && row.place == explanation.place
}
