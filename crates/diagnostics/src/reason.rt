//! Why a text can't be read.

use crate::display::Part::{Path, Text};
use crate::display::write_line;
use crate::explain::TextNames;
use crate::fault::Fault;
use crate::read_texts::Texts;
use std::io;
use std::io::{ErrorKind, Write};

/// Writes the one line of a fault. Of an input that has to end with the mark, and doesn't, it says so.
pub fn write_told<W: Write>(
    fault: &Fault,
    names: TextNames<'_>,
    texts: &Texts,
    writer: &mut W,
) -> io::Result<()> {
    match (fault, texts.reason) {
        (Fault::ReadInput, Some(ErrorKind::UnexpectedEof)) => {
            let end = Text(" to its end: the last line isn't 'end'");
            write_line(&[Text("cannot read "), Path(names.input), end], writer)
        }
        _ => fault.write_line(names.query, names.input, writer),
    }
}

/// Writes what the system said of the text with that name, if it said something.
pub fn write_reason<W: Write>(
    name: &str,
    reason: Option<ErrorKind>,
    writer: &mut W,
) -> io::Result<()> {
    match reason {
        Some(kind) => { write_line(&[Path(name), Text(": "), Text(sentence(kind))], writer) }
        None => Ok(()),
    }
}

/// The same in a few words.
fn sentence(kind: ErrorKind) -> &'static str {
    match kind {
        ErrorKind::NotFound => "there is no such file",
        ErrorKind::NotADirectory => "part of the path is not a directory",
        ErrorKind::IsADirectory => "it is a directory",
        ErrorKind::PermissionDenied => "permission denied",
        ErrorKind::InvalidFilename => "the name is too long",
        ErrorKind::FilesystemLoop => "too many symbolic links",
        ErrorKind::UnexpectedEof => "it was cut off: with --end-mark only a line 'end' ends it",
        ErrorKind::WouldBlock => "there is nothing to read yet, and this stream doesn't wait",
        _ => "the system can't read it",
    }
}

/// Writes what helps where a text couldn't be read and its path looks like something else: a query, or an input's name and its CSV file.
pub fn write_path_hint<W: Write>(
    fault: &Fault,
    names: TextNames<'_>,
    writer: &mut W,
) -> io::Result<()> {
    let hint = match fault {
        Fault::ReadQuery if names.query.as_bytes().contains(&b';') => {
            "QUERY is a path; with -e it is the query itself: ./loom run -e 'input a/1; output a;' INPUT"
        }
        Fault::ReadInput if names.input.as_bytes().contains(&b'=') => {
            "INPUT is a path; CSV files are read by a schema: ./loom run --schema SCHEMA QUERY NAME=FILE"
        }
        _ => return Ok(()),
    };
    write_line(&[Text(hint)], writer)
}
