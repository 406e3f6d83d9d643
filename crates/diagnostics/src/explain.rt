//! Explains a fault by the texts in which it was found.

use crate::codes::TOO_MANY_VERTICES;
use crate::excerpt::{
    numbered_line, write_marked, write_name, write_numbered, write_place, write_position,
};
use crate::fault::Fault;
use crate::input_fault::{fault_place, write_input_fault};
use crate::query_fault::{write_query_fault, write_summary};
use crate::read_texts::Texts;
use crate::reason::write_reason;
use crate::schedule_fault::write_schedule_fault;
use record_core::Span;
use std::alloc::Global;
use std::io;
use std::io::Write;

/// The names of a command's texts, as the line gives them.
#[derive(Clone, Copy)]
pub struct TextNames<'a> {
    pub query: &'a str,
    /// Also of a schedule.
    pub input: &'a str,
}

/// Writes what is wrong with a query after its name, line and column, and then the line with carets under the place.
fn explain_query<W: Write>(
    alloc: Global,
    name: &str,
    text: &[u8],
    code: u8,
    span: Span,
    writer: &mut W,
) -> io::Result<()> {
    write_place(name, text, span.start as usize, writer)?;
    write_query_fault(alloc, text, code, span, writer)?;
    write_marked(text, span, writer)
}

/// Writes what is wrong with a line of an input after its name, line and column, and then the line.
fn explain_input<W: Write>(
    alloc: Global,
    name: &str,
    texts: &Texts,
    code: u8,
    number: u64,
    writer: &mut W,
) -> io::Result<()> {
    let line = numbered_line(&texts.input, texts.input_from, number);
    write_position(name, number, fault_place(code, line), writer)?;
    write_input_fault(alloc, &texts.query, code, line, writer)?;
    write_numbered(line, number, writer)
}

/// Writes what is wrong with a line of a schedule after its name and line, and then the line.
fn explain_schedule<W: Write>(
    name: &str,
    text: &[u8],
    code: u8,
    number: u64,
    writer: &mut W,
) -> io::Result<()> {
    write_position(name, number, 0, writer)?;
    write_schedule_fault(code, writer)?;
    write_numbered(numbered_line(text, 1, number), number, writer)
}

/// Writes what follows a fault's line. First comes the reason in one line, after `NAME:LINE:COLUMN: `, both counted from 1 and columns in
/// bytes: with the names and the numbers involved, and often what to write instead. Then comes of a query the line with carets under the
/// place, of an input or a schedule the faulty line, in which column 1 may mean the whole. A text that is too long (6), a graph that is too
/// large, and a text that couldn't be read have a name and no place. Of a count that is too large it says what that is; other faults of
/// memory, threads or files have nothing to show.
pub fn explain_fault<W: Write>(
    alloc: Global,
    fault: &Fault,
    names: TextNames<'_>,
    texts: &Texts,
    writer: &mut W,
) -> io::Result<()> {
    match fault {
        Fault::Query { code: 6, .. } => {
            write_name(names.query, writer)?;
            write_summary(6, writer)
        }
        Fault::Query { code, start, end } => {
            let span = Span {
                start: *start,
                end: *end,
            };
            explain_query(alloc, names.query, &texts.query, *code, span, writer)
        }
        Fault::TooManyVertices => {
            write_name(names.query, writer)?;
            write_summary(TOO_MANY_VERTICES, writer)
        }
        Fault::Count => write_summary(39, writer),
        Fault::Input { code, line } => {
            explain_input(alloc, names.input, texts, *code, *line, writer)
        }
        Fault::Schedule { code, line } => {
            explain_schedule(names.input, &texts.input, *code, *line, writer)
        }
        Fault::ReadQuery => write_reason(names.query, texts.reason, writer),
        Fault::ReadInput => write_reason(names.input, texts.reason, writer),
        Fault::NoMemory | Fault::NoWorker | Fault::Incomplete | Fault::Write => Ok(()),
    }
}
