//! What goes wrong in the commands for CSV files, its status, and its one line.

ghost use Rattle.std.specs.Prelude.{◌≡◌, ◌<◌};
ghost use Rattle.table_faults.specs.Written.{IsWriteFault};

use csv_cells::{Column, Empty, Kind};
use diagnostics::Plain;
use record_core::Span;
use refusals::explanation_of;
use schema::{SchemaRefusal, Table};
use std::alloc::{AllocError, AllocFailed, Global};
use std::io;
use std::io::Write;
use tables::{Fault as TableFault, TableRefusal};

/// Why a command came to no end. A path is as the line gives it.
#[derive(Drop)]
pub enum Fault<'a> {
    NoMemory,
    /// The file can't be read.
    Read(&'a str),
    /// Standard output can't be written.
    Write,
    /// The dictionary's file can't be written, or another one is being written.
    Dictionary(&'a str, bool),
    /// The line's words don't fit the schema.
    Words(WordFault<'a>),
    Schema(schema::Fault, u64),
    /// The number of a query's refusal, and its place.
    Query(u8, Span),
    /// The file's path, what is wrong, the line, and what else is told.
    Table(&'a str, TableFault, u64, Detail),
}

/// What the line of a file's fault tells beside its number.
#[derive(Drop)]
pub enum Detail {
    None,
    /// Of a cell: the name of its column in the header row, and how the column is read.
    Cell(Vec<u8>, Column),
    /// Of a header row: the one that the file should have.
    Header(Vec<u8>),
}

/// What is wrong with the words of a line.
#[derive(Clone, Copy)]
pub enum WordFault<'a> {
    /// The word isn't an input's name, `=` and a file.
    NoTable(&'a str),
    /// The input has no file, or two.
    Files,
    /// There are texts, and no dictionary is named.
    NoDictionary,
    /// Standard input is named as the dictionary, which is to be written.
    NoDictionaryFile,
    /// A constant of the schema has another number in the dictionary of that path than its place.
    OtherNumbers(&'a str),
    /// The schema has no such output, or several and none is named.
    NoOutput,
    /// Two of the texts are standard input.
    InputTwice,
}

impl<'a> From<AllocError> for Fault<'a> {
    fn from(_e: AllocError) -> Fault<'a> {
        Fault::NoMemory
    }
}

impl<'a, T: Drop> From<AllocFailed<T>> for Fault<'a> {
    fn from(_e: AllocFailed<T>) -> Fault<'a> {
        Fault::NoMemory
    }
}

/// The fault of a schema that is refused.
pub fn schema_fault<'a>(refusal: SchemaRefusal) -> Fault<'a> {
    match refusal {
        SchemaRefusal::NoMemory => Fault::NoMemory,
        SchemaRefusal::At { fault, line } => Fault::Schema(fault, line),
    }
}

/// The header row of a table, without quotes.
fn header_row(alloc: Global, names: &[Vec<u8>]) -> Result<Vec<u8>, AllocError> {
    let mut row = Vec::new(alloc);
    for name in names {
        if !row.is_empty() {
            row.push(b',')?;
        }
        row.extend_from_slice(name.as_slice())?;
    }
    Ok(row)
}

/// What is told of a fault of a table's file.
fn detail_of(alloc: Global, table: &Table, fault: TableFault) -> Result<Detail, AllocError> {
    if let TableFault::Header = fault {
        return Ok(Detail::Header(header_row(alloc, table.headers.as_slice())?));
    }
    let (TableFault::Cell(place) | TableFault::Order(place)) = fault else {
        return Ok(Detail::None);
    };
    let (Some(header), Some(column)) = (table.headers.get(place), table.columns.get(place)) else {
        return Ok(Detail::None);
    };
    Ok(Detail::Cell(Vec::from_slice(alloc, header.as_slice())?, *column))
}

/// The fault of a table's file that is refused.
pub fn table_fault<'a>(
    alloc: Global,
    path: &'a str,
    table: &Table,
    refusal: TableRefusal,
) -> Fault<'a> {
    let TableRefusal::At { fault, line } = refusal else {
        return Fault::NoMemory;
    };
    match detail_of(alloc, table, fault) {
        Ok(detail) => Fault::Table(path, fault, line, detail),
        Err(_) => Fault::NoMemory,
    }
}

/// The fault of a dictionary's file that is refused.
pub fn dictionary_fault<'a>(alloc: Global, path: &'a str, refusal: TableRefusal) -> Fault<'a> {
    let TableRefusal::At { fault, line } = refusal else {
        return Fault::NoMemory;
    };
    let TableFault::Header = fault else {
        return Fault::Table(path, fault, line, Detail::None);
    };
    match Vec::from_slice(alloc, b"text") {
        Ok(row) => Fault::Table(path, fault, line, Detail::Header(row)),
        Err(_) => Fault::NoMemory,
    }
}

/// The number and the phrase of a file's fault.
fn told(fault: TableFault) -> (u8, &'static str) {
    match fault {
        TableFault::Text(csv_strict::Fault::EmptyLine) => (61, "an empty line"),
        TableFault::Text(csv_strict::Fault::QuoteInside) => {
            (61, "a quote in a cell without quotes")
        }
        TableFault::Text(csv_strict::Fault::AfterQuote) => {
            (61, "more after a cell's closing quote")
        }
        TableFault::Text(csv_strict::Fault::BareReturn) => {
            (61, "a carriage return that ends no line")
        }
        TableFault::Text(csv_strict::Fault::Unclosed) => (61, "a quote that is never closed"),
        TableFault::Header => (62, "another header row"),
        TableFault::Length => (63, "another number of cells than of columns"),
        TableFault::Cell(_) => (64, "no cell of its column"),
        TableFault::Order(_) => (65, "an epoch that comes too late"),
        TableFault::Dictionary => (66, "no new text"),
        TableFault::Answer => (67, "no line of this output's answer"),
    }
}

/// Writes what is wrong with words.
fn write_words<W: Write>(fault: WordFault<'_>, out: &mut W) -> io::Result<()> {
    let phrase = match fault {
        WordFault::OtherNumbers(path) => {
            let path = Plain(path);
            return writeln!(
                out,
                "error: in {path} the schema's constants have other numbers: a dictionary for this schema begins with them"
            );
        }
        WordFault::NoTable(word) => {
            return writeln!(
                out,
                "error: '{}' is no input of the schema, '=' and its file",
                Plain(word)
            );
        }
        WordFault::Files => "each input of the schema has one NAME=FILE",
        WordFault::NoDictionary => {
            "the schema has texts: their numbers are kept in --dictionary FILE"
        }
        WordFault::NoDictionaryFile =>
            "--dictionary names a file, which can't be '-', standard input",
        WordFault::NoOutput => "say which output of the schema it is by --output NAME",
        WordFault::InputTwice => "only one of the files can be '-', which is standard input",
    };
    writeln!(out, "error: {phrase}")
}

/// A name, or a header row, as it is shown: what is no letter, digit or sign of ASCII as `?`.
fn write_name<W: Write>(name: &[u8], out: &mut W) -> io::Result<()> {
    for byte in name {
        let shown = if matches!(*byte, b' '..=b'~') {
            *byte
        } else {
            b'?'
        };
        out.write_all(&[shown])?;
    }
    Ok(())
}

/// Writes the line of a query's refusal, with what its number means.
fn write_query<W: Write>(code: u8, span: Span, out: &mut W) -> io::Result<()> {
    let Span { start, end } = span;
    match explanation_of(code) {
        Some(row) => writeln!(
            out,
            "query refused {code} at {start}..{end}: {}",
            row.summary
        ),
        None => writeln!(out, "query refused {code} at {start}..{end}"),
    }
}

/// Writes that a cell is none of its column's.
fn write_no_cell<W: Write>(column: Column, out: &mut W) -> io::Result<()> {
    match column.kind {
        Kind::Int => write!(out, ": no int")?,
        Kind::Decimal(digits) => write!(out, ": no decimal({digits})")?,
        Kind::Date => write!(out, ": no date")?,
        Kind::Time => write!(out, ": no time")?,
        Kind::Text => write!(out, ": no text")?,
    }
    match column.empty {
        Empty::Number(_) => writeln!(out, ", or the one that is left empty"),
        Empty::Refused | Empty::Kept => writeln!(out, ""),
    }
}

/// Writes the line of a fault of a file.
fn write_table<W: Write>(
    path: &str,
    fault: TableFault,
    line: u64,
    detail: &Detail,
    out: &mut W,
) -> io::Result<()> {
    let (code, phrase) = told(fault);
    let path = Plain(path);
    write!(out, "{path} refused {code} at line {line}")?;
    match detail {
        Detail::None => writeln!(out, ": {phrase}"),
        Detail::Cell(name, column) => {
            write!(out, ", column ")?;
            write_name(name.as_slice(), out)?;
            match fault {
                TableFault::Cell(_) => write_no_cell(*column, out),
                _ => writeln!(out, ": {phrase}"),
            }
        }
        Detail::Header(row) => {
            write!(out, ": the header row isn't ")?;
            write_name(row.as_slice(), out)?;
            writeln!(out, "")
        }
    }
}

impl Fault<'_> {
    /// The exit status.
    pub fn status(&self) -> u8
        ensures write { IsWriteFault self.now → result ≡ 6 }
        ensures some { 0 < result }
    {
        match self {
            Fault::Words(_) => 2,
            Fault::Schema(_, _) | Fault::Query(_, _) => 3,
            Fault::Table(_, _, _, _) => 4,
            Fault::NoMemory => 5,
            Fault::Read(_) | Fault::Write | Fault::Dictionary(_, _) => 6,
        }
    }

    /// Writes the one line of the fault.
    pub fn write_line<W: Write>(&self, out: &mut W) -> io::Result<()> {
        match self {
            Fault::NoMemory => writeln!(out, "out of memory"),
            Fault::Read(path) => writeln!(out, "cannot read {}", Plain(path)),
            Fault::Write => writeln!(out, "cannot write"),
            Fault::Dictionary(path, true) => {
                let path = Plain(path);
                writeln!(
                    out,
                    "cannot write {path}: another command writes it, or {path}.new is left of one that was ended"
                )
            }
            Fault::Dictionary(path, false) => writeln!(out, "cannot write {}", Plain(path)),
            Fault::Words(fault) => write_words(*fault, out),
            Fault::Schema(fault, line) => {
                let code = fault.code();
                writeln!(out, "schema refused {code} at line {line}: {fault}")
            }
            Fault::Query(code, span) => write_query(*code, *span, out),
            Fault::Table(path, fault, line, detail) => {
                write_table(path, *fault, *line, detail, out)
            }
        }
    }
}
