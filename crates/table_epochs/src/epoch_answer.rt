//! The rows of the answer to one epoch.

ghost use Rattle.std.specs.Prelude.{◌≡◌, ◌∷◌, false, IfOk, List, ℕ, OnOk, map, slice_set};
ghost use Rattle.csv_cells.specs.Texts.{Grows, texts_of};
ghost use Rattle.csv_epochs.specs.Epochs.{cell_of};
ghost use Rattle.query_answers.specs.Runs.{IsRun, read_part};
ghost use Rattle.tables.specs.Inputs.{IsInput};
ghost use Rattle.tables.specs.Tables.{IsLate};
ghost use Rattle.table_epochs.specs.Followed.{IsAnswered, IsValue, csv_file};
ghost use Rattle.table_epochs.specs.Going.{IsFileUnder, Keeps, followed_by, reached_by};

use crate::numbering::numbered;
use csv_cells::{Column, Dictionary, read_cell};
use csv_epochs::Epoch;
use diagnostics::{Fault, Texts};
use query_answers::Answering;
use std::alloc::{AllocError, Global};
use table_commands::table_fault;
use table_queries::{EngineSink, Job, RunFault};
use tables::{EncodeFault, EncodeRefusal, FileFault, MemoryFiles, TableRefusal, decode, encode};

/// What an answer is called where it is refused.
const ANSWER: &str = "answer";

/// An input whose file arrives: its place among the inputs, and the column whose cells are the epochs.
#[derive(Clone, Copy)]
pub struct Stream {
    pub place: usize,
    pub column: usize,
    pub cells: Column,
}

/// A query that is answered epoch by epoch, and how far it is.
#[derive(Drop)]
pub struct Following<'p, 'a> {
    pub job: Job<'p, 'a>,
    pub stream: Stream,
    /// The header row of what is written.
    pub header: Vec<u8>,
    /// The texts of the files, in the inputs' order. That of the file that arrives is the last epoch's.
    pub files: Vec<Vec<u8>>,
    pub dictionary: Dictionary,
    /// How many epochs were answered.
    pub count: u64,
    /// What stands for the last one.
    pub last: Option<i64>,
}

/// The line in the whole file of a line in an epoch's text.
fn line_in_file(header_lines: u64, first_line: u64, line: u64) -> u64 {
    if line <= header_lines {
        line
    } else {
        first_line.saturating_add(line - header_lines - 1)
    }
}

/// Where an epoch's text lies in its file.
#[derive(Clone, Copy)]
pub struct Lines {
    pub header: u64,
    pub first: u64,
}

/// The fault of files that are refused with an epoch's text.
pub fn files_fault<'a>(
    alloc: Global,
    job: &Job<'_, 'a>,
    place: usize,
    lines: Lines,
    refused: EncodeRefusal,
) -> RunFault<'a> {
    let EncodeRefusal { file, refusal } = refused;
    let (Some(table), Some(path)) = (job.schema.inputs.get(file), job.paths.get(file)) else {
        return RunFault::Run(Fault::NoMemory);
    };
    let refusal = match refusal {
        TableRefusal::At { fault, line } if file == place => {
            let line = line_in_file(lines.header, lines.first, line);
            TableRefusal::At { fault, line }
        }
        refusal => refusal,
    };
    RunFault::Tables(table_fault(alloc, *path, table, refusal))
}

/// What stands for an epoch's cell; `None` if nothing does.
fn value_of(
    alloc: Global,
    column: Column,
    dictionary: &mut Dictionary,
    epoch: &Epoch,
) -> Result<Option<i64>, AllocError>
    ensures value { IfOk result (IsValue column (texts_of dictionary.new) (cell_of epoch.now)) }
    ensures grows { OnOk result (Grows (texts_of dictionary.old) (texts_of dictionary.new)) }
{
    match &epoch.cell {
        Some(cell) => read_cell(alloc, column, dictionary, cell.as_slice()),
        None => Ok(None),
    }
}

/// Whether an epoch comes before the last one.
fn is_late(last: Option<i64>, value: Option<i64>) -> bool
    ensures { result ≡ false → ¬ IsLate last value }
{
    match (last, value) {
        (Some(before), Some(now)) => now < before,
        _ => false,
    }
}

/// The fault of an epoch that comes too late.
fn late_fault<'a>(alloc: Global, following: &Following<'_, 'a>, lines: Lines) -> RunFault<'a> {
    let fault = tables::Fault::Order(following.stream.column);
    let line = lines.header.saturating_add(1);
    let refusal = TableRefusal::At { fault, line };
    let file = following.stream.place;
    files_fault(
        alloc,
        &following.job,
        file,
        lines,
        EncodeRefusal { file, refusal },
    )
}

/// The answer to the files, which hold one epoch. The engine takes their rows as numbers.
fn answer_of_files<'a, A: Answering>(
    engine: &A,
    alloc: Global,
    following: &mut Following<'_, 'a>,
    lines: Lines,
    texts: &mut Texts,
) -> Result<Vec<u8>, RunFault<'a>>
    requires { A.is_usable }
    ensures answered { IfOk result (λ answer. (input : List ℕ)
        × IsInput following.old.job.schema.now (map (λ v. v.items) following.old.files.items) (texts_of following.new.dictionary) input
        × IsRun (read_part following.old.job.query.now) input answer.items) }
    ensures grows { OnOk result (Grows (texts_of following.old.dictionary) (texts_of following.new.dictionary)) }
    ensures rest { OnOk result (following.new ≡ record following.old { dictionary = following.new.dictionary }) }
{
    let job = following.job;
    let intake = engine.begin(alloc, job.workers, job.query, texts)?;
    let mut input = EngineSink::new(engine, alloc, intake);
    let files = MemoryFiles {
        texts: following.files.as_slice(),
    };
    let dictionary = &mut following.dictionary;
    match encode(alloc, job.schema, dictionary, &files, &mut input) {
        Ok(()) => Ok(input.answer(texts)?),
        Err(
            EncodeFault {
                file,
                fault: FileFault::Refused(refusal),
            },
        ) => {
            let place = following.stream.place;
            let refused = EncodeRefusal { file, refusal };
            Err(files_fault(alloc, &job, place, lines, refused))
        }
        Err(
            EncodeFault {
                fault: FileFault::Stopped,
                ..
            },
        ) => Err(RunFault::Run(input.into_fault(texts))),
        Err(
            EncodeFault {
                fault: FileFault::Read | FileFault::Count,
                ..
            },
        ) => Err(RunFault::Run(Fault::NoMemory)),
    }
}

/// The CSV file of an answer to one epoch, under its number.
fn file_of<'a>(
    alloc: Global,
    job: &Job<'_, 'a>,
    number: u64,
    dictionary: &Dictionary,
    answer: &[u8],
) -> Result<Vec<u8>, RunFault<'a>>
    ensures { (input : List ℕ) → IsRun (read_part job.now.query.now) input answer.now
        → IfOk result (λ file. IsFileUnder job.now.table.now job.now.query.now number (texts_of dictionary.now) input file.items) }
{
    let text = numbered(alloc, number, answer)?;
    match decode(alloc, job.table, true, dictionary, text.as_slice()) {
        Ok(file) => Ok(file),
        Err(refusal) => Err(RunFault::Tables(table_fault(alloc, ANSWER, job.table, refusal))),
    }
}

/// Puts a text at its place among others.
pub fn put_text(files: &mut Vec<Vec<u8>>, place: usize, text: Vec<u8>)
    ensures { map (λ v. v.items) files.new.items ≡ slice_set (map (λ v. v.items) files.old.items) place text.items }
{
    if place < files.len() {
        files[place] = text;
    }
}

/// The CSV file of the answer to an epoch, under its number.
pub fn answer_epoch<'a, A: Answering>(
    engine: &A,
    alloc: Global,
    following: &mut Following<'_, 'a>,
    epoch: Epoch,
    texts: &mut Texts,
) -> Result<Vec<u8>, RunFault<'a>>
    requires { A.is_usable }
    ensures answered { IfOk result (λ file. (rows : List (List (List ℕ)))
        × IsAnswered (followed_by following.old) (reached_by following.old) (reached_by following.new) epoch rows
        × (file.items ≡ csv_file following.old.job.table.now rows)) }
    ensures keeps { OnOk result (Keeps following.old following.new) }
{
    let job = following.job;
    let number = following.count;
    let Some(count) = number.checked_add(1) else {
        return Err(RunFault::Run(Fault::Count));
    };
    let lines = Lines {
        header: epoch.header_lines,
        first: epoch.first_line,
    };
    let value = value_of(
        alloc,
        following.stream.cells,
        &mut following.dictionary,
        &epoch,
    )?;
    if is_late(following.last, value) {
        return Err(late_fault(alloc, following, lines));
    }
    let place = following.stream.place;
    put_text(&mut following.files, place, epoch.text);
    let answer = answer_of_files(engine, alloc, following, lines, texts)?;
    following.count = count;
    following.last = value;
    file_of(
        alloc,
        &job,
        number,
        &following.dictionary,
        answer.as_slice(),
    )
}
