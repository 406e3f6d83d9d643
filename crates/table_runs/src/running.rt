//! The run itself, from the texts of the system to what is written.

ghost use Rattle.std.specs.Prelude.{IfErr, IfOk, List, None, OnOk, Some, map, option_map, ℕ};
ghost use Rattle.collector.specs.Watching.{inner_of};
ghost use Rattle.csv_cells.specs.Texts.{texts_of};
ghost use Rattle.query_answers.specs.Runs.{IsRun, read_part};
ghost use Rattle.table_commands.specs.Read.{IsInputOf};
ghost use Rattle.tables.specs.Inputs.{AreNumbered};
ghost use Rattle.table_runs.specs.Runs.{Fails, IsAnswerBy, IsAnswerFile, IsDone, WritesAnswer};

use collector::{Sources, Watched, put};
use csv_cells::Dictionary;
use diagnostics::Texts;
use query_answers::Answering;
use schema_words::TableRun;
use std::alloc::Global;
use std::io::Write;
use table_commands::{
    Drafts, InputFault, append_input, begin_dictionary, encoding_dictionary, grown_text,
    table_fault, write_with,
};
use table_queries::{EngineSink, Job, RunFault, asked_output, begin_run};
use tables::{decode, has_epochs};

/// What an answer is called where it is refused.
const ANSWER: &str = "answer";

/// The answer to the input text of the files, by the dictionary as it is then.
fn answer_of_files<'a, A: Answering, S: Sources<'a>>(
    engine: &A,
    alloc: Global,
    sources: &S,
    job: &Job<'_, 'a>,
    dictionary: &mut Dictionary,
    texts: &mut Texts,
) -> Result<Vec<u8>, RunFault<'a>>
    requires { A.is_usable }
    ensures answered { IfOk result (λ answer. (input : List ℕ) × IsInputOf (S.content sources.now) job.now.schema.now (map (λ s. s.now) job.now.paths.now) (texts_of dictionary.new) input
        × IsRun (read_part job.now.query.now) input answer.items) }
    ensures numbered { OnOk result (AreNumbered job.now.schema.now.constants.items (texts_of dictionary.old) (texts_of dictionary.new)) }
{
    let intake = engine.begin(alloc, job.workers, job.query, texts)?;
    let mut input = EngineSink::new(engine, alloc, intake);
    match append_input(
        alloc, sources, job.schema, job.paths, dictionary, &mut input,
    ) {
        Ok(()) => Ok(input.answer(texts)?),
        Err(InputFault::Tables(fault)) => Err(RunFault::Tables(fault)),
        Err(InputFault::Stopped) => Err(RunFault::Run(input.into_fault(texts))),
    }
}

/// The CSV file of the answer, and the dictionary as it is then.
fn answer_file<'a, A: Answering, S: Sources<'a>>(
    engine: &A,
    alloc: Global,
    sources: &S,
    job: &Job<'_, 'a>,
    dictionary: &mut Dictionary,
    texts: &mut Texts,
) -> Result<Vec<u8>, RunFault<'a>>
    requires { A.is_usable }
    ensures { IfOk result (λ file. IsAnswerBy (S.content sources.now) job.now.schema.now job.now.table.now (map (λ s. s.now) job.now.paths.now) job.now.query.now
        (texts_of dictionary.old) file.items) }
{
    let answer = answer_of_files(engine, alloc, sources, job, dictionary, texts)?;
    match decode(
        alloc,
        job.table,
        has_epochs(job.schema.inputs.as_slice()),
        dictionary,
        answer.as_slice(),
    ) {
        Ok(text) => Ok(text),
        Err(refusal) => Err(RunFault::Tables(table_fault(alloc, ANSWER, job.table, refusal))),
    }
}

/// The same by the dictionary of that name, and the text of its file if it has grown.
fn file_with<'a, A: Answering, S: Sources<'a>>(
    engine: &A,
    alloc: Global,
    sources: &S,
    job: &Job<'_, 'a>,
    name: &'a str,
    texts: &mut Texts,
) -> Result<(Vec<u8>, Option<Vec<u8>>), RunFault<'a>>
    requires { A.is_usable }
    ensures { IfOk result (λ made. IsAnswerFile (S.content sources.now) job.now.schema.now job.now.table.now (map (λ s. s.now) job.now.paths.now) job.now.query.now
        (Some name.now) made.0.items) }
{
    let mut dictionary = encoding_dictionary(alloc, sources, job.schema, name)?;
    let count = dictionary.len();
    let text = answer_file(engine, alloc, sources, job, &mut dictionary, texts)?;
    let kept = grown_text(alloc, &dictionary, count)?;
    Ok((text, kept))
}

/// Runs with a dictionary that isn't kept.
fn run_without<'a, A: Answering, S: Sources<'a>, W: Write>(
    engine: &A,
    alloc: Global,
    sources: &S,
    job: &Job<'_, 'a>,
    texts: &mut Texts,
    out: &mut Watched<W>,
) -> Result<(), RunFault<'a>>
    requires { A.is_usable }
    ensures written { OnOk result (WritesAnswer (S.content sources.now) job.now.schema.now job.now.table.now (map (λ s. s.now) job.now.paths.now) job.now.query.now
        None (W.contents (inner_of out.old)) (W.contents (inner_of out.new))) }
    ensures fault { IfErr result (Fails (W.contents (inner_of out.old)) (W.contents (inner_of out.new))) }
{
    let mut dictionary = Dictionary::new(alloc);
    let text = answer_file(engine, alloc, sources, job, &mut dictionary, texts)?;
    match put(out, text.as_slice()) {
        Ok(()) => Ok(()),
        Err(_) => Err(RunFault::Tables(table_commands::Fault::Write)),
    }
}

/// Runs, and keeps the dictionary if there is one, which no other command writes meanwhile. At a fault nothing is written, unless the writer or the
/// dictionary's file failed.
pub fn run_job<'a, A: Answering, S: Sources<'a>, D: Drafts, W: Write>(
    engine: &A,
    alloc: Global,
    sources: &S,
    drafts: &D,
    job: &Job<'_, 'a>,
    texts: &mut Texts,
    out: &mut Watched<W>,
) -> Result<(), RunFault<'a>>
    requires { A.is_usable }
    ensures written { OnOk result (WritesAnswer (S.content sources.now) job.now.schema.now job.now.table.now (map (λ s. s.now) job.now.paths.now) job.now.query.now
        (option_map (λ s. s.now) job.now.dictionary) (W.contents (inner_of out.old)) (W.contents (inner_of out.new))) }
    ensures fault { IfErr result (Fails (W.contents (inner_of out.old)) (W.contents (inner_of out.new))) }
{
    let Some(name) = job.dictionary else {
        return run_without(engine, alloc, sources, job, texts, out);
    };
    let draft = begin_dictionary(drafts, name)?;
    match file_with(engine, alloc, sources, job, name, texts) {
        Ok(made) => Ok(write_with(drafts, draft, name, made, out)?),
        Err(fault) => {
            drafts.discard(draft);
            Err(fault)
        }
    }
}

/// Writes the CSV file of a query's answer, and then keeps the dictionary. At a fault nothing is written, unless the writer or the dictionary's file failed.
///
/// Faults are reported in this order: those of `begin_run`, the dictionary, the CSV files, the run, the answer's cells. What was read of the query, and lines
/// that the engine refused, are left in `texts`.
pub fn run_tables<'a, A: Answering, S: Sources<'a>, D: Drafts, W: Write>(
    engine: &A,
    alloc: Global,
    sources: &S,
    drafts: &D,
    asked: &TableRun<'a>,
    texts: &mut Texts,
    out: &mut Watched<W>,
) -> Result<(), RunFault<'a>>
    requires { A.is_usable }
    ensures written { OnOk result (IsDone (S.content sources.now) asked.now (W.contents (inner_of out.old)) (W.contents (inner_of out.new))) }
    ensures fault { IfErr result (Fails (W.contents (inner_of out.old)) (W.contents (inner_of out.new))) }
{
    let begun = begin_run(alloc, sources, asked, texts)?;
    let job = Job {
        schema: &begun.schema,
        paths: begun.paths.as_slice(),
        table: asked_output(&begun.schema, asked.output)?,
        query: begun.query.as_slice(),
        workers: asked.workers,
        dictionary: asked.dictionary,
    };
    run_job(engine, alloc, sources, drafts, &job, texts, out)
}
