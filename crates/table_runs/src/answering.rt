//! A line of words, answered.

ghost use Rattle.std.specs.Prelude.{◌≡◌, ◌<◌, ◌⊎◌, true, codes, get_or, [], map};
ghost use Rattle.collector.specs.Watching.{inner_of};
ghost use Rattle.table_runs.specs.Runs.{IsDone};
ghost use Rattle.schema_words.specs.Line.{AsksRun};
ghost use Rattle.schema_words.specs.declared.run_line.TableRun.{TableRun};

use crate::running::run_tables;
use collector::{Sources, Watched};
use command_line::Query;
use diagnostics::{Fault, TextNames, Texts, explain_fault, write_path_hint, write_told};
use query_answers::Answering;
use schema_words::{names_option, read_run_words};
use std::alloc::Global;
use std::io;
use std::io::Write;
use table_commands::{Drafts, refuse, report};
use table_queries::{RunFault, write_columns};

/// Whether a line, whose first word is the program's own, is one of `run` with the option `--schema`, or with one that needs it.
pub fn is_table_run(words: &[&str]) -> bool
    ensures { result ≡ true → get_or (map (λ s. s.now) words.now) 1 [] ≡ codes "run" }
{
    match words {
        [_, first, others @ ..] if *first == "run" => {
            names_option(others, &["--schema", "--dictionary", "--output"])
        }
        _ => false,
    }
}

/// The names of the texts that a fault is about.
fn names_of<'a>(query: Query<'a>) -> TextNames<'a> {
    let query = match query {
        Query::File(path) => path,
        Query::Inline(_) => "-e",
    };
    let input = "input";
    TextNames { query, input }
}

/// Writes a fault's line, and what is wrong at its place where that is asked for.
fn write_fault<W: Write>(
    alloc: Global,
    query: Query<'_>,
    explain: bool,
    fault: &Fault,
    texts: &Texts,
    out: &mut W,
) -> io::Result<()> {
    let names = names_of(query);
    write_told(fault, names, texts, out)?;
    if explain {
        explain_fault(alloc, fault, names, texts, out)?;
        write_columns(fault, texts, out)?;
        write_path_hint(fault, names, out)?;
    }
    Ok(())
}

/// Reports a fault of the query or the run by one write, and gives its status.
pub fn report_run<E: Write>(
    alloc: Global,
    query: Query<'_>,
    explain: bool,
    fault: &Fault,
    texts: &Texts,
    err: &mut E,
) -> u8
    ensures { 0 < result }
{
    let mut text = Vec::new(alloc);
    let _ = match write_fault(alloc, query, explain, fault, texts, &mut text) {
        Ok(()) => err.write_all(text.as_slice()),
        Err(_) => write_told(fault, names_of(query), texts, err),
    };
    fault.status()
}

/// Answers a line of `run --schema`, whose first word is the program's own, and gives the status: 0 done, 2 command line, 3 schema or query, 4 a file's
/// text, 5 memory, a count or a thread, 6 file.
pub fn answer_table_run<'a, A: Answering, S: Sources<'a>, D: Drafts, W: Write, E: Write>(
    engine: &A,
    alloc: Global,
    sources: &S,
    drafts: &D,
    words: &'a [&'a str],
    out: &mut Watched<W>,
    err: &mut E,
) -> u8
    requires { A.is_usable }
    ensures written { result ≡ 0 → (asked : TableRun) × AsksRun (map (λ s. s.now) words.entry.now) asked
        × IsDone (S.content sources.now) asked (W.contents (inner_of out.old)) (W.contents (inner_of out.new)) }
    ensures quiet { ((result ≡ 0) ⊎ (result ≡ 6)) ⊎ (W.contents (inner_of out.new) ≡ W.contents (inner_of out.old)) }
{
    let asked = match read_run_words(alloc, words) {
        Ok(Some(asked)) => asked,
        Ok(None) => return 2,
        Err(error) => return refuse(error, err),
    };
    let mut texts = Texts::new(alloc);
    match run_tables(engine, alloc, sources, drafts, &asked, &mut texts, out) {
        Ok(()) => 0,
        Err(RunFault::Tables(fault)) => report(alloc, &fault, err),
        Err(RunFault::Run(fault)) => report_run(
            alloc,
            asked.query,
            asked.explain,
            &fault,
            &texts,
            err,
        ),
    }
}
