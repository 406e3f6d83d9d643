//! The command `check --schema`.

ghost use Rattle.std.specs.Prelude.{◌≡◌, ◌⊎◌, true, IfErr, OnOk, codes, get_or, [], map};
ghost use Rattle.collector.specs.Watching.{inner_of};
ghost use Rattle.table_runs.specs.Runs.{Fails, WritesFields};
ghost use Rattle.schema_words.specs.Line.{AsksCheck};
ghost use Rattle.schema_words.specs.declared.check_line.TableCheck.{TableCheck};

use crate::answering::report_run;
use collector::{Sources, Watched, put};
use diagnostics::Texts;
use schema_words::{TableCheck, names_option, read_check_words};
use std::alloc::Global;
use std::io::Write;
use table_commands::{refuse, report};
use table_queries::{RunFault, listed_fields};

/// Whether a line, whose first word is the program's own, is one of `check` with the option `--schema`.
pub fn is_table_check(words: &[&str]) -> bool
    ensures { result ≡ true → get_or (map (λ s. s.now) words.now) 1 [] ≡ codes "check" }
{
    match words {
        [_, first, others @ ..] if *first == "check" => { names_option(others, &["--schema"]) }
        _ => false,
    }
}

/// Writes what the fields of a query stand for by a schema. At a fault nothing is written, unless the writer failed.
fn write_fields<'a, S: Sources<'a>, W: Write>(
    alloc: Global,
    sources: &S,
    asked: &TableCheck<'a>,
    texts: &mut Texts,
    out: &mut Watched<W>,
) -> Result<(), RunFault<'a>>
    ensures written { OnOk result (WritesFields (S.content sources.now) asked.now (W.contents (inner_of out.old)) (W.contents (inner_of out.new))) }
    ensures fault { IfErr result (Fails (W.contents (inner_of out.old)) (W.contents (inner_of out.new))) }
{
    let listing = listed_fields(alloc, sources, asked, texts)?;
    match put(out, listing.as_slice()) {
        Ok(()) => Ok(()),
        Err(_) => Err(RunFault::Tables(table_commands::Fault::Write)),
    }
}

/// Answers a line of `check --schema`, whose first word is the program's own, and gives the status: 0 done, 2 command line, 3 schema or query, 5 memory,
/// 6 file.
pub fn answer_table_check<'a, S: Sources<'a>, W: Write, E: Write>(
    alloc: Global,
    sources: &S,
    words: &'a [&'a str],
    out: &mut Watched<W>,
    err: &mut E,
) -> u8
    ensures written { result ≡ 0 → (asked : TableCheck) × AsksCheck (map (λ s. s.now) words.entry.now) asked
        × WritesFields (S.content sources.now) asked (W.contents (inner_of out.old)) (W.contents (inner_of out.new)) }
    ensures quiet { ((result ≡ 0) ⊎ (result ≡ 6)) ⊎ (W.contents (inner_of out.new) ≡ W.contents (inner_of out.old)) }
{
    let asked = match read_check_words(alloc, words) {
        Ok(Some(asked)) => asked,
        Ok(None) => return 2,
        Err(error) => return refuse(error, err),
    };
    let mut texts = Texts::new(alloc);
    match write_fields(alloc, sources, &asked, &mut texts, out) {
        Ok(()) => 0,
        Err(RunFault::Tables(fault)) => report(alloc, &fault, err),
        Err(RunFault::Run(fault)) => report_run(
            alloc,
            asked.query,
            asked.explain,
            &fault,
            &texts,
            err,
        ),
    }
}
