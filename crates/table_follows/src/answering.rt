//! A line of words, answered.

ghost use Rattle.std.specs.Prelude.{◌≡◌, ◌⊎◌, [], codes, get_or, map, true};
ghost use Rattle.collector.specs.Watching.{inner_of};
ghost use Rattle.table_follows.specs.Followed.{HasFailed, HasFollowed};
ghost use Rattle.table_queries.specs.declared.fault.RunFault as fault;
ghost use Rattle.schema_words.specs.Line.{AsksRun};
ghost use Rattle.schema_words.specs.declared.run_line.TableRun.{TableRun};

use crate::files::follow_tables;
use collector::{Sources, Watched};
use diagnostics::Texts;
use query_answers::Answering;
use schema_words::{names_option, read_run_words};
use std::alloc::Global;
use std::io::Write;
use table_commands::{Drafts, refuse, report};
use table_queries::RunFault;
use table_runs::report_run;

/// Whether a line, whose first word is the program's own, is one of `follow` with the option `--schema`, or with one that needs it.
pub fn is_table_follow(words: &[&str]) -> bool
    ensures { result ≡ true → get_or (map (λ s. s.now) words.now) 1 [] ≡ codes "follow" }
{
    match words {
        [_, first, others @ ..] if *first == "follow" => {
            names_option(others, &["--schema", "--dictionary", "--output"])
        }
        _ => false,
    }
}

/// Answers a line of `follow --schema`, whose first word is the program's own, and gives the status: 0 done, 2 command line, 3 schema or query, 4 a
/// file's text, 5 memory, a count or a thread, 6 file. The rows that were written before a fault stay.
pub fn answer_table_follow<'a, A: Answering, S: Sources<'a>, D: Drafts, W: Write, E: Write>(
    engine: &A,
    alloc: Global,
    sources: &S,
    drafts: &D,
    words: &'a [&'a str],
    out: &mut Watched<W>,
    err: &mut E,
) -> u8
    requires { A.is_usable }
    ensures written { result ≡ 0 → (asked : TableRun) × AsksRun (map (λ s. s.now) words.entry.now) asked
        × HasFollowed (S.content sources.now) asked (W.contents (inner_of out.old)) (W.contents (inner_of out.new)) }
    ensures fault { (result ≡ 0) ⊎ ((W.contents (inner_of out.new) ≡ W.contents (inner_of out.old)) ⊎
        ((asked : TableRun) × (fault : fault.RunFault) × HasFailed (S.content sources.now) asked fault (W.contents (inner_of out.old))
        (W.contents (inner_of out.new)))) }
{
    let asked = match read_run_words(alloc, words) {
        Ok(Some(asked)) => asked,
        Ok(None) => return 2,
        Err(error) => return refuse(error, err),
    };
    let mut texts = Texts::new(alloc);
    match follow_tables(engine, alloc, sources, drafts, &asked, &mut texts, out) {
        Ok(()) => 0,
        Err(RunFault::Tables(fault)) => report(alloc, &fault, err),
        Err(RunFault::Run(fault)) => report_run(
            alloc,
            asked.query,
            asked.explain,
            &fault,
            &texts,
            err,
        ),
    }
}
