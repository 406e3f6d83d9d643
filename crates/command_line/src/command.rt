//! The commands of the line, read by `clap`.

ghost use Rattle.std.specs.Prelude.{◌≡◌, map, option_map, IfErr, IfOk, IfSome, IsErrOf, codes, false};
ghost use Rattle.clap.specs.Words.{app_of, first_of, found_of, one_of, rows_of};
ghost use Rattle.command_line.specs.Line.{AreAskedFor, AreStats, AsksTwice, Asks, Holds, HoldsAt, IsAskedDatabase, IsAskedFirst, IsAskedHeap, IsAskedInput, IsAskedQuery, IsFlag, IsForm, IsNumber};
ghost use Rattle.command_line.specs.Line.{line_app, program_app};
ghost use Rattle.command_line.specs.Faults.{IsOfWords};
ghost use Rattle.command_line.specs.declared.line_fault.LineFault.TheVariants as fault;

use crate::first_epoch::FirstEpoch;
use crate::heap_size::HeapSize;
use crate::line_fault::LineFault;
use crate::line_options::{GraphForm, Options};
use crate::query::Query;
use crate::script_form::ScriptForm;
use crate::standard_input::is_input_twice;
use crate::unknown_words::told;
use crate::usage::with_usages;
use crate::usages::COMMANDS;
use crate::worker_count::Workers;
use clap::{ArgMatches, Command, Error};
use std::alloc::{AllocError, Global};
use std::num::ParseIntError;

/// The program's version.
const VERSION: &str = "0.1.0";

/// The last lines of the help: how errors are explained, the statuses, and where the language is described.
const LAST_LINES: &str =
    "An error is one line; with --explain more lines show its place and what is wrong there\n\
    Exit status: 0 done, 2 command line, 3 query, 4 input or schedule, 5 memory, count or threads, 6 file\nThe language: LANGUAGE.md";

/// The program's own command, with its version and the last lines of its help.
fn program<'a>(alloc: Global) -> Command<'a>
    ensures { app_of result ≡ program_app }
{
    Command::new(alloc, "loom")
        .version(VERSION)
        .after_help(LAST_LINES)
        .subcommand_required(true)
}

fn line_command<'a>(alloc: Global) -> Result<Command<'a>, AllocError>
    ensures { IfOk result (λ c. app_of c ≡ line_app) }
{
    with_usages(alloc, program(alloc), COMMANDS)
}

/// The first text of an argument.
pub fn text_of<'a>(found: &ArgMatches<'a>, id: &str) -> Option<&'a str>
    ensures { option_map (λ s. s.now) result ≡ first_of id.now (rows_of (found_of found.now)) }
{
    found.get_str(id)
}

/// Whether the flag is given.
pub fn flag_of<'a>(found: &ArgMatches<'a>, id: &str) -> bool
    ensures { IsFlag id.now (rows_of (found_of found.now)) result }
{
    found.get_flag(id)
}

/// The query, by its word, and whether that is the query itself.
pub fn query_of<'a>(found: &ArgMatches<'a>) -> Option<Query<'a>>
    ensures { IfSome result (IsAskedQuery (rows_of (found_of found.now))) }
{
    let word = text_of(found, "QUERY")?;
    if flag_of(found, "inline") {
        Some(Query::Inline(word))
    } else {
        Some(Query::File(word))
    }
}

/// The number of an option, of a word that clap has taken for one. An error where the word is none after all, at which no line is known to come.
fn number_of(found: &ArgMatches<'_>, id: &str) -> Result<Option<u32>, ParseIntError>
    ensures { IfOk result (IsNumber (one_of id.now (rows_of (found_of found.now)))) }
{
    found.try_get_one::<u32>(id)
}

/// The number of an option that has up to 64 bits, in the same way.
fn long_number_of(found: &ArgMatches<'_>, id: &str) -> Result<Option<u64>, ParseIntError>
    ensures { IfOk result (IsNumber (one_of id.now (rows_of (found_of found.now)))) }
{
    found.try_get_one::<u64>(id)
}

/// What the first epoch is called: 0 if no word says it.
fn first_epoch_of(found: &ArgMatches<'_>) -> Option<FirstEpoch>
    ensures { IfSome result (λ f. IsAskedFirst (one_of (codes "first-epoch") (rows_of (found_of found.now))) f.number) }
{
    match long_number_of(found, "first-epoch") {
        Ok(None) => Some(FirstEpoch::zero()),
        Ok(Some(number)) => FirstEpoch::new(number),
        Err(_) => None,
    }
}

/// The number of workers: one if no word says it.
pub fn workers_of(found: &ArgMatches<'_>) -> Option<Workers>
    ensures { IfSome result (λ w. AreAskedFor (one_of (codes "workers") (rows_of (found_of found.now))) w.count) }
{
    match number_of(found, "workers") {
        Ok(None) => Some(Workers::one()),
        Ok(Some(count)) => Workers::new(count),
        Err(_) => None,
    }
}

/// The size of the heap: none inside if no word says it.
fn heap_of(found: &ArgMatches<'_>) -> Option<Option<HeapSize>>
    ensures { IfSome result (IsAskedHeap (one_of (codes "heap") (rows_of (found_of found.now)))) }
{
    match number_of(found, "heap") {
        Ok(None) => Some(None),
        Ok(Some(bytes)) => Some(Some(HeapSize::new(bytes)?)),
        Err(_) => None,
    }
}

/// Whether it is reported what each vertex did, and how.
fn stats_of(found: &ArgMatches<'_>) -> Option<GraphForm>
    ensures { AreStats (rows_of (found_of found.now)) result }
{
    let stats = flag_of(found, "stats");
    let dot = flag_of(found, "dot");
    match (stats, dot) {
        (_, true) => Some(GraphForm::Dot),
        (true, false) => Some(GraphForm::Lines),
        (false, false) => None,
    }
}

fn run_options<'a>(found: &ArgMatches<'a>) -> Option<Options<'a>>
    ensures { IfSome result (HoldsAt (codes "run") (rows_of (found_of found.now))) }
{
    let workers = workers_of(found)?;
    let query = query_of(found)?;
    let input = text_of(found, "INPUT")?;
    let watch = flag_of(found, "watch");
    let stats = stats_of(found);
    let end_mark = flag_of(found, "end-mark");
    let explain = flag_of(found, "explain");
    Some(Options::Run {
        query,
        input,
        workers,
        watch,
        stats,
        end_mark,
        explain,
    })
}

fn check_options<'a>(found: &ArgMatches<'a>) -> Option<Options<'a>>
    ensures { IfSome result (HoldsAt (codes "check") (rows_of (found_of found.now))) }
{
    let heap = heap_of(found)?;
    let query = query_of(found)?;
    let input = text_of(found, "INPUT");
    let explain = flag_of(found, "explain");
    Some(Options::Check {
        query,
        input,
        heap,
        explain,
    })
}

/// The input to be followed: standard input where none is named.
fn followed_input<'a>(found: &ArgMatches<'a>) -> &'a str
    ensures { IsAskedInput (first_of (codes "INPUT") (rows_of (found_of found.now))) result.now }
{
    match text_of(found, "INPUT") {
        None => "-",
        Some(input) => input,
    }
}

fn follow_options<'a>(found: &ArgMatches<'a>) -> Option<Options<'a>>
    ensures { IfSome result (HoldsAt (codes "follow") (rows_of (found_of found.now))) }
{
    let workers = workers_of(found)?;
    let query = query_of(found)?;
    let input = followed_input(found);
    let first = first_epoch_of(found)?;
    let end_mark = flag_of(found, "end-mark");
    let explain = flag_of(found, "explain");
    Some(Options::Follow {
        query,
        input,
        workers,
        first,
        end_mark,
        explain,
    })
}

fn format_options<'a>(found: &ArgMatches<'a>) -> Option<Options<'a>>
    ensures { IfSome result (HoldsAt (codes "format") (rows_of (found_of found.now))) }
{
    let query = query_of(found)?;
    let explain = flag_of(found, "explain");
    Some(Options::Format { query, explain })
}

/// The word for the database that a script is for.
fn database_of<'a>(found: &ArgMatches<'a>) -> &'a str
    ensures { IsAskedDatabase (first_of (codes "dialect") (rows_of (found_of found.now))) result.now }
{
    match text_of(found, "dialect") {
        None => "postgres",
        Some(word) => word,
    }
}

/// The form of a script: none where the word is no database's, where numbers are to wrap and can't, or where one statement isn't for PostgreSQL.
fn form_of(found: &ArgMatches<'_>) -> Option<ScriptForm>
    ensures { IfSome result (IsForm (rows_of (found_of found.now))) }
{
    let database = database_of(found);
    let wrapped = flag_of(found, "wrapped");
    let statement = flag_of(found, "with");
    match database {
        "postgres" => Some(ScriptForm::Postgres { wrapped, statement }),
        "spark" => {
            if statement {
                None
            } else {
                Some(ScriptForm::Spark { wrapped })
            }
        }
        "sqlite" => {
            if wrapped || statement {
                None
            } else {
                Some(ScriptForm::Sqlite)
            }
        }
        _ => None,
    }
}

fn sql_options<'a>(found: &ArgMatches<'a>) -> Option<Options<'a>>
    ensures { IfSome result (HoldsAt (codes "sql") (rows_of (found_of found.now))) }
{
    let query = query_of(found)?;
    let form = form_of(found)?;
    let epochs = flag_of(found, "epochs");
    let output = text_of(found, "output");
    let explain = flag_of(found, "explain");
    Some(Options::Sql {
        query,
        form,
        epochs,
        output,
        explain,
    })
}

fn graph_options<'a>(found: &ArgMatches<'a>) -> Option<Options<'a>>
    ensures { IfSome result (HoldsAt (codes "graph") (rows_of (found_of found.now))) }
{
    let heap = heap_of(found)?;
    let query = query_of(found)?;
    let form = if flag_of(found, "dot") {
        GraphForm::Dot
    } else {
        GraphForm::Lines
    };
    let explain = flag_of(found, "explain");
    Some(Options::Graph {
        query,
        form,
        heap,
        explain,
    })
}

fn replay_options<'a>(found: &ArgMatches<'a>) -> Option<Options<'a>>
    ensures { IfSome result (HoldsAt (codes "replay") (rows_of (found_of found.now))) }
{
    let workers = workers_of(found)?;
    let query = query_of(found)?;
    let schedule = text_of(found, "SCHEDULE")?;
    let views = flag_of(found, "views");
    let explain = flag_of(found, "explain");
    Some(Options::Replay {
        query,
        schedule,
        workers,
        views,
        explain,
    })
}

/// The options that the matches of a command hold.
fn options_at<'a>(name: &str, found: &ArgMatches<'a>) -> Option<Options<'a>>
    ensures { IfSome result (HoldsAt name.now (rows_of (found_of found.now))) }
{
    match name {
        "run" => run_options(found),
        "follow" => follow_options(found),
        "replay" => replay_options(found),
        "check" => check_options(found),
        "graph" => graph_options(found),
        "format" => format_options(found),
        "sql" => sql_options(found),
        "explain" => Some(Options::Explain {
            code: text_of(found, "CODE")?,
        }),
        _ => None,
    }
}

/// The fault of a database for which one statement is asked for.
fn no_statement(alloc: Global, word: &str) -> LineFault
    ensures { IsOfWords result }
{
    match String::from_str(alloc, word) {
        Ok(word) => LineFault::Statement { word },
        Err(_) => LineFault::NoMemory,
    }
}

/// The fault of matches that hold no options: where they name a database, it is none, or it has no such statement, or its numbers can't wrap.
fn unheld(alloc: Global, found: &ArgMatches<'_>) -> LineFault
    ensures { IsOfWords result }
{
    let statement = flag_of(found, "with");
    match text_of(found, "dialect") {
        None => LineFault::NoCommand,
        Some("spark") => no_statement(alloc, "spark"),
        Some("sqlite") => {
            if statement {
                no_statement(alloc, "sqlite")
            } else {
                LineFault::Unwrapped
            }
        }
        Some(word) => match String::from_str(alloc, word) {
            Ok(word) => LineFault::Dialect { word },
            Err(_) => LineFault::NoMemory,
        },
    }
}

/// The same, or a fault where they hold no command, not all of its words, or a word that isn't known.
fn line_options<'a>(
    alloc: Global,
    name: &str,
    found: &ArgMatches<'a>,
) -> Result<Options<'a>, LineFault>
    ensures held { IfOk result (HoldsAt name.now (rows_of (found_of found.now))) }
    ensures fault { IfErr result IsOfWords }
{
    match options_at(name, found) {
        Some(options) => Ok(options),
        None => Err(unheld(alloc, found)),
    }
}

/// The fault of words that clap refuses.
fn refusal(alloc: Global, error: Error) -> LineFault
    ensures { IsOfWords result }
{
    match told(alloc, &error) {
        Ok(Some(fault)) => fault,
        Ok(None) => LineFault::Line(error),
        Err(_) => LineFault::NoMemory,
    }
}

/// The options that the words hold.
fn held_options<'a>(alloc: Global, words: &'a [&'a str]) -> Result<Options<'a>, LineFault>
    ensures held { IfOk result (Holds (map (λ s. s.now) words.entry.now)) }
    ensures fault { IfErr result IsOfWords }
{
    let command = match line_command(alloc) {
        Ok(command) => command,
        Err(_) => return Err(LineFault::NoMemory),
    };
    let found = match command.try_get_matches_from(words) {
        Ok(found) => found,
        Err(error) => return Err(refusal(alloc, error)),
    };
    match found.subcommand() {
        None => Err(LineFault::NoCommand),
        Some((name, matches)) => line_options(alloc, name, matches),
    }
}

/// Reads the line, whose first word is the program's own. A line that names standard input for both of its texts is refused, as the second
/// one read would be empty.
pub fn options<'a>(alloc: Global, words: &'a [&'a str]) -> Result<Options<'a>, LineFault>
    ensures asked { IfOk result (Asks (map (λ s. s.now) words.entry.now)) }
    ensures twice { IsErrOf result fault.InputTwice → AsksTwice (map (λ s. s.now) words.entry.now) }
{
    let asked = match held_options(alloc, words) {
        Ok(asked) => asked,
        Err(fault) => return Err(fault),
    };
    if is_input_twice(asked) {
        return Err(LineFault::InputTwice);
    }
    Ok(asked)
}
