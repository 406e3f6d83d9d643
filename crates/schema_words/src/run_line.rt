//! The words of `run --schema` and `follow --schema`, read by `clap`.

ghost use Rattle.std.specs.Prelude.{◌≡◌, ◌⊎◌, IfOk, IfSome, codes, map, true};
ghost use Rattle.clap.specs.Words.{HasMatchesOf, found_of, rows_of};
ghost use Rattle.schema_words.specs.Line.{AsksRun, HoldsRun, run_line};

use clap::ArgMatches;
use command_line::{
    EXPLAIN, Form, INLINE, Parameter, QUERY, Query, Usage, WORKERS, Workers, flag_of, query_of,
    text_of, workers_of,
};
use std::alloc::{AllocError, Global};
use table_words::{DICTIONARY, FILES, LineError, OUTPUT, matches_of, texts_of};

/// What a line `loom run --schema SCHEMA QUERY NAME=FILE ..` or `loom follow --schema ..` asks for, on one worker or `--workers N`, with or without
/// `--dictionary FILE` and `--output NAME`; and a fault explained with `--explain`.
#[derive(Drop)]
pub struct TableRun<'a> {
    pub schema: &'a str,
    pub query: Query<'a>,
    pub files: Vec<&'a str>,
    pub dictionary: Option<&'a str>,
    pub output: Option<&'a str>,
    pub workers: Workers,
    pub explain: bool,
}

/// The option `--schema SCHEMA`.
pub const SCHEMA: Parameter<'static> = Parameter {
    name: "schema",
    form: Form::RequiredNamed("SCHEMA"),
    about: "The file with the schema; - is standard input",
};

/// What both commands take.
const PARAMETERS: &[Parameter<'static>] = &[
    SCHEMA, DICTIONARY, OUTPUT, WORKERS, EXPLAIN, INLINE, QUERY, FILES,
];

const COMMANDS: &[Usage<'static>] = &[
    Usage {
        name: "run",
        about: "Answer a query over CSV files, and write the answer as one, by a schema",
        parameters: PARAMETERS,
    },
    Usage {
        name: "follow",
        about: "Answer a query while one of its CSV files arrives, epoch by epoch, by a schema",
        parameters: PARAMETERS,
    },
];

/// What the matches of `run` or `follow` hold.
fn asked<'a>(alloc: Global, found: &ArgMatches<'a>) -> Result<Option<TableRun<'a>>, AllocError>
    ensures { IfOk result (λ asked. IfSome asked (HoldsRun (rows_of (found_of found.now)))) }
{
    let Some(schema) = text_of(found, "schema") else {
        return Ok(None);
    };
    let Some(query) = query_of(found) else {
        return Ok(None);
    };
    let Some(files) = texts_of(found, "NAME=FILE") else {
        return Ok(None);
    };
    let Some(workers) = workers_of(found) else {
        return Ok(None);
    };
    Ok(Some(TableRun {
        schema,
        query,
        files: Vec::from_slice(alloc, files)?,
        dictionary: text_of(found, "dictionary"),
        output: text_of(found, "output"),
        workers,
        explain: flag_of(found, "explain"),
    }))
}

fn line_matches<'a>(alloc: Global, words: &'a [&'a str]) -> Result<ArgMatches<'a>, LineError>
    ensures { IfOk result (HasMatchesOf run_line (map (λ s. s.now) words.entry.now)) }
{
    matches_of(alloc, COMMANDS, words)
}

/// Whether a word is `run` or `follow`.
fn is_command(word: &str) -> bool
    ensures { result ≡ true → (word.now ≡ codes "run") ⊎ (word.now ≡ codes "follow") }
{
    word == "run" || word == "follow"
}

/// What the words ask for; `None` where they hold no command after all.
pub fn read_run_words<'a>(
    alloc: Global,
    words: &'a [&'a str],
) -> Result<Option<TableRun<'a>>, LineError>
    ensures { IfOk result (λ asked. IfSome asked (AsksRun (map (λ s. s.now) words.entry.now))) }
{
    let found = line_matches(alloc, words)?;
    let Some((name, matches)) = found.subcommand() else {
        return Ok(None);
    };
    if is_command(name) {
        Ok(asked(alloc, matches)?)
    } else {
        Ok(None)
    }
}
