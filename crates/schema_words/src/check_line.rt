//! The words of `check --schema`, read by `clap`.

ghost use Rattle.std.specs.Prelude.{◌≡◌, IfOk, IfSome, map};
ghost use Rattle.clap.specs.Words.{HasMatchesOf, found_of, rows_of};
ghost use Rattle.schema_words.specs.Line.{AsksCheck, HoldsCheck, check_line};

use crate::run_line::SCHEMA;
use clap::ArgMatches;
use command_line::{EXPLAIN, INLINE, QUERY, Query, Usage, flag_of, query_of, text_of};
use std::alloc::Global;
use table_words::{LineError, matches_of};

/// What a line `loom check --schema SCHEMA QUERY` asks for, with a fault explained with `--explain`.
#[derive(Clone, Copy)]
pub struct TableCheck<'a> {
    pub schema: &'a str,
    pub query: Query<'a>,
    pub explain: bool,
}

const COMMANDS: &[Usage<'static>] = &[Usage {
    name: "check",
    about: "Check what a query computes by a schema, and say what its fields stand for",
    parameters: &[SCHEMA, EXPLAIN, INLINE, QUERY],
}];

/// What the matches of `check` hold.
fn asked<'a>(found: &ArgMatches<'a>) -> Option<TableCheck<'a>>
    ensures { IfSome result (HoldsCheck (rows_of (found_of found.now))) }
{
    Some(TableCheck {
        schema: text_of(found, "schema")?,
        query: query_of(found)?,
        explain: flag_of(found, "explain"),
    })
}

fn line_matches<'a>(alloc: Global, words: &'a [&'a str]) -> Result<ArgMatches<'a>, LineError>
    ensures { IfOk result (HasMatchesOf check_line (map (λ s. s.now) words.entry.now)) }
{
    matches_of(alloc, COMMANDS, words)
}

/// What the words ask for; `None` where they hold no command after all.
#[tactic(auto, unfolding(crate::specs::Line::AsksCheck))]
pub fn read_check_words<'a>(
    alloc: Global,
    words: &'a [&'a str],
) -> Result<Option<TableCheck<'a>>, LineError>
    ensures { IfOk result (λ asked. IfSome asked (AsksCheck (map (λ s. s.now) words.entry.now))) }
{
    let found = line_matches(alloc, words)?;
    let Some((name, matches)) = found.subcommand() else {
        return Ok(None);
    };
    if name == "check" {
        Ok(asked(matches))
    } else {
        Ok(None)
    }
}
