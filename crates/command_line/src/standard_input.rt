//! Standard input, which only one text can be.

ghost use Rattle.std.specs.Prelude.{◌≡◌, ◌↔◌, IsTrue, codes};
ghost use Rattle.command_line.specs.Line.{AreBothInput, IsQueryInput, NamesInputTwice};

use crate::line_options::Options;
use crate::query::Query;

/// Whether a name is that of standard input.
fn is_input(name: &str) -> bool
    ensures { IsTrue result ↔ (name.now ≡ codes "-") }
{
    name == "-"
}

/// Whether a query is read from standard input.
fn is_query_input(query: Query<'_>) -> bool
    ensures { IsTrue result ↔ IsQueryInput query.entry }
{
    match query {
        Query::File(path) => is_input(path),
        Query::Inline(_) => false,
    }
}

/// Whether both the query and the other text are standard input.
fn are_both_input(query: Query<'_>, other: &str) -> bool
    ensures { IsTrue result ↔ AreBothInput query.entry other.now }
{
    is_query_input(query) && is_input(other)
}

/// Whether both texts that the options name are standard input.
pub fn is_input_twice(asked: Options<'_>) -> bool
    ensures { IsTrue result ↔ NamesInputTwice asked.entry }
{
    match asked {
        Options::Run { query, input, .. } | Options::Follow { query, input, .. } => {
            are_both_input(query, input)
        }
        Options::Check {
            query,
            input: Some(input),
            ..
        } => are_both_input(query, input),
        Options::Replay {
            query,
            schedule,
            ..
        } => are_both_input(query, schedule),
        Options::Check { input: None, .. }
        | Options::Graph { .. }
        | Options::Format { .. }
        | Options::Sql { .. }
        | Options::Explain { .. } => false,
    }
}
