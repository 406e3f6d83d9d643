//! What a line names, read and checked before any CSV file.

ghost use Rattle.std.specs.Prelude.{◌≡◌, IfOk, map, option_map};
ghost use Rattle.collector.specs.Watching.{inner_of};
ghost use Rattle.query_answers.specs.Runs.{read_part};
ghost use Rattle.table_commands.specs.Read.{AreNamed, IsKnownAs, IsOutput, IsReadSchema};
ghost use Rattle.query_kinds.specs.Listed.{IsListed};
ghost use Rattle.table_queries.specs.Begun.{HasListed, IsBegun, IsQueryText};

use crate::columns::columns_at;
use crate::fault::RunFault;
use bumpalo::Bump;
use collector::{ReadFault, Sources, Watched, open_named, read_at_most};
use command_line::Query;
use diagnostics::{Fault, Texts};
use lexer::MAX_LENGTH;
use query_kinds::kinds_text;
use record_core::Refusal;
use schema::{Schema, Table};
use schema_words::{TableCheck, TableRun};
use std::alloc::Global;
use std::io::Read;
use table_commands::{WordFault, is_input_twice, output_of, paths_of, schema_of};

/// The longest query text, in bytes, and one byte more: enough to show that a text is too long.
const QUERY_LIMIT: usize = MAX_LENGTH + 1;

/// What is read before any CSV file.
#[derive(Drop)]
pub struct Begun<'a> {
    pub schema: Schema,
    /// The files of the schema's inputs, in its order.
    pub paths: Vec<&'a str>,
    pub query: Vec<u8>,
}

/// Reads a query text, and no byte past the limit.
fn read_query<R: Read>(
    alloc: Global,
    text: &mut Watched<R>,
    texts: &mut Texts,
) -> Result<Vec<u8>, Fault>
    ensures { IfOk result (λ v. IsKnownAs (option_map read_part (R.remaining (inner_of text.old))) v.items) }
{
    match read_at_most(alloc, QUERY_LIMIT, text) {
        Ok(bytes) => Ok(bytes),
        Err(ReadFault::NoMemory) => Err(Fault::NoMemory),
        Err(ReadFault::Failed) => {
            texts.reason = text.reason();
            Err(Fault::ReadQuery)
        }
    }
}

/// The text of a query, in a file or on the line.
fn query_text<'a, S: Sources<'a>>(
    alloc: Global,
    sources: &S,
    query: Query<'a>,
    texts: &mut Texts,
) -> Result<Vec<u8>, Fault>
    ensures { IfOk result (λ v. IsQueryText (S.content sources.now) query.entry v.items) }
{
    match query {
        Query::Inline(text) => read_query(alloc, &mut Watched::new(text.as_bytes()), texts),
        Query::File(path) => read_query(alloc, &mut open_named(sources, path).text, texts),
    }
}

/// What the fields of a query stand for by a schema, where it goes with that.
fn listing_of(alloc: Global, query: &[u8], schema: &Schema) -> Result<Vec<u8>, Fault>
    ensures { IfOk result (λ v. IsListed query.now schema.now v.items) }
{
    let arena = Bump::new(alloc);
    match kinds_text(alloc, &arena, query, schema) {
        Ok(listing) => Ok(listing),
        Err(Refusal::NoMemory) => Err(Fault::NoMemory),
        Err(Refusal::At { code, span }) => Err(Fault::Query {
            code,
            start: span.start,
            end: span.end,
        }),
    }
}

/// The path of a query's file; empty if it has none.
fn path_of<'a>(query: Query<'a>) -> &'a str {
    match query {
        Query::File(path) => path,
        Query::Inline(_) => "",
    }
}

/// The output that is asked for.
pub fn asked_output<'s, 'a>(
    schema: &'s Schema,
    output: Option<&'a str>,
) -> Result<&'s Table, RunFault<'a>>
    ensures { IfOk result (λ table. IsOutput schema.now.outputs.items (option_map (λ s. s.now) output.entry) table.now) }
{
    match output_of(schema, output) {
        Some(table) => Ok(table),
        None => {
            let fault = table_commands::Fault::Words(WordFault::NoOutput);
            Err(RunFault::Tables(fault))
        }
    }
}

/// The schema of a line, and the paths of its inputs' files. It has the output that is asked for.
fn named_files<'a, S: Sources<'a>>(
    alloc: Global,
    sources: &S,
    asked: &TableRun<'a>,
) -> Result<(Schema, Vec<&'a str>), RunFault<'a>>
    ensures read { IfOk result (λ n. IsReadSchema (S.content sources.now asked.now.schema.now) n.0) }
    ensures named { IfOk result (λ n. AreNamed n.0.inputs.items (map (λ s. s.now) asked.now.files.items) (map (λ s. s.now) n.1.items)) }
{
    let schema = schema_of(alloc, sources, asked.schema)?;
    let paths = paths_of(alloc, &schema, asked.files.as_slice())?;
    if is_input_twice(&[asked.schema, path_of(asked.query)], paths.as_slice()) {
        let fault = table_commands::Fault::Words(WordFault::InputTwice);
        return Err(RunFault::Tables(fault));
    }
    asked_output(&schema, asked.output)?;
    Ok((schema, paths))
}

/// The text of a query that goes with a schema, and what its fields stand for.
#[derive(Drop)]
struct Checked {
    query: Vec<u8>,
    listing: Vec<u8>,
}

/// The query of a line, which goes with its schema. Where it is refused, what was read is left in `texts`, and if that is to be explained, what is
/// said of the columns there.
fn checked_query<'a, S: Sources<'a>>(
    alloc: Global,
    sources: &S,
    query: Query<'a>,
    explain: bool,
    schema: &Schema,
    texts: &mut Texts,
) -> Result<Checked, Fault>
    ensures text { IfOk result (λ c. IsQueryText (S.content sources.now) query.entry c.query.items) }
    ensures listed { IfOk result (λ c. IsListed c.query.items schema.now c.listing.items) }
{
    let query = query_text(alloc, sources, query, texts)?;
    match listing_of(alloc, query.as_slice(), schema) {
        Ok(listing) => Ok(Checked { query, listing }),
        Err(fault) => {
            if explain {
                texts.input = columns_at(alloc, query.as_slice(), schema, &fault);
            }
            texts.query = query;
            Err(fault)
        }
    }
}

/// Reads the schema, the words and the query of a line, and checks that the query goes with the schema. Of the query what was read is left in
/// `texts` where it is refused, and if that is to be explained, what is said of the columns there, as its input.
///
/// Faults are reported in this order: the schema, the words, the query's text, what it computes by the schema.
pub fn begin_run<'a, S: Sources<'a>>(
    alloc: Global,
    sources: &S,
    asked: &TableRun<'a>,
    texts: &mut Texts,
) -> Result<Begun<'a>, RunFault<'a>>
    ensures { IfOk result (λ b. IsBegun (S.content sources.now) asked.now b.schema (map (λ s. s.now) b.paths.items) b.query.items) }
{
    let (schema, paths) = named_files(alloc, sources, asked)?;
    let checked = checked_query(alloc, sources, asked.query, asked.explain, &schema, texts)?;
    Ok(Begun {
        schema,
        paths,
        query: checked.query,
    })
}

/// Reads the schema and the query of a line, and gives what the query's fields stand for. Of a query that is refused what was read is left in
/// `texts`, and if that is to be explained, what is said of the columns there, as its input.
///
/// Faults are reported in this order: the words, the schema, the query's text, what it computes by the schema.
pub fn listed_fields<'a, S: Sources<'a>>(
    alloc: Global,
    sources: &S,
    asked: &TableCheck<'a>,
    texts: &mut Texts,
) -> Result<Vec<u8>, RunFault<'a>>
    ensures { IfOk result (λ v. HasListed (S.content sources.now) asked.now v.items) }
{
    if is_input_twice(&[asked.schema, path_of(asked.query)], &[]) {
        let fault = table_commands::Fault::Words(WordFault::InputTwice);
        return Err(RunFault::Tables(fault));
    }
    let schema = schema_of(alloc, sources, asked.schema)?;
    let checked = checked_query(alloc, sources, asked.query, asked.explain, &schema, texts)?;
    Ok(checked.listing)
}
