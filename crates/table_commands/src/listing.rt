//! The command `kinds`.

ghost use Rattle.std.specs.Prelude.{◌≡◌, ◌⊎◌, IfErr, IfOk, List, OnOk, ℕ};
ghost use Rattle.collector.specs.Watching.{inner_of};
ghost use Rattle.query_kinds.specs.Listed.{IsListed};
ghost use Rattle.schema.specs.declared.tables.Schema.{Schema};
ghost use Rattle.table_commands.specs.Done.{HasListedKinds};
ghost use Rattle.table_commands.specs.Read.{IsKnownAs, IsReadSchema};
ghost use Rattle.table_commands.specs.Written.{IsWriteFault};

use bumpalo::Bump;
use collector::{Sources, Watched};
use query_kinds::kinds_text;
use record_core::Refusal;
use schema::Schema;
use std::alloc::Global;
use std::io::Write;
use table_files::{Fault, WordFault, read_file, schema_of, write_text};
use table_words::Listing;

/// The list of a query's fields, by a schema.
fn listed_by<'a, S: Sources<'a>>(
    alloc: Global,
    sources: &S,
    schema: &Schema,
    query: &'a str,
) -> Result<Vec<u8>, Fault<'a>>
    ensures { IfOk result (λ listing. (text : List ℕ) × IsKnownAs (S.content sources.now query.now) text × IsListed text schema.now listing.items) }
{
    let query = read_file(alloc, sources, query)?;
    let arena = Bump::new(alloc);
    match kinds_text(alloc, &arena, query.as_slice(), schema) {
        Ok(text) => Ok(text),
        Err(Refusal::NoMemory) => Err(Fault::NoMemory),
        Err(Refusal::At { code, span }) => Err(Fault::Query(code, span)),
    }
}

/// The list of the query's fields.
fn listed<'a, S: Sources<'a>>(
    alloc: Global,
    sources: &S,
    asked: Listing<'a>,
) -> Result<Vec<u8>, Fault<'a>>
    ensures { IfOk result (λ listing. (schema : Schema) × IsReadSchema (S.content sources.now asked.entry.schema.now) schema
        × (text : List ℕ) × IsKnownAs (S.content sources.now asked.entry.query.now) text × IsListed text schema listing.items) }
{
    if asked.schema == "-" && asked.query == "-" {
        return Err(Fault::Words(WordFault::InputTwice));
    }
    let schema = schema_of(alloc, sources, asked.schema)?;
    listed_by(alloc, sources, &schema, asked.query)
}

/// Writes what the fields of a query stand for. At a fault nothing is written, unless the writer failed.
pub fn list_kinds<'a, S: Sources<'a>, W: Write>(
    alloc: Global,
    sources: &S,
    asked: Listing<'a>,
    out: &mut Watched<W>,
) -> Result<(), Fault<'a>>
    ensures written { OnOk result (HasListedKinds (S.content sources.now) asked.entry.schema.now asked.entry.query.now (W.contents (inner_of out.old))
        (W.contents (inner_of out.new))) }
    ensures fault { IfErr result (λ fault. IsWriteFault fault ⊎ (W.contents (inner_of out.new) ≡ W.contents (inner_of out.old))) }
{
    let text = listed(alloc, sources, asked)?;
    write_text(text.as_slice(), out)
}
