//! The command `decode`.

ghost use Rattle.std.specs.Prelude.{◌≡◌, ◌⊎◌, Contains, IfErr, IfOk, IfSome, OnOk, option_map};
ghost use Rattle.collector.specs.Watching.{inner_of};
ghost use Rattle.csv_cells.specs.Texts.{texts_of};
ghost use Rattle.schema.specs.declared.tables.Schema.{Schema};
ghost use Rattle.table_commands.specs.Done.{AreKnownBy, HasDecoded, IsDecodedBy};
ghost use Rattle.table_commands.specs.Read.{IsOutput, IsReadSchema};
ghost use Rattle.table_commands.specs.Written.{IsWriteFault};

use collector::{Sources, Watched};
use csv_cells::Dictionary;
use schema::{Schema, Table};
use std::alloc::Global;
use std::io::Write;
use table_files::{
    Fault, WordFault, dictionary_of, is_input_twice, needs_dictionary, read_file, schema_of,
    table_fault, write_text,
};
use table_words::Decoding;
use tables::{decode, has_epochs};

/// The table of that name.
fn named_table<'s>(tables: &'s [Table], name: &[u8]) -> Option<&'s Table>
    ensures { IfSome result (λ table. Contains tables.now table.now × (table.now.name.items ≡ name.now)) }
{
    for i in 0..tables.len() {
        if tables[i].name.as_slice() == name {
            return Some(&tables[i]);
        }
    }
    None
}

/// The output that is asked for: by its name, or the only one.
pub fn output_of<'s>(schema: &'s Schema, name: Option<&str>) -> Option<&'s Table>
    ensures { IfSome result (λ table. IsOutput schema.now.outputs.items (option_map (λ s. s.now) name.entry) table.now) }
{
    match name {
        Some(name) => named_table(schema.outputs.as_slice(), name.as_bytes()),
        None if schema.outputs.len() == 1 => schema.outputs.first(),
        None => None,
    }
}

/// The dictionary that is named, or one without texts.
fn known_texts<'a, S: Sources<'a>>(
    alloc: Global,
    sources: &S,
    schema: &Schema,
    name: Option<&'a str>,
) -> Result<Dictionary, Fault<'a>>
    ensures { IfOk result (λ texts. AreKnownBy (S.content sources.now) (option_map (λ s. s.now) name.entry) (texts_of texts)) }
{
    match name {
        Some(name) => dictionary_of(alloc, sources, name, false),
        None if needs_dictionary(schema) => Err(Fault::Words(WordFault::NoDictionary)),
        None => Ok(Dictionary::new(alloc)),
    }
}

/// The CSV file of an answer, by a schema.
fn decoded_by<'a, S: Sources<'a>>(
    alloc: Global,
    sources: &S,
    schema: &Schema,
    asked: Decoding<'a>,
) -> Result<Vec<u8>, Fault<'a>>
    ensures { IfOk result (λ file. IsDecodedBy (S.content sources.now) schema.now asked.entry.answer.now (option_map (λ s. s.now) asked.entry.dictionary)
        (option_map (λ s. s.now) asked.entry.output) file.items) }
{
    let Some(table) = output_of(schema, asked.output) else {
        return Err(Fault::Words(WordFault::NoOutput));
    };
    let dictionary = known_texts(alloc, sources, schema, asked.dictionary)?;
    let answer = read_file(alloc, sources, asked.answer)?;
    match decode(
        alloc,
        table,
        has_epochs(schema.inputs.as_slice()),
        &dictionary,
        answer.as_slice(),
    ) {
        Ok(text) => Ok(text),
        Err(refusal) => Err(table_fault(alloc, asked.answer, table, refusal)),
    }
}

/// The CSV file of an answer.
fn decoded<'a, S: Sources<'a>>(
    alloc: Global,
    sources: &S,
    asked: Decoding<'a>,
) -> Result<Vec<u8>, Fault<'a>>
    ensures { IfOk result (λ file. (schema : Schema) × IsReadSchema (S.content sources.now asked.entry.schema.now) schema
        × IsDecodedBy (S.content sources.now) schema asked.entry.answer.now (option_map (λ s. s.now) asked.entry.dictionary)
        (option_map (λ s. s.now) asked.entry.output) file.items) }
{
    let dictionary = asked.dictionary.unwrap_or("");
    if is_input_twice(&[asked.schema, asked.answer, dictionary], &[]) {
        return Err(Fault::Words(WordFault::InputTwice));
    }
    let schema = schema_of(alloc, sources, asked.schema)?;
    decoded_by(alloc, sources, &schema, asked)
}

/// Writes the CSV file of an answer. At a fault nothing is written, unless the writer failed.
pub fn decode_answer<'a, S: Sources<'a>, W: Write>(
    alloc: Global,
    sources: &S,
    asked: Decoding<'a>,
    out: &mut Watched<W>,
) -> Result<(), Fault<'a>>
    ensures written { OnOk result (HasDecoded (S.content sources.now) asked.entry.schema.now asked.entry.answer.now
        (option_map (λ s. s.now) asked.entry.dictionary) (option_map (λ s. s.now) asked.entry.output) (W.contents (inner_of out.old))
        (W.contents (inner_of out.new))) }
    ensures fault { IfErr result (λ fault. IsWriteFault fault ⊎ (W.contents (inner_of out.new) ≡ W.contents (inner_of out.old))) }
{
    let text = decoded(alloc, sources, asked)?;
    write_text(text.as_slice(), out)
}
