//! The texts of a command: its schema, its dictionary and its files.

ghost use Rattle.std.specs.Prelude.{◌≡◌, ◌++◌, ◌∷◌, Contains, IfOk, IfSome, map};
ghost use Rattle.collector.specs.Watching.{inner_of};
ghost use Rattle.csv_cells.specs.Texts.{texts_of};
ghost use Rattle.table_files.specs.Read.{AreNamed, BeginsFor, IsKnownAs, IsOpenedAs, IsReadSchema};
ghost use Rattle.tables.specs.Tables.{IsReadDictionary};

use collector::{ReadFault, Sources, Watched, open_named, read_all};
use csv_cells::{Column, Dictionary, Kind};
use schema::{Schema, Table, read_schema};
use std::alloc::Global;
use std::io::{ErrorKind, Read};
use table_faults::{Fault, WordFault, dictionary_fault, schema_fault};
use tables::{begins_with_constants, read_dictionary};

/// All of a file.
pub fn read_file<'a, S: Sources<'a>>(
    alloc: Global,
    sources: &S,
    path: &'a str,
) -> Result<Vec<u8>, Fault<'a>>
    ensures { IfOk result (λ v. IsKnownAs (S.content sources.now path.now) v.items) }
{
    let mut opened = open_named(sources, path);
    read_text(alloc, path, &mut opened.text)
}

/// All of a text.
fn read_text<'a, R: Read>(
    alloc: Global,
    path: &'a str,
    text: &mut Watched<R>,
) -> Result<Vec<u8>, Fault<'a>>
    ensures { IfOk result (λ v. IsKnownAs (R.remaining (inner_of text.old)) v.items) }
{
    match read_all(alloc, text) {
        Ok(bytes) => Ok(bytes),
        Err(ReadFault::NoMemory) => Err(Fault::NoMemory),
        Err(ReadFault::Failed) => Err(Fault::Read(path)),
    }
}

/// The schema of a file.
pub fn schema_of<'a, S: Sources<'a>>(
    alloc: Global,
    sources: &S,
    path: &'a str,
) -> Result<Schema, Fault<'a>>
    ensures { IfOk result (IsReadSchema (S.content sources.now path.now)) }
{
    let text = read_file(alloc, sources, path)?;
    match read_schema(alloc, text.as_slice()) {
        Ok(schema) => Ok(schema),
        Err(refusal) => Err(schema_fault(refusal)),
    }
}

/// Whether a table has texts.
fn has_texts(table: &Table) -> bool {
    table.columns.iter().any(|column| {
        matches!(
            column,
            Column {
                kind: Kind::Text,
                ..
            }
        )
    })
}

/// Whether one of the tables has texts.
fn any_texts(tables: &[Table]) -> bool {
    tables.iter().any(|table| has_texts(table))
}

/// Whether a schema has texts, whose numbers a dictionary keeps.
pub fn needs_dictionary(schema: &Schema) -> bool {
    !schema.constants.is_empty()
        || any_texts(schema.inputs.as_slice())
        || any_texts(schema.outputs.as_slice())
}

/// The dictionary of a text.
fn dictionary_of_text<'a>(
    alloc: Global,
    path: &'a str,
    text: &[u8],
) -> Result<Dictionary, Fault<'a>>
    ensures { IfOk result (λ dictionary. IsReadDictionary text.now (texts_of dictionary)) }
{
    match read_dictionary(alloc, text) {
        Ok(dictionary) => Ok(dictionary),
        Err(refusal) => Err(dictionary_fault(alloc, path, refusal)),
    }
}

/// The dictionary of a file. Where a new one may begin, one that isn't there is empty.
pub fn dictionary_of<'a, S: Sources<'a>>(
    alloc: Global,
    sources: &S,
    path: &'a str,
    may_begin: bool,
) -> Result<Dictionary, Fault<'a>>
    ensures { IfOk result (λ dictionary. IsOpenedAs may_begin (S.content sources.now path.now) (texts_of dictionary)) }
{
    let mut opened = open_named(sources, path);
    match read_all(alloc, &mut opened.text) {
        Ok(text) => dictionary_of_text(alloc, path, text.as_slice()),
        Err(ReadFault::NoMemory) => Err(Fault::NoMemory),
        Err(ReadFault::Failed) => {
            if may_begin && opened.text.reason() == Some(ErrorKind::NotFound) {
                return Ok(Dictionary::new(alloc));
            }
            Err(Fault::Read(path))
        }
    }
}

/// The dictionary of a file, by which the files of a schema are encoded; one that isn't there is empty. Refused where a constant of the schema would have
/// another number in it than its place.
pub fn encoding_dictionary<'a, S: Sources<'a>>(
    alloc: Global,
    sources: &S,
    schema: &Schema,
    path: &'a str,
) -> Result<Dictionary, Fault<'a>>
    ensures { IfOk result (λ dictionary. BeginsFor (S.content sources.now path.now) schema.now.constants.items (texts_of dictionary)) }
{
    let dictionary = dictionary_of(alloc, sources, path, true)?;
    if begins_with_constants(&schema.constants, &dictionary) {
        Ok(dictionary)
    } else {
        Err(Fault::Words(WordFault::OtherNumbers(path)))
    }
}

/// The file that a word `NAME=FILE` gives to the input of that name.
fn path_of<'a>(word: &'a str, name: &[u8]) -> Option<&'a str>
    ensures { IfSome result (λ path. word.now ≡ name.now ++ 61 ∷ path.now) }
{
    let (key, path) = word.split_once('=')?;
    if key.as_bytes() == name {
        Some(path)
    } else {
        None
    }
}

/// The file of an input, by the words `NAME=FILE` of the line.
fn file_of<'a>(words: &[&'a str], name: &[u8]) -> Result<&'a str, WordFault<'a>>
    ensures { IfOk result (λ path. Contains (map (λ s. s.now) words.now) (name.now ++ 61 ∷ path.now)) }
{
    let mut found = None;
    for i in 0..words.len() {
        if let Some(path) = path_of(words[i], name) {
            if found.is_some() {
                return Err(WordFault::Files);
            }
            found = Some(path);
        }
    }
    match found {
        Some(path) => Ok(path),
        None => Err(WordFault::Files),
    }
}

/// Whether a word names an input of the schema.
fn names_input(schema: &Schema, word: &str) -> bool {
    match word.split_once('=') {
        Some((name, _)) => schema
            .inputs
            .iter()
            .any(|table| table.name.as_slice() == name.as_bytes()),
        None => false,
    }
}

/// The files of the inputs, in the schema's order.
pub fn paths_of<'a>(
    alloc: Global,
    schema: &Schema,
    words: &[&'a str],
) -> Result<Vec<&'a str>, Fault<'a>>
    ensures { IfOk result (λ paths. AreNamed schema.now.inputs.items (map (λ s. s.now) words.now) (map (λ s. s.now) paths.items)) }
{
    for word in words {
        if !names_input(schema, word) {
            return Err(Fault::Words(WordFault::NoTable(word)));
        }
    }
    let mut paths = Vec::new(alloc);
    for i in 0..schema.inputs.len() {
        match file_of(words, &schema.inputs[i].name) {
            Ok(path) => paths.push(path)?,
            Err(fault) => return Err(Fault::Words(fault)),
        }
    }
    Ok(paths)
}

/// How many of the paths are standard input.
fn count_inputs(paths: &[&str]) -> usize {
    paths.iter().filter(|path| **path == "-").count()
}

/// Whether two of the paths are standard input.
pub fn is_input_twice(paths: &[&str], others: &[&str]) -> bool {
    let first = count_inputs(paths);
    let second = count_inputs(others);
    first > 1 || second > 1 || first == 1 && second == 1
}
