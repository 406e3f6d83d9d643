//! The file of a dictionary: a CSV file of one column, with the header `text`, in which a text's number is its record's, from 0.

ghost use Rattle.csv_answers.specs.declared.refusal.TableRefusal.TheVariants as refusal;
ghost use Rattle.std.specs.Prelude.{◌≡◌, ◌≢◌, ◌∷◌, ◌++◌, [], IfErr, IfOk, OnOk, List, Some, false, map, slice_get, true, ℕ};
ghost use Rattle.csv.specs.Records.{fields_of};
ghost use Rattle.csv_cells.specs.Texts.{HasText, texts_of};
ghost use Rattle.csv_answers.specs.Files.{IsFile};
ghost use Rattle.tables.specs.Dictionaries.{IsDictionaryFile, dictionary_rows};
ghost use Rattle.tables.specs.Tables.{HasRead, IsReadDictionary, IsRefusedDictionary};
ghost use Rattle.csv_strict.specs.Strict.{IsStrict};

use crate::header::{new_reader, read_header, read_record};
use crate::refusal::RecordFault;
use csv::{ByteRecord, Reader, Writer};
use csv_answers::{Fault, TableRefusal, finish, new_file, write_cells};
use csv_cells::Dictionary;
use csv_strict::{check_text, line_of_record};
use std::alloc::Global;

/// The name of the only column.
const HEADER: &[u8] = b"text";

/// Adds the text of a record, which is the next of the dictionary. False if the record has another number of cells, or the text is there.
fn add_text(
    alloc: Global,
    dictionary: &mut Dictionary,
    row: &ByteRecord,
) -> Result<bool, TableRefusal>
    ensures added { IfOk result (λ added. added ≡ true → (text : List ℕ) × (fields_of row.now ≡ text ∷ []) × (texts_of dictionary.new ≡ texts_of dictionary.old ++ text ∷ [])) }
    ensures other { IfOk result (λ added. added ≡ false → (text : List ℕ) → fields_of row.now ≡ text ∷ [] → HasText text (texts_of dictionary.old)) }
    ensures refused { IfErr result (λ r. r ≡ refusal.NoMemory) }
{
    let count = dictionary.len();
    if row.len() != 1 {
        return Ok(false);
    }
    let Some(text) = row.get(0) else {
        return Ok(false);
    };
    dictionary.number(alloc, text)?;
    if dictionary.len() > count {
        Ok(true)
    } else {
        Ok(false)
    }
}

/// The names of the columns.
fn names(alloc: Global) -> Result<Vec<Vec<u8>>, TableRefusal>
    ensures named { IfOk result (λ names. map (λ v. v.items) names.items ≡ HEADER.now ∷ []) }
    ensures refused { IfErr result (λ r. r ≡ refusal.NoMemory) }
{
    let mut names = Vec::new(alloc);
    names.push(Vec::from_slice(alloc, HEADER)?)?;
    Ok(names)
}

/// Reads the header row.
fn read_names(alloc: Global, text: &[u8], reader: &mut Reader<&[u8]>) -> Result<(), TableRefusal>
    requires strict { IsStrict text.now }
    requires some { text.now ≢ [] }
    requires none { HasRead text.now [] reader.old }
    ensures read { OnOk result (HasRead text.now (dictionary_rows []) reader.new) }
    ensures refused { IfErr result (IsRefusedDictionary text.now) }
{
    let names = names(alloc)?;
    match read_header(alloc, reader, names.as_slice()) {
        Ok(()) => {}
        Err(RecordFault::Fault(fault)) => return Err(TableRefusal::At { fault, line: 1 }),
        Err(RecordFault::NoMemory | RecordFault::Stopped) => return Err(TableRefusal::NoMemory),
    }
    Ok(())
}

/// Adds the texts of the records that are left to those that were read.
fn add_texts(
    alloc: Global,
    text: &[u8],
    reader: &mut Reader<&[u8]>,
    row: &mut ByteRecord,
    dictionary: &mut Dictionary,
) -> Result<(), TableRefusal>
    requires strict { IsStrict text.now }
    requires some { text.now ≢ [] }
    requires read { HasRead text.now (dictionary_rows (texts_of dictionary.old)) reader.old }
    ensures read { OnOk result (IsReadDictionary text.now (texts_of dictionary.new)) }
    ensures refused { IfErr result (IsRefusedDictionary text.now) }
{
    for count in 1..u64::MAX {
        if !read_record(reader, row)? {
            return Ok(());
        }
        if !add_text(alloc, dictionary, row)? {
            let fault = Fault::Dictionary;
            let line = line_of_record(text, count);
            return Err(TableRefusal::At { fault, line });
        }
    }
    Err(TableRefusal::NoMemory)
}

/// The texts of the records under the header row.
fn read_texts(alloc: Global, text: &[u8]) -> Result<Dictionary, TableRefusal>
    requires strict { IsStrict text.now }
    requires some { text.now ≢ [] }
    ensures read { IfOk result (λ dictionary. IsReadDictionary text.now (texts_of dictionary)) }
    ensures refused { IfErr result (IsRefusedDictionary text.now) }
{
    let mut reader = new_reader(alloc, text);
    read_names(alloc, text, &mut reader)?;
    let mut row = ByteRecord::new(alloc);
    let mut dictionary = Dictionary::new(alloc);
    add_texts(alloc, text, &mut reader, &mut row, &mut dictionary)?;
    Ok(dictionary)
}

/// Reads the file of a dictionary. An empty one has no texts.
pub fn read_dictionary(alloc: Global, text: &[u8]) -> Result<Dictionary, TableRefusal>
    ensures read { IfOk result (λ dictionary. IsReadDictionary text.now (texts_of dictionary)) }
    ensures refused { IfErr result (IsRefusedDictionary text.now) }
{
    if text.is_empty() {
        return Ok(Dictionary::new(alloc));
    }
    if let Err(refusal) = check_text(text) {
        let fault = Fault::Text(refusal.fault);
        let line = refusal.line;
        return Err(TableRefusal::At { fault, line });
    }
    read_texts(alloc, text)
}

/// Writes the text of that number.
fn write_text(
    writer: &mut Writer<Vec<u8>>,
    dictionary: &Dictionary,
    number: usize,
) -> Result<(), TableRefusal>
    ensures { OnOk result ((rows : List (List (List ℕ))) → IsFile writer.old rows
        → (text : List ℕ) × (slice_get (texts_of dictionary.now) number ≡ Some text) × IsFile writer.new (rows ++ (text ∷ []) ∷ [])) }
{
    let Ok(number) = i64::try_from(number) else {
        return Err(TableRefusal::NoMemory);
    };
    let Some(text) = dictionary.text(number) else {
        return Err(TableRefusal::NoMemory);
    };
    match write_cells(writer, Some(text), &[]) {
        Some(()) => Ok(()),
        None => Err(TableRefusal::NoMemory),
    }
}

/// The text of a dictionary's file.
pub fn dictionary_text(alloc: Global, dictionary: &Dictionary) -> Result<Vec<u8>, TableRefusal>
    ensures { IfOk result (λ text. IsDictionaryFile (texts_of dictionary.now) text.items) }
{
    let mut writer = new_file(alloc);
    let Some(()) = write_cells(&mut writer, Some(HEADER), &[]) else {
        return Err(TableRefusal::NoMemory);
    };
    for place in 0..dictionary.len() {
        write_text(&mut writer, dictionary, place)?;
    }
    finish(writer)
}

/// A dictionary's file that is read gives the texts that were written, and no others.
pub fn law_read_again()
    ensures { (texts others : List (List ℕ)) (file : List ℕ) → IsDictionaryFile texts file → IsReadDictionary file others → others ≡ texts }
{}
