//! CSV files as an input text.

ghost use Rattle.schema.specs.declared.tables.Constant.{Constant};
ghost use Rattle.schema.specs.declared.tables.Schema.{Schema};
ghost use Rattle.schema.specs.declared.tables.Table.{Table};
ghost use Rattle.schema.specs.Schemas.{IsSchema};
ghost use Rattle.csv_answers.specs.declared.refusal.Fault.{Fault};
ghost use Rattle.std.specs.Prelude.{◌≡◌, ◌↔◌, ◌+◌, ◌<◌, ◌^◌, ◌++◌, ◌∷◌, [], true, IfErr, IfOk, IfSome, IsTrue, List, OnOk, Option, Some, codes, get_or, length, slice_get, map, ℕ};
ghost use Rattle.std.specs.List.{list_any};
ghost use Rattle.csv_cells.specs.Texts.{Grows, texts_of};
ghost use Rattle.tables.specs.Inputs.{AreAdded, AreFiles, AreInPlace, AreJoined, AreNew, AreNumbered, Completes, IsInput, NeedsNoFile, IsInputFault, IsRefusedFile, IsRefusedInput, has_own, held};
ghost use Rattle.csv_answers.specs.declared.refusal.TableRefusal.TheVariants as refusal;

use crate::file::encode_file;
use crate::line_sink::{LineSink, SinkFault};
use crate::refusal::{EncodeFault, EncodeRefusal, FileFault};
use csv_answers::TableRefusal;
use csv_cells::Dictionary;
use schema::{Constant, Epochs, Schema, Table};
use std::alloc::{AllocError, Global};
use std::io::Read;

/// The files of a schema's inputs.
pub trait TableFiles {
    /// A file, as it is read.
    type Reader: Read + Drop;

    // the bytes of the file of the input at that place, where they are known
    ghost content: { Self → ℕ → Option (List ℕ) };

    /// The file of the input at that place.
    fn open(&self, place: usize) -> Self::Reader
        ensures { Self.Reader.remaining result ≡ content self.now place };
}

/// Files in memory, in the inputs' order.
#[derive(Clone, Copy)]
pub struct MemoryFiles<'v> {
    pub texts: &'v [Vec<u8>],
}

impl<'v> TableFiles for MemoryFiles<'v> {
    type Reader = &'v [u8];

    ghost use Rattle.std.specs.Prelude.{map};
    ghost use Rattle.tables.specs.Inputs.{held};

    ghost content = { λ files. held (map (λ v. v.items) files.texts.now) };

    fn open(&self, place: usize) -> &'v [u8] {
        if place < self.texts.len() {
            self.texts[place].as_slice()
        } else {
            b""
        }
    }
}

/// Whether a table has an epoch for each value of a column.
fn has_own(epochs: Epochs) -> bool
    ensures { result ≡ has_own epochs }
{
    match epochs {
        Epochs::One | Epochs::Every => false,
        Epochs::By(_) => true,
    }
}

/// Appends the lines of the tables with epochs of their own, or of the others, each from its file.
fn encode_some<F: TableFiles, O: LineSink>(
    alloc: Global,
    tables: &[Table],
    own: bool,
    shared: &[u8],
    dictionary: &mut Dictionary,
    files: &F,
    out: &mut O,
) -> Result<(), EncodeFault>
    ensures joined { (before : List (List ℕ)) → length before ≡ length tables.now → OnOk result ((texts : List (List ℕ)) × (lines : List ℕ) × (length texts ≡ length tables.now)
        × Completes own (F.content files.now) before texts 0 tables.now × AreJoined own shared.now texts (texts_of dictionary.new) 0 tables.now lines
        × ((first : O) (taken : List ℕ) → O.took first out.old taken → O.took first out.new (taken ++ lines))) }
    ensures refused { IfErr result (IsInputFault tables.now (F.content files.now) (texts_of dictionary.new)) }
    ensures grows { OnOk result (Grows (texts_of dictionary.old) (texts_of dictionary.new)) }
    ensures stays { (first : O) → O.stays first out.old → O.stays first out.new }
{
    for place in 0..tables.len() {
        let table = &tables[place];
        if has_own(table.epochs) != own {
            continue;
        }
        match encode_file(alloc, table, shared, dictionary, files.open(place), out) {
            Ok(()) => {}
            Err(fault) => return Err(EncodeFault { file: place, fault }),
        }
    }
    Ok(())
}

/// Whether one of the tables has an epoch for each value of a column.
pub fn has_epochs(tables: &[Table]) -> bool
    ensures { result ≡ list_any (λ table. has_own table.epochs) tables.now }
{
    tables.iter().any(|table| has_own(table.epochs))
}

/// Puts the constants into the dictionary.
fn number_constants(
    alloc: Global,
    constants: &[Constant],
    dictionary: &mut Dictionary,
) -> Result<(), AllocError>
    ensures { OnOk result (AreAdded constants.now (texts_of dictionary.old) (texts_of dictionary.new)) }
{
    for i in 0..constants.len() {
        dictionary.number(alloc, constants[i].text.as_slice())?;
    }
    Ok(())
}

/// Whether a place of a dictionary has a constant's text, or no text.
fn is_in_place(constant: &Constant, dictionary: &Dictionary, place: usize) -> bool
    requires { place < 2 ^ 63 }
    ensures { IsTrue result ↔ IfSome (slice_get (texts_of dictionary.now) place) (λ text. text ≡ constant.now.text.items) }
{
    match dictionary.text(place as i64) {
        Some(text) => text == constant.text.as_slice(),
        None => true,
    }
}

/// Whether the texts from a place on are those of the constants, as far as both go.
fn are_in_place(constants: &[Constant], dictionary: &Dictionary, place: usize) -> bool
    requires { place + length constants.now < 2 ^ 63 }
    ensures { IsTrue result ↔ AreInPlace constants.now (texts_of dictionary.now) place }
{
    match constants {
        [] => true,
        [constant, constants @ ..] => {
            is_in_place(constant, dictionary, place)
                && are_in_place(constants, dictionary, place + 1)
        }
    }
}

/// Whether a dictionary begins with the constants, as far as it goes: then each of them has the number of its place, or gets it.
pub fn begins_with_constants(constants: &[Constant], dictionary: &Dictionary) -> bool
    ensures { IsTrue result ↔ AreInPlace constants.now (texts_of dictionary.now) 0 }
{
    are_in_place(constants, dictionary, 0)
}

/// What stops all files, told of the first.
fn stopped(fault: SinkFault) -> EncodeFault
    ensures { NeedsNoFile result.fault }
{
    let fault = match fault {
        SinkFault::NoMemory => FileFault::Refused(TableRefusal::NoMemory),
        SinkFault::Stopped => FileFault::Stopped,
    };
    EncodeFault { file: 0, fault }
}

/// Appends the input text of the files. New texts go to the end of the dictionary, the constants first.
///
/// A refusal is of the first file that has a fault, but that those with all their rows in each epoch come first. Then some lines may have gone to `out`, and
/// new texts into the dictionary.
pub fn encode<F: TableFiles, O: LineSink>(
    alloc: Global,
    schema: &Schema,
    dictionary: &mut Dictionary,
    files: &F,
    out: &mut O,
) -> Result<(), EncodeFault>
    ensures input { OnOk result ((texts : List (List ℕ)) × (input : List ℕ) × (length texts ≡ length schema.now.inputs.items) × AreFiles (F.content files.now) texts 0 schema.now.inputs.items
        × IsInput schema.now texts (texts_of dictionary.new) input × ((first : O) (taken : List ℕ) → O.took first out.old taken → O.took first out.new (taken ++ input))) }
    ensures refused { IfErr result (IsInputFault schema.now.inputs.items (F.content files.now) (texts_of dictionary.new)) }
    ensures grows { OnOk result (Grows (texts_of dictionary.old) (texts_of dictionary.new)) }
    ensures numbered { OnOk result (AreNumbered schema.now.constants.items (texts_of dictionary.old) (texts_of dictionary.new)) }
    ensures stays { (first : O) → O.stays first out.old → O.stays first out.new }
{
    let tables = schema.inputs.as_slice();
    if number_constants(alloc, schema.constants.as_slice(), dictionary).is_err() {
        return Err(stopped(SinkFault::NoMemory));
    }
    if !has_epochs(tables) {
        match out.append(b"epoch\n") {
            Ok(()) => {}
            Err(fault) => return Err(stopped(fault)),
        }
        encode_some(alloc, tables, false, b"", dictionary, files, out)?;
        return Ok(());
    }
    let mut shared = Vec::new(alloc);
    encode_some(alloc, tables, false, b"", dictionary, files, &mut shared)?;
    encode_some(
        alloc,
        tables,
        true,
        shared.as_slice(),
        dictionary,
        files,
        out,
    )?;
    Ok(())
}

/// The refusal of a file in memory.
fn refusal_of(fault: EncodeFault) -> EncodeRefusal
    ensures { (tables : List Table) (files texts : List (List ℕ)) → IsInputFault tables (held files) texts fault → IsRefusedInput tables files texts result }
{
    let EncodeFault { file, fault } = fault;
    let refusal = match fault {
        FileFault::Refused(refusal) => refusal,
        FileFault::Read | FileFault::Count | FileFault::Stopped => TableRefusal::NoMemory,
    };
    EncodeRefusal { file, refusal }
}

/// The input text of files in memory, one for each input of the schema, in its order; as `encode` appends it.
pub fn encode_texts(
    alloc: Global,
    schema: &Schema,
    dictionary: &mut Dictionary,
    files: &[Vec<u8>],
) -> Result<Vec<u8>, EncodeRefusal>
    ensures input { IfOk result (λ out. IsInput schema.now (map (λ v. v.items) files.now) (texts_of dictionary.new) out.items) }
    ensures refused { IfErr result (IsRefusedInput schema.now.inputs.items (map (λ v. v.items) files.now) (texts_of dictionary.new)) }
    ensures grows { OnOk result (Grows (texts_of dictionary.old) (texts_of dictionary.new)) }
    ensures numbered { OnOk result (AreNumbered schema.now.constants.items (texts_of dictionary.old) (texts_of dictionary.new)) }
{
    let mut out = Vec::new(alloc);
    let files = MemoryFiles { texts: files };
    match encode(alloc, schema, dictionary, &files, &mut out) {
        Ok(()) => Ok(out),
        Err(fault) => Err(refusal_of(fault)),
    }
}

/// Of files of which one is refused there is no input text by any dictionary, if the schema is right.
pub fn law_refused_input()
    ensures { (schema : Schema) (files texts others : List (List ℕ)) (out : List ℕ) (file : ℕ) (table : Table) (fault : Fault) (line : ℕ) → IsSchema schema
        → slice_get schema.inputs.items file ≡ Some table → IsRefusedFile table (get_or files file []) texts (refusal.At fault line) → ¬ IsInput schema files others out }
{}

/// In a new dictionary a constant's number is its place among the constants, if their texts differ.
pub fn law_constants()
    ensures { (constants : List Constant) (texts : List (List ℕ)) → AreNew [] constants → AreAdded constants [] texts → texts ≡ map (λ constant. constant.text.items) constants }
{}
