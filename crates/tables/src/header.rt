//! The records of a CSV text, and its header row.

ghost use Rattle.std.specs.Prelude.{◌≡◌, ◌↔◌, ◌++◌, ◌∷◌, [], IfErr, IfOk, IsTrue, List, OnOk, Some, false, map, slice_get, true, ℕ};
ghost use Rattle.csv.specs.Reading.{AreRecords, default_config, strip_bom};
ghost use Rattle.csv.specs.Records.{fields_of};
ghost use Rattle.csv.specs.declared.parser.State.TheVariants as st;
ghost use Rattle.tables.specs.Tables.{HasRead, IsRefusedHeader};

use crate::refusal::RecordFault;
use csv::{ByteRecord, Reader, ReaderBuilder};
use csv_answers::Fault;
use std::alloc::{AllocError, Global};

/// A reader of a text.
pub fn new_reader<'a>(alloc: Global, text: &'a [u8]) -> Reader<&'a [u8]>
    ensures { HasRead text.now [] result }
{
    ReaderBuilder::new()
        .has_headers(false)
        .flexible(true)
        .from_reader(alloc, text)
}

/// Reads the next record, if there is one.
pub fn read_record(reader: &mut Reader<&[u8]>, row: &mut ByteRecord) -> Result<bool, AllocError>
    ensures more { IfOk result (λ more. more ≡ true → (text : List ℕ) (rows : List (List (List ℕ))) → HasRead text rows reader.old
        → HasRead text (rows ++ fields_of row.new ∷ []) reader.new) }
    ensures end { IfOk result (λ more. more ≡ false → (text : List ℕ) (rows : List (List (List ℕ))) → HasRead text rows reader.old
        → AreRecords default_config st.StartRecord (strip_bom text) rows) }
{
    let Ok(more) = reader.read_byte_record(row) else {
        return Err(AllocError);
    };
    Ok(more)
}

/// Whether a record has this cell at a place.
fn is_cell(row: &ByteRecord, place: usize, cell: &[u8]) -> bool
    ensures { IsTrue result ↔ (slice_get (fields_of row.now) place ≡ Some cell.now) }
{
    match row.get(place) {
        Some(found) => found == cell,
        None => false,
    }
}

/// Whether a record has exactly these cells.
fn has_cells(row: &ByteRecord, cells: &[Vec<u8>]) -> bool
    ensures { IsTrue result ↔ (fields_of row.now ≡ map (λ v. v.items) cells.now) }
{
    if row.len() != cells.len() {
        return false;
    }
    for i in 0..cells.len() {
        if !is_cell(row, i, cells[i].as_slice()) {
            return false;
        }
    }
    true
}

/// Reads the header row, whose cells are to be these names.
pub fn read_header(
    alloc: Global,
    reader: &mut Reader<&[u8]>,
    names: &[Vec<u8>],
) -> Result<(), RecordFault>
    ensures found { OnOk result ((text : List ℕ) → HasRead text [] reader.old → HasRead text (map (λ v. v.items) names.now ∷ []) reader.new) }
    ensures refused { IfErr result (λ fault. (text : List ℕ) → HasRead text [] reader.old → IsRefusedHeader (map (λ v. v.items) names.now) text fault) }
{
    let mut row = ByteRecord::new(alloc);
    match read_record(reader, &mut row) {
        Ok(true) => {}
        Ok(false) => return Err(RecordFault::Fault(Fault::Header)),
        Err(_) => return Err(RecordFault::NoMemory),
    }
    if !has_cells(&row, names) {
        return Err(RecordFault::Fault(Fault::Header));
    }
    Ok(())
}
