//! The numbers of a record, and the cells of numbers.

ghost use Rattle.csv_cells.specs.declared.row.RowFault.TheVariants as fault;
ghost use Rattle.std.specs.Prelude.{◌≡◌, ◌⊎◌, ℕ, List, IfErr, IfNone, IfOk, IfSome, OnOk, map};
ghost use Rattle.csv.specs.Records.{fields_of};
ghost use Rattle.csv_cells.specs.Cells.{IsNoCell, IsRefusedRow, Spells, StandsAs};
ghost use Rattle.text_dictionary.specs.Texts.{Grows, texts_of};

use crate::cell::{read_cell, write_cell};
use crate::column::Column;
use csv::ByteRecord;
use std::alloc::{AllocError, AllocFailed, Global};
use text_dictionary::Dictionary;

/// Why a record has no numbers.
#[derive(Clone, Copy, Debug, thiserror::Error)]
pub enum RowFault {
    #[error("another number of cells than of columns")]
    Length,
    /// The cell in that column, from 0, stands for nothing there.
    #[error("cell {0} stands for nothing in its column")]
    Cell(usize),
    #[error("out of memory")]
    NoMemory,
}

impl<T: Drop> From<AllocFailed<T>> for RowFault {
    ghost from_gives = { λ _ r. r ≡ fault.NoMemory };

    fn from(_: AllocFailed<T>) -> RowFault {
        RowFault::NoMemory
    }
}

impl From<AllocError> for RowFault {
    ghost from_gives = { λ _ r. r ≡ fault.NoMemory };

    fn from(_: AllocError) -> RowFault {
        RowFault::NoMemory
    }
}

/// The number of the cell in that column, from 0. A new text goes to the end of the dictionary.
fn number_of(
    alloc: Global,
    column: Column,
    dictionary: &mut Dictionary,
    cell: &[u8],
    place: usize,
) -> Result<i64, RowFault>
    ensures found { IfOk result (λ z. StandsAs column (texts_of dictionary.new) z cell.now) }
    ensures refused { IfErr result (λ why. (why ≡ fault.NoMemory)
        ⊎ ((why ≡ fault.Cell place) × IsNoCell column (texts_of dictionary.new) cell.now
        × Grows (texts_of dictionary.old) (texts_of dictionary.new))) }
    ensures grows { OnOk result (Grows (texts_of dictionary.old) (texts_of dictionary.new)) }
{
    match read_cell(alloc, column, dictionary, cell)? {
        Some(z) => Ok(z),
        None => Err(RowFault::Cell(place)),
    }
}

/// Puts the numbers of a record in place of those in `numbers`. New texts go to the end of the dictionary.
pub fn read_row(
    alloc: Global,
    columns: &[Column],
    dictionary: &mut Dictionary,
    row: &ByteRecord,
    numbers: &mut Vec<i64>,
) -> Result<(), RowFault>
    ensures spelled { OnOk result (Spells columns.now (texts_of dictionary.new) (fields_of row.now) numbers.new.items) }
    ensures refused { IfErr result (λ fault. IsRefusedRow columns.now (texts_of dictionary.new) (fields_of row.now) fault) }
    ensures grows { OnOk result (Grows (texts_of dictionary.old) (texts_of dictionary.new)) }
    ensures kept { IfErr result (λ why. (why ≡ fault.NoMemory) ⊎ Grows (texts_of dictionary.old) (texts_of dictionary.new)) }
{
    numbers.clear();
    if row.len() != columns.len() {
        return Err(RowFault::Length);
    }
    for i in 0..columns.len() {
        let column = columns[i];
        let Some(cell) = row.get(i) else {
            return Err(RowFault::Length);
        };
        let z = match number_of(alloc, column, dictionary, cell, i) {
            Ok(z) => z,
            Err(why) => return Err(why),
        };
        numbers.push(z)?;
    }
    Ok(())
}

/// The cell that a number stands for, if there is one.
fn cell_of(
    alloc: Global,
    column: Column,
    dictionary: &Dictionary,
    number: i64,
) -> Result<Option<Vec<u8>>, AllocError>
    ensures written { IfOk result (λ o. IfSome o (λ v. StandsAs column (texts_of dictionary.now) number v.items)) }
    ensures none { IfOk result (λ o. IfNone o ((cell : List ℕ) → ¬ StandsAs column (texts_of dictionary.now) number cell)) }
{
    let mut cell = Vec::new(alloc);
    if write_cell(column, dictionary, number, &mut cell)? {
        Ok(Some(cell))
    } else {
        Ok(None)
    }
}

/// The cells that numbers stand for, if there is one for each.
pub fn write_row(
    alloc: Global,
    columns: &[Column],
    dictionary: &Dictionary,
    numbers: &[i64],
) -> Result<Option<Vec<Vec<u8>>>, AllocError>
    ensures written { IfOk result (λ o. IfSome o (λ v. Spells columns.now (texts_of dictionary.now) (map (λ w. w.items) v.items) numbers.now)) }
    ensures none { IfOk result (λ o. IfNone o ((cells : List (List ℕ)) → ¬ Spells columns.now (texts_of dictionary.now) cells numbers.now)) }
{
    let mut cells = Vec::new(alloc);
    if numbers.len() != columns.len() {
        return Ok(None);
    }
    for i in 0..columns.len() {
        let column = columns[i];
        let number = numbers[i];
        let Some(cell) = cell_of(alloc, column, dictionary, number)? else {
            return Ok(None);
        };
        cells.push(cell)?;
    }
    Ok(Some(cells))
}
