//! Laws: a record that is read and written again, and what a text of the grammar reads as.

ghost use Rattle.std.specs.Prelude.{◌≡◌, ◌≢◌, ℕ, ℤ, FitsSigned, IfOk, IfSome, List, map};
ghost use Rattle.std.specs.Int.{w64};
ghost use Rattle.csv.specs.Reading.{AreRecords, default_config};
ghost use Rattle.csv.specs.Records.{fields_of};
ghost use Rattle.csv.specs.declared.parser.State.TheVariants as st;
ghost use Rattle.csv_cells.specs.Cells.{StandsAs};
ghost use Rattle.csv_cells.specs.Rfc4180.{IsRowsText};
ghost use Rattle.csv_cells.specs.declared.column.Kind.TheVariants as kind;

use crate::column::Column;
use crate::row::{RowFault, read_row, write_row};
use csv::ByteRecord;
use std::alloc::Global;
use text_dictionary::Dictionary;

/// A record, read and written again, is the same.
pub fn through_numbers(
    alloc: Global,
    columns: &[Column],
    dictionary: &mut Dictionary,
    row: &ByteRecord,
) -> Result<Option<Vec<Vec<u8>>>, RowFault>
    ensures { IfOk result (λ o. IfSome o (λ v. map (λ w. w.items) v.items ≡ fields_of row.now)) }
{
    let mut numbers = Vec::new(alloc);
    read_row(alloc, columns, dictionary, row, &mut numbers)?;
    let written = write_row(alloc, columns, dictionary, numbers.as_slice())?;
    Ok(written)
}

/// In a column of another kind than texts one number stands for a cell, whatever the dictionary holds.
pub fn law_one_number()
    ensures { (column : Column) (texts others : List (List ℕ)) (y z : ℤ) (cell : List ℕ) → column.kind ≢ kind.Text → FitsSigned w64 y → FitsSigned w64 z
        → StandsAs column texts y cell → StandsAs column others z cell → y ≡ z }
{}

/// What RFC 4180 says of a text, the reader of `csv` reads: the law that leads from the reader's machine to the grammar.
pub fn law_read_by_grammar()
    ensures { (text : List ℕ) (rows : List (List (List ℕ))) → IsRowsText text rows → AreRecords default_config st.StartRecord text rows }
{}
