//! A CSV file that is written record by record.

ghost use Rattle.std.specs.Prelude.{◌≡◌, ◌++◌, ◌∷◌, [], IfErr, IfOk, IfSome, List, map, option_map, ℕ};
ghost use Rattle.csv_answers.specs.declared.refusal.TableRefusal.TheVariants as refusal;
ghost use Rattle.csv_answers.specs.Files.{HasBegun, IsBetween, IsFile, csv_text, labelled};

use crate::refusal::TableRefusal;
use csv::{Writer, WriterBuilder};
use std::alloc::Global;

/// A file with no record.
pub fn new_file(alloc: Global) -> Writer<Vec<u8>>
    ensures { IsFile result [] }
{
    WriterBuilder::new().from_writer(Vec::new(alloc))
}

/// Begins a record with a cell, if there is one.
fn begin_record(writer: &mut Writer<Vec<u8>>, first: Option<&[u8]>) -> Option<()>
    ensures { IfSome result (λ done. IsBetween writer.old → HasBegun writer.old writer.new (labelled (option_map (λ s. s.now) first.entry) [])) }
{
    let Some(cell) = first else {
        return Some(());
    };
    if writer.write_field(cell).is_err() {
        return None;
    }
    Some(())
}

/// Writes a record of a first cell, if there is one, and others. `None` if the writer fails, as one of bytes does only for lack of memory.
pub fn write_cells(
    writer: &mut Writer<Vec<u8>>,
    first: Option<&[u8]>,
    cells: &[Vec<u8>],
) -> Option<()>
    ensures { IfSome result (λ done. (rows : List (List (List ℕ))) → IsFile writer.old rows
        → IsFile writer.new (rows ++ labelled (option_map (λ s. s.now) first.entry) (map (λ v. v.items) cells.now) ∷ [])) }
{
    begin_record(writer, first)?;
    for i in 0..cells.len() {
        if writer.write_field(cells[i].as_slice()).is_err() {
            return None;
        }
    }
    if writer.end_record().is_err() {
        return None;
    }
    Some(())
}

/// The text of the records that were written.
pub fn finish(writer: Writer<Vec<u8>>) -> Result<Vec<u8>, TableRefusal>
    ensures written { IfOk result (λ text. (rows : List (List (List ℕ))) → IsFile writer rows → text.items ≡ csv_text rows) }
    ensures refused { IfErr result (λ r. r ≡ refusal.NoMemory) }
{
    match writer.into_inner() {
        Ok(text) => Ok(text),
        Err(_) => Err(TableRefusal::NoMemory),
    }
}
