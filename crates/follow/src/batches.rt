//! Writes the lines of records in batches.

ghost use Rattle.std.specs.Prelude.{◌≡◌, ◌++◌, OnOk};
ghost use Rattle.std.specs.List.{flat_map};
ghost use Rattle.rows.specs.Counts.{repeated};
ghost use Rattle.rows.specs.FlatRows.{joined};
ghost use Rattle.collector.specs.OutputText.{label_of};
ghost use Rattle.follow.specs.Entries.{row_line};

use crate::line_texts::push_row;
use record_core::Name;
use rows::Batch;
use std::alloc::AllocError;

/// Appends the line of a record `count` times.
fn push_times(
    out: &mut Vec<u8>,
    epoch: u64,
    plain: bool,
    name: &Name,
    row: &[i64],
    count: u64,
) -> Result<(), AllocError>
    ensures { OnOk result (out.new.items ≡ out.old.items ++ flat_map (row_line epoch (label_of plain name.now)) (repeated count row.now)) }
{
    for _time in 0..count {
        push_row(out, epoch, plain, name, row)?;
    }
    Ok(())
}

/// Appends the lines of a batch's records, each as often as its count.
fn push_batch(
    out: &mut Vec<u8>,
    epoch: u64,
    plain: bool,
    name: &Name,
    batch: &Batch,
) -> Result<(), AllocError>
    ensures { OnOk result (out.new.items ≡ out.old.items ++ flat_map (row_line epoch (label_of plain name.now)) batch.now) }
{
    for place in 0..batch.len() {
        push_times(
            out,
            epoch,
            plain,
            name,
            batch.row(place),
            batch.count(place),
        )?;
    }
    Ok(())
}

/// Appends the lines of the records of batches.
pub fn push_batches(
    out: &mut Vec<u8>,
    epoch: u64,
    plain: bool,
    name: &Name,
    batches: &[Batch],
) -> Result<(), AllocError>
    ensures { OnOk result (out.new.items ≡ out.old.items ++ flat_map (row_line epoch (label_of plain name.now)) (joined batches.now)) }
{
    for batch in batches {
        push_batch(out, epoch, plain, name, batch)?;
    }
    Ok(())
}
