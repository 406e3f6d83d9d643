//! The lines that are written.

ghost use Rattle.std.specs.Prelude.{◌≡◌, ◌++◌, decimal, OnOk};
ghost use Rattle.std.specs.List.{flat_map};
ghost use Rattle.collector.specs.OutputText.{label_of, spaced};
ghost use Rattle.follow.specs.Entries.{complete_line, row_line};

use itoa::Buffer;
use record_core::Name;
use std::alloc::AllocError;

fn push_text(out: &mut Vec<u8>, text: &[u8]) -> Result<(), AllocError>
    ensures { OnOk result (out.new.items ≡ out.old.items ++ text.now) }
{
    out.extend_from_slice(text)
}

/// Appends an epoch's number.
fn push_epoch(out: &mut Vec<u8>, epoch: u64) -> Result<(), AllocError>
    ensures { OnOk result (out.new.items ≡ out.old.items ++ decimal epoch) }
{
    let mut buffer = Buffer::new();
    out.extend_from_slice(buffer.format(epoch).as_bytes())
}

/// Appends a space and a field.
fn push_field(out: &mut Vec<u8>, field: &i64) -> Result<(), AllocError>
    ensures { OnOk result (out.new.items ≡ out.old.items ++ spaced field.now) }
{
    let mut buffer = Buffer::new();
    out.push(b' ')?;
    out.extend_from_slice(buffer.format(*field).as_bytes())
}

/// Appends each field after a space.
fn push_fields(out: &mut Vec<u8>, row: &[i64]) -> Result<(), AllocError>
    ensures { OnOk result (out.new.items ≡ out.old.items ++ flat_map spaced row.now) }
{
    for field in row {
        push_field(out, field)?;
    }
    Ok(())
}

/// Appends an output's label: nothing if it is the only one and named `out`.
fn push_label(out: &mut Vec<u8>, plain: bool, name: &Name) -> Result<(), AllocError>
    ensures { OnOk result (out.new.items ≡ out.old.items ++ label_of plain name.now) }
{
    if !plain {
        push_text(out, b" ")?;
        push_text(out, name.bytes())?;
    }
    Ok(())
}

/// Appends the line of a record of an epoch.
pub fn push_row(
    out: &mut Vec<u8>,
    epoch: u64,
    plain: bool,
    name: &Name,
    row: &[i64],
) -> Result<(), AllocError>
    ensures { OnOk result (out.new.items ≡ out.old.items ++ row_line epoch (label_of plain name.now) row.now) }
{
    push_epoch(out, epoch)?;
    push_label(out, plain, name)?;
    push_fields(out, row)?;
    push_text(out, b"\n")
}

/// Appends the line of a complete epoch.
pub fn push_complete(out: &mut Vec<u8>, epoch: u64) -> Result<(), AllocError>
    ensures { OnOk result (out.new.items ≡ out.old.items ++ complete_line epoch) }
{
    push_text(out, b"complete ")?;
    push_epoch(out, epoch)?;
    push_text(out, b"\n")
}
