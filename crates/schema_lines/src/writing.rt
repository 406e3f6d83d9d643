//! The text of a column's line.

ghost use Rattle.std.specs.Prelude.{◌≡◌, ◌++◌, ℕ, IfOk, List, OnOk, true};
ghost use Rattle.schema_lines.specs.Words.{IsColumnText, IsEmptyOf, IsEmptyText, kind_text};

use csv_cells::{Column, Dictionary, Empty, Kind, write_cell};
use itoa::Buffer;
use std::alloc::{AllocError, Global};

/// Appends the word for a kind.
fn push_kind(out: &mut Vec<u8>, kind: Kind) -> Result<(), AllocError>
    ensures { OnOk result (out.new.items ≡ out.old.items ++ kind_text kind) }
{
    match kind {
        Kind::Int => out.extend_from_slice(b"int"),
        Kind::Date => out.extend_from_slice(b"date"),
        Kind::Time => out.extend_from_slice(b"time"),
        Kind::Text => out.extend_from_slice(b"text"),
        Kind::Decimal(places) => {
            let mut buffer = Buffer::new();
            out.extend_from_slice(b"decimal(")?;
            out.extend_from_slice(buffer.format(places).as_bytes())?;
            out.extend_from_slice(b")")
        }
    }
}

/// Appends what an empty cell stands for, and says whether that can be written.
fn push_empty(out: &mut Vec<u8>, alloc: Global, column: Column) -> Result<bool, AllocError>
    ensures right { IsEmptyOf column.kind column.empty → IfOk result (λ b. b ≡ true) }
    ensures text { IfOk result (λ b. b ≡ true → (text : List ℕ) × IsEmptyText column.empty column.kind text
        × (out.new.items ≡ out.old.items ++ text)) }
{
    match column.empty {
        Empty::Refused => Ok(true),
        Empty::Kept => {
            out.extend_from_slice(b" or \"\"")?;
            Ok(column.kind == Kind::Text)
        }
        Empty::Number(number) => {
            out.extend_from_slice(b" or ")?;
            let plain = Column {
                kind: column.kind,
                empty: Empty::Refused,
            };
            let none = Dictionary::new(alloc);
            write_cell(plain, &none, number, out)
        }
    }
}

/// Appends the line of a column, and says whether it has one.
pub fn push_column(
    out: &mut Vec<u8>,
    alloc: Global,
    name: &[u8],
    column: Column,
) -> Result<bool, AllocError>
    ensures right { IsEmptyOf column.kind column.empty → IfOk result (λ b. b ≡ true) }
    ensures text { IfOk result (λ b. b ≡ true → (text : List ℕ) × IsColumnText name.now column text × (out.new.items ≡ out.old.items ++ text)) }
{
    out.extend_from_slice(b"  ")?;
    out.extend_from_slice(name)?;
    out.extend_from_slice(b" ")?;
    push_kind(out, column.kind)?;
    if !push_empty(out, alloc, column)? {
        return Ok(false);
    }
    out.extend_from_slice(b"\n")?;
    Ok(true)
}
