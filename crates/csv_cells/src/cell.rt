//! The number of a cell, and the cell of a number.

ghost use Rattle.std.specs.Prelude.{◌≡◌, ℤ, FitsSigned, IfNone, IfOk, IfSome, OnOk, Some};
ghost use Rattle.std.specs.Int.{w64};
ghost use Rattle.csv_cells.specs.Cells.{IsNoCell, IsNumbered, IsOnly, Stands, WritesCell, WritesKind, StandsAs};
ghost use Rattle.text_dictionary.specs.Texts.{Grows, texts_of};
ghost use Rattle.csv_cells.specs.declared.column.Empty.TheVariants.{Refused};

use crate::column::{Column, Empty, Kind};
use itoa::Buffer;
use scalar_texts::{day_of, int_of, parts_of, push_date, push_decimal, push_time, seconds_of};
use std::alloc::{AllocError, Global};
use text_dictionary::Dictionary;

/// The number that stands for a text in a column of that kind.
fn read_kind(
    alloc: Global,
    kind: Kind,
    dictionary: &mut Dictionary,
    text: &[u8],
) -> Result<Option<i64>, AllocError>
    ensures found { IfOk result (λ o. IfSome o (λ z. Stands kind (texts_of dictionary.new) z text.now)) }
    ensures only { IfOk result (λ o. (z : ℤ) → FitsSigned w64 z → Stands kind (texts_of dictionary.new) z text.now → o ≡ Some z) }
    ensures numbered { OnOk result (IsNumbered kind (texts_of dictionary.new) text.now) }
    ensures grows { OnOk result (Grows (texts_of dictionary.old) (texts_of dictionary.new)) }
{
    match kind {
        Kind::Int => match int_of(text) {
            Some(z) => Ok(Some(z)),
            None => Ok(None),
        },
        Kind::Decimal(places) => Ok(parts_of(places, text)),
        Kind::Date => Ok(day_of(text)),
        Kind::Time => Ok(seconds_of(text)),
        Kind::Text => Ok(Some(dictionary.number(alloc, text)?)),
    }
}

/// Appends the text that a number stands for in a column of that kind, and says whether it stands for one.
fn write_kind(
    kind: Kind,
    dictionary: &Dictionary,
    z: i64,
    out: &mut Vec<u8>,
) -> Result<bool, AllocError>
    ensures { IfOk result (WritesKind kind (texts_of dictionary.now) z out.old.items out.new.items) }
{
    match kind {
        Kind::Int => {
            let mut buffer = Buffer::new();
            out.extend_from_slice(buffer.format(z).as_bytes())?;
            Ok(true)
        }
        Kind::Decimal(places) => {
            push_decimal(out, places, z)?;
            Ok(true)
        }
        Kind::Date => push_date(out, z),
        Kind::Time => push_time(out, z),
        Kind::Text => match dictionary.text(z) {
            Some(text) => {
                out.extend_from_slice(text)?;
                Ok(true)
            }
            None => Ok(false),
        },
    }
}

/// The same, in a column with no empty cell.
fn write_some(
    kind: Kind,
    dictionary: &Dictionary,
    z: i64,
    out: &mut Vec<u8>,
) -> Result<bool, AllocError>
    ensures { IfOk result (WritesCell (record { kind = kind; empty = Refused }) (texts_of dictionary.now) z out.old.items out.new.items) }
{
    let before = out.len();
    let wrote = write_kind(kind, dictionary, z, out)?;
    Ok(wrote && before < out.len())
}

/// The number that stands for a cell, `None` if the column has none for it. A new text goes to the end of the dictionary.
pub fn read_cell(
    alloc: Global,
    column: Column,
    dictionary: &mut Dictionary,
    cell: &[u8],
) -> Result<Option<i64>, AllocError>
    ensures found { IfOk result (λ o. IfSome o (λ z. StandsAs column (texts_of dictionary.new) z cell.now)) }
    ensures only { IfOk result (IsOnly column (texts_of dictionary.new) cell.now) }
    ensures none { IfOk result (λ o. IfNone o (IsNoCell column (texts_of dictionary.new) cell.now)) }
    ensures grows { OnOk result (Grows (texts_of dictionary.old) (texts_of dictionary.new)) }
{
    match column.empty {
        Empty::Refused if cell.is_empty() => Ok(None),
        Empty::Number(number) if cell.is_empty() => Ok(Some(number)),
        Empty::Number(number) => {
            let found = read_kind(alloc, column.kind, dictionary, cell)?;
            match found {
                Some(z) if z != number => Ok(Some(z)),
                _ => Ok(None),
            }
        }
        Empty::Refused | Empty::Kept => read_kind(alloc, column.kind, dictionary, cell),
    }
}

/// Appends the cell that a number stands for, and says whether it stands for one.
pub fn write_cell(
    column: Column,
    dictionary: &Dictionary,
    z: i64,
    out: &mut Vec<u8>,
) -> Result<bool, AllocError>
    ensures { IfOk result (WritesCell column (texts_of dictionary.now) z out.old.items out.new.items) }
{
    match column.empty {
        Empty::Number(number) if z == number => Ok(true),
        Empty::Kept => write_kind(column.kind, dictionary, z, out),
        Empty::Number(_) | Empty::Refused => write_some(column.kind, dictionary, z, out),
    }
}
