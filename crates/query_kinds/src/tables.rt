//! Lines for the columns of tables, and for constants.

ghost use Rattle.std.specs.Prelude.{◌≡◌, ◌++◌, ◌+◌, ◌<◌, ◌^◌, OnOk, codes, decimal, length, option_map};
ghost use Rattle.query_kinds.specs.Listed as spec;

use csv_cells::{self, Column};
use itoa::Buffer;
use record_core::Name;
use schema::{Constant, Table};
use std::alloc::AllocError;

/// Appends a number.
pub(crate) fn push_number(text: &mut Vec<u8>, number: u64) -> Result<(), AllocError>
    ensures { OnOk result (text.new.items ≡ text.old.items ++ decimal number) }
{
    let mut buffer = Buffer::new();
    text.extend_from_slice(buffer.format(number).as_bytes())
}

/// Appends the word for what cells stand for.
fn push_kind(text: &mut Vec<u8>, kind: csv_cells::Kind) -> Result<(), AllocError>
    ensures { OnOk result (text.new.items ≡ text.old.items ++ spec.kind_word kind) }
{
    match kind {
        csv_cells::Kind::Int => text.extend_from_slice(b"int"),
        csv_cells::Kind::Date => text.extend_from_slice(b"date"),
        csv_cells::Kind::Time => text.extend_from_slice(b"time"),
        csv_cells::Kind::Text => text.extend_from_slice(b"text"),
        csv_cells::Kind::Decimal(digits) => {
            text.extend_from_slice(b"decimal(")?;
            push_number(text, u64::from(digits))?;
            text.extend_from_slice(b")")
        }
    }
}

/// Appends a column's number, name and kind.
pub(crate) fn push_column(
    text: &mut Vec<u8>,
    number: u64,
    name: &[u8],
    column: Column,
) -> Result<(), AllocError>
    ensures { OnOk result (text.new.items ≡ text.old.items ++ spec.column_words number name.now column) }
{
    text.extend_from_slice(b"  #")?;
    push_number(text, number)?;
    text.extend_from_slice(b" ")?;
    text.extend_from_slice(name)?;
    text.extend_from_slice(b" ")?;
    push_kind(text, column.kind)
}

/// Appends the lines of columns, from a number on.
fn push_columns(
    text: &mut Vec<u8>,
    number: u64,
    headers: &[Vec<u8>],
    columns: &[Column],
) -> Result<(), AllocError>
    requires { number + length headers.now < 2 ^ 64 }
    ensures { OnOk result (text.new.items ≡ text.old.items ++ spec.column_lines number headers.now columns.now) }
{
    match headers {
        [] => Ok(()),
        [name, headers @ ..] => match columns {
            [] => Ok(()),
            [column, columns @ ..] => {
                push_column(text, number, name, *column)?;
                text.extend_from_slice(b"\n")?;
                push_columns(text, number + 1, headers, columns)
            }
        },
    }
}

/// The table with that name.
pub(crate) fn table_of<'a>(tables: &'a [Table], name: &Name) -> Option<&'a Table>
    ensures { option_map (λ t. t.now) result ≡ spec.table_of tables.now name.now }
{
    for table in tables {
        if table.name.as_slice() == name.bytes() {
            return Some(table);
        }
    }
    None
}

/// Appends the lines of the columns of the table with that name.
pub(crate) fn push_table(
    text: &mut Vec<u8>,
    tables: &[Table],
    name: &Name,
) -> Result<(), AllocError>
    ensures { OnOk result (text.new.items ≡ text.old.items ++ spec.table_lines (spec.table_of tables.now name.now)) }
{
    match table_of(tables, name) {
        Some(table) => push_columns(text, 0, &table.headers, &table.columns),
        None => Ok(()),
    }
}

/// Appends the line of a constant.
fn push_constant(text: &mut Vec<u8>, number: u64, constant: &Constant) -> Result<(), AllocError>
    ensures { OnOk result (text.new.items ≡ text.old.items ++ (codes "constant " ++ (constant.now.name.items ++ (codes " " ++ (decimal number ++ codes "\n"))))) }
{
    text.extend_from_slice(b"constant ")?;
    text.extend_from_slice(&constant.name)?;
    text.extend_from_slice(b" ")?;
    push_number(text, number)?;
    text.extend_from_slice(b"\n")
}

/// Appends the lines of constants, from a number on.
pub(crate) fn push_constants(
    text: &mut Vec<u8>,
    number: u64,
    constants: &[Constant],
) -> Result<(), AllocError>
    requires { number + length constants.now < 2 ^ 64 }
    ensures { OnOk result (text.new.items ≡ text.old.items ++ spec.constant_lines number constants.now) }
{
    match constants {
        [] => Ok(()),
        [constant, constants @ ..] => {
            push_constant(text, number, constant)?;
            push_constants(text, number + 1, constants)
        }
    }
}
