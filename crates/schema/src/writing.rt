//! The text of a schema.

ghost use Rattle.std.specs.Prelude.{◌≡◌, ◌++◌, length, IfOk, List, OnOk, codes, map, true, ℕ};
ghost use Rattle.std.specs.List.{AllByRecursion};
ghost use Rattle.schema_lines.specs.Words.{IsColumn};
ghost use Rattle.schema.specs.Schemas.{IsSchema, IsTable, said};
ghost use Rattle.schema.specs.Text.{AreColumnsText, AreTablesText, IsSchemaText, IsTableText};
ghost use Rattle.schema.specs.Text.{constant_text, constants_text, epochs_text, head_text};

use crate::tables::{Constant, Epochs, Schema, Table};
use csv_cells::Column;
use schema_lines::push_column;
use std::alloc::{AllocError, Global};

/// Appends in which epochs the rows of a table are, whose columns have these names.
fn push_epochs(out: &mut Vec<u8>, epochs: Epochs, names: &[Vec<u8>]) -> Result<(), AllocError>
    ensures { OnOk result (out.new.items ≡ out.old.items ++ epochs_text epochs (map (λ v. v.items) names.now)) }
{
    match epochs {
        Epochs::One => Ok(()),
        Epochs::Every => out.extend_from_slice(b" every epoch"),
        Epochs::By(place) => {
            out.extend_from_slice(b" by ")?;
            if place < names.len() {
                out.extend_from_slice(&names[place])?;
            }
            Ok(())
        }
    }
}

/// Appends the line that begins a table.
fn push_head(out: &mut Vec<u8>, word: &[u8], table: &Table) -> Result<(), AllocError>
    ensures { OnOk result (out.new.items ≡ out.old.items ++ head_text word.now table.now) }
{
    out.extend_from_slice(word)?;
    out.extend_from_slice(&table.name)?;
    push_epochs(out, table.epochs, &table.headers)?;
    out.extend_from_slice(b"\n")
}

/// Appends the lines of columns, each with its name, and says whether each has one.
fn push_columns(
    out: &mut Vec<u8>,
    alloc: Global,
    names: &[Vec<u8>],
    columns: &[Column],
) -> Result<bool, AllocError>
    ensures right { length names.now ≡ length columns.now → AllByRecursion IsColumn columns.now → IfOk result (λ b. b ≡ true) }
    ensures text { IfOk result (λ b. b ≡ true → (text : List ℕ) × AreColumnsText (map (λ v. v.items) names.now) columns.now text
        × (out.new.items ≡ out.old.items ++ text)) }
{
    if names.len() != columns.len() {
        return Ok(false);
    }
    for i in 0..columns.len() {
        if !push_column(out, alloc, &names[i], columns[i])? {
            return Ok(false);
        }
    }
    Ok(true)
}

/// Appends a table, which an input's or an output's word begins, and says whether it has a text.
fn push_table(
    out: &mut Vec<u8>,
    alloc: Global,
    word: &[u8],
    table: &Table,
) -> Result<bool, AllocError>
    ensures right { IsTable (said table.now) → IfOk result (λ b. b ≡ true) }
    ensures text { IfOk result (λ b. b ≡ true → (text : List ℕ) × IsTableText word.now table.now text × (out.new.items ≡ out.old.items ++ text)) }
{
    push_head(out, word, table)?;
    push_columns(out, alloc, &table.headers, &table.columns)
}

/// Appends tables, and says whether each has a text.
fn push_tables(
    out: &mut Vec<u8>,
    alloc: Global,
    word: &[u8],
    tables: &[Table],
) -> Result<bool, AllocError>
    ensures right { AllByRecursion IsTable (map said tables.now) → IfOk result (λ b. b ≡ true) }
    ensures text { IfOk result (λ b. b ≡ true → (text : List ℕ) × AreTablesText word.now tables.now text × (out.new.items ≡ out.old.items ++ text)) }
{
    for table in tables {
        if !push_table(out, alloc, word, table)? {
            return Ok(false);
        }
    }
    Ok(true)
}

/// Appends the line of a constant.
fn push_constant(out: &mut Vec<u8>, constant: &Constant) -> Result<(), AllocError>
    ensures { OnOk result (out.new.items ≡ out.old.items ++ constant_text constant.now) }
{
    out.extend_from_slice(b"constant ")?;
    out.extend_from_slice(&constant.name)?;
    out.extend_from_slice(b" = \"")?;
    out.extend_from_slice(&constant.text)?;
    out.extend_from_slice(b"\"\n")
}

/// Appends the lines of constants.
fn push_constants(out: &mut Vec<u8>, constants: &[Constant]) -> Result<(), AllocError>
    ensures { OnOk result (out.new.items ≡ out.old.items ++ constants_text constants.now) }
{
    for constant in constants {
        push_constant(out, constant)?;
    }
    Ok(())
}

/// Appends the text of a schema, and says whether it has one: not if a name or a number of a column is missing, or can't be written. Each right
/// schema has one.
pub fn push_schema(out: &mut Vec<u8>, alloc: Global, schema: &Schema) -> Result<bool, AllocError>
    ensures right { IsSchema schema.now → IfOk result (λ b. b ≡ true) }
    ensures text { IfOk result (λ b. b ≡ true → (text : List ℕ) × IsSchemaText schema.now text × (out.new.items ≡ out.old.items ++ text)) }
{
    if !push_tables(out, alloc, b"input ", schema.inputs.as_slice())?
        || !push_tables(out, alloc, b"output ", schema.outputs.as_slice())?
    {
        return Ok(false);
    }
    push_constants(out, schema.constants.as_slice())?;
    Ok(true)
}
