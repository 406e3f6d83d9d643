//! Lines for the fields of outputs, with where they come from.

ghost use Rattle.std.specs.Prelude.{◌≡◌, ◌++◌, ◌+◌, ◌<◌, ◌^◌, OnOk, Some, length, map};
ghost use Rattle.expr_tree.specs.Plain.{plain_input};
ghost use Rattle.origins.specs.Shown.{origin, origins};
ghost use Rattle.query_kinds.specs.Listed as spec;

use crate::tables::{push_column, table_of};
use csv_cells::Column;
use expr_tree::Input;
use origins::{Origin, Source};
use record_core::Name;
use schema::{Schema, Table};
use std::alloc::AllocError;

/// Appends the name of a column of the table with that name.
fn push_header(
    text: &mut Vec<u8>,
    tables: &[Table],
    name: &Name,
    column: u64,
) -> Result<(), AllocError>
    ensures { OnOk result (text.new.items ≡ text.old.items ++ spec.header_of (spec.table_of tables.now name.now) column) }
{
    let Some(table) = table_of(tables, name) else {
        return Ok(());
    };
    match table.headers.get(column as usize) {
        Some(header) => text.extend_from_slice(header),
        None => Ok(()),
    }
}

/// Appends the name of an input and that of its column.
fn push_named_column(
    text: &mut Vec<u8>,
    tables: &[Table],
    input: &Input,
    column: u64,
) -> Result<(), AllocError>
    ensures { OnOk result (text.new.items ≡ text.old.items ++ spec.named_column tables.now (Some (plain_input input.now)) column) }
{
    text.extend_from_slice(input.name.bytes())?;
    text.extend_from_slice(b".")?;
    push_header(text, tables, &input.name, column)
}

/// Appends the names of a source's input and column.
#[tactic(auto, using(crate::proofs::Inputs::input_at, crate::proofs::Inputs::no_input_at))]
pub(crate) fn push_source(
    text: &mut Vec<u8>,
    tables: &[Table],
    inputs: &[Input],
    source: Source,
) -> Result<(), AllocError>
    ensures { OnOk result (text.new.items ≡ text.old.items ++ spec.source_words tables.now (map plain_input inputs.now) source) }
{
    match inputs.get(source.input as usize) {
        Some(input) => push_named_column(text, tables, input, source.column),
        None => Ok(()),
    }
}

/// Appends further sources, each after a comma.
fn push_further(
    text: &mut Vec<u8>,
    tables: &[Table],
    inputs: &[Input],
    sources: &[Source],
) -> Result<(), AllocError>
    ensures { OnOk result (text.new.items ≡ text.old.items ++ spec.further_words (spec.source_words tables.now (map plain_input inputs.now)) sources.now) }
{
    match sources {
        [] => Ok(()),
        [source, sources @ ..] => {
            text.extend_from_slice(b", ")?;
            push_source(text, tables, inputs, *source)?;
            push_further(text, tables, inputs, sources)
        }
    }
}

/// Appends where a field's values come from.
fn push_origin(
    text: &mut Vec<u8>,
    tables: &[Table],
    inputs: &[Input],
    from: &Origin,
) -> Result<(), AllocError>
    ensures { OnOk result (text.new.items ≡ text.old.items ++ spec.origin_words (spec.source_words tables.now (map plain_input inputs.now)) (origin from.now)) }
{
    match from {
        Origin::Computed => text.extend_from_slice(b" computed"),
        Origin::Taken(sources) => match sources.as_slice() {
            [] => Ok(()),
            [source, sources @ ..] => {
                text.extend_from_slice(b" from ")?;
                push_source(text, tables, inputs, *source)?;
                push_further(text, tables, inputs, sources)
            }
        },
    }
}

/// Appends the lines of fields, from a number on.
fn push_fields(
    text: &mut Vec<u8>,
    number: u64,
    headers: &[Vec<u8>],
    columns: &[Column],
    fields: &[Origin],
    tables: &[Table],
    inputs: &[Input],
) -> Result<(), AllocError>
    requires { number + length headers.now < 2 ^ 64 }
    ensures { OnOk result (text.new.items ≡ text.old.items ++ spec.field_lines (spec.source_words tables.now (map plain_input inputs.now)) number headers.now columns.now (origins fields.now)) }
{
    match headers {
        [] => Ok(()),
        [name, headers @ ..] => match columns {
            [] => Ok(()),
            [column, columns @ ..] => match fields {
                [] => Ok(()),
                [from, fields @ ..] => {
                    push_column(text, number, name, *column)?;
                    push_origin(text, tables, inputs, from)?;
                    text.extend_from_slice(b"\n")?;
                    push_fields(text, number + 1, headers, columns, fields, tables, inputs)
                }
            },
        },
    }
}

/// Appends the lines of the fields of an output with that name.
pub(crate) fn push_output_fields(
    text: &mut Vec<u8>,
    schema: &Schema,
    inputs: &[Input],
    name: &Name,
    fields: &[Origin],
) -> Result<(), AllocError>
    ensures { OnOk result (text.new.items ≡ text.old.items ++ spec.output_fields (spec.source_words schema.now.inputs.items (map plain_input inputs.now)) (spec.table_of schema.now.outputs.items name.now) (origins fields.now)) }
{
    match table_of(&schema.outputs, name) {
        Some(table) => push_fields(
            text,
            0,
            &table.headers,
            &table.columns,
            fields,
            &schema.inputs,
            inputs,
        ),
        None => Ok(()),
    }
}
