//! The tables of a schema by the names of a query.

ghost use Rattle.std.specs.Prelude.{◌≡◌, Some, map, option_and_then};
ghost use Rattle.record_core.specs.declared.span.Refusal.TheVariants.{At};
ghost use Rattle.expr_tree.specs.Plain.{plain_input};
ghost use Rattle.kind_check.specs.Found.{Finds};
ghost use Rattle.schema_check.specs.Checked as spec;

use csv_cells::{self, Column};
use expr_tree::Input;
use kinds::{Kind, Quantity};
use record_core::{Name, Refusal, Span};
use schema::Table;
use std::alloc::Global;

/// The schema has no input or output of that name, or says other fields of it.
pub const OTHER_TABLE: u8 = 30;

/// The refusal of an input or an output at its place.
pub(crate) fn other_table(span: Span) -> Refusal
    ensures { result ≡ At OTHER_TABLE span }
{
    Refusal::At {
        code: OTHER_TABLE,
        span,
    }
}

/// What the cells of a column stand for.
fn kind_of(kind: csv_cells::Kind) -> Kind
    ensures { result ≡ spec.kind_of kind }
{
    match kind {
        csv_cells::Kind::Int => Kind::Number(Quantity::Whole),
        csv_cells::Kind::Decimal(digits) => Kind::Number(Quantity::Decimal(digits)),
        csv_cells::Kind::Date => Kind::Number(Quantity::Date),
        csv_cells::Kind::Time => Kind::Number(Quantity::Time),
        csv_cells::Kind::Text => Kind::Text,
    }
}

/// What the cells of columns stand for.
fn column_kinds(alloc: Global, columns: &[Column]) -> Result<Vec<Kind>, Refusal>
    ensures { Finds (λ v. v.items) result (Some (spec.column_kinds columns.now)) }
{
    let mut kinds = Vec::with_capacity(alloc, columns.len())?;
    for column in columns {
        kinds.push(kind_of(column.kind))?;
    }
    Ok(kinds)
}

/// The kinds of the table with that name; refused at the place where there is none.
pub(crate) fn table_kinds(
    alloc: Global,
    tables: &[Table],
    name: &Name,
    span: Span,
) -> Result<Vec<Kind>, Refusal>
    ensures { Finds (λ v. v.items) result (spec.table_kinds tables.now name.now) }
{
    for table in tables {
        if table.name.as_slice() == name.bytes() {
            return column_kinds(alloc, &table.columns);
        }
    }
    Err(other_table(span))
}

/// The kinds of an input's table, which has as many columns as the input fields.
fn kinds_of_input(alloc: Global, tables: &[Table], input: &Input) -> Result<Vec<Kind>, Refusal>
    ensures { Finds (λ v. v.items) result (option_and_then (spec.of_arity (plain_input input.now).arity) (spec.table_kinds tables.now (plain_input input.now).name)) }
{
    let kinds = table_kinds(alloc, tables, &input.name, input.name_span)?;
    if kinds.len() as u64 == input.arity {
        Ok(kinds)
    } else {
        Err(other_table(input.arity_span))
    }
}

/// The kinds of each input's table.
pub(crate) fn input_kinds(
    alloc: Global,
    tables: &[Table],
    inputs: &[Input],
) -> Result<Vec<Vec<Kind>>, Refusal>
    ensures { Finds (λ v. map (λ w. w.items) v.items) result (spec.input_kinds tables.now (map plain_input inputs.now)) }
{
    let mut kinds = Vec::new(alloc);
    for input in inputs {
        kinds.push(kinds_of_input(alloc, tables, input)?)?;
    }
    Ok(kinds)
}
