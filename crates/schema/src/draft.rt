//! What was read of a schema so far.

ghost use Rattle.std.specs.Prelude.{◌≡◌, ◌≢◌, ◌<◌, ◌++◌, true, false, length, List, [], codes, map, IfOk, None, Ok, Some, ℕ};
ghost use Rattle.std.specs.Option.{option_map};
ghost use Rattle.schema.specs.Drafts.{IsBegun, IsDraft, IsNew, IsOpenTable};
ghost use Rattle.schema_lines.specs.Lines.{epoched, has_column};
ghost use Rattle.schema_lines.specs.Words.{IsColumn, Lacks};
ghost use Rattle.schema.specs.Schemas.{IsEpochsOf, IsTable, is_by, parts_of, said};
ghost use Rattle.schema.specs.Steps.{MakesEnded, MakesParts, MakesState, MakesTable, MayAddConstant, MayBeginInput, MayBeginOutput};
ghost use Rattle.schema.specs.Steps.{MayClose, MayEnd, MayGrow, MayHaveColumn, Opened, State};
ghost use Rattle.schema.specs.Steps.{after, begun, begun_by, begun_epochs, closed, grown, opened_of, place_in, put, state_of, with_by, with_constant};
ghost use Rattle.schema.specs.Text.{names_of};
ghost use Rattle.schema_lines.specs.declared.lines.LineError.TheVariants as error;
ghost use Rattle.schema.specs.declared.tables.Epochs.TheVariants.{By, One};

use crate::names::{is_constant, is_table};
use crate::refusal::SchemaRefusal;
use crate::tables::{Constant, Epochs, Schema, Table};
use csv_cells::{Column, Kind};
use schema_lines::{Fault, HeadEpochs, LineError, is_header, is_name, named_column, place_of};
use std::alloc::Global;

/// The most columns of a table: a record has as many fields.
const MAX_COLUMNS: usize = 16;

/// A table that may have more columns.
#[derive(Drop)]
pub struct Open {
    pub table: Table,
    /// The column by which the table has its epochs.
    pub by: Option<Vec<u8>>,
    pub is_output: bool,
    /// The line that begins it.
    pub line: u64,
}

/// What was read of a schema, and the table that the last line belongs to.
#[derive(Drop)]
pub struct Draft {
    pub schema: Schema,
    pub last: Option<Open>,
}

/// A table without columns.
fn new_table(alloc: Global, name: &[u8], epochs: Epochs) -> Result<Table, LineError>
    ensures { MakesTable (begun name.now epochs) result }
{
    let name = Vec::from_slice(alloc, name)?;
    Ok(Table {
        name,
        epochs,
        headers: Vec::new(alloc),
        columns: Vec::new(alloc),
    })
}

/// The epochs of a table that has them by the column of that name. A column of texts has no order.
fn epochs_by(table: &Table, name: &[u8]) -> Result<Epochs, Fault>
    ensures right { IfOk result (IsEpochsOf table.now.columns.items) }
    ensures made { let place = place_in name.now (names_of table.now) in
        place < length (names_of table.now) → IsEpochsOf table.now.columns.items (By place) → result ≡ Ok (By place) }
{
    let Some(place) = place_of(table.headers.as_slice(), name) else {
        return Err(Fault::BadEpochs);
    };
    let Some(column) = table.columns.get(place) else {
        return Err(Fault::BadEpochs);
    };
    match column.kind {
        Kind::Text => Err(Fault::BadEpochs),
        Kind::Int | Kind::Decimal(_) | Kind::Date | Kind::Time => Ok(Epochs::By(place)),
    }
}

/// Ends a table: it has columns, and the one by which it has its epochs.
fn end_table(table: Table, by: Option<Vec<u8>>) -> Result<Table, Fault>
    ensures right { IsOpenTable (said table) → IfOk result (λ t. IsTable (said t)) }
    ensures name { IfOk result (λ t. t.name.items ≡ table.name.items) }
    ensures epochs { by ≡ None → IfOk result (λ t. t.epochs ≡ table.epochs) }
    ensures made { MayEnd (option_map (λ v. v.items) by) (said table) → MakesEnded (with_by (option_map (λ v. v.items) by) (said table)) result }
{
    if table.columns.is_empty() {
        return Err(Fault::WrongColumns);
    }
    let Some(name) = by else {
        return Ok(table);
    };
    let mut ended = table;
    ended.epochs = epochs_by(&ended, name.as_slice())?;
    Ok(ended)
}

/// Ends the table that is open, if one is.
pub fn end_open(draft: Draft) -> Result<Schema, SchemaRefusal>
    ensures right { IsDraft draft → IfOk result IsBegun }
    ensures made { MayClose (option_map opened_of draft.last) → MakesParts (closed (option_map opened_of draft.last) (parts_of draft.schema)) result }
{
    let Draft { schema, last } = draft;
    let Some(last) = last else {
        return Ok(schema);
    };
    let Open {
        table,
        by,
        is_output,
        line,
    } = last;
    match end_table(table, by) {
        Ok(table) => {
            if is_output {
                return add_output(schema, table);
            }
            add_input(schema, table)
        }
        Err(fault) => Err(SchemaRefusal::At { fault, line }),
    }
}

/// Adds an input that has ended.
fn add_input(schema: Schema, table: Table) -> Result<Schema, SchemaRefusal>
    ensures right { IsBegun schema → IsTable (said table) → IsNew table.name.items (map (λ t. t.name) (map said schema.inputs.items))
        → IfOk result IsBegun }
    ensures made { MakesParts (put false (said table) (parts_of schema)) result }
{
    let mut schema = schema;
    schema.inputs.push(table)?;
    Ok(schema)
}

/// Adds an output that has ended.
fn add_output(schema: Schema, table: Table) -> Result<Schema, SchemaRefusal>
    ensures right { IsBegun schema → IsTable (said table) → IsNew table.name.items (map (λ t. t.name) (map said schema.outputs.items))
        → table.epochs ≡ One → IfOk result IsBegun }
    ensures made { MakesParts (put true (said table) (parts_of schema)) result }
{
    let mut schema = schema;
    schema.outputs.push(table)?;
    Ok(schema)
}

/// Adds a column to a table.
fn add_column(alloc: Global, table: Table, name: &[u8], column: Column) -> Result<Table, LineError>
    ensures right { IsOpenTable (said table) → Lacks 10 name.now → ((front : List ℕ) → name.now ≢ front ++ codes " or") → IsColumn column
        → IfOk result (λ t. IsOpenTable (said t)) }
    ensures name { IfOk result (λ t. t.name.items ≡ table.name.items) }
    ensures epochs { IfOk result (λ t. t.epochs ≡ table.epochs) }
    ensures made { MayGrow (said table) name.now → MakesTable (grown (said table) name.now column) result }
{
    if name.is_empty() {
        return Err(LineError::Fault(Fault::Malformed));
    }
    if table.columns.len() >= MAX_COLUMNS {
        return Err(LineError::Fault(Fault::WrongColumns));
    }
    if is_header(table.headers.as_slice(), name) {
        return Err(LineError::Fault(Fault::NameInUse));
    }
    let mut wider = table;
    wider.headers.push(Vec::from_slice(alloc, name)?)?;
    wider.columns.push(column)?;
    Ok(wider)
}

/// Adds a column to the table that is open.
pub fn take_column(
    alloc: Global,
    draft: Draft,
    name: &[u8],
    column: Column,
) -> Result<Draft, LineError>
    ensures right { IsDraft draft → Lacks 10 name.now → ((front : List ℕ) → name.now ≢ front ++ codes " or") → IsColumn column → IfOk result IsDraft }
    ensures made { MayHaveColumn (option_map opened_of draft.last) name.now
        → MakesState (after (state_of draft) (has_column name.now column)) result }
{
    let Draft { schema, last } = draft;
    let Some(last) = last else {
        return Err(LineError::Fault(Fault::Malformed));
    };
    let Open {
        table,
        by,
        is_output,
        line,
    } = last;
    match add_column(alloc, table, name, column) {
        Ok(table) => {
            let last = Some(Open {
                table,
                by,
                is_output,
                line,
            });
            Ok(Draft { schema, last })
        }
        Err(error) => Err(error),
    }
}

/// The epochs of an input that begins; those by a column are found at its end.
fn begun_epochs(epochs: HeadEpochs<'_>) -> Epochs
    ensures unsaid { is_by result ≡ false }
    ensures made { result ≡ begun_epochs (epoched epochs.entry) }
{
    match epochs {
        HeadEpochs::One | HeadEpochs::By(_) => Epochs::One,
        HeadEpochs::Every => Epochs::Every,
    }
}

/// Begins an input.
pub fn begin_input(
    alloc: Global,
    schema: Schema,
    name: &[u8],
    epochs: HeadEpochs<'_>,
    line: u64,
) -> Result<Draft, LineError>
    ensures right { IsBegun schema → IfOk result IsDraft }
    ensures made { let wanted = epoched epochs.entry in
        let opened : Opened = record { table = begun name.now (begun_epochs wanted); by = begun_by wanted; output = false } in
        MayBeginInput (parts_of schema) name.now → MakesState (record { parts = parts_of schema; opened = Some opened }) result }
{
    if !schema.outputs.is_empty() || !schema.constants.is_empty() || !is_name(name) {
        return Err(LineError::Fault(Fault::Malformed));
    }
    if is_table(schema.inputs.as_slice(), name) {
        return Err(LineError::Fault(Fault::NameInUse));
    }
    let table = new_table(alloc, name, begun_epochs(epochs))?;
    let by = named_column(alloc, epochs)?;
    let last = Some(Open {
        table,
        by,
        is_output: false,
        line,
    });
    Ok(Draft { schema, last })
}

/// Begins an output.
pub fn begin_output(
    alloc: Global,
    schema: Schema,
    name: &[u8],
    line: u64,
) -> Result<Draft, LineError>
    ensures right { IsBegun schema → IfOk result IsDraft }
    ensures made { let opened : Opened = record { table = begun name.now One; by = None; output = true } in
        MayBeginOutput (parts_of schema) name.now → MakesState (record { parts = parts_of schema; opened = Some opened }) result }
{
    if !schema.constants.is_empty() || !is_name(name) {
        return Err(LineError::Fault(Fault::Malformed));
    }
    if is_table(schema.outputs.as_slice(), name) {
        return Err(LineError::Fault(Fault::NameInUse));
    }
    let table = new_table(alloc, name, Epochs::One)?;
    let last = Some(Open {
        table,
        by: None,
        is_output: true,
        line,
    });
    Ok(Draft { schema, last })
}

/// Adds a constant.
pub fn add_constant(
    alloc: Global,
    schema: Schema,
    name: &[u8],
    text: &[u8],
) -> Result<Draft, LineError>
    ensures right { IsBegun schema → Lacks 10 text.now → IfOk result IsDraft }
    ensures made { MayAddConstant (parts_of schema) name.now text.now
        → MakesState (record { parts = with_constant (parts_of schema) name.now text.now; opened = None }) result }
{
    if !is_name(name) {
        return Err(LineError::Fault(Fault::Malformed));
    }
    if is_constant(schema.constants.as_slice(), name, text) {
        return Err(LineError::Fault(Fault::NameInUse));
    }
    let name = Vec::from_slice(alloc, name)?;
    let text = Vec::from_slice(alloc, text)?;
    let mut schema = schema;
    schema.constants.push(Constant { name, text })?;
    Ok(Draft { schema, last: None })
}
