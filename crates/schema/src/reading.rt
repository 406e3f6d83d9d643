//! Reads a schema.

ghost use Rattle.std.specs.Prelude.{◌≡◌, ◌≢◌, true, false, ℕ, List, IfErr, IfOk};
ghost use Rattle.schema.specs.Drafts.{IsBegun, IsDraft};
ghost use Rattle.schema_lines.specs.Lines.{Event, IsLine, IsProper, IsSaid, event_of};
ghost use Rattle.schema_lines.specs.Words.{Lacks};
ghost use Rattle.schema.specs.Schemas.{IsRefusal, IsSchema, parts_of};
ghost use Rattle.schema.specs.Steps.{Allowed, MakesDraft, MakesLines, MakesState, State, after, state_of};
ghost use Rattle.schema.specs.Text.{IsSchemaText};
ghost use Rattle.schema.specs.declared.tables.Schema.{Schema};

use crate::draft::{Draft, add_constant, begin_input, begin_output, end_open, take_column};
use crate::epochs::have_epochs;
use crate::refusal::SchemaRefusal;
use crate::tables::Schema;
use crate::writing::push_schema;
use schema_lines::{Fault, Line, LineError, cut_line, read_line};
use std::alloc::{AllocError, Global};

/// What a line makes of a draft, or why it is refused.
fn told(taken: Result<Draft, LineError>, line: u64) -> Result<Draft, SchemaRefusal>
    ensures right { IfOk taken IsDraft → IfOk result IsDraft }
    ensures made { (wanted : State) → MakesState wanted taken → MakesDraft wanted result }
{
    match taken {
        Ok(draft) => Ok(draft),
        Err(LineError::Fault(fault)) => Err(SchemaRefusal::At { fault, line }),
        Err(LineError::NoMemory) => Err(SchemaRefusal::NoMemory),
    }
}

/// Adds what a line says. What begins something ends the table that is open.
fn take_said(alloc: Global, draft: Draft, said: Line<'_>, line: u64) -> Result<Draft, SchemaRefusal>
    ensures right { (text : List ℕ) → IsDraft draft → Lacks 10 text → IsSaid text (event_of said.entry) → IfOk result IsDraft }
    ensures made { Allowed (state_of draft) (event_of said.entry) → MakesDraft (after (state_of draft) (event_of said.entry)) result }
{
    match said {
        Line::Column { name, column } => told(take_column(alloc, draft, name, column), line),
        Line::Input { name, epochs } => match end_open(draft) {
            Ok(schema) => told(begin_input(alloc, schema, name, epochs, line), line),
            Err(refusal) => Err(refusal),
        },
        Line::Output { name } => match end_open(draft) {
            Ok(schema) => told(begin_output(alloc, schema, name, line), line),
            Err(refusal) => Err(refusal),
        },
        Line::Constant { name, text } => match end_open(draft) {
            Ok(schema) => told(add_constant(alloc, schema, name, text), line),
            Err(refusal) => Err(refusal),
        },
    }
}

/// Adds a line.
fn take_line(alloc: Global, draft: Draft, text: &[u8], line: u64) -> Result<Draft, SchemaRefusal>
    ensures right { IsDraft draft → Lacks 10 text.now → IfOk result IsDraft }
    ensures made { (event : Event) → IsProper event → IsLine event text.now → Allowed (state_of draft) event
        → MakesDraft (after (state_of draft) event) result }
{
    match read_line(alloc, text) {
        Ok(said) => take_said(alloc, draft, said, line),
        Err(LineError::Fault(fault)) => Err(SchemaRefusal::At { fault, line }),
        Err(LineError::NoMemory) => Err(SchemaRefusal::NoMemory),
    }
}

/// Reads the lines, and counts them.
fn read_lines(alloc: Global, text: &[u8]) -> Result<(Schema, u64), SchemaRefusal>
    ensures right { IfOk result (λ p. IsBegun p.0) }
    ensures made { (schema : Schema) → IsSchema schema → IsSchemaText schema text.now → MakesLines (parts_of schema) result }
{
    let mut draft = Draft {
        schema: Schema {
            inputs: Vec::new(alloc),
            outputs: Vec::new(alloc),
            constants: Vec::new(alloc),
        },
        last: None,
    };
    let mut rest = text;
    let mut line = 0u64;
    while !rest.is_empty() {
        let (said, after) = cut_line(rest);
        line = line.saturating_add(1);
        match take_line(alloc, draft, said, line) {
            Ok(next) => draft = next,
            Err(refusal) => return Err(refusal),
        }
        rest = after;
    }
    match end_open(draft) {
        Ok(schema) => Ok((schema, line)),
        Err(refusal) => Err(refusal),
    }
}

/// Whether a text is what is written of a schema.
fn is_written(alloc: Global, schema: &Schema, text: &[u8]) -> Result<bool, AllocError>
    ensures text { IfOk result (λ b. b ≡ true → IsSchemaText schema.now text.now) }
    ensures other { IsSchema schema.now → IfOk result (λ b. b ≡ false → (written : List ℕ) × IsSchemaText schema.now written × (written ≢ text.now)) }
{
    let mut written = Vec::new(alloc);
    if !push_schema(&mut written, alloc, schema)? {
        return Ok(false);
    }
    Ok(written.as_slice() == text)
}

/// Reads a schema. A refusal names a faulty line: the first one, but that a table without columns and epochs that don't fit are found only at their
/// ends.
pub fn read_schema(alloc: Global, text: &[u8]) -> Result<Schema, SchemaRefusal>
    ensures right { IfOk result IsSchema }
    ensures text { IfOk result (λ schema. IsSchemaText schema text.now) }
    ensures only { IfOk result (λ schema. (other : Schema) → IsSchema other → IsSchemaText other text.now → parts_of schema ≡ parts_of other) }
    ensures refused { IfErr result (IsRefusal text.now) }
{
    let (schema, line) = match read_lines(alloc, text) {
        Ok(read) => read,
        Err(refusal) => return Err(refusal),
    };
    if !have_epochs(schema.inputs.as_slice()) {
        let fault = Fault::NoEpochs;
        return Err(SchemaRefusal::At { fault, line });
    }
    if is_written(alloc, &schema, text)? {
        Ok(schema)
    } else {
        let fault = Fault::Malformed;
        let line = line.saturating_add(1);
        Err(SchemaRefusal::At { fault, line })
    }
}
