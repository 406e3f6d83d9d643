//! The list of a query's inputs and outputs.

ghost use Rattle.std.specs.Prelude.{◌≡◌, ◌++◌, IfErr, IfOk, OnOk, map};
ghost use Rattle.expr_tree.specs.Plain.{plain_input, plain_output, plain_program};
ghost use Rattle.expr_tree.specs.Views.{output_tree, program_tree};
ghost use Rattle.origins.specs.Shown as shown;
ghost use Rattle.query_kinds.specs.Listed as spec;

use crate::fields::push_output_fields;
use crate::tables::{push_constants, push_table};
use compile::{push_input, push_output, typed_program};
use expr_tree::{Input, Output, Program};
use origins::{Origin, program_origins};
use record_core::Refusal;
use schema::{Schema, Table};
use schema_check::check_schema;
use std::alloc::{AllocError, Allocator, Global};

/// Appends the inputs with their columns.
fn push_inputs(text: &mut Vec<u8>, tables: &[Table], inputs: &[Input]) -> Result<(), AllocError>
    ensures { OnOk result (text.new.items ≡ text.old.items ++ spec.input_lines tables.now (map plain_input inputs.now)) }
{
    match inputs {
        [] => Ok(()),
        [input, inputs @ ..] => {
            push_input(text, input)?;
            push_table(text, tables, &input.name)?;
            push_inputs(text, tables, inputs)
        }
    }
}

/// Appends the outputs with their fields.
fn push_outputs<A: Allocator>(
    text: &mut Vec<u8>,
    schema: &Schema,
    inputs: &[Input],
    outputs: &[Output<A>],
    arities: &[u64],
    origins: &[Vec<Origin>],
) -> Result<(), AllocError>
    ensures { OnOk result (text.new.items ≡ text.old.items ++ spec.output_lines (spec.source_words schema.now.inputs.items (map plain_input inputs.now)) schema.now.outputs.items (map plain_output (map output_tree outputs.now)) arities.now (map (λ w. shown.origins w.items) origins.now)) }
{
    match outputs {
        [] => Ok(()),
        [output, outputs @ ..] => match arities {
            [] => Ok(()),
            [arity, arities @ ..] => match origins {
                [] => Ok(()),
                [fields, origins @ ..] => {
                    push_output(text, output, *arity)?;
                    push_output_fields(text, schema, inputs, &output.name, fields)?;
                    push_outputs(text, schema, inputs, outputs, arities, origins)
                }
            },
        },
    }
}

/// The list of a program whose outputs have these arities.
fn listing_of<A: Allocator>(
    alloc: Global,
    program: &Program<A>,
    schema: &Schema,
    arities: &[u64],
) -> Result<Vec<u8>, AllocError>
    ensures { IfOk result (λ t. t.items ≡ spec.listing schema.now (plain_program (program_tree program.now)) arities.now) }
{
    let origins = program_origins(alloc, program)?;
    let mut text = Vec::new(alloc);
    push_inputs(&mut text, &schema.inputs, &program.inputs)?;
    push_outputs(
        &mut text,
        schema,
        &program.inputs,
        &program.outputs,
        arities,
        &origins,
    )?;
    push_constants(&mut text, 0, &schema.constants)?;
    Ok(text)
}

/// The inputs and outputs of a query, each field with its name and what it stands for by the schema, an output's also with where its values come from, and
/// the numbers of the schema's constants. Refused for the query's first fault, or where it doesn't go with the schema.
pub fn kinds_text<A: Allocator + Copy>(
    alloc: Global,
    arena: A,
    query: &[u8],
    schema: &Schema,
) -> Result<Vec<u8>, Refusal>
    ensures text { IfOk result (λ t. spec.IsListed query.now schema.now t.items) }
    ensures refused { IfErr result (spec.IsUnlisted query.now schema.now) }
{
    let typed = typed_program(alloc, arena, query)?;
    let program = typed.program();
    let _kinds = check_schema(alloc, program, schema)?;
    let text = listing_of(alloc, program, schema, typed.output_arities())?;
    Ok(text)
}
