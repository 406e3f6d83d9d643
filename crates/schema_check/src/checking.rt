//! The check of a query against a schema.

ghost use Rattle.std.specs.Prelude.{◌≡◌, Some, map};
ghost use Rattle.expr_tree.specs.Plain.{plain_output, plain_program};
ghost use Rattle.expr_tree.specs.Views.{output_tree, program_tree};
ghost use Rattle.kind_check.specs.Found.{Finds, Tests};
ghost use Rattle.kinds.specs.Relations as relations;
ghost use Rattle.schema_check.specs.Checked as spec;

use crate::tables::{input_kinds, other_table, table_kinds};
use expr_tree::{Output, Program};
use kind_check::{check_kinds, merged, same_kinds};
use kinds::Kind;
use record_core::Refusal;
use schema::{Constant, Schema, Table};
use std::alloc::{Allocator, Global};

/// What the fields of a query's inputs and outputs stand for, in order.
#[derive(Drop)]
pub struct QueryKinds {
    pub inputs: Vec<Vec<Kind>>,
    pub outputs: Vec<Vec<Kind>>,
}

/// The numbers of the constants: their places.
fn numbers(alloc: Global, constants: &[Constant]) -> Result<Vec<i64>, Refusal>
    ensures { Finds (λ v. v.items) result (Some (spec.numbers_from 0 constants.now)) }
{
    let mut numbers = Vec::with_capacity(alloc, constants.len())?;
    for _constant in constants {
        let next = numbers.len() as i64;
        numbers.push(next)?;
    }
    Ok(numbers)
}

/// Refused where an output's kinds aren't what its table says.
fn output_fits<A: Allocator>(
    alloc: Global,
    tables: &[Table],
    output: &Output<A>,
    kinds: &[Kind],
) -> Result<(), Refusal>
    ensures { Tests result (spec.may_stand (spec.table_kinds tables.now (plain_output (output_tree output.now)).name) kinds.now) }
{
    let said = table_kinds(alloc, tables, &output.name, output.name_span)?;
    match merged(alloc, kinds, &said, output.name_span) {
        Ok(stands) if same_kinds(&stands, &said) => Ok(()),
        Err(Refusal::NoMemory) => Err(Refusal::NoMemory),
        Ok(_) | Err(Refusal::At { .. }) => Err(other_table(output.name_span)),
    }
}

/// Refused at the first output whose kinds aren't what its table says.
fn outputs_fit<A: Allocator>(
    alloc: Global,
    tables: &[Table],
    outputs: &[Output<A>],
    kinds: &[Vec<Kind>],
) -> Result<(), Refusal>
    ensures { Tests result (spec.outputs_fit tables.now (map plain_output (map output_tree outputs.now)) (map (λ w. w.items) kinds.now)) }
{
    match outputs {
        [] => Ok(()),
        [output, outputs @ ..] => match kinds {
            [] => Ok(()),
            [first, kinds @ ..] => {
                output_fits(alloc, tables, output, first)?;
                outputs_fit(alloc, tables, outputs, kinds)
            }
        },
    }
}

/// What the fields of a query stand for by the inputs and the constants of a schema, or the first place where it doesn't go with these or computes what
/// makes no sense.
pub fn found_kinds<A: Allocator>(
    alloc: Global,
    program: &Program<A>,
    schema: &Schema,
) -> Result<QueryKinds, Refusal>
    ensures { Finds (λ q. (map (λ w. w.items) q.inputs.items, map (λ w. w.items) q.outputs.items)) result (spec.found schema.now (plain_program (program_tree program.now))) }
{
    let inputs = input_kinds(alloc, &schema.inputs, &program.inputs)?;
    let named = numbers(alloc, &schema.constants)?;
    let outputs = check_kinds(alloc, &named, program, &inputs)?;
    Ok(QueryKinds { inputs, outputs })
}

/// What the fields of a query stand for by a schema, or the first place where it doesn't go with the schema or computes what makes no sense: an input,
/// then what `check_kinds` refuses, then an output.
pub fn check_schema<A: Allocator>(
    alloc: Global,
    program: &Program<A>,
    schema: &Schema,
) -> Result<QueryKinds, Refusal>
    ensures { Finds (λ q. (map (λ w. w.items) q.inputs.items, map (λ w. w.items) q.outputs.items)) result (spec.checked schema.now (plain_program (program_tree program.now))) }
{
    let kinds = found_kinds(alloc, program, schema)?;
    outputs_fit(alloc, &schema.outputs, &program.outputs, &kinds.outputs)?;
    Ok(kinds)
}
