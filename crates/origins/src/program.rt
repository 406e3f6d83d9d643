//! Origins of the fields of a program's outputs.

ghost use Rattle.std.specs.Prelude.{◌≡◌, ◌++◌, ◌+◌, ◌<◌, ◌^◌, [], length, map, IfOk, OnOk};
ghost use Rattle.expr_tree.specs.Views.{let_tree, output_tree, program_tree};
ghost use Rattle.expr_tree.specs.Plain.{plain_input, plain_let, plain_output, plain_program};
ghost use Rattle.expr_tree.specs.PlainLists.{plain_lets, plain_outputs};
ghost use Rattle.origins.specs.Relations as relations;
ghost use Rattle.field_origins.specs.Shown.{origins};
ghost use Rattle.origins.specs.Scopes.{scope_of};
ghost use Rattle.origins.specs.Steps.{LeadsTo};

use crate::relation::origins_of;
use crate::scope::Scope;
use expr_tree::{Input, Let, Output, Program};
use field_origins::{Origin, columns};
use std::alloc::{AllocError, Allocator, Global};

/// Declares the inputs in order, from a number on.
fn declare_inputs(
    alloc: Global,
    scope: &mut Scope,
    number: u64,
    inputs: &[Input],
) -> Result<(), AllocError>
    requires { number + length inputs.now < 2 ^ 64 }
    ensures { OnOk result (scope_of scope.new ≡ scope_of scope.old ++ relations.inputs_scope (map plain_input inputs.now) number) }
{
    match inputs {
        [] => Ok(()),
        [input, inputs @ ..] => {
            let fields = columns(alloc, number, input.arity)?;
            scope.declare_last(&input.name, fields)?;
            declare_inputs(alloc, scope, number + 1, inputs)
        }
    }
}

/// Declares the lets in order.
fn declare_lets<A: Allocator>(
    alloc: Global,
    scope: &mut Scope,
    next: u64,
    lets: &[Let<A>],
) -> Result<(), AllocError>
    ensures { OnOk result (LeadsTo next (plain_lets lets.now) (scope_of scope.old) (scope_of scope.new)) }
{
    for item in lets {
        let fields = origins_of(alloc, scope, next, &item.relation)?;
        scope.declare(&item.name, fields)?;
    }
    Ok(())
}

/// The origins of the fields of each output.
fn output_origins<A: Allocator>(
    alloc: Global,
    scope: &mut Scope,
    next: u64,
    outputs: &[Output<A>],
) -> Result<Vec<Vec<Origin>>, AllocError>
    ensures { IfOk result (λ v. map (λ w. origins w.items) v.items ≡ relations.rest_origins (scope_of scope.old) next [] (plain_outputs outputs.now)) }
{
    let mut fields = Vec::new(alloc);
    for output in outputs {
        fields.push(origins_of(alloc, scope, next, &output.relation)?)?;
    }
    Ok(fields)
}

/// Where the values of each field of each output come from, in order.
pub fn program_origins<A: Allocator>(
    alloc: Global,
    program: &Program<A>,
) -> Result<Vec<Vec<Origin>>, AllocError>
    ensures { IfOk result (λ v. map (λ w. origins w.items) v.items ≡ relations.program_origins (plain_program (program_tree program.now))) }
{
    let mut scope = Scope::new(alloc);
    let next = program.inputs.len() as u64;
    declare_inputs(alloc, &mut scope, 0, &program.inputs)?;
    declare_lets(alloc, &mut scope, next, &program.lets)?;
    output_origins(alloc, &mut scope, next, &program.outputs)
}
