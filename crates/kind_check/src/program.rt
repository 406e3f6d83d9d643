//! Kinds of the fields of a program's outputs.

ghost use Rattle.std.specs.Prelude.{◌≡◌, ◌∷◌, ◌++◌, [], map, IfErr, OnOk};
ghost use Rattle.record_core.specs.declared.span.Refusal.TheVariants.{NoMemory};
ghost use Rattle.expr_tree.specs.Views.{let_tree, output_tree, program_tree};
ghost use Rattle.expr_tree.specs.Plain.{plain_input, plain_let, plain_output, plain_program};
ghost use Rattle.kinds.specs.Relations as relations;
ghost use Rattle.expr_tree.specs.PlainLists.{plain_lets, plain_outputs};
ghost use Rattle.kind_check.specs.Steps.{DeclaresLet, LeadsNowhere, LeadsTo};
ghost use Rattle.field_kinds.specs.Found.{Finds, IsRefused};
ghost use Rattle.kind_check.specs.Scopes.{scope_of};

use crate::relation::kinds_of;
use crate::scope::Scope;
use expr_tree::{Input, Let, Output, Program};
use field_kinds::copied;
use kinds::Kind;
use record_core::Refusal;
use std::alloc::{Allocator, Global};

/// Declares the inputs in order, each with its kinds.
fn declare_inputs(
    alloc: Global,
    scope: &mut Scope,
    inputs: &[Input],
    kinds: &[Vec<Kind>],
) -> Result<(), Refusal>
    ensures ok { OnOk result (scope_of scope.new ≡ scope_of scope.old ++ relations.inputs_scope (map plain_input inputs.now) (map (λ w. w.items) kinds.now)) }
    ensures err { IfErr result (λ e. e ≡ NoMemory) }
{
    if let (Some((input, inputs)), Some((first, kinds))) = (
        inputs.split_first(),
        kinds.split_first(),
    ) {
        let first = copied(alloc, first)?;
        scope.declare_last(&input.name, first)?;
        declare_inputs(alloc, scope, inputs, kinds)?;
    }
    Ok(())
}

/// Declares a let with the kinds of its relation.
fn declare_let<A: Allocator>(
    alloc: Global,
    named: &[i64],
    scope: &mut Scope,
    item: &Let<A>,
) -> Result<(), Refusal>
    ensures ok { OnOk result (DeclaresLet named.now (plain_let (let_tree item.now)) (scope_of scope.old) (scope_of scope.new)) }
    ensures err { IfErr result (λ e. IsRefused e → relations.rel_kinds named.now (plain_let (let_tree item.now)).value (scope_of scope.old) ≡ None) }
{
    let kinds = kinds_of(alloc, named, scope, &item.relation)?;
    scope.declare(&item.name, kinds)
}

/// Declares the lets in order.
fn declare_lets<A: Allocator>(
    alloc: Global,
    named: &[i64],
    scope: &mut Scope,
    lets: &[Let<A>],
) -> Result<(), Refusal>
    ensures ok { OnOk result (LeadsTo named.now (plain_lets lets.now) (scope_of scope.old) (scope_of scope.new)) }
    ensures err { IfErr result (λ e. IsRefused e → LeadsNowhere named.now (plain_lets lets.now) (scope_of scope.old)) }
{
    for item in lets {
        declare_let(alloc, named, scope, item)?;
    }
    Ok(())
}

/// The kinds of the fields of each output.
fn output_kinds<A: Allocator>(
    alloc: Global,
    named: &[i64],
    scope: &mut Scope,
    outputs: &[Output<A>],
) -> Result<Vec<Vec<Kind>>, Refusal>
    ensures { Finds (λ v. map (λ w. w.items) v.items) result (relations.rest_kinds named.now (scope_of scope.old) [] (plain_outputs outputs.now)) }
{
    let mut kinds = Vec::new(alloc);
    for output in outputs {
        kinds.push(kinds_of(alloc, named, scope, &output.relation)?)?;
    }
    Ok(kinds)
}

/// The kinds of the fields of each output of a program, by those of each input, in order; `named` are the numbers that stand for texts with a name. Refused
/// with the number and the place of what doesn't go together.
pub fn check_kinds<A: Allocator>(
    alloc: Global,
    named: &[i64],
    program: &Program<A>,
    inputs: &[Vec<Kind>],
) -> Result<Vec<Vec<Kind>>, Refusal>
    ensures { Finds (λ v. map (λ w. w.items) v.items) result (relations.program_kinds named.now (plain_program (program_tree program.now)) (map (λ w. w.items) inputs.now)) }
{
    let mut scope = Scope::new(alloc);
    declare_inputs(alloc, &mut scope, &program.inputs, inputs)?;
    declare_lets(alloc, named, &mut scope, &program.lets)?;
    output_kinds(alloc, named, &mut scope, &program.outputs)
}
