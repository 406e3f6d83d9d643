//! The check of a program.

ghost use Rattle.std.specs.Prelude.{◌≡◌, [], map, Ok, IfOk, IfErr, OnOk};
ghost use Rattle.expr_tree.specs.Views.{let_tree, output_tree, program_tree};
ghost use Rattle.typing.specs.FirstFault.{HasFirstFault};
ghost use Rattle.typing.specs.Shown.{typed_program};
ghost use Rattle.typing.specs.Verdict.{arities_of, input_verdict, let_verdict, output_verdict, outputs_verdict, each, program_verdict, Says};

use crate::arities::Arities;
use crate::limits::{MAX_INPUTS, MAX_OUTPUTS};
use crate::names::Names;
use crate::refusals::{BAD_ARITY, NAME_TAKEN, OUTPUT_TAKEN, TOO_MANY_INPUTS, TOO_MANY_OUTPUTS, at};
use crate::relation::arity_of;
use crate::typed::{OutputArities, Typed};
use arrayvec::ArrayVec;
use expr_tree::{Input, Let, Output, Program};
use record_core::{MAX_FIELDS, Refusal};
use std::alloc::{Allocator, Global};

/// Declares an input.
fn declare_input(names: &mut Names, input: &Input) -> Result<(), Refusal>
    ensures ok { OnOk result (input_verdict input.now names.old ≡ Ok names.new) }
    ensures err { IfErr result (λ e. Says e (input_verdict input.now names.old)) }
{
    if names.arity(&input.name).is_some() {
        return Err(at(NAME_TAKEN, input.name_span));
    }
    if input.arity == 0 || input.arity > MAX_FIELDS as u64 {
        names.note(Arities::One(input.arity));
        return Err(at(BAD_ARITY, input.arity_span));
    }
    if names.len() >= MAX_INPUTS {
        return Err(at(TOO_MANY_INPUTS, input.name_span));
    }
    names.declare(&input.name, input.arity)?;
    Ok(())
}

/// Declares inputs in order.
fn declare_inputs(names: &mut Names, inputs: &[Input]) -> Result<(), Refusal>
    ensures ok { OnOk result (each input_verdict inputs.now names.old ≡ Ok names.new) }
    ensures err { IfErr result (λ e. Says e (each input_verdict inputs.now names.old)) }
{
    for input in inputs {
        declare_input(names, input)?;
    }
    Ok(())
}

/// Declares a let once its relation has an arity.
fn declare_let<A: Allocator>(names: &mut Names, item: &Let<A>) -> Result<(), Refusal>
    ensures ok { OnOk result (let_verdict (let_tree item.now) names.old ≡ Ok names.new) }
    ensures err { IfErr result (λ e. Says e (let_verdict (let_tree item.now) names.old)) }
{
    let arity = arity_of(names, &item.relation, 0)?;
    if names.arity(&item.name).is_some() {
        return Err(at(NAME_TAKEN, item.name_span));
    }
    names.declare(&item.name, arity)?;
    Ok(())
}

/// Declares lets in order.
fn declare_lets<A: Allocator>(names: &mut Names, lets: &[Let<A>]) -> Result<(), Refusal>
    ensures ok { OnOk result (each let_verdict (map let_tree lets.now) names.old ≡ Ok names.new) }
    ensures err { IfErr result (λ e. Says e (each let_verdict (map let_tree lets.now) names.old)) }
{
    for item in lets {
        declare_let(names, item)?;
    }
    Ok(())
}

/// Declares an output, among the names of those before it, once its relation has an arity.
fn declare_output<A: Allocator>(
    names: &mut Names,
    before: &mut Names,
    arities: &mut OutputArities,
    output: &Output<A>,
) -> Result<(), Refusal>
    requires { arities.old.items ≡ arities_of before.old }
    ensures ok { OnOk result (output_verdict names.old (output_tree output.now) before.old ≡ Ok before.new) }
    ensures err { IfErr result (λ e. Says e (output_verdict names.old (output_tree output.now) before.old)) }
    ensures names { OnOk result (names.new ≡ names.old) }
    ensures arities { OnOk result (arities.new.items ≡ arities_of before.new) }
{
    let arity = arity_of(names, &output.relation, 0)?;
    if before.arity(&output.name).is_some() {
        return Err(at(OUTPUT_TAKEN, output.name_span));
    }
    if before.len() >= MAX_OUTPUTS {
        return Err(at(TOO_MANY_OUTPUTS, output.keyword_span));
    }
    before.declare(&output.name, arity)?;
    arities.push(arity);
    Ok(())
}

/// The arities of the outputs in order, or the first fault.
fn output_arities<A: Allocator>(
    names: &mut Names,
    mut before: Names,
    outputs: &[Output<A>],
) -> Result<OutputArities, Refusal>
    requires { before ≡ [] }
    ensures ok { IfOk result (λ arities. outputs_verdict names.old (map output_tree outputs.now) [] ≡ Ok arities.items) }
    ensures err { IfErr result (λ e. Says e (outputs_verdict names.old (map output_tree outputs.now) [])) }
{
    let mut arities = ArrayVec::new();
    for output in outputs {
        declare_output(names, &mut before, &mut arities, output)?;
    }
    Ok(arities)
}

/// The arities of the outputs, or the first fault; no name is in scope before.
pub(crate) fn arities_in<A: Allocator>(
    alloc: Global,
    names: &mut Names,
    program: &Program<A>,
) -> Result<OutputArities, Refusal>
    requires { names.old ≡ [] }
    ensures ok { IfOk result (λ arities. program_verdict (program_tree program.now) ≡ Ok arities.items) }
    ensures err { IfErr result (λ e. Says e (program_verdict (program_tree program.now))) }
{
    declare_inputs(names, &program.inputs)?;
    declare_lets(names, &program.lets)?;
    output_arities(names, Names::new(alloc), &program.outputs)
}

/// The arities of the outputs, or the first fault.
fn checked_arities<A: Allocator>(
    alloc: Global,
    program: &Program<A>,
) -> Result<OutputArities, Refusal>
    ensures ok { IfOk result (λ arities. program_verdict (program_tree program.now) ≡ Ok arities.items) }
    ensures err { IfErr result (λ e. Says e (program_verdict (program_tree program.now))) }
{
    let mut names = Names::new(alloc);
    let arities = arities_in(alloc, &mut names, program)?;
    Ok(arities)
}

/// The program typed, or back whole with its first fault.
///
/// The table of the names in scope takes memory; without it the refusal is `NoMemory`.
pub fn check<A: Allocator>(
    alloc: Global,
    program: Program<A>,
) -> Result<Typed<A>, (Program<A>, Refusal)>
    ensures typed { IfOk result (λ t. typed_program t ≡ program_tree program) }
    ensures fault { IfErr result (λ e. HasFirstFault (program_tree program) e.1) }
    ensures whole { IfErr result (λ e. e.0 ≡ program) }
{
    match checked_arities(alloc, &program) {
        Ok(arities) => Ok(Typed::new(program, arities)),
        Err(refusal) => Err((program, refusal)),
    }
}
