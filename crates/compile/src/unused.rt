//! What a query declares and nothing uses.

ghost use Rattle.std.specs.Prelude.{◌≡◌, ◌++◌, map, IfOk, OnOk};
ghost use Rattle.std.specs.HashSet.{contains};
ghost use Rattle.std.specs.List.{flat_map};
ghost use Rattle.semantics.specs.Meaning.{same_name};
ghost use Rattle.expr_tree.specs.Plain.{plain_rel};
ghost use Rattle.expr_tree.specs.PlainLists.{plain_lets, plain_outputs};
ghost use Rattle.expr_tree.specs.Views.{let_tree, output_tree, program_tree, rel_tree};
ghost use Rattle.normalise.specs.Reached.{Finds};
ghost use Rattle.compile.specs.Unused.{AreUnused, idle_in_let, idle_in_output, idle_variable, idle_variables, unused_input, unused_let};

use diagnostics::Unused;
use expr_tree::{Input, Let, Output, Program, Rel};
use normalise::{NameSet, add_free, add_free_in_outputs};
use record_core::{Name, NoMemory, Span};
use std::alloc::{Allocator, Global};

/// The names that outputs use, directly or through lets.
fn reached_names<A: Allocator>(
    alloc: Global,
    lets: &[Let<A>],
    outputs: &[Output<A>],
) -> Result<NameSet<Global>, NoMemory>
    ensures { IfOk result (λ names. Finds (contains same_name names) (plain_lets lets.now) (plain_outputs outputs.now)) }
{
    let mut names = NameSet::new(alloc);
    add_free_in_outputs(&mut names, outputs)?;
    let mut left = lets.len();
    while left > 0 {
        left -= 1;
        let item = &lets[left];
        if names.contains(&item.name) {
            add_free(&mut names, &item.relation)?;
        }
    }
    Ok(names)
}

/// The inputs that aren't among the names.
#[tactic(auto, using(crate::proofs::OneMore::more))]
fn unused_inputs(
    alloc: Global,
    inputs: &[Input],
    names: &NameSet<Global>,
) -> Result<Vec<Span>, NoMemory>
    ensures { IfOk result (λ places. places.items ≡ flat_map (unused_input (contains same_name names.now)) inputs.now) }
{
    let mut places = Vec::new(alloc);
    for i in 0..inputs.len() {
        if !names.contains(&inputs[i].name) {
            places.push(inputs[i].name_span)?;
        }
    }
    Ok(places)
}

/// The lets that aren't among the names.
#[tactic(auto, using(crate::proofs::OneMore::more_of))]
fn unused_lets<A: Allocator>(
    alloc: Global,
    lets: &[Let<A>],
    names: &NameSet<Global>,
) -> Result<Vec<Span>, NoMemory>
    ensures { IfOk result (λ places. places.items ≡ flat_map (unused_let (contains same_name names.now)) (map let_tree lets.now)) }
{
    let mut places = Vec::new(alloc);
    for i in 0..lets.len() {
        if !names.contains(&lets[i].name) {
            places.push(lets[i].name_span)?;
        }
    }
    Ok(places)
}

/// Appends the place of a loop's variable, if the body doesn't use it.
fn push_variable<A: Allocator>(
    alloc: Global,
    places: &mut Vec<Span>,
    place: Span,
    name: &Name,
    body: &Rel<A>,
) -> Result<(), NoMemory>
    ensures { OnOk result (places.new.items ≡ places.old.items ++ idle_variable name.now (plain_rel (rel_tree body.now)) place) }
{
    let mut names = NameSet::new(alloc);
    add_free(&mut names, body)?;
    if names.contains(name) {
        return Ok(());
    }
    places.push(place)?;
    Ok(())
}

/// Appends the variables of a relation's loops whose bodies don't use them.
fn push_idle<A: Allocator>(
    alloc: Global,
    places: &mut Vec<Span>,
    relation: &Rel<A>,
) -> Result<(), NoMemory>
    ensures { OnOk result (places.new.items ≡ places.old.items ++ idle_variables (rel_tree relation.now)) }
{
    match relation {
        Rel::Named(_, _) => Ok(()),
        Rel::Select(_, of, _)
        | Rel::Where(_, of, _)
        | Rel::Group(_, of, _, _)
        | Rel::Distinct(_, of) => push_idle(alloc, places, of),
        Rel::SetOperation(_, _, left, right) | Rel::Join(_, left, right, _) => {
            push_idle(alloc, places, left)?;
            push_idle(alloc, places, right)
        }
        Rel::Loop {
            name_span,
            name,
            start,
            body,
            ..
        } => {
            push_idle(alloc, places, start)?;
            push_variable(alloc, places, *name_span, name, body)?;
            push_idle(alloc, places, body)
        }
    }
}

/// The variables of all loops whose bodies don't use them.
#[tactic(auto, using(crate::proofs::OneMore::more_of))]
fn idle_of_all<A: Allocator>(
    alloc: Global,
    lets: &[Let<A>],
    outputs: &[Output<A>],
) -> Result<Vec<Span>, NoMemory>
    ensures { IfOk result (λ places. places.items ≡
        flat_map idle_in_let (map let_tree lets.now) ++ flat_map idle_in_output (map output_tree outputs.now)) }
{
    let mut places = Vec::new(alloc);
    for i in 0..lets.len() {
        push_idle(alloc, &mut places, &lets[i].relation)?;
    }
    for i in 0..outputs.len() {
        push_idle(alloc, &mut places, &outputs[i].relation)?;
    }
    Ok(places)
}

/// What a program declares and nothing uses.
pub(crate) fn unused_of<A: Allocator>(
    alloc: Global,
    program: &Program<A>,
) -> Result<Unused, NoMemory>
    ensures { IfOk result (AreUnused (program_tree program.now)) }
{
    let names = reached_names(alloc, &program.lets, &program.outputs)?;
    Ok(Unused {
        inputs: unused_inputs(alloc, &program.inputs, &names)?,
        lets: unused_lets(alloc, &program.lets, &names)?,
        variables: idle_of_all(alloc, &program.lets, &program.outputs)?,
    })
}
