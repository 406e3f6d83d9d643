//! The graph of a query.

ghost use Rattle.std.specs.Prelude.{◌≡◌, ◌≤◌, ◌<◌, ℕ, List, length, map, IfOk, IfErr};
ghost use Rattle.expr_tree.specs.Plain.{plain_input, plain_program};
ghost use Rattle.expr_tree.specs.Views.{program_tree};
ghost use Rattle.semantics.specs.Lower.{lowered};
ghost use Rattle.semantics.specs.Typing.{WellTyped};
ghost use Rattle.typing.specs.Shown.{typed_program};
ghost use Rattle.graph.specs.Arities.{AreArities};
ghost use Rattle.graph.specs.Limits.{max_vertices};
ghost use Rattle.graph.specs.Shown.{shown_arities, shown_graph, shown_inputs, shown_names};
ghost use Rattle.record_core.specs.Inputs.{input_of};
ghost use Rattle.lowering.specs.Computing.{Computes};
ghost use Rattle.lowering.specs.Faults.{IsTooMany};

use crate::arities::arities_of;
use crate::fault::LowerFault;
use crate::outputs::outputs_of;
use crate::program::lower_vertices;
use expr_tree::{Input, Program};
use graph::Graph;
use record_core::{DeclaredInput, NoMemory};
use std::alloc::{Allocator, Global};
use typing::Typed;

/// The graph of a well-typed query: exactly the one that the definition makes of it. It has the query's outputs. On any inputs it has
/// exactly one flow, whose records at each output are at each epoch what the query means there, and which is empty over the limit of
/// turns where a turn ends.
/// `TooMany` comes exactly where it would have more than `MAX_VERTICES` vertices.
pub fn lower<A: Allocator>(alloc: Global, typed: &Typed<A>) -> Result<Graph, LowerFault>
    ensures graph { IfOk result (λ g. shown_graph g ≡ lowered (plain_program (typed_program typed.now))) }
    ensures inputs { IfOk result (λ g. shown_inputs g ≡ (plain_program (typed_program typed.now)).inputs) }
    ensures names { IfOk result (λ g. shown_names g ≡ map (λ o. o.name) (plain_program (typed_program typed.now)).outputs) }
    ensures flow { IfOk result (λ g. Computes (shown_graph g) (plain_program (typed_program typed.now))) }
    ensures arities { IfOk result (λ g. AreArities (shown_arities g) (plain_program (typed_program typed.now))) }
    ensures few { IfOk result (λ g. length (shown_graph g) ≤ max_vertices) }
    ensures many { IfErr result (λ e. IsTooMany e → max_vertices < length (lowered (plain_program (typed_program typed.now)))) }
{
    lower_program(alloc, typed.program())
}

/// The graph of a program that is well typed.
fn lower_program<A: Allocator>(alloc: Global, program: &Program<A>) -> Result<Graph, LowerFault>
    requires { (ns : List ℕ) × WellTyped (plain_program (program_tree program.now)) ns }
    ensures graph { IfOk result (λ g. shown_graph g ≡ lowered (plain_program (program_tree program.now))) }
    ensures inputs { IfOk result (λ g. shown_inputs g ≡ (plain_program (program_tree program.now)).inputs) }
    ensures names { IfOk result (λ g. shown_names g ≡ map (λ o. o.name) (plain_program (program_tree program.now)).outputs) }
    ensures flow { IfOk result (λ g. Computes (shown_graph g) (plain_program (program_tree program.now))) }
    ensures arities { IfOk result (λ g. AreArities (shown_arities g) (plain_program (program_tree program.now))) }
    ensures few { IfOk result (λ g. length (shown_graph g) ≤ max_vertices) }
    ensures many { IfErr result (λ e. IsTooMany e → max_vertices < length (lowered (plain_program (program_tree program.now)))) }
{
    semantics::graphs::law_program();
    let vertices = lower_vertices(alloc, program)?;
    let inputs = declared_inputs(alloc, &program.inputs)?;
    let outputs = outputs_of(alloc, &program.outputs, &vertices)?;
    let arities = arities_of(alloc, program, &vertices)?;
    let made = Graph::new(alloc, vertices, inputs, outputs, arities)?;
    Ok(made)
}

/// The names and arities of the inputs, in order.
pub fn declared_inputs<A: Allocator>(
    alloc: Global,
    inputs: &Vec<Input, A>,
) -> Result<Vec<DeclaredInput>, NoMemory>
    ensures { IfOk result (λ copy. map input_of copy.items ≡ map plain_input inputs.now.items) }
{
    let mut copy = Vec::new(alloc);
    for input in inputs {
        copy.push(declared_input(input))?;
    }
    Ok(copy)
}

/// An input as a graph keeps it.
fn declared_input(input: &Input) -> DeclaredInput
    ensures { input_of result ≡ plain_input input.now }
{
    DeclaredInput {
        name: input.name.copied(),
        arity: input.arity,
    }
}
