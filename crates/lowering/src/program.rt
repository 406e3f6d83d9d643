//! Programs to vertices.

ghost use Rattle.std.specs.Prelude.{◌≡◌, ◌≤◌, ◌<◌, ◌++◌, ◌∷◌, ◌+◌, [], length, map, IfOk, IfErr, OnOk};
ghost use Rattle.expr_tree.specs.Plain.{plain_input, plain_program};
ghost use Rattle.expr_tree.specs.PlainLists.{plain_lets, plain_outputs};
ghost use Rattle.expr_tree.specs.Views.{program_tree};
ghost use Rattle.semantics.specs.Lower.{input_ports, input_vertices, lowered};
ghost use Rattle.lowering.specs.Faults.{IsOver, IsTooMany};
ghost use Rattle.lowering.specs.Scopes.{ports_of};
ghost use Rattle.lowering.specs.Steps.{AreLowered, AreNested, IsNested, OutputsNested, lowered_lets, lowered_outputs};
ghost use Rattle.graph.specs.Limits.{max_vertices};
ghost use Rattle.graph.specs.Views.{graph_of};

use crate::fault::LowerFault;
use crate::relation::lower_rel;
use crate::scope::Scope;
use crate::vertex::add_vertex;
use expr_tree::{Input, Let, Output, Program};
use graph::{Kind, MAX_VERTICES, Sources, Vertex};
use std::alloc::{Allocator, Global};

/// The vertices of a program: its inputs, its named relations in order, then each output's relation and the output.
pub fn lower_vertices<A: Allocator>(
    alloc: Global,
    program: &Program<A>,
) -> Result<Vec<Vertex>, LowerFault>
    requires { IsNested (plain_program (program_tree program.now)) }
    ensures ok { IfOk result (λ g. graph_of g.items ≡ lowered (plain_program (program_tree program.now))) }
    ensures few { IfOk result (λ g. length g.items ≤ max_vertices) }
    ensures many { IfErr result (λ e. IsTooMany e → max_vertices < length (lowered (plain_program (program_tree program.now)))) }
{
    let mut scope = Scope::new(alloc);
    let mut made = Vec::new(alloc);
    lower_inputs(&program.inputs, &mut scope, &mut made)?;
    lower_relations(alloc, &program.lets, &mut scope, &mut made)?;
    lower_outputs(alloc, &program.outputs, &mut scope, &mut made)?;
    if made.len() > MAX_VERTICES {
        return Err(LowerFault::TooMany);
    }
    Ok(made)
}

/// Makes a vertex for each input, at most 16; in the scope its name stands for its port.
fn lower_inputs(
    inputs: &[Input],
    scope: &mut Scope,
    made: &mut Vec<Vertex>,
) -> Result<(), LowerFault>
    requires { scope.old ≡ [] }
    ensures made { OnOk result (graph_of made.new.items ≡ graph_of made.old.items ++ input_vertices (map plain_input inputs.now)) }
    ensures names { OnOk result (ports_of scope.new ≡ input_ports (map plain_input inputs.now) (length made.old.items)) }
    ensures many { IfErr result (λ e. IsOver e (length made.old.items + length (input_vertices (map plain_input inputs.now)))) }
{
    match inputs {
        [] => Ok(()),
        [input, rest @ ..] => {
            let port = add_vertex(made, Kind::Input, 0, Sources::Nothing)?;
            lower_inputs(rest, scope, made)?;
            scope.bind(&input.name, port)?;
            Ok(())
        }
    }
}

/// Makes the vertices of named relations in order; in the scope each name stands for the port that its relation gives.
fn lower_relations<A: Allocator>(
    alloc: Global,
    lets: &[Let<A>],
    scope: &mut Scope,
    made: &mut Vec<Vertex>,
) -> Result<(), LowerFault>
    requires nested { AreNested (plain_lets lets.now) }
    ensures ok { OnOk result (AreLowered (graph_of made.old.items) (graph_of made.new.items) (ports_of scope.new)
        (lowered_lets lets.now scope.old (length made.old.items))) }
    ensures many { IfErr result (λ e. IsOver e (length made.old.items + length (lowered_lets lets.now scope.old (length made.old.items)).made)) }
{
    for i in 0..lets.len() {
        lower_let(alloc, &lets[i], scope, made)?;
    }
    Ok(())
}

/// Makes the vertices of one named relation.
fn lower_let<A: Allocator>(
    alloc: Global,
    item: &Let<A>,
    scope: &mut Scope,
    made: &mut Vec<Vertex>,
) -> Result<(), LowerFault>
    requires nested { AreNested (plain_lets (item.now ∷ [])) }
    ensures ok { OnOk result (AreLowered (graph_of made.old.items) (graph_of made.new.items) (ports_of scope.new)
        (lowered_lets (item.now ∷ []) scope.old (length made.old.items))) }
    ensures many { IfErr result (λ e. IsOver e (length made.old.items + length (lowered_lets (item.now ∷ []) scope.old (length made.old.items)).made)) }
{
    let port = lower_rel(alloc, &item.relation, scope, &[], 0, made)?;
    scope.bind(&item.name, port)?;
    Ok(())
}

/// Makes the vertices of the outputs in order, at most 16: of each those of its relation, and then its own.
fn lower_outputs<A: Allocator>(
    alloc: Global,
    outputs: &[Output<A>],
    scope: &mut Scope,
    made: &mut Vec<Vertex>,
) -> Result<(), LowerFault>
    requires nested { OutputsNested (plain_outputs outputs.now) }
    ensures made { OnOk result (graph_of made.new.items ≡ graph_of made.old.items ++ lowered_outputs outputs.now scope.old (length made.old.items)) }
    ensures many { IfErr result (λ e. IsOver e (length made.old.items + length (lowered_outputs outputs.now scope.old (length made.old.items)))) }
{
    match outputs {
        [] => Ok(()),
        [output, rest @ ..] => {
            let from = lower_rel(alloc, &output.relation, scope, &[], 0, made)?;
            add_vertex(made, Kind::Output, 0, Sources::One(from))?;
            lower_outputs(alloc, rest, scope, made)?;
            Ok(())
        }
    }
}
