//! The outputs of a graph.

ghost use Rattle.std.specs.Prelude.{◌≡◌, ◌≤◌, ◌++◌, ◌∷◌, [], cond, length, map, IfOk, OnOk};
ghost use Rattle.expr_tree.specs.Plain.{plain_output};
ghost use Rattle.expr_tree.specs.Views.{output_tree};
ghost use Rattle.semantics.specs.Graph.{output_numbers};
ghost use Rattle.semantics.specs.Kinds.{is_output};
ghost use Rattle.graph.specs.Limits.{max_vertices};
ghost use Rattle.graph.specs.Views.{graph_of, kind_of, number_of_output, name_of_output, vertex_number};

use expr_tree::Output;
use graph::{GraphOutput, Kind, Vertex, VertexId};
use record_core::NoMemory;
use std::alloc::{Allocator, Global};

/// The outputs of a graph, in order, by the names of the program's.
pub fn outputs_of<A: Allocator>(
    alloc: Global,
    outputs: &[Output<A>],
    vertices: &[Vertex],
) -> Result<Vec<GraphOutput>, NoMemory>
    requires few { length vertices.now ≤ max_vertices }
    requires same { length (output_numbers (graph_of vertices.now)) ≡ length outputs.now }
    ensures names { IfOk result (λ found. map name_of_output found.items ≡ map (λ o. o.name) (map plain_output (map output_tree outputs.now))) }
    ensures numbers { IfOk result (λ found. map number_of_output found.items ≡ output_numbers (graph_of vertices.now)) }
{
    let numbers = output_vertices(alloc, vertices)?;
    named(alloc, outputs, &numbers)
}

/// The output vertices, by number.
#[tactic(auto, using(crate::proofs::OutputPlaces::one_vertex_more))]
fn output_vertices(alloc: Global, vertices: &[Vertex]) -> Result<Vec<VertexId>, NoMemory>
    requires { length vertices.now ≤ max_vertices }
    ensures { IfOk result (λ numbers. map vertex_number numbers.items ≡ output_numbers (graph_of vertices.now)) }
{
    let mut numbers = Vec::new(alloc);
    for i in 0..vertices.len() {
        put_output(&mut numbers, VertexId(i as u32), &vertices[i].kind)?;
    }
    Ok(numbers)
}

/// A vertex put at the end, if its kind is an output's.
fn put_output(numbers: &mut Vec<VertexId>, vertex: VertexId, kind: &Kind) -> Result<(), NoMemory>
    ensures { OnOk result (map vertex_number numbers.new.items ≡
        map vertex_number numbers.old.items ++ cond (is_output (kind_of kind.now)) (vertex.0 ∷ []) []) }
{
    if kind.is_output() {
        numbers.push(vertex)?;
    }
    Ok(())
}

/// Each vertex with the name of the output of its place.
fn named<A: Allocator>(
    alloc: Global,
    outputs: &[Output<A>],
    numbers: &[VertexId],
) -> Result<Vec<GraphOutput>, NoMemory>
    requires { length numbers.now ≡ length outputs.now }
    ensures names { IfOk result (λ found. map name_of_output found.items ≡ map (λ o. o.name) (map plain_output (map output_tree outputs.now))) }
    ensures numbers { IfOk result (λ found. map number_of_output found.items ≡ map vertex_number numbers.now) }
{
    let mut found = Vec::new(alloc);
    for i in 0..outputs.len() {
        found.push(GraphOutput {
            name: outputs[i].name.copied(),
            vertex: numbers[i],
        })?;
    }
    Ok(found)
}
