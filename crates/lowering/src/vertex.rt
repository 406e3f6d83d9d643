//! One vertex more, numbered as it is made.

ghost use Rattle.std.specs.Prelude.{◌≡◌, ◌≤◌, ◌++◌, ◌∷◌, [], length, IfOk, IfErr, OnOk};
ghost use Rattle.semantics.specs.Lower.{new_vertex, port};
ghost use Rattle.graph.specs.Limits.{max_vertices};
ghost use Rattle.graph.specs.Views.{graph_of, kind_of, port_of, sources_of};
ghost use Rattle.lowering.specs.Faults.{IsTooMany};

use crate::fault::LowerFault;
use graph::{Kind, MAX_VERTICES, Port, Sources, Vertex, VertexId};

/// Makes one vertex more, and gives its out port 0.
pub fn add_vertex(
    made: &mut Vec<Vertex>,
    kind: Kind,
    depth: u32,
    ins: Sources,
) -> Result<Port, LowerFault>
    ensures made { OnOk result (graph_of made.new.items ≡ graph_of made.old.items ++ (new_vertex (kind_of kind) depth (sources_of ins) ∷ [])) }
    ensures gives { IfOk result (λ p. port_of p ≡ port (length made.old.items) 0) }
    ensures few { OnOk result (length made.new.items ≤ max_vertices) }
    ensures many { IfErr result (λ e. IsTooMany e → max_vertices ≤ length made.old.items) }
{
    let number = made.len();
    if number >= MAX_VERTICES {
        return Err(LowerFault::TooMany);
    }
    match made.push(Vertex { kind, depth, ins }) {
        Ok(()) => Ok(Port {
            vertex: VertexId(number as u32),
            out: 0,
        }),
        Err(_) => Err(LowerFault::NoMemory),
    }
}
