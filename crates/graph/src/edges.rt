//! The edges of a graph, by number: in the order of the vertices that they enter, then of the in ports.

ghost use Rattle.std.specs.Prelude.{◌≡◌, ◌≤◌, ◌++◌, ◌∷◌, [], length, map, IfOk, OnOk};
ghost use Rattle.graph.specs.Edges.{edge_list, edge_of, entering};
ghost use Rattle.graph.specs.Limits.{max_vertices};
ghost use Rattle.graph.specs.Views.{graph_of, port_of, sources_of};

use crate::vertex::{Port, Sources, Vertex, VertexId};
use record_core::NoMemory;
use std::alloc::Global;

/// An edge by its number, from 0.
#[derive(Clone, Copy)]
pub struct EdgeId(pub u32);

/// An edge: the out port where it begins, the vertex that it enters, and the in port.
#[derive(Clone, Copy)]
pub struct Edge {
    pub source: Port,
    pub target: VertexId,
    pub in_port: u32,
}

/// The edges of a graph, by number.
#[tactic(auto, using(crate::proofs::EdgeTables::one_vertex_more))]
pub fn edges_of(alloc: Global, vertices: &[Vertex]) -> Result<Vec<Edge>, NoMemory>
    requires { length vertices.now ≤ max_vertices }
    ensures { IfOk result (λ edges. map edge_of edges.items ≡ edge_list 0 (graph_of vertices.now)) }
{
    let mut edges = Vec::new(alloc);
    for i in 0..vertices.len() {
        put_entering(&mut edges, VertexId(i as u32), &vertices[i].ins)?;
    }
    Ok(edges)
}

/// The edges that enter one vertex put at the end.
fn put_entering(edges: &mut Vec<Edge>, target: VertexId, ins: &Sources) -> Result<(), NoMemory>
    ensures { OnOk result (map edge_of edges.new.items ≡ map edge_of edges.old.items ++ entering target.0 0 (sources_of ins.now)) }
{
    match ins {
        Sources::Nothing => Ok(()),
        Sources::One(source) => {
            put_edge(edges, *source, target, 0)?;
            Ok(())
        }
        Sources::Two(first, second) => {
            put_edge(edges, *first, target, 0)?;
            put_edge(edges, *second, target, 1)?;
            Ok(())
        }
    }
}

/// One edge put at the end.
fn put_edge(
    edges: &mut Vec<Edge>,
    source: Port,
    target: VertexId,
    in_port: u32,
) -> Result<(), NoMemory>
    ensures { OnOk result (map edge_of edges.new.items ≡ map edge_of edges.old.items ++ entering target.0 in_port (port_of source ∷ [])) }
{
    edges.push(Edge {
        source,
        target,
        in_port,
    })?;
    Ok(())
}
