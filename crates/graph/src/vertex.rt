//! Vertices, by number, and the ports that feed them.

ghost use Rattle.std.specs.Prelude.{◌≡◌, slice_index_or};
ghost use Rattle.semantics.specs.Graph.{no_port};
ghost use Rattle.graph.specs.Views.{port_of, sources_of};

use expr_tree::{Agg, Column, Cond, Pair, Scalar};
use std::alloc::Global;

/// The greatest number of vertices of a graph.
pub const MAX_VERTICES: usize = 4096;

/// A vertex by its number, from 0.
#[derive(Clone, Copy, PartialEq, Eq)]
pub struct VertexId(pub u32);

/// What a vertex does with the records that come to it. `Gate` and `Unseen` have the number of turns of their loop, and `Hold`
/// that of the turns for which it holds.
#[derive(Drop)]
pub enum Kind {
    Input,
    Output,
    Select(Vec<Scalar<Global>>),
    Where(Box<Cond<Global>>),
    Concat,
    Join(Vec<Pair>),
    Lookup(Vec<Pair>),
    Group(Vec<Column>, Vec<Agg>),
    Distinct,
    Except,
    Intersect,
    Ingress,
    Egress,
    Feedback,
    Gate(u64),
    Unseen(u64),
    Hold(u64),
}

/// An out port of a vertex.
#[derive(Clone, Copy)]
pub struct Port {
    pub vertex: VertexId,
    pub out: u32,
}

/// The ports that feed a vertex's in ports, in order.
#[derive(Clone, Copy)]
pub enum Sources {
    Nothing,
    One(Port),
    Two(Port, Port),
}

/// A vertex. Its depth is the number of loops around what comes to it.
#[derive(Drop)]
pub struct Vertex {
    pub kind: Kind,
    pub depth: u32,
    pub ins: Sources,
}

/// The first and the second source; that of no vertex's number where there is none.
pub fn two_sources(ins: Sources) -> (Port, Port)
    ensures first { port_of result.0 ≡ slice_index_or (sources_of ins) 0 no_port }
    ensures second { port_of result.1 ≡ slice_index_or (sources_of ins) 1 no_port }
{
    let nowhere = Port {
        vertex: VertexId(0),
        out: 0,
    };
    match ins {
        Sources::Nothing => (nowhere, nowhere),
        Sources::One(first) => (first, nowhere),
        Sources::Two(first, second) => (first, second),
    }
}

/// The arity of the vertex that a port belongs to; 0 where it isn't there.
pub fn arity_at(arities: &[u64], port: Port) -> u64
    ensures { result ≡ slice_index_or arities.now (port_of port).vertex 0 }
{
    match arities.get(port.vertex.0 as usize) {
        Some(arity) => *arity,
        None => 0,
    }
}
