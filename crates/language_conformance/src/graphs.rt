//! Graphs of query texts: their texts, edges, depths and drawings.

use crate::queries::typed_in;
use crate::texts::{quoted, word, yes_or_no};
use graph::{EdgeId, Graph, Location, VertexId};
use graph_text::{graph_dot, graph_text};
use lowering::lower;
use record_core::NoMemory;
use std::alloc::{AllocError, Global};

/// What is asked of a graph: its text, its drawing, its sizes, or what lies at a place, as `edge 2` or `vertex 4`.
#[derive(Clone, Copy)]
pub enum Asked<'a> {
    Text,
    Drawing,
    Sizes,
    Place(&'a str),
}

/// The graph of a query text.
fn graph_of(alloc: Global, text: &[u8]) -> Option<Graph> {
    let typed = typed_in(alloc, alloc, text).ok()?;
    lower(alloc, &typed).ok()
}

/// What is answered of a query's graph.
pub fn about(alloc: Global, query: &[u8], asked: Asked<'_>) -> Result<String, AllocError> {
    match graph_of(alloc, query) {
        Some(graph) => answer(alloc, &graph, asked),
        None => word(alloc, "no graph"),
    }
}

fn answer(alloc: Global, graph: &Graph, asked: Asked<'_>) -> Result<String, AllocError> {
    match asked {
        Asked::Text => written(alloc, graph, false),
        Asked::Drawing => written(alloc, graph, true),
        Asked::Sizes => sizes(alloc, graph),
        Asked::Place(place) => at_place(alloc, graph, place),
    }
}

/// Puts the text of a graph, or its drawing, at the end.
fn put(alloc: Global, graph: &Graph, drawn: bool, out: &mut Vec<u8>) -> Result<(), NoMemory> {
    if drawn {
        graph_dot(alloc, graph, out)
    } else {
        graph_text(alloc, graph, out)
    }
}

fn written(alloc: Global, graph: &Graph, drawn: bool) -> Result<String, AllocError> {
    let mut text = Vec::new(alloc);
    match put(alloc, graph, drawn, &mut text) {
        Ok(()) => quoted(alloc, text.as_slice()),
        Err(_) => word(alloc, "no memory"),
    }
}

/// Whether a query's graph is the same as one.
fn is_graph_of(alloc: Global, graph: &Graph, query: &[u8]) -> bool {
    match graph_of(alloc, query) {
        Some(other) => *graph == other,
        None => false,
    }
}

/// Whether two queries have the same graph.
pub fn alike(alloc: Global, first: &[u8], second: &[u8]) -> Result<String, AllocError> {
    match graph_of(alloc, first) {
        Some(graph) => yes_or_no(alloc, is_graph_of(alloc, &graph, second)),
        None => word(alloc, "no graph"),
    }
}

/// How many vertices, edges and inputs a graph has.
fn sizes(alloc: Global, graph: &Graph) -> Result<String, AllocError> {
    let (vertices, edges, inputs) = (
        graph.vertex_count(),
        graph.edge_count(),
        graph.inputs().len(),
    );
    format!(in alloc; "{vertices} vertices, {edges} edges, {inputs} inputs")
}

/// An edge of a graph: where it leads from and to, by which in port, and how many loops are around it.
fn shown_edge(alloc: Global, graph: &Graph, id: EdgeId) -> Result<String, AllocError> {
    if id.0 as usize >= graph.edge_count() {
        return word(alloc, "not there");
    }
    let edge = graph.edge(id);
    let (source, target, in_port) = (edge.source.vertex.0, edge.target.0, edge.in_port);
    let depth = graph.depth_at(Location::Edge(id));
    format!(in alloc; "from {source} to {target} by {in_port}, {depth} deep")
}

fn shown_vertex(alloc: Global, graph: &Graph, id: VertexId) -> Result<String, AllocError> {
    if id.0 as usize >= graph.vertex_count() {
        return word(alloc, "not there");
    }
    let depth = graph.depth_at(Location::Vertex(id));
    format!(in alloc; "{depth} deep")
}

fn at_place(alloc: Global, graph: &Graph, place: &str) -> Result<String, AllocError> {
    let (form, number) = place.split_once(' ').unwrap_or((place, ""));
    match (form, number.parse::<u32>()) {
        ("edge", Ok(number)) => shown_edge(alloc, graph, EdgeId(number)),
        ("vertex", Ok(number)) => shown_vertex(alloc, graph, VertexId(number)),
        _ => word(alloc, "no place"),
    }
}
