//! A graph in the language of Graphviz.

ghost use Rattle.std.specs.Prelude.{◌≡◌, OnErr};

use crate::label::put_label;
use crate::text::{name_of, put_number};
use graph::{Edge, Graph, Kind, Vertex};
use record_core::NoMemory;
use std::alloc::Global;

/// What a vertex did in a run, for a drawing.
#[derive(Clone, Copy)]
pub struct Figures {
    pub events: u64,
    /// Records that came, and records that were sent.
    pub received: u64,
    pub sent: u64,
}

impl Figures {
    /// The records that the vertex had to do with.
    fn records(self) -> u64 {
        self.received.saturating_add(self.sent)
    }
}

/// Puts the graph at the end, as a text that Graphviz draws: a node for each vertex, with its number, its kind with its parameters, and
/// in a loop its depth; an edge for each edge, with its number, its out port where the vertex that it leaves has two, and its in port
/// where the vertex that it enters has two; and each loop as a cluster, in the cluster of the loop around it. After a refusal the bytes
/// are as before.
pub fn graph_dot(alloc: Global, graph: &Graph, text: &mut Vec<u8>) -> Result<(), NoMemory>
    ensures { OnErr result (text.new.items ≡ text.old.items) }
{
    graph_dot_with(alloc, graph, &[], text)
}

/// The same with figures for each vertex, in the order of the vertices. A node is the darker the more records its vertex had to do with.
pub fn graph_dot_with(
    alloc: Global,
    graph: &Graph,
    figures: &[Figures],
    text: &mut Vec<u8>,
) -> Result<(), NoMemory>
    ensures { OnErr result (text.new.items ≡ text.old.items) }
{
    let mut whole = Vec::from_slice(alloc, b"digraph {\n")?;
    put_nodes(alloc, &mut whole, graph, figures)?;
    put_arrows(&mut whole, graph)?;
    whole.extend_from_slice(b"}\n")?;
    text.extend_from_slice(&whole)?;
    Ok(())
}

/// The nodes. A vertex deeper than the loops that are open begins one, and an egress ends the innermost.
fn put_nodes(
    alloc: Global,
    text: &mut Vec<u8>,
    graph: &Graph,
    figures: &[Figures],
) -> Result<(), NoMemory> {
    let most = most_records(figures);
    let mut open: Vec<u64> = Vec::new(alloc);
    let mut number = 0u64;
    for vertex in graph.vertices() {
        if vertex.depth as usize > open.len() {
            open.push(number)?;
        }
        let loops = &open[..open.len().min(vertex.depth as usize)];
        put_clusters(text, loops)?;
        put_node(text, number, vertex, vertex_name(graph, number))?;
        if let Some(figures) = figures.get(number as usize) {
            put_figures(text, *figures, most)?;
        } else {
            text.extend_from_slice(b"\"];")?;
        }
        for _ in loops {
            text.extend_from_slice(b" }")?;
        }
        text.extend_from_slice(b"\n")?;
        if matches!(&vertex.kind, Kind::Egress) {
            let _ = open.pop();
        }
        number = number.saturating_add(1);
    }
    Ok(())
}

/// The most records that a vertex had to do with.
fn most_records(figures: &[Figures]) -> u64 {
    let mut most = 0;
    for figures in figures {
        most = figures.records().max(most);
    }
    most
}

/// The end of a node with figures: a second line of its label, and its colour, from white to orange in hundredths.
fn put_figures(text: &mut Vec<u8>, figures: Figures, most: u64) -> Result<(), NoMemory> {
    text.extend_from_slice(b"\\nevents ")?;
    put_number(text, figures.events)?;
    text.extend_from_slice(b" in ")?;
    put_number(text, figures.received)?;
    text.extend_from_slice(b" sent ")?;
    put_number(text, figures.sent)?;
    let share = figures.records().saturating_mul(99) / most.max(1);
    text.extend_from_slice(b"\", style=filled, fillcolor=\"0.08 0.")?;
    if share < 10 {
        text.extend_from_slice(b"0")?;
    }
    put_number(text, share)?;
    text.extend_from_slice(b" 1\"];")?;
    Ok(())
}

/// The name of the input or the output whose vertex has that number; nothing where there is none.
fn vertex_name(graph: &Graph, number: u64) -> &[u8] {
    match graph.inputs().get(number as usize) {
        Some(input) => input.name.bytes(),
        None => name_of(graph.outputs(), number),
    }
}

/// The beginnings of the clusters of a node's loops, each named by the number of its first vertex.
fn put_clusters(text: &mut Vec<u8>, loops: &[u64]) -> Result<(), NoMemory> {
    for first in loops {
        text.extend_from_slice(b"subgraph cluster_")?;
        put_number(text, *first)?;
        text.extend_from_slice(b" { ")?;
    }
    Ok(())
}

/// The beginning of a node.
fn put_node(text: &mut Vec<u8>, number: u64, vertex: &Vertex, name: &[u8]) -> Result<(), NoMemory> {
    put_number(text, number)?;
    text.extend_from_slice(b" [label=\"")?;
    put_number(text, number)?;
    text.extend_from_slice(b" ")?;
    put_label(text, &vertex.kind, name)?;
    if vertex.depth > 0 {
        text.extend_from_slice(b" depth ")?;
        put_number(text, vertex.depth as u64)?;
    }
    Ok(())
}

/// The edges.
fn put_arrows(text: &mut Vec<u8>, graph: &Graph) -> Result<(), NoMemory> {
    let mut number = 0u64;
    for edge in graph.edges() {
        put_arrow(text, number, edge, graph.vertices())?;
        number = number.saturating_add(1);
    }
    Ok(())
}

/// An edge, with its out port where the vertex that it leaves has two, and its in port where the vertex that it enters has two.
fn put_arrow(
    text: &mut Vec<u8>,
    number: u64,
    edge: &Edge,
    vertices: &[Vertex],
) -> Result<(), NoMemory> {
    put_number(text, edge.source.vertex.0 as u64)?;
    text.extend_from_slice(b" -> ")?;
    put_number(text, edge.target.0 as u64)?;
    text.extend_from_slice(b" [label=\"")?;
    put_number(text, number)?;
    if let Some(source) = vertices.get(edge.source.vertex.0 as usize) {
        if source.kind.out_ports() == 2 {
            text.extend_from_slice(b" out ")?;
            put_number(text, edge.source.out as u64)?;
        }
    }
    if let Some(target) = vertices.get(edge.target.0 as usize) {
        if target.kind.in_ports() == 2 {
            text.extend_from_slice(b" in ")?;
            put_number(text, edge.in_port as u64)?;
        }
    }
    text.extend_from_slice(b"\"];\n")?;
    Ok(())
}
