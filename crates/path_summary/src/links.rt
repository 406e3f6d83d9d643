//! The edges of a graph in the form that the making of a table needs: from vertex to vertex, with the action of the first.

ghost use Rattle.std.specs.Prelude.{◌≡◌, ◌<◌, ◌≤◌, ℕ, length, IfOk, slice_get, slice_index_or};
ghost use Rattle.graph.specs.Shown.{shown_graph};
ghost use Rattle.graph.specs.Locations.{location_of};
ghost use Rattle.graph.specs.Limits.{max_vertices, max_edges};
ghost use Rattle.semantics.specs.Graph.{edge_count, edge_source, vertex};
ghost use Rattle.path_summary.specs.Linking as plain;
ghost use Rattle.path_summary.specs.Walks.{HaveLoops};
ghost use Rattle.loop_context.specs.Actions.{action_of};

use graph::{EdgeId, Graph, Location, VertexId};
use loop_context::Action;
use record_core::NoMemory;
use std::alloc::Global;
use std::marker::Model;

/// An edge: the vertex that it leaves, the one that it enters, and what the first does to times.
#[derive(Drop)]
pub struct Link {
    source: u32,
    target: u32,
    action: Action,
}

impl Model for Link {
    ghost use Rattle.path_summary.specs.Linking as plain;
    ghost use Rattle.loop_context.specs.Actions.{action_of};

    ghost Value = { plain.Link };

    ghost view = { λ k. record { source = k.source; target = k.target; acts = action_of k.action } };
}

/// The depths of the vertices, and the edges, by number.
#[derive(Drop)]
pub struct Links {
    depths: Vec<u32>,
    edges: Vec<Link>,
}

impl Model for Links {
    ghost use Rattle.path_summary.specs.Linking as plain;

    ghost Value = { plain.Links };

    ghost view = { λ w. record { depths = w.depths.items; edges = w.edges.items } };
}

impl Link {
    pub fn source(&self) -> u32
        ensures { result ≡ self.now.source }
    {
        self.source
    }

    pub fn target(&self) -> u32
        ensures { result ≡ self.now.target }
    {
        self.target
    }

    pub fn action(&self) -> Action
        ensures { action_of result ≡ self.now.acts }
    {
        self.action
    }
}

impl Links {
    /// The depths and the edges of a graph.
    pub fn of(alloc: Global, graph: &Graph) -> Result<Links, NoMemory>
        ensures draws { IfOk result (λ w. plain.Draws w (shown_graph graph.now)) }
        ensures few { IfOk result (λ w. length w.depths ≤ max_vertices) }
        ensures edges { IfOk result (λ w. length w.edges ≤ max_edges) }
        ensures loops { IfOk result (λ w. ∥ HaveLoops w ∥₁) }
    {
        semantics::graphs::law_program();
        graph.law_of_program();
        let depths = depths_of(alloc, graph)?;
        let edges = edges_of(alloc, graph)?;
        Ok(Links { depths, edges })
    }

    pub fn edges(&self) -> &[Link]
        ensures { result.now ≡ self.now.edges }
    {
        &self.edges
    }

    pub fn edge(&self, number: u32) -> &Link
        requires { number < length self.now.edges }
        ensures { result.now ≡ plain.link_of self.now number }
    {
        &self.edges[number as usize]
    }

    pub fn depth(&self, vertex: u32) -> u32
        requires { vertex < length self.now.depths }
        ensures { result ≡ slice_index_or self.now.depths vertex 0 }
    {
        self.depths[vertex as usize]
    }

    pub fn vertex_count(&self) -> usize
        ensures { result ≡ length self.now.depths }
    {
        self.depths.len()
    }

    /// The vertex from which paths from a location go on.
    pub fn home(&self, location: Location) -> u32
        requires { plain.IsKnown self.now (location_of location) }
        ensures { result ≡ plain.home_in self.now (location_of location) }
    {
        match location {
            Location::Edge(edge) => self.edge(edge.0).target(),
            Location::Vertex(vertex) => vertex.0,
        }
    }
}

/// The depths of the vertices.
fn depths_of(alloc: Global, graph: &Graph) -> Result<Vec<u32>, NoMemory>
    ensures long { IfOk result (λ ds. length ds.items ≡ length (shown_graph graph.now)) }
    ensures few { IfOk result (λ ds. length ds.items ≤ max_vertices) }
    ensures each { IfOk result (λ ds. (v : ℕ) → v < length (shown_graph graph.now) → slice_index_or ds.items v 0 ≡ (vertex (shown_graph graph.now) v).depth) }
{
    let mut depths = Vec::with_capacity(alloc, graph.vertex_count())?;
    for number in 0..graph.vertex_count() {
        depths.push(graph.vertex(VertexId(number as u32)).depth)?;
    }
    Ok(depths)
}

/// The edges.
fn edges_of(alloc: Global, graph: &Graph) -> Result<Vec<Link>, NoMemory>
    requires few { edge_count (shown_graph graph.now) ≤ max_edges }
    requires fed { (e : ℕ) → e < edge_count (shown_graph graph.now) → (edge_source (shown_graph graph.now) e).vertex < length (shown_graph graph.now) }
    ensures long { IfOk result (λ es. length es.items ≡ edge_count (shown_graph graph.now)) }
    ensures each { IfOk result (λ es. (e : ℕ) (k : plain.Link) → slice_get es.items e ≡ Some k → k ≡ plain.link_in (shown_graph graph.now) e) }
{
    let mut edges = Vec::with_capacity(alloc, graph.edge_count())?;
    for number in 0..graph.edge_count() {
        edges.push(link_at(graph, EdgeId(number as u32)))?;
    }
    Ok(edges)
}

/// One edge.
fn link_at(graph: &Graph, edge: EdgeId) -> Link
    requires there { edge.0 < edge_count (shown_graph graph.now) }
    requires fed { (edge_source (shown_graph graph.now) edge.0).vertex < length (shown_graph graph.now) }
    ensures { result ≡ plain.link_in (shown_graph graph.now) edge.0 }
{
    let ends = graph.edge(edge);
    let action = graph.vertex(ends.source.vertex).kind.action();
    Link {
        source: ends.source.vertex.0,
        target: ends.target.0,
        action,
    }
}
