//! Graphs, with the list of their edges.

ghost use Rattle.std.specs.Prelude.{◌≡◌, ◌≤◌, ◌<◌, length, map, slice_index_or, IfOk};
ghost use Rattle.semantics.specs.Dataflow.{IsDataflow};
ghost use Rattle.semantics.specs.Graph.{edge_count, edge_source, in_port, input_count, output_numbers, source, target, vertex};
ghost use Rattle.semantics.specs.Kinds.{is_input};
ghost use Rattle.semantics.specs.PortArity.{IsTyped};
ghost use Rattle.graph.specs.Edges.{edge_list, edge_of};
ghost use Rattle.graph.specs.GraphLaws.{HasProgramArities, IsProgramGraph};
ghost use Rattle.graph.specs.Limits.{max_vertices};
ghost use Rattle.graph.specs.Shown.{shown_arities, shown_graph, shown_inputs, shown_names};
ghost use Rattle.graph.specs.Views.{graph_of, name_of_output, number_of_output, port_of, vertex_of};
ghost use Rattle.record_core.specs.Inputs.{input_of};

use crate::edges::{Edge, EdgeId, edges_of};
use crate::vertex::{Port, Vertex, VertexId, arity_at, two_sources};
use record_core::{DeclaredInput, Name, NoMemory};
use std::alloc::Global;
use std::marker::Model;

/// An output of a query: its name, and the vertex where its records come out.
#[derive(Drop)]
pub struct GraphOutput {
    pub name: Name,
    pub vertex: VertexId,
}

/// The dataflow graph of a well-typed query, at most `MAX_VERTICES` vertices. It owns all that it needs.
#[derive(Drop)]
pub struct Graph {
    vertices: Vec<Vertex>,
    inputs: Vec<DeclaredInput>,
    outputs: Vec<GraphOutput>,
    arities: Vec<u64>,
    edges: Vec<Edge>,
}

impl Model for Graph {
    ghost use Rattle.std.specs.Prelude.{◌≡◌, ◌≤◌, length, map, vec_items};
    ghost use Rattle.std.specs.Coded.{codes};
    ghost use Rattle.std.specs.contracts.alloc.Global as heap;
    ghost use Rattle.std.specs.contracts.impls.GlobalAllocator.TheImpl as allocates;
    ghost use Rattle.expr_tree.specs.contracts.scalar.Scalar as scalar;
    ghost use Rattle.expr_tree.specs.contracts.condition.Cond as condition;
    ghost use Rattle.graph.specs.Edges.{edge_list, edge_of};
    ghost use Rattle.graph.specs.GraphLaws.{HasProgramArities, IsProgramGraph};
    ghost use Rattle.graph.specs.Limits.{max_vertices};
    ghost use Rattle.semantics.specs.Dataflow.{IsDataflow};
    ghost use Rattle.semantics.specs.Graph.{output_numbers};
    ghost use Rattle.graph.specs.Shown.{GraphValue};
    ghost use Rattle.graph.specs.Views.{graph_of, number_of_output};
    ghost use Rattle.record_core.specs.Inputs.{input_of};

    ghost Value = { GraphValue };

    ghost coded = { Prim.hlevel (codes, (scalar.the_row heap.the_row allocates.ghosts).coded, (condition.the_row heap.the_row allocates.ghosts).coded) };

    ghost view = { λ g. record { vertices = vec_items g.vertices; inputs = vec_items g.inputs; outputs = vec_items g.outputs; arities = vec_items g.arities } };

    ghost invariant = { λ g. ∥ IsProgramGraph (graph_of (vec_items g.vertices)) (map input_of (vec_items g.inputs)) ∥₁
        × (map edge_of (vec_items g.edges) ≡ edge_list 0 (graph_of (vec_items g.vertices)))
        × (length (vec_items g.vertices) ≤ max_vertices)
        × ∥ HasProgramArities (graph_of (vec_items g.vertices)) (map input_of (vec_items g.inputs)) (vec_items g.arities) ∥₁
        × IsDataflow (graph_of (vec_items g.vertices))
        × (map number_of_output (vec_items g.outputs) ≡ output_numbers (graph_of (vec_items g.vertices))) };
}

impl Graph {
    /// A graph of these parts, which are those of a well-typed program's. It makes the list of the edges, so it fails where memory
    /// is refused.
    pub fn new(
        alloc: Global,
        vertices: Vec<Vertex>,
        inputs: Vec<DeclaredInput>,
        outputs: Vec<GraphOutput>,
        arities: Vec<u64>,
    ) -> Result<Graph, NoMemory>
        requires program { ∥ HasProgramArities (graph_of vertices.items) (map input_of inputs.items) arities.items ∥₁ }
        requires dataflow { IsDataflow (graph_of vertices.items) }
        requires outputs { map number_of_output outputs.items ≡ output_numbers (graph_of vertices.items) }
        requires few { length vertices.items ≤ max_vertices }
        ensures graph { IfOk result (λ g. shown_graph g ≡ graph_of vertices.items) }
        ensures inputs { IfOk result (λ g. shown_inputs g ≡ map input_of inputs.items) }
        ensures names { IfOk result (λ g. shown_names g ≡ map name_of_output outputs.items) }
        ensures arities { IfOk result (λ g. shown_arities g ≡ arities.items) }
    {
        let edges = edges_of(alloc, &vertices)?;
        Ok(Graph {
            vertices,
            inputs,
            outputs,
            arities,
            edges,
        })
    }

    /// Each graph is that of some well-typed program with these inputs, so the laws of such graphs hold of it. Nothing is done.
    pub fn law_of_program(&self)
        ensures { ∥ IsProgramGraph (shown_graph self.now) (shown_inputs self.now) ∥₁ }
    {
        let _ = &self.vertices;
    }

    /// The graph is a dataflow graph, so the laws of such graphs hold of it. Nothing is done.
    pub fn law_of_dataflow(&self)
        ensures { IsDataflow (shown_graph self.now) }
    {
        let _ = &self.vertices;
    }

    /// The arities of the ports are those of that program's. Nothing is done.
    pub fn law_of_arities(&self)
        ensures { ∥ HasProgramArities (shown_graph self.now) (shown_inputs self.now) (shown_arities self.now) ∥₁ }
    {
        let _ = &self.arities;
    }

    /// What comes to each vertex has as many fields as its kind asks, and what it sends as many as its kind makes of that; all have
    /// 1 to 16. Nothing is done.
    pub fn law_of_ports(&self)
        ensures { IsTyped (shown_graph self.now) (λ v. slice_index_or (shown_arities self.now) v 0) }
    {
        semantics::graphs::law_program();
        semantics::graphs::law_arities();
        self.law_of_arities();
    }

    /// The vertices by number: at most `MAX_VERTICES`.
    pub fn vertices(&self) -> &[Vertex]
        ensures value { graph_of result.now ≡ shown_graph self.now }
        ensures few { length result.now ≤ max_vertices }
    {
        &self.vertices
    }

    /// The number of vertices: at most `MAX_VERTICES`.
    #[tactic(auto, using(crate::proofs::Numbers::length_graph_of))]
    pub fn vertex_count(&self) -> usize
        ensures value { result ≡ length (shown_graph self.now) }
        ensures few { result ≤ max_vertices }
    {
        self.vertices().len()
    }

    /// The vertex of that number.
    #[tactic(auto, using(crate::proofs::Numbers::vertex_at))]
    pub fn vertex(&self, id: VertexId) -> &Vertex
        requires { id.0 < length (shown_graph self.now) }
        ensures { vertex_of result.now ≡ vertex (shown_graph self.now) id.0 }
    {
        let vertices = self.vertices();
        let number = id.0 as usize;
        &vertices[number]
    }

    /// The arity of each vertex, by number.
    pub fn arities(&self) -> &[u64]
        ensures { result.now ≡ shown_arities self.now }
    {
        &self.arities
    }

    /// How many fields the records have that the vertex of that number sends by its out ports, or for the output those that come to it.
    pub fn arity(&self, id: VertexId) -> u64
        requires { id.0 < length (shown_graph self.now) }
        ensures { result ≡ slice_index_or (shown_arities self.now) id.0 0 }
    {
        arity_at(&self.arities, Port { vertex: id, out: 0 })
    }

    /// How many fields the records have that come to an in port: as many as those that the port which feeds it sends.
    pub fn in_arity(&self, id: VertexId, in_port: u32) -> u64
        requires vertex { id.0 < length (shown_graph self.now) }
        requires port { in_port < length (vertex (shown_graph self.now) id.0).ins }
        ensures { result ≡ slice_index_or (shown_arities self.now) (source (shown_graph self.now) id.0 in_port).vertex 0 }
    {
        let (first, second) = two_sources(self.vertex(id).ins);
        if in_port == 0 {
            arity_at(&self.arities, first)
        } else {
            arity_at(&self.arities, second)
        }
    }

    /// The edges by number.
    pub fn edges(&self) -> &[Edge]
        ensures value { map edge_of result.now ≡ edge_list 0 (shown_graph self.now) }
        ensures count { length result.now ≡ edge_count (shown_graph self.now) }
    {
        &self.edges
    }

    /// The number of edges.
    pub fn edge_count(&self) -> usize
        ensures { result ≡ edge_count (shown_graph self.now) }
    {
        self.edges().len()
    }

    /// The edge of that number: where it begins, the vertex that it enters, and the in port.
    pub fn edge(&self, id: EdgeId) -> Edge
        requires { id.0 < edge_count (shown_graph self.now) }
        ensures source { port_of result.source ≡ edge_source (shown_graph self.now) id.0 }
        ensures target { result.target.0 ≡ target (shown_graph self.now) id.0 }
        ensures in_port { result.in_port ≡ in_port (shown_graph self.now) id.0 }
    {
        let edges = self.edges();
        let number = id.0 as usize;
        edges[number]
    }

    /// The inputs in order. The first vertices are theirs.
    pub fn inputs(&self) -> &[DeclaredInput]
        ensures { map input_of result.now ≡ shown_inputs self.now }
    {
        &self.inputs
    }

    /// The outputs in order: the name of each, and its vertex.
    pub fn outputs(&self) -> &[GraphOutput]
        ensures names { map name_of_output result.now ≡ shown_names self.now }
        ensures numbers { map number_of_output result.now ≡ output_numbers (shown_graph self.now) }
    {
        &self.outputs
    }

    /// The number of inputs.
    pub fn input_count(&self) -> usize
        ensures value { result ≡ input_count (shown_graph self.now) }
        ensures few { result ≤ max_vertices }
    {
        for number in 0..self.vertex_count() {
            if !self.is_input(VertexId(number as u32)) {
                return number;
            }
        }
        self.vertex_count()
    }

    /// Whether the vertex of that number is an input.
    fn is_input(&self, id: VertexId) -> bool
        requires { id.0 < length (shown_graph self.now) }
        ensures { result ≡ is_input (vertex (shown_graph self.now) id.0).kind }
    {
        self.vertex(id).kind.is_input()
    }
}
