//! Queries to dataflow graphs.
//!
//! `lower` makes the graph of a well-typed query: vertices numbered as they are made, each with its kind, its depth and the ports that
//! feed it.
//!
//! The contract for the layers above: the graph is exactly the one that the definition (`semantics`) makes of the tree, so on any
//! inputs it has exactly one flow, and what comes to each output is what the query means there. A graph owns what it needs; the
//! tree may go.
//!
//! Below stand `expr_tree`, `typing`, `semantics`, `record_core`, `indexmap` and `graph`, whose names this crate gives on. Who takes a graph as
//! it is needs `graph` alone.
#![tactic(auto)]

mod arities;
mod fault;
mod form_vertices;
mod loops;
mod lowered;
mod names;
mod outputs;
mod program;
mod relation;
mod scope;
mod vertex;

pub use fault::LowerFault;
pub use graph::{
    Edge, EdgeId, Graph, GraphOutput, Kind, Location, MAX_VERTICES, Port, Sources, Vertex, VertexId,
};
pub use lowered::{declared_inputs, lower};
