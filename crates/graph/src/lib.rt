//! Dataflow graphs in memory.
//!
//! A graph has vertices by number, each with its kind, its depth and the ports that feed it, and edges by number. It has its inputs and
//! outputs by name, and the arity of each vertex.
//!
//! The contract for the layers above: a graph is that of some well-typed program, as the definition (`semantics`) makes it, so all that
//! is proved of such graphs holds of it. It is a value: two that show the same are equal, wherever their parts lie.
//!
//! Below stand `expr_tree`, for scalars and conditions, `loop_context`, `record_core` and `semantics`. The compiler (`lowering`) makes
//! graphs; path summaries, trackers, shards and the board use them, and see nothing of queries.
#![tactic(auto)]

mod edges;
mod equality;
mod graph;
mod kind;
mod location;
mod vertex;

pub use edges::{Edge, EdgeId};
pub use graph::{Graph, GraphOutput};
pub use kind::{Role, RouteKey};
pub use location::Location;
pub use vertex::{Kind, MAX_VERTICES, Port, Sources, Vertex, VertexId, arity_at, two_sources};
