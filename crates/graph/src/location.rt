//! Places of a graph: its edges and its vertices.

ghost use Rattle.std.specs.Prelude.{◌≡◌};
ghost use Rattle.graph.specs.Locations.{IsIn, depth_of, location_of};
ghost use Rattle.graph.specs.Shown.{shown_graph};

use crate::edges::EdgeId;
use crate::graph::Graph;
use crate::vertex::VertexId;

/// A place of a graph, where a message is on its way or a vertex waits to be notified.
#[derive(Clone, Copy)]
pub enum Location {
    Edge(EdgeId),
    Vertex(VertexId),
}

impl Graph {
    /// The number of counters of the times at a place: on an edge those of the vertex that it enters.
    pub fn depth_at(&self, location: Location) -> u32
        requires { IsIn (shown_graph self.now) (location_of location) }
        ensures { result ≡ depth_of (shown_graph self.now) (location_of location) }
    {
        match location {
            Location::Edge(edge) => self.vertex(self.edge(edge).target).depth,
            Location::Vertex(vertex) => self.vertex(vertex).depth,
        }
    }
}
