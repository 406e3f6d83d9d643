//! Decides which pointstamp could result in which.
//!
//! The contract for the layers above: `Paths::could` is true exactly where the definition's could-result-in holds in the graph, and takes no memory.
//! It reads a table that is made once for each graph, with one path summary for each two vertices that a path connects.
//!
//! Built on `semantics`, `loop_context`, `graph`, `expr_tree` and `arrayvec`. Trackers of progress use it.
#![tactic(auto)]

mod kept;
mod links;
mod paths;
mod pointstamp;
mod row;
mod summaries;
mod summary;

pub use graph::{EdgeId, Graph, Location, VertexId};
pub use paths::Paths;
pub use pointstamp::{Pointstamp, same_location};
