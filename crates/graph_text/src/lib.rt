//! The texts of a graph: its lines, one for each vertex, and a drawing for Graphviz.
//!
//! The contract for the layers above: `graph_text` puts exactly the text that the definition (`Text`) gives a graph. The drawing is in no contract.
//!
//! Below stand `graph`, `expr_tree`, for scalars and conditions, `record_core` and `itoa`. The commands write graphs, and `statistics` takes the names of
//! vertices from their lines.
#![tactic(auto)]

mod dot;
mod label;
mod text;

pub use dot::{Figures, graph_dot, graph_dot_with};
pub use text::{graph_text, name_of, put_number, put_vertex};
