//! The pointstamps that are active before the first step.

ghost use Rattle.std.specs.Prelude.{◌≡◌, ◌<◌, ◌≤◌, IfOk, length};
ghost use Rattle.graph.specs.Shown.{shown_graph};
ghost use Rattle.graph.specs.Limits.{max_vertices};
ghost use Rattle.semantics.specs.Could.{IsTimeAt, Pointstamp as Active};
ghost use Rattle.semantics.specs.Graph.{input_count};
ghost use Rattle.progress.specs.Content.{times_in};
ghost use Rattle.views.specs.Opening.{active_at_first};

use graph::{Location, VertexId};
use loop_context::Time;
use path_summary::{Paths, Pointstamp};
use record_core::NoMemory;
use std::alloc::Global;

/// Each input of the graph at epoch 0.
pub fn open_inputs(alloc: Global, paths: &Paths) -> Result<Vec<Pointstamp>, NoMemory>
    ensures content { IfOk result (λ ps. (q : Active) → times_in ps.items q ≡ active_at_first (shown_graph paths.now) q) }
    ensures known { IfOk result (λ ps. (q : Active) → 0 < times_in ps.items q → IsTimeAt (shown_graph paths.now) q.location q.time) }
    ensures few { IfOk result (λ ps. length ps.items ≤ max_vertices) }
{
    let graph = paths.graph();
    graph.law_of_dataflow();
    let count = graph.input_count() as u32;
    let mut first = Vec::with_capacity(alloc, count as usize)?;
    for input in 0..count {
        let time = Time::at_epoch(0);
        first.push(Pointstamp::new(time, Location::Vertex(VertexId(input))))?;
    }
    Ok(first)
}
