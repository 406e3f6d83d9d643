//! Makes the parts of a new board.

ghost use Rattle.std.specs.Prelude.{◌≡◌, ◌<◌, ℕ, length, slice_index_or, IfOk};
ghost use Rattle.graph.specs.Shown.{shown_graph};
ghost use Rattle.board.specs.WorkerShown.{sides_of};
ghost use Rattle.board.specs.Fresh.{HasFreshSides, HasShards, IsFreshSide, IsFreshSlot};
ghost use Rattle.board.specs.Shown.{no_input};

use crate::inputs::Input;
use crate::slot::Slot;
use crate::worker::Worker;
use events::{Wiring, shard_at};
use graph::{Graph, VertexId};
use record_core::NoMemory;
use std::alloc::Global;
use std::sync::Arc;

/// That many inputs, open at epoch 0.
pub fn new_inputs(alloc: Global, count: usize) -> Result<Vec<Input>, NoMemory>
    ensures long { IfOk result (λ is. length is.items ≡ count) }
    ensures unfed { IfOk result (λ is. (i : ℕ) → slice_index_or is.items i no_input ≡ no_input) }
{
    let mut inputs = Vec::with_capacity(alloc, count)?;
    for _ in 0..count {
        inputs.push(Input::new(alloc))?;
    }
    Ok(inputs)
}

/// That many workers of a graph, with nothing to do.
pub fn new_workers(
    alloc: Global,
    wiring: &Arc<Wiring, Global>,
    count: u32,
) -> Result<Vec<Worker>, NoMemory>
    ensures { IfOk result (λ ws. HasFreshSides wiring.now.value count (sides_of ws.items)) }
{
    let mut workers = Vec::with_capacity(alloc, count as usize)?;
    for _ in 0..count {
        workers.push(new_worker(alloc, wiring)?)?;
    }
    Ok(workers)
}

/// A worker with nothing to do.
fn new_worker(alloc: Global, wiring: &Arc<Wiring, Global>) -> Result<Worker, NoMemory>
    ensures { IfOk result (λ w. IsFreshSide wiring.now.value w.side) }
{
    let slots = new_slots(alloc, wiring.graph())?;
    let shared = Arc::try_clone(wiring)?;
    let worker = Worker::new(alloc, shared, slots)?;
    Ok(worker)
}

/// A shard of each vertex, at home.
fn new_slots(alloc: Global, graph: &Graph) -> Result<Vec<Slot>, NoMemory>
    ensures { IfOk result (λ ss. HasShards graph.now (length (shown_graph graph.now)) ss.items) }
{
    let mut slots = Vec::with_capacity(alloc, graph.vertex_count())?;
    for number in 0..graph.vertex_count() {
        slots.push(new_slot(alloc, graph, VertexId(number as u32))?)?;
    }
    Ok(slots)
}

/// A shard of a vertex, at home.
fn new_slot(alloc: Global, graph: &Graph, id: VertexId) -> Result<Slot, NoMemory>
    requires { id.0 < length (shown_graph graph.now) }
    ensures { IfOk result (λ s. IsFreshSlot graph.now id.0 s) }
{
    let Ok(shard) = shard_at(alloc, graph, id) else {
        return Err(NoMemory);
    };
    Ok(Slot::full(Box::new(alloc, shard)?))
}
