//! What is fed, counted before the run.

ghost use Rattle.std.specs.Prelude.{◌≡◌, ◌<◌, ◌≤◌, IfOk, vec_len};
ghost use Rattle.semantics.specs.Graph.{input_count};
ghost use Rattle.semantics.specs.Limits.{max_workers};
ghost use Rattle.graph.specs.Shown.{shown_graph};
ghost use Rattle.events.specs.Outputs.{counted};
ghost use Rattle.statistics.specs.Counted.{records_in};

use collector::Epochs;
use driver::Counts;
use events::{CutBatch, Letter, Wiring};
use graph::{Graph, VertexId};
use record_core::NoMemory;
use rows::Batch;
use std::alloc::Global;
use std::sync::Arc;

/// What is known of a run before it: its graph, what is fed to it, and the number of epochs.
#[derive(Drop)]
pub struct Statistics {
    pub(crate) graph: Arc<Graph, Global>,
    /// For each input what it is fed and sends. No event is committed there.
    pub(crate) inputs: Vec<Counts>,
    /// The messages of feeding the epochs.
    pub(crate) messages: u64,
    pub(crate) epochs: u32,
    ghost few: { vec_len inputs ≤ input_count (shown_graph graph.value) },
}

impl Statistics {
    /// Counts what feeding the epochs to the inputs will send.
    pub fn of(
        alloc: Global,
        graph: &Arc<Graph, Global>,
        workers: u32,
        epochs: &Epochs,
    ) -> Result<Statistics, NoMemory>
        requires some { 0 < workers }
        requires few { workers ≤ max_workers }
        ensures { IfOk result (λ s. s.graph.value ≡ graph.now.value) }
    {
        let wiring = Wiring::of(alloc, Arc::try_clone(graph)?, workers)?;
        let wiring = Arc::new(alloc, wiring)?;
        let mut inputs = Vec::new(alloc);
        let mut messages = 0;
        for input in 0..graph.input_count() {
            inputs.push(count_input(alloc, &wiring, input, epochs, &mut messages)?)?;
        }
        Ok(Statistics {
            graph: Arc::try_clone(graph)?,
            inputs,
            messages,
            epochs: epochs.count(),
        })
    }
}

/// Counts the messages of feeding one input, and gives what it is fed and sends.
fn count_input(
    alloc: Global,
    wiring: &Arc<Wiring, Global>,
    input: usize,
    epochs: &Epochs,
    messages: &mut u64,
) -> Result<Counts, NoMemory> {
    let mut counts = Counts::none();
    let Ok(input) = u32::try_from(input) else {
        return Ok(counts);
    };
    for epoch in 0..epochs.count() {
        for batch in epochs.batches(input, epoch) {
            let (sent, records) = fed_batch(alloc, wiring, input, batch)?;
            counts.received = counts.received.saturating_add(batch.weight() as u64);
            counts.sent = counts.sent.saturating_add(records);
            *messages = messages.saturating_add(sent);
        }
    }
    Ok(counts)
}

/// The numbers of messages and of their records that feeding a batch to an input makes.
fn fed_batch(
    alloc: Global,
    wiring: &Arc<Wiring, Global>,
    input: u32,
    batch: &Batch,
) -> Result<(u64, u64), NoMemory> {
    let graph = wiring.graph();
    let id = VertexId(input);
    if input as usize >= graph.vertex_count() || !graph.vertex(id).kind.is_input() {
        return Ok((0, 0));
    }
    let cut = CutBatch::of(alloc, wiring, input, batch.share()?)?;
    let letters = cut.letters();
    Ok((letters.len() as u64, records_of(letters)))
}

/// The number of records of messages, repeats counted; 18446744073709551615 if there are more.
fn records_of(letters: &[Letter]) -> u64
    ensures { result ≡ counted (records_in letters.now) }
{
    let mut records = 0u64;
    for letter in letters {
        records = records.saturating_add(letter.message.len() as u64);
    }
    records
}
