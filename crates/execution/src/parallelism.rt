//! How many workers share the records of a run.

ghost use Rattle.std.specs.Prelude.{◌<◌, ◌≤◌, ◌≡◌};
ghost use Rattle.semantics.specs.Limits.{max_workers};
ghost use Rattle.collector.specs.ReadEpochs.{epoch_count};

use collector::Epochs;
use graph::Graph;

/// From this number of epochs on it matters how small they are.
const MANY_EPOCHS: u32 = 256;

/// The records of an average epoch for each worker, where there are many epochs. With fewer, a worker costs more than it brings.
const RECORDS_EACH: u64 = 512;

/// The threads of a run, and the workers among whom the records are divided. A single worker works in the thread that feeds; of several
/// each has a thread, and threads without a worker have nothing to do.
#[derive(Clone, Copy)]
pub struct Parallelism {
    threads: u32,
    workers: u32,
    ghost some: { 0 < workers },
    ghost few: { workers ≤ max_workers },
}

/// How many records the epochs have in all, or at least `enough`. Equal records of a batch count once.
fn records_up_to(epochs: &Epochs, inputs: u32, enough: u64) -> u64 {
    let mut records: u64 = 0;
    for epoch in 0..epochs.count() {
        for input in 0..inputs {
            for batch in epochs.batches(input, epoch) {
                records = records.saturating_add(batch.len() as u64);
            }
        }
        if records >= enough {
            return records;
        }
    }
    records
}

impl Parallelism {
    /// A thread and a worker for each that was asked for. Of 256 epochs and more there are only as many workers as they have records for: one
    /// for each 512 records of the average epoch, and at least one.
    ///
    /// Records are divided among workers by their route keys, so each worker that gets some of an epoch has messages of its own, each of
    /// which takes the lock. Where many epochs are small, that costs more than the workers save.
    pub fn of(asked: u32, graph: &Graph, epochs: &Epochs) -> Parallelism
        requires some { 0 < asked }
        requires few { asked ≤ max_workers }
        ensures threads { result.threads ≡ asked }
        ensures few { result.workers ≤ asked }
        ensures all { epoch_count epochs.now < 256 → result.workers ≡ asked }
    {
        let count = epochs.count();
        if count < MANY_EPOCHS {
            return Parallelism {
                threads: asked,
                workers: asked,
            };
        }
        let each = u64::from(count) * RECORDS_EACH;
        let inputs = u32::try_from(graph.inputs().len()).unwrap_or(u32::MAX);
        let records = records_up_to(epochs, inputs, each * u64::from(asked));
        let workers = u32::try_from(records / each).unwrap_or(asked);
        Parallelism {
            threads: asked,
            workers: workers.max(1).min(asked),
        }
    }

    /// The number of threads.
    pub fn threads(self) -> u32
        ensures { result ≡ self.threads }
    {
        self.threads
    }

    /// The number of workers.
    pub fn workers(self) -> u32
        ensures value { result ≡ self.workers }
        ensures some { 0 < result }
        ensures few { result ≤ max_workers }
    {
        self.workers
    }
}
