//! What is sent to each worker: what decides which threads are woken, and what is counted.

ghost use Rattle.std.specs.Prelude.{◌≡◌, ◌+◌, length};
ghost use Rattle.semantics.specs.Multiset.{total};
ghost use Rattle.events.specs.Outputs.{counted};

use crate::worker_set::WorkerSet;
use events::Letter;

/// A message of fewer rows takes less time to compute than to hand to another thread.
const LARGE: u64 = 32;

/// This many rows in large messages are worth a thread.
pub const HEAVY: u64 = 2048;

/// What an event or a batch sends: the workers that get a message, those that get a large one, the rows of the largest message, and how many messages
/// and records there are. Of an event also its worker and its vertex, and how many records came with it. A number that would pass 18446744073709551615
/// stays there.
#[derive(Clone, Copy)]
pub struct Sent {
    receivers: WorkerSet,
    burdened: WorkerSet,
    rows: u64,
    messages: u64,
    records: u64,
    worker: u32,
    vertex: usize,
    received: u64,
}

impl Sent {
    /// What these letters are. They are of a batch, of which no worker, vertex or received records are told: these are 0.
    #[inline(always)]
    pub fn of(letters: &[Letter]) -> Sent
        ensures { result.records ≡ counted (total (λ letter. length letter.message.records) letters.now) }
    {
        let mut sent = Sent {
            receivers: WorkerSet::empty(),
            burdened: WorkerSet::empty(),
            rows: 0,
            messages: letters.len() as u64,
            records: 0,
            worker: 0,
            vertex: 0,
            received: 0,
        };
        for letter in letters {
            sent.add(letter);
        }
        sent
    }

    /// The same of a worker's event at a vertex, with which so many records came.
    #[inline(always)]
    pub(crate) fn of_event(self, worker: u32, vertex: usize, received: u64) -> Sent
        ensures { result ≡ record self { worker = worker; vertex = vertex; received = received } }
    {
        Sent {
            worker,
            vertex,
            received,
            ..self
        }
    }

    /// The workers that get a message.
    pub fn receivers(self) -> WorkerSet {
        self.receivers
    }

    /// The workers that get a large message.
    pub fn burdened(self) -> WorkerSet {
        self.burdened
    }

    /// The rows of the largest message.
    pub fn rows(self) -> u64 {
        self.rows
    }

    /// The number of messages.
    pub fn messages(self) -> u64 {
        self.messages
    }

    /// The number of records in the messages, repeats counted.
    pub fn records(self) -> u64
        ensures { result ≡ self.records }
    {
        self.records
    }

    /// The worker of the event.
    pub fn worker(self) -> u32
        ensures { result ≡ self.worker }
    {
        self.worker
    }

    /// The vertex of the event.
    pub fn vertex(self) -> usize
        ensures { result ≡ self.vertex }
    {
        self.vertex
    }

    /// The number of records that came with the event, repeats counted.
    pub fn received(self) -> u64
        ensures { result ≡ self.received }
    {
        self.received
    }

    #[inline(always)]
    fn add(&mut self, letter: &Letter)
        ensures { self.new.records ≡ counted (self.old.records + length letter.now.message.records) }
    {
        let rows = letter.message.rows() as u64;
        let more = letter.message.len() as u64;
        self.receivers = self.receivers.with(letter.to);
        self.rows = self.rows.max(rows);
        self.records = self.records.saturating_add(more);
        if rows >= LARGE {
            self.burdened = self.burdened.with(letter.to);
        }
    }
}
