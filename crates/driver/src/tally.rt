//! Counts what each vertex did at each worker.

ghost use Rattle.std.specs.Prelude.{◌≡◌, ◌+◌, [], IfOk, length, map, slice_index_or};
ghost use Rattle.board.specs.Outputs.{counted};
ghost use Rattle.board.specs.Shown.{Shown};
ghost use Rattle.driver.specs.Tallies.{AreZero, Covers, CoversAll, IsTally, IsZero, Raises, RaisesIn, raised};

use board::{Board, Sent, Views};
use std::alloc::{AllocError, Global};
use std::marker::Model;

/// What a vertex did at a worker. A number that would pass 18446744073709551615 stays there.
#[derive(Clone, Copy, PartialEq, Eq)]
pub struct Counts {
    /// The events that were committed.
    pub events: u64,
    /// The records that came with them, repeats counted.
    pub received: u64,
    /// The records that they sent, repeats counted.
    pub sent: u64,
}

impl Counts {
    /// All zero.
    pub fn none() -> Counts
        ensures { result ≡ record { events = 0; received = 0; sent = 0 } }
    {
        Counts {
            events: 0,
            received: 0,
            sent: 0,
        }
    }

    /// The sums of both.
    pub fn with(self, more: Counts) -> Counts
        ensures events { result.events ≡ counted (self.events + more.events) }
        ensures received { result.received ≡ counted (self.received + more.received) }
        ensures sent { result.sent ≡ counted (self.sent + more.sent) }
    {
        Counts {
            events: self.events.saturating_add(more.events),
            received: self.received.saturating_add(more.received),
            sent: self.sent.saturating_add(more.sent),
        }
    }

    /// The same after one more commit.
    fn raised(self, sent: Sent) -> Counts
        ensures { result ≡ raised sent self }
    {
        Counts {
            events: self.events.saturating_add(1),
            received: self.received.saturating_add(sent.received()),
            sent: self.sent.saturating_add(sent.records()),
        }
    }
}

/// The counters of a run: for each vertex those of each worker, and the number of messages, which is in no clause. Without vertices it counts nothing.
#[derive(Drop)]
pub struct Tally {
    rows: Vec<Vec<Counts>>,
    messages: u64,
}

impl Model for Tally {
    ghost use Rattle.std.specs.Prelude.{map};
    ghost use Rattle.driver.specs.Tallies.{Rows};

    ghost Value = { Rows };

    ghost view = { λ t. map (λ row. row.items) t.rows.items };
}

impl Tally {
    /// Counts nothing. Takes no memory.
    pub fn none(alloc: Global) -> Tally
        ensures none { result ≡ [] }
        ensures begins { (first now : Shown) → IsTally first now result }
    {
        Tally {
            rows: Vec::new(alloc),
            messages: 0,
        }
    }

    /// Counters that are 0, for the vertices and the workers of a board.
    pub fn of<V: Views>(alloc: Global, board: &Board<V>) -> Result<Tally, AllocError>
        ensures { IfOk result (IsTally board.now.shown board.now.shown) }
    {
        let rows = new_rows(alloc, board.graph().vertex_count(), board.workers())?;
        Ok(Tally { rows, messages: 0 })
    }

    /// The number of vertices.
    pub fn len(&self) -> usize
        ensures { result ≡ length self.now }
    {
        self.rows.len()
    }

    /// The counters of a vertex, by worker.
    pub fn row(&self, vertex: usize) -> &[Counts]
        ensures { result.now ≡ slice_index_or self.now vertex [] }
    {
        match self.rows.get(vertex) {
            Some(row) => row.as_slice(),
            None => &[],
        }
    }

    /// The number of messages that were sent; 18446744073709551615 if there were more.
    pub fn messages(&self) -> u64 {
        self.messages
    }

    /// Counts a commit, by what it says of its event.
    pub fn count(&mut self, sent: Sent)
        ensures { Raises self.old sent self.new }
    {
        let vertex = sent.vertex();
        if vertex >= self.rows.len() {
            return;
        }
        let row = &mut self.rows[vertex];
        raise(row, sent);
        self.messages = self.messages.saturating_add(sent.messages());
    }
}

/// Counters for that many vertices and workers.
fn new_rows(alloc: Global, vertices: usize, workers: u32) -> Result<Vec<Vec<Counts>>, AllocError>
    ensures zero { IfOk result (λ rows. AreZero (map (λ row. row.items) rows.items)) }
    ensures full { IfOk result (λ rows. CoversAll (map (λ row. row.items) rows.items) vertices workers) }
{
    let mut rows = Vec::with_capacity(alloc, vertices)?;
    'rows: for _vertex in 0..vertices {
        let row = new_row(alloc, workers)?;
        rows.push(row)?;
    }
    Ok(rows)
}

/// The counters of a vertex, for that many workers.
fn new_row(alloc: Global, workers: u32) -> Result<Vec<Counts>, AllocError>
    ensures zero { IfOk result (λ row. IsZero row.items) }
    ensures full { IfOk result (λ row. Covers row.items workers) }
{
    let mut row = Vec::with_capacity(alloc, workers as usize)?;
    'row: for _worker in 0..workers {
        row.push(Counts::none())?;
    }
    Ok(row)
}

/// Raises the counters of the event's worker.
fn raise(row: &mut Vec<Counts>, sent: Sent)
    ensures { RaisesIn row.old.items sent row.new.items }
{
    let worker = sent.worker() as usize;
    if worker >= row.len() {
        return;
    }
    let counts = row[worker];
    row[worker] = counts.raised(sent);
}
