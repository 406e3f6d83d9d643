//! Records on their way to a worker, in one batch or several.

ghost use Rattle.std.specs.Prelude.{◌≡◌, ◌≤◌, ◌+◌, ◌∷◌, ◌++◌, ◌↔◌, IfErr, IfOk, IsTrue, OnErr, OnOk, length, min, vec_capacity, vec_len};
ghost use Rattle.semantics.specs.Multiset.{◌≈◌};
ghost use Rattle.rows.specs.FlatRows.{arity_of};
ghost use Rattle.events.specs.Merging.{MayMerge};

use graph::EdgeId;
use loop_context::Time;
use record_core::NoMemory;
use rows::{Batch, WorkFault};
use std::alloc::Global;
use std::marker::Model;

/// The most records of messages that are merged, repeats counted: so no record of the message that they make can occur too often.
const MOST_MERGED: usize = 9_223_372_036_854_775_807;

/// Messages with fewer rows than this are worth merging; a larger one is worth an event by itself.
const MANY_ROWS: usize = 1024;

/// Records on an edge at a time. A message that was merged holds several batches, which are joined when its event is computed.
#[derive(Drop)]
pub struct Message {
    edge: EdgeId,
    time: Time,
    len: usize,
    arity: usize,
    batch: Batch,
    more: Vec<Batch>,
}

impl Model for Message {
    ghost use Rattle.std.specs.Prelude.{◌++◌};
    ghost use Rattle.machine.specs.World as machine;
    ghost use Rattle.rows.specs.FlatRows.{joined};
    ghost use Rattle.events.specs.Merging.{AreOneMessage};

    ghost Value = { machine.Message };

    ghost view = { λ m. record { edge = m.edge.0; time = m.time; records = m.batch ++ joined m.more.items } };

    ghost invariant = { λ m. AreOneMessage m.batch m.more.items m.len m.arity };
}

impl Message {
    /// A message of one batch. Takes no memory.
    #[inline(always)]
    pub fn new(alloc: Global, edge: EdgeId, time: Time, batch: Batch) -> Message
        ensures { result ≡ record { edge = edge.0; time = time; records = batch } }
    {
        Message {
            edge,
            time,
            len: batch.weight(),
            arity: batch.arity(),
            batch,
            more: Vec::new(alloc),
        }
    }

    #[inline(always)]
    pub fn edge(&self) -> EdgeId
        ensures { result.0 ≡ self.now.edge }
    {
        self.edge
    }

    #[inline(always)]
    pub fn time(&self) -> &Time
        ensures { result.now ≡ self.now.time }
    {
        &self.time
    }

    /// Sets the time at which the message arrives.
    #[inline(always)]
    pub fn set_time(&mut self, time: Time)
        ensures { self.new ≡ record self.old { time = time } }
    {
        self.time = time;
    }

    /// The number of records, repeats counted; 18446744073709551615 if there are more.
    #[inline(always)]
    pub fn len(&self) -> usize
        ensures { result ≡ min (length self.now.records) 18446744073709551615 }
    {
        self.len
    }

    /// The number of rows in which the records are stored, which decides the cost of computing them. No clause is about it.
    pub fn rows(&self) -> usize {
        let mut rows = self.batch.len();
        for batch in &self.more {
            rows = rows.saturating_add(batch.len());
        }
        rows
    }

    /// Whether the other message may be merged into this one. Looks at no record.
    #[inline(always)]
    pub fn may_merge(&self, other: &Message) -> bool
        ensures { IsTrue result ↔ MayMerge self.now other.now }
    {
        self.edge.0 == other.edge.0
            && self.time == other.time
            && self.arity == other.arity
            && self.len.saturating_add(other.len) <= MOST_MERGED
    }

    /// Whether the other message may be merged into this one, and neither has many rows. It decides only how many events there are.
    pub fn is_worth_merging(&self, other: &Message) -> bool {
        self.may_merge(other) && self.rows() < MANY_ROWS && other.rows() < MANY_ROWS
    }

    /// Appends the other message's batches, without copying a record. If memory runs out, nothing changes, and the other message comes back.
    pub fn merge(&mut self, other: Message) -> Result<(), Message>
        requires { MayMerge self.old other }
        ensures merged { OnOk result (self.new ≡ record self.old { records = self.old.records ++ other.records }) }
        ensures back { IfErr result (λ m. m ≡ other) }
        ensures same { OnErr result (self.new ≡ self.old) }
    {
        let Some(count) = other.more.len().checked_add(1) else {
            return Err(other);
        };
        if self.more.reserve(count).is_err() {
            return Err(other);
        }
        let Message {
            edge: _,
            time: _,
            len,
            arity: _,
            batch,
            more,
        } = other;
        self.len += len;
        put_reserved(&mut self.more, batch, more);
        Ok(())
    }

    /// The edge, the time, and the records as one batch, in some order. Copies records only if there are several batches.
    #[inline(always)]
    pub fn into_parts(self, alloc: Global) -> Result<(EdgeId, Time, Batch), NoMemory>
        ensures edge { IfOk result (λ p. p.0.0 ≡ self.edge) }
        ensures time { IfOk result (λ p. p.1 ≡ self.time) }
        ensures records { IfOk result (λ p. p.2 ≈ self.records) }
        ensures arity { IfOk result (λ p. arity_of p.2 ≡ arity_of self.records) }
    {
        let Message {
            edge,
            time,
            len: _,
            arity: _,
            batch,
            more,
        } = self;
        if more.is_empty() {
            return Ok((edge, time, batch));
        }
        match Batch::concat(alloc, &batch, &more) {
            Ok(joined) => Ok((edge, time, joined)),
            Err(WorkFault::NoMemory) => Err(NoMemory),
            Err(WorkFault::Count) => unreachable!(),
        }
    }
}

/// Appends a batch and then more batches; there must be room.
fn put_reserved(batches: &mut Vec<Batch>, batch: Batch, more: Vec<Batch>)
    requires { vec_len batches.old + length more.items + 1 ≤ vec_capacity batches.old }
    ensures { batches.new.items ≡ batches.old.items ++ batch ∷ more.items }
{
    let mut more = more;
    batches.push_reserved(batch);
    match batches.append(&mut more) {
        Ok(()) => {}
        Err(_) => unreachable!(),
    }
}
