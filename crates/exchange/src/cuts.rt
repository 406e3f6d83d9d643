//! Batches that were divided before. In a loop a relation from outside is sent over the same edge at each turn; it is divided once.

ghost use Rattle.std.specs.Prelude.{◌≡◌, ◌<◌, ◌≤◌, IfOk, IsTrue};
ghost use Rattle.semantics.specs.Multiset.{◌≈◌};
ghost use Rattle.semantics.specs.Limits.{max_workers};
ghost use Rattle.exchange.specs.Homes.{home_of};
ghost use Rattle.exchange.specs.Parts.{from_all, parcels as divided};

use crate::routing::Routing;
use crate::splitting::{Parcel, Parcels, split};
use record_core::NoMemory;
use rows::Batch;
use std::alloc::Global;
use std::mem::replace;

/// The most edges of which the last batch is known.
const EDGES: usize = 16;

/// A batch that was divided, how, and its parcels.
#[derive(Drop)]
struct Cut {
    routing: Routing,
    workers: u32,
    sender: u32,
    batch: Batch,
    parcels: Parcels,
    ghost each: { parcels.items ≡ divided (home_of routing workers sender) batch workers },
    ghost sum: { batch ≈ from_all parcels.items },
}

impl Cut {
    /// Whether it is of these records, divided so.
    fn serves(&self, batch: &Batch, routing: &Routing, workers: u32, sender: u32) -> bool
        ensures batch { IsTrue result → self.now.batch ≡ batch.now }
        ensures routing { IsTrue result → home_of self.now.routing ≡ home_of routing.now }
        ensures workers { IsTrue result → self.now.workers ≡ workers }
        ensures sender { IsTrue result → self.now.sender ≡ sender }
    {
        self.workers == workers
            && self.sender == sender
            && self.routing.same(routing)
            && self.batch.same(batch)
    }

    /// Its parcels. No record is copied.
    fn share(&self, alloc: Global) -> Result<Parcels, NoMemory>
        ensures { IfOk result (λ ps. ps.items ≡ self.now.parcels.items) }
    {
        let mut parcels = Vec::with_capacity(alloc, self.parcels.len())?;
        for parcel in &self.parcels {
            parcels.push(Parcel {
                worker: parcel.worker,
                batch: parcel.batch.share()?,
            })?;
        }
        Ok(parcels)
    }
}

/// What is remembered of a batch at first: enough to tell it from most others.
#[derive(Clone, Copy, PartialEq, Eq)]
struct Outline {
    rows: usize,
    weight: usize,
    first: i64,
}

impl Outline {
    fn of(batch: &Batch) -> Outline {
        let _some = batch.len();
        Outline {
            rows: batch.len(),
            weight: batch.weight(),
            first: match batch.row(0) {
                [first, ..] => *first,
                [] => 0,
            },
        }
    }
}

/// The last batch that was sent over an edge; its cut, once one like it has come twice.
#[derive(Drop)]
struct Last {
    edge: u32,
    outline: Outline,
    cut: Option<Cut>,
}

/// The last batches of a sender, by edge.
#[derive(Drop)]
pub struct Cuts {
    alloc: Global,
    last: Vec<Last>,
}

impl Cuts {
    /// No batch was divided.
    pub fn new(alloc: Global) -> Cuts {
        Cuts {
            alloc,
            last: Vec::new(alloc),
        }
    }

    /// All that is known, which is nothing from now on. Takes no memory.
    pub fn take(&mut self) -> Cuts {
        replace(self, Cuts::new(self.alloc))
    }

    /// As `split`. Where the batch that was sent over the edge last has the same records, its parcels are shared.
    pub fn split(
        &mut self,
        edge: u32,
        batch: Batch,
        routing: &Routing,
        workers: u32,
        sender: u32,
    ) -> Result<Parcels, NoMemory>
        requires fits { workers ≤ max_workers }
        requires sender { sender < workers }
        ensures each { IfOk result (λ ps. ps.items ≡ divided (home_of routing.now workers sender) batch workers) }
        ensures sum { IfOk result (λ ps. batch ≈ from_all ps.items) }
    {
        let alloc = self.alloc;
        match self.last_over(edge) {
            Some(last) => split_like(alloc, last, batch, routing, workers, sender),
            None => {
                self.note(edge, &batch)?;
                split(alloc, batch, routing, workers, sender)
            }
        }
    }

    /// What is known of an edge.
    fn last_over(&mut self, edge: u32) -> Option<&mut Last> {
        for last in self.last.iter_mut() {
            if last.edge == edge {
                return Some(last);
            }
        }
        None
    }

    /// Notes the first batch of an edge, while there is room.
    fn note(&mut self, edge: u32, batch: &Batch) -> Result<(), NoMemory> {
        if self.last.len() < EDGES {
            self.last.push(Last {
                edge,
                outline: Outline::of(batch),
                cut: None,
            })?;
        }
        Ok(())
    }
}

/// Divides a batch, or shares the parcels of the last one, where that has the same records. Where it is only like the last one, its cut is kept.
fn split_like(
    alloc: Global,
    last: &mut Last,
    batch: Batch,
    routing: &Routing,
    workers: u32,
    sender: u32,
) -> Result<Parcels, NoMemory>
    requires fits { workers ≤ max_workers }
    requires sender { sender < workers }
    ensures each { IfOk result (λ ps. ps.items ≡ divided (home_of routing.now workers sender) batch workers) }
    ensures sum { IfOk result (λ ps. batch ≈ from_all ps.items) }
{
    if let Some(cut) = &last.cut {
        if cut.serves(&batch, routing, workers, sender) {
            let again = cut.share(alloc)?;
            return Ok(again);
        }
    }
    let outline = Outline::of(&batch);
    if outline != last.outline {
        last.outline = outline;
        last.cut = None;
        return split(alloc, batch, routing, workers, sender);
    }
    let shared = batch.share()?;
    let parcels = split(alloc, shared, routing, workers, sender)?;
    let routing = routing.copy(alloc)?;
    let cut = Cut {
        routing,
        workers,
        sender,
        batch,
        parcels,
    };
    let again = cut.share(alloc)?;
    last.cut = Some(cut);
    Ok(again)
}
