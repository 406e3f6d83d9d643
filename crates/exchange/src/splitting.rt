//! Divides batches among workers.

ghost use Rattle.std.specs.Prelude.{◌≡◌, ◌<◌, ◌≤◌, ◌==◌, ℕ, [], ◌∷◌, ◌++◌, List, IfOk, IfSome, OnOk, length, filter, slice_index_or, flat_map};
ghost use Rattle.semantics.specs.Multiset.{◌≈◌};
ghost use Rattle.rows.specs.FlatRows.{arity_of};
ghost use Rattle.rows.specs.Indexes.{AreDifferent};
ghost use Rattle.rows.specs.Counts.{AreRuns, expanded, no_run, rows_of, runs};
ghost use Rattle.exchange.specs.Homes.{home_of};
ghost use Rattle.exchange.specs.Parts.{AllGoTo, AreAllDifferent, parcel, parcels, no_rows, IsSpread, gathered, from_all};
ghost use Rattle.semantics.specs.Limits.{max_fields, max_workers};

use crate::routing::Routing;
use record_core::NoMemory;
use rows::{Batch, CountedRows};
use std::alloc::Global;

/// The records of a batch that go to one worker, at least one, in their order.
#[derive(Drop)]
pub struct Parcel {
    pub worker: u32,
    pub batch: Batch,
}

/// Parcels for different workers, in the order of the workers.
pub type Parcels = Vec<Parcel>;

/// Divides a batch among 1 to 64 workers: one parcel for each worker that gets records, which keep their order. If all go to one worker, the batch is
/// passed on unchanged.
#[inline(always)]
pub fn split(
    alloc: Global,
    batch: Batch,
    routing: &Routing,
    workers: u32,
    sender: u32,
) -> Result<Parcels, NoMemory>
    requires fits { workers ≤ max_workers }
    requires sender { sender < workers }
    ensures each { IfOk result (λ ps. ps.items ≡ parcels (home_of routing.now workers sender) batch workers) }
    ensures sum { IfOk result (λ ps. batch ≈ from_all ps.items) }
{
    if let Some(worker) = common_home(&batch, routing, workers, sender) {
        let mut parcels = Vec::with_capacity(alloc, 1)?;
        parcels.push(Parcel { worker, batch })?;
        return Ok(parcels);
    }
    let parts = spread(alloc, &batch, routing, workers, sender)?;
    let parcels = gather(alloc, parts)?;
    Ok(parcels)
}

/// The worker to which all records go, if there is one. Where records stay, none is looked at.
#[tactic(auto, using(crate::proofs::Gathering::home_there))]
fn common_home(batch: &Batch, routing: &Routing, workers: u32, sender: u32) -> Option<u32>
    requires fits { workers ≤ max_workers }
    requires sender { sender < workers }
    ensures there { IfSome result (λ w. w < workers) }
    ensures runs { AreRuns (runs batch.now) }
    ensures all { expanded (runs batch.now) ≡ batch.now }
    ensures some { 0 < length (runs batch.now) }
    ensures each { IfSome result (AllGoTo (home_of routing.now workers sender) (runs batch.now)) }
{
    let count = batch.len();
    if workers == 1 || matches!(routing, Routing::Stay) {
        return Some(sender);
    }
    let worker = routing.home(workers, sender, batch.row(0));
    for k in 0..count {
        if routing.home(workers, sender, batch.row(k)) != worker {
            return None;
        }
    }
    Some(worker)
}

/// The rows that go to each worker.
fn spread(
    alloc: Global,
    batch: &Batch,
    routing: &Routing,
    workers: u32,
    sender: u32,
) -> Result<Vec<CountedRows>, NoMemory>
    requires fits { workers ≤ max_workers }
    requires sender { sender < workers }
    ensures { IfOk result (λ parts. IsSpread (home_of routing.now workers sender) (arity_of batch.now) (runs batch.now) workers parts.items) }
{
    let mut parts = empty_parts(alloc, batch.arity(), workers, share(batch.len(), workers))?;
    for k in 0..batch.len() {
        let row = batch.row(k);
        let worker = routing.home(workers, sender, row);
        parts[worker as usize].push(row, batch.count(k))?;
    }
    Ok(parts)
}

/// For how many of these rows each worker's part takes room at once: an equal share and a quarter more. It saves time alone, and no clause speaks of
/// it.
fn share(rows: usize, workers: u32) -> usize
    requires { 0 < workers }
{
    let equal = rows / workers as usize;
    equal.saturating_add(equal / 4)
}

/// A list for each worker, with room for that many rows.
fn empty_parts(
    alloc: Global,
    arity: usize,
    workers: u32,
    rows: usize,
) -> Result<Vec<CountedRows>, NoMemory>
    requires some { 1 ≤ arity }
    requires fits { arity ≤ max_fields }
    ensures len { IfOk result (λ parts. length parts.items ≡ workers) }
    ensures none { IfOk result (λ parts. (k : ℕ) → slice_index_or parts.items k (no_rows arity) ≡ no_rows arity) }
{
    let mut parts = Vec::with_capacity(alloc, workers as usize)?;
    for _worker in 0..workers {
        parts.push(CountedRows::with_capacity(alloc, arity, rows)?)?;
    }
    Ok(parts)
}

/// The lists that have rows, as parcels for the workers from 0 on.
#[tactic(auto, using(crate::proofs::Gathering::gathered_next))]
fn gather(alloc: Global, parts: Vec<CountedRows>) -> Result<Parcels, NoMemory>
    requires few { length parts.items ≤ max_workers }
    requires different { AreAllDifferent parts.items }
    ensures { IfOk result (λ ps. ps.items ≡ gathered 0 parts.items) }
{
    let mut parcels = Vec::with_capacity(alloc, parts.len())?;
    let mut worker = 0;
    for part in parts {
        put_parcel(alloc, worker, part, &mut parcels)?;
        worker += 1;
    }
    Ok(parcels)
}

/// Appends a parcel of these rows, if there are any.
fn put_parcel(
    alloc: Global,
    worker: u32,
    part: CountedRows,
    parcels: &mut Parcels,
) -> Result<(), NoMemory>
    requires { AreDifferent (rows_of part.runs) }
    ensures { OnOk result (parcels.new.items ≡ parcels.old.items ++ parcel worker (expanded part.runs)) }
{
    if let Some(batch) = Batch::from_counted(alloc, part)? {
        let _count = batch.len();
        parcels.push(Parcel { worker, batch })?;
        return Ok(());
    }
    Ok(())
}
