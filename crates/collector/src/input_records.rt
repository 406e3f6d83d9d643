//! The records of one input, while a text is read.

ghost use Rattle.std.specs.Prelude.{◌≡◌, ◌<◌, ◌≤◌, ◌+◌, ℕ, ℤ, List, ◌++◌, ◌∷◌, [], OnOk, IfOk, map, length, slice_index_or, ◌==◌, if◌then◌else◌};
ghost use Rattle.record_core.specs.Records.{IsRecord};
ghost use Rattle.semantics.specs.Limits.{max_fields};
ghost use Rattle.semantics.specs.Multiset.{◌≈◌};
ghost use Rattle.rows.specs.FlatRows.{joined};
ghost use Rattle.collector.specs.Parts.{Stitches};
ghost use Rattle.collector.specs.Piles.{AreAlike, piled, with_open};

use record_core::NoMemory;
use rows::{Batch, Rows};
use std::alloc::Global;
use std::marker::Model;
use std::mem;

/// The most records of one list of rows.
const BATCH: usize = 16_384;

/// The records of one input while a text is read: for each epoch, lists of rows. The newest rows of the last epoch are kept apart, in `last`.
#[derive(Drop)]
pub struct Track {
    epochs: Vec<Vec<Rows>>,
    last: Rows,
}

impl Model for Track {
    ghost use Rattle.std.specs.Prelude.{List, ℤ, map};
    ghost use Rattle.collector.specs.Piles.{piled, with_open};

    ghost Value = { List (List (List ℤ)) };

    ghost view = { λ t. with_open (map (λ v. piled v.items) t.epochs.items) t.last.rows };
}

impl Track {
    /// A track without epochs.
    pub fn new(alloc: Global) -> Track
        ensures { result ≡ [] }
    {
        Track {
            epochs: Vec::new(alloc),
            last: Rows::new(alloc, 1),
        }
    }

    /// Begins the next epoch, without records.
    pub fn begin(&mut self, alloc: Global) -> Result<(), NoMemory>
        ensures { OnOk result (self.new ≡ self.old ++ [] ∷ []) }
    {
        let rows = mem::replace(&mut self.last, Rows::new(alloc, 1));
        seal(&mut self.epochs, rows)?;
        self.epochs.push(Vec::new(alloc))?;
        Ok(())
    }

    /// Appends a record to the last epoch.
    pub fn push(&mut self, alloc: Global, row: &[i64]) -> Result<(), NoMemory>
        requires some { 0 < length self.old }
        requires record { IsRecord row.now }
        ensures len { OnOk result (length self.new ≡ length self.old) }
        ensures at { OnOk result ((k : ℕ) → slice_index_or self.new k [] ≡
            (if k + 1 == length self.old then slice_index_or self.old k [] ++ row.now ∷ [] else slice_index_or self.old k [])) }
    {
        make_room(alloc, &mut self.epochs, &mut self.last, row.len())?;
        self.last.push(row)?;
        Ok(())
    }

    /// Turns what was read into batches: equal records of one list of rows are stored once, with a count.
    pub fn finish(self, alloc: Global) -> Result<Kept, NoMemory>
        ensures { IfOk result (λ k. AreAlike k self) }
    {
        let Track { mut epochs, last } = self;
        seal(&mut epochs, last)?;
        let mut kept = Vec::with_capacity(alloc, epochs.len())?;
        for lists in epochs {
            kept.push(batches_of(alloc, lists)?)?;
        }
        Ok(Kept { epochs: kept })
    }
}

/// The rows of the lists as batches, one for each list that isn't empty.
fn batches_of(alloc: Global, lists: Vec<Rows>) -> Result<Vec<Batch>, NoMemory>
    ensures { IfOk result (λ batches. joined batches.items ≈ piled lists.items) }
{
    let mut batches = Vec::with_capacity(alloc, lists.len())?;
    for rows in lists {
        if let Some(batch) = Batch::from_rows(alloc, rows)? {
            batches.push(batch)?;
        }
    }
    Ok(batches)
}

/// Appends rows to the last epoch.
fn seal(epochs: &mut Vec<Vec<Rows>>, rows: Rows) -> Result<(), NoMemory>
    ensures { OnOk result (map (λ v. piled v.items) epochs.new.items ≡ with_open (map (λ v. piled v.items) epochs.old.items) rows.rows) }
{
    let len = epochs.len();
    if len == 0 {
        return Ok(());
    }
    if rows.is_empty() {
        return Ok(());
    }
    epochs[len - 1].push(rows)?;
    Ok(())
}

/// Makes room in `last` for a row of `arity` numbers: moves its rows into the last epoch if it is full or has another arity.
fn make_room(
    alloc: Global,
    epochs: &mut Vec<Vec<Rows>>,
    last: &mut Rows,
    arity: usize,
) -> Result<(), NoMemory>
    requires some { 1 ≤ arity }
    requires fits { arity ≤ max_fields }
    ensures arity { OnOk result (last.new.arity ≡ arity) }
    ensures same { OnOk result (with_open (map (λ v. piled v.items) epochs.new.items) last.new.rows ≡
        with_open (map (λ v. piled v.items) epochs.old.items) last.old.rows) }
{
    let full = last.len() >= BATCH;
    if !full && last.arity() == arity {
        return Ok(());
    }
    let rows = mem::replace(last, fresh(alloc, arity, full)?);
    seal(epochs, rows)?;
    Ok(())
}

/// An empty list of rows, with room for `BATCH` rows if `many`.
fn fresh(alloc: Global, arity: usize, many: bool) -> Result<Rows, NoMemory>
    requires some { 1 ≤ arity }
    requires fits { arity ≤ max_fields }
    ensures { IfOk result (λ r. r ≡ record { arity = arity; rows = [] }) }
{
    if many {
        Rows::with_capacity(alloc, arity, BATCH)
    } else {
        Ok(Rows::new(alloc, arity))
    }
}

/// The records of one input, in batches by epoch.
#[derive(Drop)]
pub struct Kept {
    epochs: Vec<Vec<Batch>>,
}

impl Model for Kept {
    ghost use Rattle.std.specs.Prelude.{List, ℤ, map};
    ghost use Rattle.rows.specs.FlatRows.{joined};

    ghost Value = { List (List (List ℤ)) };

    ghost view = { λ t. map (λ v. joined v.items) t.epochs.items };
}

impl Kept {
    /// The batches of an epoch; none if it hasn't begun.
    pub fn batches(&self, epoch: usize) -> &[Batch]
        ensures { joined result.now ≡ slice_index_or self.now epoch [] }
    {
        match self.epochs.get(epoch) {
            Some(batches) => batches.as_slice(),
            None => &[],
        }
    }

    /// How many epochs there are.
    pub fn len(&self) -> usize
        ensures { result ≡ length self.now }
    {
        self.epochs.len()
    }

    /// Puts what the next part of the same text has behind: its first epoch is the last one here. Where it is refused, what is here is spoiled.
    pub fn append(&mut self, more: Kept) -> Result<(), NoMemory>
        requires some { 0 < length self.old }
        requires more { 0 < length more }
        ensures { OnOk result (Stitches self.old more self.new) }
    {
        let Kept { mut epochs } = more;
        let mut first = epochs.remove(0);
        let Some(mut last) = self.epochs.pop() else {
            unreachable!()
        };
        last.append(&mut first)?;
        self.epochs.push(last)?;
        self.epochs.append(&mut epochs)?;
        Ok(())
    }
}
