//! What an except or an intersect keeps at one time.

ghost use Rattle.std.specs.Prelude.{◌≡◌, ◌≤◌, ◌<◌, ℕ, List, not, ◌++◌, ◌+◌, [], filter, length, IfErr, IfOk, OnOk};
ghost use Rattle.rows.specs.Counts.{AllFit, AreRuns, IsOver, expanded, most, repeated, rows_of};
ghost use Rattle.rows.specs.FlatRows.{arity_of};
ghost use Rattle.rows.specs.declared.fault.WorkFault.TheVariants.{Count};
ghost use Rattle.semantics.specs.Multiset.{Record, ◌≈◌, count as count_of};
ghost use Rattle.vertices.specs.Kept.{more_at};
ghost use Rattle.vertices.specs.States.{AreSetsOf, IntersectGains, common_rows, is_right, only_left_at};

use record_core::NoMemory;
use rows::{Batch, Rows, Tally, WorkFault};
use std::alloc::Global;

/// For each of two ports the records that came there at one time, counted.
#[derive(Drop)]
pub struct PortSets {
    pub(crate) left: Tally,
    pub(crate) right: Tally,
}

/// Counts the records of a batch in. `Count` exactly where one of them would then have come too often.
fn absorb(tally: &mut Tally, batch: &Batch) -> Result<(), WorkFault>
    requires { arity_of batch.now ≡ tally.old.arity }
    ensures records { OnOk result ((xs : List Record) → expanded tally.old.runs ≈ xs → expanded tally.new.runs ≈ (xs ++ batch.now)) }
    ensures fits { OnOk result ((xs : List Record) → expanded tally.old.runs ≈ xs → AllFit (xs ++ batch.now)) }
    ensures over { IfErr result (λ e. e ≡ Count → (xs : List Record) → expanded tally.old.runs ≈ xs → IsOver (xs ++ batch.now)) }
    ensures arity { tally.new.arity ≡ tally.old.arity }
{
    if let Err(error) = tally.merge(batch.counted()) {
        return Err(error);
    }
    let _count = tally.len();
    Ok(())
}

/// Counts a record in, and sends it if it is new there and lies at the other port.
fn meet(
    tally: &mut Tally,
    other: &Tally,
    row: &[i64],
    count: u64,
    sends: &mut Rows,
) -> Result<(), WorkFault>
    requires row { length row.now ≡ tally.old.arity }
    requires sends { sends.old.arity ≡ tally.old.arity }
    requires some { 1 ≤ count }
    requires fits { count ≤ most }
    ensures records { OnOk result (expanded tally.new.runs ≈ (expanded tally.old.runs ++ repeated count row.now)) }
    ensures sent { OnOk result ((sends.new.rows ++ common_rows tally.old other.now) ≈ (sends.old.rows ++ common_rows tally.new other.now)) }
    ensures over { IfErr result (λ e. e ≡ Count → most < count_of row.now (expanded tally.old.runs) + count) }
    ensures arity { tally.new.arity ≡ tally.old.arity }
    ensures same { sends.new.arity ≡ sends.old.arity }
{
    match tally.add(row, count) {
        Err(error) => return Err(error),
        Ok(new) => {
            if new {
                if other.contains(row) {
                    sends.push(row)?;
                }
            }
        }
    }
    Ok(())
}

/// Counts the records of a batch in, and sends those that are new there and lie at the other port, each once. `Count` exactly where
/// one of them would then have come too often.
fn meet_all(
    tally: &mut Tally,
    other: &Tally,
    batch: &Batch,
    sends: &mut Rows,
) -> Result<(), WorkFault>
    requires batch { arity_of batch.now ≡ tally.old.arity }
    requires sends { sends.old.arity ≡ tally.old.arity }
    ensures records { OnOk result ((xs : List Record) → expanded tally.old.runs ≈ xs → expanded tally.new.runs ≈ (xs ++ batch.now)) }
    ensures sent { OnOk result ((sends.new.rows ++ common_rows tally.old other.now) ≈ (sends.old.rows ++ common_rows tally.new other.now)) }
    ensures before { AreRuns tally.old.runs }
    ensures beside { AreRuns other.now.runs }
    ensures runs { OnOk result (AreRuns tally.new.runs) }
    ensures over { IfErr result (λ e. e ≡ Count → (xs : List Record) → expanded tally.old.runs ≈ xs → IsOver (xs ++ batch.now)) }
    ensures arity { tally.new.arity ≡ tally.old.arity }
{
    let _before = tally.len();
    let _beside = other.len();
    for place in 0..batch.len() {
        if let Err(error) = meet(tally, other, batch.row(place), batch.count(place), sends) {
            return Err(error);
        }
    }
    let _now = tally.len();
    Ok(())
}

impl PortSets {
    /// No records. `empty` has none.
    pub(crate) fn new(empty: &Tally) -> Result<PortSets, NoMemory>
        requires { empty.now.runs ≡ [] }
        ensures { IfOk result (λ s. AreSetsOf empty.now.arity s (λ p. [])) }
    {
        Ok(PortSets {
            left: empty.fresh()?,
            right: empty.fresh()?,
        })
    }

    /// Takes in a batch that comes to a port, 0 or 1. `Count` exactly where a record would then have come there too often.
    pub(crate) fn absorb(&mut self, port: u32, batch: &Batch) -> Result<(), WorkFault>
        requires port { port < 2 }
        requires whole { (f : ℕ → List Record) × AreSetsOf (arity_of batch.now) self.old f }
        ensures absorbed { OnOk result ((n : ℕ) (f : ℕ → List Record) → AreSetsOf n self.old f → AreSetsOf n self.new (more_at f port batch.now)) }
        ensures fits { OnOk result ((n : ℕ) (f : ℕ → List Record) → AreSetsOf n self.old f → AllFit (f port ++ batch.now)) }
        ensures over { IfErr result (λ e. e ≡ Count → (n : ℕ) (f : ℕ → List Record) → AreSetsOf n self.old f → IsOver (f port ++ batch.now)) }
    {
        if port == 0 {
            absorb(&mut self.left, batch)?;
        } else {
            absorb(&mut self.right, batch)?;
        }
        Ok(())
    }

    /// Takes in a batch that comes to a port, 0 or 1, and sends each record that is present at both ports by it alone. `Count` exactly
    /// where a record would then have come there too often.
    pub(crate) fn absorb_common(
        &mut self,
        port: u32,
        batch: &Batch,
        sends: &mut Rows,
    ) -> Result<(), WorkFault>
        requires port { port < 2 }
        requires sends { sends.old ≡ record { arity = arity_of batch.now; rows = [] } }
        requires whole { (f : ℕ → List Record) × AreSetsOf (arity_of batch.now) self.old f }
        ensures absorbed { OnOk result ((n : ℕ) (f : ℕ → List Record) → AreSetsOf n self.old f → AreSetsOf n self.new (more_at f port batch.now)) }
        ensures gained { OnOk result ((n : ℕ) (f : ℕ → List Record) → AreSetsOf n self.old f → IntersectGains port batch.now sends.new.rows f) }
        ensures fits { OnOk result ((n : ℕ) (f : ℕ → List Record) → AreSetsOf n self.old f → AllFit (f port ++ batch.now)) }
        ensures over { IfErr result (λ e. e ≡ Count → (n : ℕ) (f : ℕ → List Record) → AreSetsOf n self.old f → IsOver (f port ++ batch.now)) }
    {
        if port == 0 {
            meet_all(&mut self.left, &self.right, batch, sends)?;
        } else {
            meet_all(&mut self.right, &self.left, batch, sends)?;
        }
        Ok(())
    }

    /// The records of port 0 that aren't at port 1, each once.
    #[tactic(auto, using(crate::proofs::PortSets::alone_more, crate::proofs::PortSets::all_alone))]
    pub(crate) fn only_left(&self, alloc: Global) -> Result<Rows, NoMemory>
        ensures rows { IfOk result (λ rows. rows.rows ≡ filter (λ r. not (is_right self.now r)) (rows_of self.now.left.runs)) }
        ensures left { AreRuns self.now.left.runs }
        ensures right { AreRuns self.now.right.runs }
    {
        let _beside = self.right.len();
        let mut rows = Rows::new(alloc, self.left.arity());
        for place in 0..self.left.len() {
            self.offer(place, &mut rows)?;
        }
        Ok(rows)
    }

    /// One record of port 0, if it isn't at port 1.
    fn offer(&self, place: usize, rows: &mut Rows) -> Result<(), NoMemory>
        requires place { place < length self.now.left.runs }
        requires arity { rows.old.arity ≡ self.now.left.arity }
        ensures rows { OnOk result (rows.new.rows ≡ rows.old.rows ++ only_left_at self.now place) }
        ensures arity { rows.new.arity ≡ rows.old.arity }
    {
        let row = self.left.row(place);
        if !self.right.contains(row) {
            rows.push(row)?;
        }
        Ok(())
    }
}
