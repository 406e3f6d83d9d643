//! The records of one time, as they come.

ghost use Rattle.std.specs.Prelude.{◌≡◌, ◌<◌, ◌++◌, IfErr, IfOk, OnOk, [], length, ◌≤◌};
ghost use Rattle.std.specs.List.{AllByRecursion};
ghost use Rattle.rows.specs.Counts.{AllFit, IsOver};
ghost use Rattle.rows.specs.FlatRows.{arity_of, joined};
ghost use Rattle.semantics.specs.Kinds.{Role};
ghost use Rattle.semantics.specs.Multiset.{◌≈◌};
ghost use Rattle.semantics.specs.Shard.{Absorbed, asks};
ghost use Rattle.vertices.specs.ByTime.{Absorbs, AreStatesOf, ForAbsorbed};
ghost use Rattle.vertices.specs.Piles.{IsPileThen};
ghost use Rattle.rows.specs.declared.fault.WorkFault.TheVariants.{Count};

use crate::by_time::put;
use indexmap::IndexMap;
use loop_context::Time;
use rows::{Batch, MAX_COUNT, WorkFault};
use std::alloc::Global;
use std::marker::Model;

/// Batches of records of one arity, shared with whoever else has them. While all their records together are few enough to be counted,
/// none of them can occur too often. Beyond that they are taken together, batch by batch.
#[derive(Drop)]
pub struct Pile {
    alloc: Global,
    arity: usize,
    batches: Vec<Batch>,
    weight: u64,
}

impl Model for Pile {
    ghost use Rattle.std.specs.Prelude.{◌≡◌, ◌≤◌, length};
    ghost use Rattle.std.specs.List.{AllByRecursion};
    ghost use Rattle.rows.specs.Counts.{most};
    ghost use Rattle.rows.specs.FlatRows.{arity_of, joined};
    ghost use Rattle.vertices.specs.Piles.{Piled};

    ghost Value = { Piled };

    ghost view = { λ p. record { arity = p.arity; records = joined p.batches.items } };

    ghost invariant = { λ p. AllByRecursion (λ b. arity_of b ≡ p.arity) p.batches.items × (p.weight ≤ most → length (joined p.batches.items) ≤ p.weight) };
}

impl Pile {
    /// No batches. No memory is taken.
    pub(crate) fn new(alloc: Global, arity: usize) -> Pile
        ensures { result ≡ record { arity = arity; records = [] } }
    {
        Pile {
            alloc,
            arity,
            batches: Vec::new(alloc),
            weight: 0,
        }
    }

    /// Takes a batch in. `Count` exactly where a record would then occur too often.
    #[inline(always)]
    pub(crate) fn add(&mut self, batch: &Batch) -> Result<(), WorkFault>
        requires { arity_of batch.now ≡ self.old.arity }
        ensures records { OnOk result (self.new.records ≈ (self.old.records ++ batch.now)) }
        ensures fits { OnOk result (AllFit (self.old.records ++ batch.now)) }
        ensures over { IfErr result (λ e. e ≡ Count → IsOver (self.old.records ++ batch.now)) }
        ensures arity { self.new.arity ≡ self.old.arity }
    {
        let weight = self.weight.saturating_add(batch.weight() as u64);
        if weight <= MAX_COUNT {
            self.batches.push(batch.share()?)?;
            self.weight = weight;
            return Ok(());
        }
        match Batch::concat(self.alloc, batch, &self.batches) {
            Ok(all) => {
                self.batches.clear();
                self.batches.push(all)?;
                self.weight = u64::MAX;
                Ok(())
            }
            Err(error) => Err(error),
        }
    }

    /// The batches.
    pub(crate) fn batches(&self) -> &[Batch]
        ensures records { joined result.now ≡ self.now.records }
        ensures arity { AllByRecursion (λ b. arity_of b ≡ self.now.arity) result.now }
    {
        &self.batches
    }
}

/// Takes in the records of a batch.
#[inline(always)]
fn absorb(pile: &mut Pile, batch: &Batch) -> Result<(), WorkFault>
    requires { arity_of batch.now ≡ pile.old.arity }
    ensures records { OnOk result (pile.new.records ≈ (pile.old.records ++ batch.now)) }
    ensures some { 0 < length batch.now }
    ensures fits { OnOk result (AllFit (pile.old.records ++ batch.now)) }
    ensures over { IfErr result (λ e. e ≡ Count → IsOver (pile.old.records ++ batch.now)) }
    ensures arity { pile.new.arity ≡ pile.old.arity }
{
    let _count = batch.len();
    pile.add(batch)
}

/// Takes in a batch of a time, and says whether it is the first of that time. `Count` exactly where a record would then have come too often.
#[inline(always)]
pub(crate) fn take_in(
    alloc: Global,
    arity: usize,
    times: &mut IndexMap<Time, Pile>,
    time: &Time,
    batch: &Batch,
) -> Result<bool, WorkFault>
    requires arity { arity_of batch.now ≡ arity }
    requires whole { (a : Absorbed) × AreStatesOf (IsPileThen arity) times.old a }
    ensures absorbed { OnOk result (Absorbs (IsPileThen arity) times.old times.new 0 time.now batch.now) }
    ensures asked { IfOk result (λ asked. ForAbsorbed (IsPileThen arity) times.old time.now (λ f. asked ≡ asks Role.notified (f 0))) }
    ensures fits { OnOk result (ForAbsorbed (IsPileThen arity) times.old time.now (λ f. AllFit (f 0 ++ batch.now))) }
    ensures over { IfErr result (λ e. e ≡ Count → ForAbsorbed (IsPileThen arity) times.old time.now (λ f. IsOver (f 0 ++ batch.now))) }
{
    if let Some(pile) = times.get_mut(time) {
        if let Err(error) = absorb(pile, batch) {
            return Err(error);
        }
        return Ok(false);
    }
    let mut pile = Pile::new(alloc, arity);
    if let Err(error) = absorb(&mut pile, batch) {
        return Err(error);
    }
    put(times, time, pile)?;
    Ok(true)
}
