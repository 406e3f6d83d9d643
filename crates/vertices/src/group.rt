//! The shard of a group vertex.

ghost use Rattle.std.specs.Prelude.{◌≡◌, ◌≤◌, ◌<◌, ◌++◌, [], length, IfOk, IfErr, OnOk};
ghost use Rattle.rows.specs.Counts.{AllFit, IsOver};
ghost use Rattle.rows.specs.FlatRows.{arity_of};
ghost use Rattle.rows.specs.Indexes.{AreDifferent};
ghost use Rattle.rows.specs.declared.fault.WorkFault.TheVariants.{Count};
ghost use Rattle.semantics.specs.Kinds.{Role};
ghost use Rattle.semantics.specs.Limits.{max_fields};
ghost use Rattle.semantics.specs.Multiset.{◌≈◌};
ghost use Rattle.semantics.specs.Shard.{Absorbed, asks};
ghost use Rattle.vertices.specs.ByTime.{Absorbs, AreStatesOf, ForAbsorbed, Forgets};
ghost use Rattle.vertices.specs.Groups.{AreGroupRecords, columns_of, group_records, key_arity};
ghost use Rattle.vertices.specs.Piles.{IsPileThen};
ghost use Rattle.rows.specs.declared.fault.WorkFault.TheVariants as fault;

use crate::by_time::{earlier, forget};
use crate::groups::{Groups, key_arity};
use crate::pile::{Pile, take_in};
use indexmap::IndexMap;
use loop_context::Time;
use operators::Group;
use record_core::NoMemory;
use rows::{Batch, RowSet, Rows, WorkFault};
use std::alloc::Global;

/// For each time the records that came then. The groups are made of them once, at the notification.
#[derive(Drop)]
pub struct GroupShard {
    alloc: Global,
    pub(crate) operator: Group,
    pub(crate) arity: usize,
    no_keys: RowSet,
    pub(crate) times: IndexMap<Time, Pile>,
    ghost no_key: { no_keys ≡ record { arity = key_arity (columns_of operator); rows = [] } },
}

impl GroupShard {
    /// A shard that has absorbed nothing. The records that come to it have that arity.
    pub fn new(alloc: Global, operator: Group, arity: usize) -> Result<GroupShard, WorkFault>
        requires some { 1 ≤ arity }
        requires fits { arity ≤ max_fields }
        ensures operator { IfOk result (λ s. s.operator ≡ operator) }
        ensures arity { IfOk result (λ s. s.arity ≡ arity) }
        ensures nothing { IfOk result (λ s. AreStatesOf (IsPileThen arity) s.times (λ p t. [])) }
        ensures never { IfErr result (λ e. e ≡ fault.NoMemory) }
    {
        let no_keys = RowSet::new(alloc, key_arity(&operator.columns))?;
        Ok(GroupShard {
            alloc,
            operator,
            arity,
            no_keys,
            times: IndexMap::new(alloc),
        })
    }

    /// Takes in a batch of a time, and says whether it is the first of that time, which asks for a notification. `Count` exactly where
    /// a record would then have come too often.
    #[inline(always)]
    pub fn on_records(&mut self, time: &Time, batch: &Batch) -> Result<bool, WorkFault>
        requires arity { arity_of batch.now ≡ self.old.arity }
        requires whole { (a : Absorbed) × AreStatesOf (IsPileThen self.old.arity) self.old.times a }
        ensures operator { self.new.operator ≡ self.old.operator }
        ensures arity { self.new.arity ≡ self.old.arity }
        ensures absorbed { OnOk result (Absorbs (IsPileThen self.old.arity) self.old.times self.new.times 0 time.now batch.now) }
        ensures asked { IfOk result (λ asked. ForAbsorbed (IsPileThen self.old.arity) self.old.times time.now (λ f. asked ≡ asks Role.notified (f 0))) }
        ensures fits { OnOk result (ForAbsorbed (IsPileThen self.old.arity) self.old.times time.now (λ f. AllFit (f 0 ++ batch.now))) }
        ensures over { IfErr result (λ e. e ≡ fault.Count → ForAbsorbed (IsPileThen self.old.arity) self.old.times time.now (λ f. IsOver (f 0 ++ batch.now))) }
    {
        match take_in(self.alloc, self.arity, &mut self.times, time, batch) {
            Ok(first) => Ok(first),
            Err(error) => Err(error),
        }
    }

    /// A record for each group of a time.
    #[inline(always)]
    pub fn on_notify(&self, alloc: Global, time: &Time) -> Result<Rows, WorkFault>
        ensures grouped { IfOk result (λ rows. ForAbsorbed (IsPileThen self.now.arity) self.now.times time.now (AreGroupRecords self.now.operator rows.rows)) }
        ensures different { IfOk result (λ rows. AreDifferent rows.rows) }
        ensures never { IfErr result (λ e. e ≡ fault.NoMemory) }
    {
        match self.times.get(time) {
            Some(pile) => {
                let rows = self.grouped(alloc, pile)?;
                Ok(rows)
            }
            None => {
                let arity = self.operator.columns.len() + self.operator.aggregates.len();
                Ok(Rows::new(alloc, arity))
            }
        }
    }

    /// A record for each group of the records, each of which is looked at once.
    fn grouped(&self, alloc: Global, pile: &Pile) -> Result<Rows, NoMemory>
        ensures grouped { IfOk result (λ rows. rows.rows ≈ group_records self.now.operator pile.now.records) }
        ensures different { IfOk result (λ rows. AreDifferent rows.rows) }
    {
        let mut groups = Groups::new(alloc, &self.operator, &self.no_keys)?;
        let batches = pile.batches();
        for batch in batches {
            groups.absorb(&self.operator, batch.counted())?;
        }
        let rows = groups.finished(alloc, &self.operator)?;
        Ok(rows)
    }

    /// A time of which it keeps something, and that may have passed when something comes at `now`.
    pub(crate) fn earlier(&self, now: &Time) -> Option<Time> {
        earlier(&self.times, now)
    }

    /// Lets go of what it keeps of a time.
    pub(crate) fn forget(&mut self, time: &Time)
        ensures arity { self.new.arity ≡ self.old.arity }
        ensures operator { self.new.operator ≡ self.old.operator }
        ensures forgets { Forgets (AreStatesOf (IsPileThen self.old.arity) self.old.times) (AreStatesOf (IsPileThen self.old.arity) self.new.times) time.now }
    {
        let _state = forget(&mut self.times, time);
    }
}
