//! The shard of an unseen vertex.

ghost use Rattle.std.specs.Prelude.{◌≡◌, ◌<◌, ◌++◌, [], flat_map, length, IfErr, IfOk, OnOk};
ghost use Rattle.rows.specs.Counts.{AllFit, IsOver};
ghost use Rattle.rows.specs.FlatRows.{arity_of};
ghost use Rattle.rows.specs.Indexes.{AreDifferent};
ghost use Rattle.semantics.specs.Kinds.{Role};
ghost use Rattle.semantics.specs.Meaning.{only_left};
ghost use Rattle.semantics.specs.Multiset.{◌≈◌};
ghost use Rattle.semantics.specs.Shard.{Absorbed, asks, with_records};
ghost use Rattle.semantics.specs.Time.{earlier_turns};
ghost use Rattle.semantics.specs.Typing.{IsArity};
ghost use Rattle.vertices.specs.ByTime.{AreStatesOf};
ghost use Rattle.vertices.specs.LoopRows.{IsLoopOf, by_turn};
ghost use Rattle.vertices.specs.Unseen.{IsUnseenOf};
ghost use Rattle.rows.specs.declared.fault.WorkFault.TheVariants.{Count, NoMemory};

use crate::by_time::put;
use crate::except::ExceptShard;
use crate::loop_rows::LoopRows;
use indexmap::IndexMap;
use loop_context::Time;
use record_core::NoMemory as OutOfMemory;
use rows::{Batch, Rows, WorkFault};
use std::alloc::Global;

/// What came, by time and counted, as at port 0 of an except; and by the time outside the loop, the different rows that came in it, each with
/// its first turn. So what is sent at a turn costs what was new there when it came.
#[derive(Drop)]
pub struct UnseenShard {
    pub(crate) turns: u64,
    pub(crate) came: ExceptShard,
    pub(crate) loops: IndexMap<Time, LoopRows>,
}

impl UnseenShard {
    /// A shard of a loop of that many turns that has absorbed nothing. The records that come to it have that arity.
    pub fn new(alloc: Global, turns: u64, arity: usize) -> Result<UnseenShard, WorkFault>
        requires { IsArity arity }
        ensures turns { IfOk result (λ s. s.turns ≡ turns) }
        ensures arity { IfOk result (λ s. s.came.arity ≡ arity) }
        ensures nothing { IfOk result (λ s. IsUnseenOf s (λ p t. [])) }
        ensures never { IfErr result (λ e. e ≡ NoMemory) }
    {
        let came = ExceptShard::new(alloc, arity)?;
        Ok(UnseenShard {
            turns,
            came,
            loops: IndexMap::new(alloc),
        })
    }

    /// Takes in a batch of a time, and says whether it is the first of that time, which asks for a notification. `Count` exactly where a
    /// record would then have come too often.
    #[inline(always)]
    pub fn on_records(
        &mut self,
        alloc: Global,
        time: &Time,
        batch: &Batch,
    ) -> Result<bool, WorkFault>
        requires arity { arity_of batch.now ≡ self.old.came.arity }
        requires whole { (a : Absorbed) × IsUnseenOf self.old a }
        ensures turns { self.new.turns ≡ self.old.turns }
        ensures arity { self.new.came.arity ≡ self.old.came.arity }
        ensures absorbed { OnOk result ((a : Absorbed) → IsUnseenOf self.old a → IsUnseenOf self.new (with_records a 0 time.now batch.now)) }
        ensures asked { IfOk result (λ asked. (a : Absorbed) → IsUnseenOf self.old a → asked ≡ asks Role.notified (a 0 time.now)) }
        ensures fits { OnOk result ((a : Absorbed) → IsUnseenOf self.old a → AllFit (a 0 time.now ++ batch.now)) }
        ensures over { IfErr result (λ e. e ≡ Count → (a : Absorbed) → IsUnseenOf self.old a → IsOver (a 0 time.now ++ batch.now)) }
    {
        let asked = self.came.on_records(0, time, batch)?;
        if time.depth() == 0 {
            return Ok(asked);
        }
        self.note(alloc, time, batch)?;
        Ok(asked)
    }

    /// Notes the turn of a batch in the loop of its time.
    fn note(&mut self, alloc: Global, time: &Time, batch: &Batch) -> Result<(), OutOfMemory>
        requires depth { 0 < length time.now.counters }
        requires arity { arity_of batch.now ≡ self.old.came.arity }
        requires whole { (a : Absorbed) × AreStatesOf (IsLoopOf self.old.came.arity) self.old.loops (by_turn a) }
        ensures loops { OnOk result ((a : Absorbed) → AreStatesOf (IsLoopOf self.old.came.arity) self.old.loops (by_turn a)
            → AreStatesOf (IsLoopOf self.old.came.arity) self.new.loops (by_turn (with_records a 0 time.now batch.now))) }
        ensures turns { self.new.turns ≡ self.old.turns }
        ensures came { self.new.came ≡ self.old.came }
    {
        let outside = time.leave();
        let turn = time.last_counter();
        if let Some(kept) = self.loops.get_mut(&outside) {
            kept.absorb(alloc, turn, batch)?;
            return Ok(());
        }
        let mut kept = LoopRows::new(alloc, self.came.arity)?;
        kept.absorb(alloc, turn, batch)?;
        put(&mut self.loops, &outside, kept)?;
        Ok(())
    }

    /// The records that came at a time, each once, without those that came at an earlier turn of its innermost loop.
    #[inline(always)]
    pub fn on_notify(&self, alloc: Global, time: &Time) -> Result<Rows, WorkFault>
        requires { (a : Absorbed) × IsUnseenOf self.now a }
        ensures rows { IfOk result (λ rows. (a : Absorbed) → IsUnseenOf self.now a → rows.rows ≈ only_left (a 0 time.now) (flat_map (a 0) (earlier_turns time.now))) }
        ensures different { IfOk result (λ rows. AreDifferent rows.rows) }
        ensures never { IfErr result (λ e. e ≡ NoMemory) }
    {
        if time.depth() == 0 {
            return self.came.on_notify(alloc, time);
        }
        match self.loops.get(&time.leave()) {
            Some(kept) => {
                let rows = kept.new_at(alloc, time.last_counter())?;
                Ok(rows)
            }
            None => Ok(Rows::new(alloc, self.came.arity)),
        }
    }
}
