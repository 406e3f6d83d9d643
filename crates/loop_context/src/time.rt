//! The type of timestamps.

ghost use Rattle.std.specs.Prelude.{◌≡◌, ◌⊎◌, ◌≤◌, ◌<◌, ◌↔◌, ◌^◌, ◌-◌, true, length, IsTrue, IsNone, IfSome, SomeIff};
ghost use Rattle.semantics.specs.Limits.{max_loops};
ghost use Rattle.semantics.specs.Time as semantics;
ghost use Rattle.semantics.specs.Time.{IsAtMost, after_action, at_epoch, last, is_before};
ghost use Rattle.loop_context.specs.Actions.{CanTake, action_of};

use crate::action::Action;
use arrayvec::ArrayVec;
use std::marker::Model;

/// The most loops around a place.
pub const MAX_LOOPS: usize = 16;

/// An epoch, and the counters of the loops around a place, outermost first: at most `MAX_LOOPS`.
#[derive(Clone, Drop, PartialEq, Eq, PartialOrd, Ord, Hash)]
pub struct Time {
    epoch: u32,
    counters: ArrayVec<u32, MAX_LOOPS>,
}

impl Model for Time {
    ghost use Rattle.std.specs.Prelude.{◌≤◌, length};
    ghost use Rattle.semantics.specs.Limits.{max_loops};
    ghost use Rattle.semantics.specs.Time as semantics;

    ghost Value = { semantics.Time };

    ghost view = { λ t. record { epoch = t.epoch; counters = t.counters.items } };

    ghost inverse = { λ t. record { epoch = t.epoch; counters = record { items = t.counters } } };

    ghost invariant = { λ t. length t.counters.items ≤ max_loops };
}

impl Time {
    /// A time with this epoch and these counters; `None` exactly for more than `MAX_LOOPS` counters.
    pub fn new(epoch: u32, counters: &[u32]) -> Option<Time>
        ensures { SomeIff result (length counters.now ≤ max_loops) (record { epoch = epoch; counters = counters.now }) }
    {
        let mut copied = ArrayVec::new();
        if copied.try_extend_from_slice(counters).is_err() {
            return None;
        }
        Some(Time {
            epoch,
            counters: copied,
        })
    }

    /// The time of an epoch, outside all loops.
    pub fn at_epoch(epoch: u32) -> Time
        ensures { result ≡ at_epoch epoch }
    {
        Time {
            epoch,
            counters: ArrayVec::new(),
        }
    }

    pub fn epoch(&self) -> u32
        ensures { result ≡ self.now.epoch }
    {
        self.epoch
    }

    /// The counters, outermost first: at most `MAX_LOOPS`.
    pub fn counters(&self) -> &[u32]
        ensures value { result.now ≡ self.now.counters }
        ensures short { length self.now.counters ≤ max_loops }
    {
        self.counters.as_slice()
    }

    /// The number of loops around a place of this time.
    pub fn depth(&self) -> usize
        ensures value { result ≡ length self.now.counters }
        ensures short { result ≤ max_loops }
    {
        self.counters.len()
    }

    /// The counter of the innermost loop; 0 outside all loops.
    #[tactic(auto, using(crate::proofs::Counters::last_index))]
    pub fn last_counter(&self) -> u32
        ensures { result ≡ last self.now.counters }
    {
        match self.counters() {
            [] => 0,
            [.., counter] => *counter,
        }
    }

    /// The same time.
    pub fn copied(&self) -> Time
        ensures { result ≡ self.now }
    {
        Time {
            epoch: self.epoch,
            counters: copied(&self.counters),
        }
    }

    /// Whether this time is at or before the other: its epoch is at most the other's, and so are its counters, in lexicographic order.
    pub fn leq(&self, other: &Time) -> bool
        ensures { IsTrue result ↔ IsAtMost self.now other.now }
    {
        self.epoch <= other.epoch && in_order(self.counters(), other.counters())
    }

    /// Whether the counters of this time are at or before the other's in lexicographic order.
    pub fn counters_leq(&self, other: &Time) -> bool
        ensures { IsTrue result ↔ ((self.now.counters ≡ other.now.counters) ⊎ (is_before self.now.counters other.now.counters ≡ true)) }
    {
        in_order(self.counters(), other.counters())
    }

    /// The time on the way into a loop, at its first turn; `None` exactly if `MAX_LOOPS` loops are already around it.
    pub fn enter(&self) -> Option<Time>
        ensures entered { IfSome result (λ t. t ≡ after_action semantics.Action.enter self.now) }
        ensures deepest { IsNone result ↔ (length self.now.counters ≡ max_loops) }
    {
        let mut time = self.copied();
        if time.counters.try_push(0).is_err() {
            return None;
        }
        Some(time)
    }

    /// The time on the way out of the innermost loop.
    #[tactic(auto, using(crate::proofs::Counters::front_append))]
    pub fn leave(&self) -> Time
        requires { 0 < length self.now.counters }
        ensures { result ≡ after_action semantics.Action.leave self.now }
    {
        let mut time = self.copied();
        let _ = time.counters.pop();
        time
    }

    /// The time at the next turn of the innermost loop; `None` exactly if its counter is the greatest u32.
    #[tactic(auto, using(crate::proofs::Counters::last_append, crate::proofs::Counters::front_append))]
    pub fn next(&self) -> Option<Time>
        requires { 0 < length self.now.counters }
        ensures next { IfSome result (λ t. t ≡ after_action semantics.Action.next self.now) }
        ensures greatest { IsNone result ↔ (last self.now.counters ≡ 2 ^ 32 - 1) }
    {
        let mut time = self.copied();
        let counter = time.counters.pop()?;
        time.counters.push(counter.checked_add(1)?);
        Some(time)
    }

    /// The time after an action.
    pub fn after(&self, action: Action) -> Time
        requires { CanTake (action_of action) self.now }
        ensures { result ≡ after_action (action_of action) self.now }
    {
        match action {
            Action::Stay => self.copied(),
            Action::Enter => match self.enter() {
                Some(time) => time,
                None => unreachable!(),
            },
            Action::Leave => self.leave(),
            Action::Next => match self.next() {
                Some(time) => time,
                None => unreachable!(),
            },
        }
    }
}

/// Whether the first counters are at or before the second in lexicographic order.
#[tactic(auto, using(crate::proofs::Counters::order_from_slices, crate::proofs::Counters::slices_from_order))]
fn in_order(counters: &[u32], others: &[u32]) -> bool
    ensures { IsTrue result ↔ ((counters.now ≡ others.now) ⊎ (is_before counters.now others.now ≡ true)) }
{
    counters <= others
}

/// The same counters.
fn copied(counters: &ArrayVec<u32, MAX_LOOPS>) -> ArrayVec<u32, MAX_LOOPS>
    ensures { result.items ≡ counters.now.items }
{
    match counters.clone() {
        Ok(counters) => counters,
        Err(_) => unreachable!(),
    }
}
