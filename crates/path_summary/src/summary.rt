//! Path summaries: what a path does to counters.

ghost use Rattle.std.specs.Prelude.{◌≡◌, ◌<◌, ◌≤◌, ◌+◌, ◌-◌, ◌^◌, ◌↔◌, ◌++◌, IsTrue, length};
ghost use Rattle.std.specs.List.{All};
ghost use Rattle.semantics.specs.Limits.{max_loops};
ghost use Rattle.semantics.specs.Summary.{Summary as Definition};
ghost use Rattle.semantics.specs.Time.{last};
ghost use Rattle.path_summary.specs.Carried.{carried, counters_after, identity, kept, raised_at};
ghost use Rattle.path_summary.specs.Order.{in_order};
ghost use Rattle.path_summary.specs.Rows.{Follows, HasRoom, is_below};
ghost use Rattle.loop_context.specs.Actions.{action_of};

use arrayvec::ArrayVec;
use loop_context::{Action, MAX_LOOPS};
use std::marker::Model;

/// The most counters after a summary: those that it keeps, those that it appends, and one that an action may add.
const MAX_CARRIED: usize = 2 * MAX_LOOPS + 1;

/// Keeps `keep` counters, adds to the last of them, and appends the tail.
#[derive(Drop)]
pub struct Summary {
    keep: u32,
    add: u32,
    tail: ArrayVec<u32, MAX_LOOPS>,
}

impl Model for Summary {
    ghost use Rattle.semantics.specs.Summary.{Summary as Definition};

    ghost Value = { Definition };

    ghost view = { λ f. record { keep = f.keep; add = f.add; tail = f.tail.items } };
}

impl Summary {
    /// The summary of a path without steps.
    pub fn identity(depth: u32) -> Self
        ensures { result ≡ identity depth }
    {
        Summary {
            keep: depth,
            add: 0,
            tail: ArrayVec::new(),
        }
    }

    /// The summary followed by an action. There must be room for the action.
    pub fn then(&self, action: Action) -> Summary
        requires { HasRoom (action_of action) self.now }
        ensures { Follows (action_of action) self.now result }
    {
        match action {
            Action::Stay => self.copied(),
            Action::Enter => self.entered(),
            Action::Leave => self.left(),
            Action::Next => self.turned(),
        }
    }

    fn entered(&self) -> Summary
        requires { length self.now.tail < max_loops }
        ensures { Follows (action_of Action.Enter) self.now result }
    {
        let mut after = self.copied();
        after.tail.push(0);
        after
    }

    fn left(&self) -> Summary
        requires { 0 < self.now.keep + length self.now.tail }
        ensures { Follows (action_of Action.Leave) self.now result }
    {
        let mut tail = copied_counters(self.tail.as_slice());
        if let Some(_) = tail.pop() {
            return Summary {
                keep: self.keep,
                add: self.add,
                tail,
            };
        }
        Summary {
            keep: self.keep - 1,
            add: 0,
            tail,
        }
    }

    #[tactic(auto, using(crate::proofs::Carrying::popped_last))]
    fn turned(&self) -> Summary
        requires some { 0 < self.now.keep + length self.now.tail }
        requires add { self.now.add + 1 < 2 ^ 32 }
        requires last { last self.now.tail + 1 < 2 ^ 32 }
        ensures { Follows (action_of Action.Next) self.now result }
    {
        let mut tail = copied_counters(self.tail.as_slice());
        if let Some(counter) = tail.pop() {
            tail.push(counter + 1);
            return Summary {
                keep: self.keep,
                add: self.add,
                tail,
            };
        }
        Summary {
            keep: self.keep,
            add: self.add + 1,
            tail,
        }
    }

    /// The same summary.
    pub fn copied(&self) -> Summary
        ensures { result ≡ self.now }
    {
        Summary {
            keep: self.keep,
            add: self.add,
            tail: copied_counters(self.tail.as_slice()),
        }
    }

    /// A sufficient test: true only if this summary takes counters to ones at or before those of the other.
    pub fn is_below(&self, other: &Summary) -> bool
        ensures { result ≡ is_below self.now other.now }
    {
        if self.keep == other.keep {
            self.add < other.add
                || (self.add == other.add && in_order(self.tail.as_slice(), other.tail.as_slice()))
        } else {
            other.keep < self.keep && 0 < other.add
        }
    }

    /// Whether the two are equal.
    #[tactic(auto, using(crate::proofs::Carrying::same_parts))]
    pub fn same(&self, other: &Summary) -> bool
        ensures { IsTrue result ↔ (self.now ≡ other.now) }
    {
        let parts = self.keep == other.keep && self.add == other.add;
        parts && self.tail.as_slice() == other.tail.as_slice()
    }

    /// Whether this summary, followed by the action, takes these counters to ones at or before those of `until`. Out of all loops there are none.
    #[inline(always)]
    pub fn reaches(&self, action: Action, counters: &[u32], until: &[u32]) -> bool
        requires { length counters.now ≤ max_loops }
        ensures { result ≡ in_order (counters_after (action_of action) (carried self.now counters.now)) until.now }
    {
        if action == Action::Stay && self.keep == 0 && self.tail.is_empty() {
            return true;
        }
        let mut carried = self.carried(counters);
        act(&mut carried, action);
        in_order_wide(carried.as_slice(), until)
    }

    fn carried(&self, counters: &[u32]) -> ArrayVec<u64, MAX_CARRIED>
        requires { length counters.now ≤ max_loops }
        ensures items { result.items ≡ carried self.now counters.now }
        ensures few { length result.items ≤ max_loops + max_loops }
        ensures small { All (λ c. c < 2 ^ 33) result.items }
    {
        let mut out = ArrayVec::new();
        push_kept(&mut out, self.keep, self.add, counters);
        for counter in self.tail.as_slice() {
            out.push(*counter as u64);
        }
        out
    }
}

/// The same counters.
fn copied_counters(counters: &[u32]) -> ArrayVec<u32, MAX_LOOPS>
    requires { length counters.now ≤ max_loops }
    ensures { result.items ≡ counters.now }
{
    let mut copied = ArrayVec::new();
    for counter in counters {
        copied.push(*counter);
    }
    copied
}

/// Whether the first counters are at or before the second in lexicographic order.
fn in_order(counters: &[u32], others: &[u32]) -> bool
    ensures { result ≡ in_order counters.now others.now }
{
    match counters {
        [] => true,
        [counter, rest @ ..] => match others {
            [] => false,
            [other, more @ ..] => {
                *counter < *other || (*counter == *other && in_order(rest, more))
            }
        },
    }
}

/// As `in_order`, with wider numbers on the left.
fn in_order_wide(counters: &[u64], others: &[u32]) -> bool
    ensures { result ≡ in_order counters.now others.now }
{
    match counters {
        [] => true,
        [counter, rest @ ..] => match others {
            [] => false,
            [other, more @ ..] => {
                *counter < (*other as u64)
                    || (*counter == (*other as u64) && in_order_wide(rest, more))
            }
        },
    }
}

/// A kept counter, raised if it is the last one kept.
#[tactic(auto, using(crate::proofs::Carrying::raised_first, crate::proofs::Carrying::raised_later))]
fn raise_last(keep: u32, add: u32, counter: u32) -> u64
    requires { 0 < keep }
    ensures value { result ≡ raised_at (keep - 1) add counter }
    ensures small { result < 2 ^ 33 }
{
    if keep == 1 {
        (counter as u64) + (add as u64)
    } else {
        counter as u64
    }
}

/// Appends the kept counters.
#[tactic(auto, using(crate::proofs::Carrying::kept_none))]
fn push_kept(out: &mut ArrayVec<u64, MAX_CARRIED>, keep: u32, add: u32, counters: &[u32])
    requires { length out.old.items + length counters.now ≤ max_loops }
    ensures items { out.new.items ≡ out.old.items ++ kept keep add counters.now }
    ensures few { length out.new.items ≤ length out.old.items + length counters.now }
    ensures small { All (λ c. c < 2 ^ 33) out.old.items → All (λ c. c < 2 ^ 33) out.new.items }
{
    if keep == 0 {
        return;
    }
    match counters {
        [] => {}
        [counter, rest @ ..] => {
            out.push(raise_last(keep, add, *counter));
            push_kept(out, keep - 1, add, rest);
        }
    }
}

/// Applies an action to counters.
#[tactic(auto, using(crate::proofs::Carrying::popped_front, crate::proofs::Carrying::popped_last))]
fn act(counters: &mut ArrayVec<u64, MAX_CARRIED>, action: Action)
    requires few { length counters.old.items ≤ max_loops + max_loops }
    requires small { All (λ c. c < 2 ^ 33) counters.old.items }
    ensures { counters.new.items ≡ counters_after (action_of action) counters.old.items }
{
    match action {
        Action::Stay => {}
        Action::Enter => counters.push(0),
        Action::Leave => {
            let _ = counters.pop();
        }
        Action::Next => match counters.pop() {
            Some(counter) => counters.push(counter + 1),
            None => counters.push(1),
        },
    }
}
