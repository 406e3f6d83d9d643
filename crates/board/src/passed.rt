//! Counts the epochs that have passed.

ghost use Rattle.std.specs.Prelude.{◌≡◌, ◌<◌, ◌≤◌, ◌↔◌, ℕ, IsTrue, length};
ghost use Rattle.semantics.specs.Could.{at_vertex};
ghost use Rattle.semantics.specs.Time.{at_epoch};
ghost use Rattle.views.specs.Waiting.{IsSeenBy};
ghost use Rattle.board.specs.Kept.{IsKept};
ghost use Rattle.board.specs.Promises.{IsOutputPlace};
ghost use Rattle.board.specs.Seals.{AreOutputsIn, AreSeenBelow, HavePassed, IsMostSeen, NoneLeft, NoneLeftAtAll};

use crate::state::State;
use graph::{Location, VertexId};
use loop_context::Time;
use path_summary::Pointstamp;
use views::Views;

/// The number of epochs that have passed at every output as the first worker sees it; each below `from` already has. Asks once for each epoch that
/// has passed since.
#[inline(always)]
pub fn passed_now<V: Views>(views: &V, state: &State, from: u32) -> u32
    requires kept { IsKept (V.graph views.now) (V.content views.now) state.now }
    requires viewers { V.workers views.now ≡ length state.now.sides }
    requires passed { HavePassed state.now from }
    requires seen { AreSeenBelow (V.graph views.now) (IsSeenBy (V.content views.now) (V.waiting views.now) (V.workers views.now) 0) state.now from }
    ensures from { from ≤ result }
    ensures passed { HavePassed state.now result }
    ensures most { IsMostSeen (V.graph views.now) (IsSeenBy (V.content views.now) (V.waiting views.now) (V.workers views.now) 0) state.now result }
    ensures seen { AreSeenBelow (V.graph views.now) (IsSeenBy (V.content views.now) (V.waiting views.now) (V.workers views.now) 0) state.now result }
{
    passed_from(views, state, from, state.seals())
}

/// The first epoch from `from` on, and at most `sealed`, that hasn't passed at some output as the first worker sees it. Asks once for each epoch that
/// has passed since.
#[inline(always)]
fn passed_from<V: Views>(views: &V, state: &State, from: u32, sealed: u32) -> u32
    requires order { from ≤ sealed }
    requires some { 0 < V.workers views.now }
    requires outputs { AreOutputsIn (V.graph views.now) state.now }
    ensures from { from ≤ result }
    ensures most { result ≤ sealed }
    ensures passed { (e : ℕ) → from ≤ e → e < result → NoneLeftAtAll (V.graph views.now) (λ q. 0 < V.content views.now q) state.now e }
    ensures seen { (e : ℕ) → from ≤ e → e < result → NoneLeftAtAll (V.graph views.now)
        (IsSeenBy (V.content views.now) (V.waiting views.now) (V.workers views.now) 0) state.now e }
    ensures first { result < sealed →
        NoneLeftAtAll (V.graph views.now) (IsSeenBy (V.content views.now) (V.waiting views.now) (V.workers views.now) 0) state.now result → ⊥ }
{
    for epoch in from..sealed {
        if !is_over(views, state, epoch) {
            return epoch;
        }
    }
    sealed
}

/// Whether the first worker sees that no record could still come to any output for an epoch.
#[inline(always)]
pub fn is_over<V: Views>(views: &V, state: &State, epoch: u32) -> bool
    requires some { 0 < V.workers views.now }
    requires outputs { AreOutputsIn (V.graph views.now) state.now }
    ensures there { IsTrue result → NoneLeftAtAll (V.graph views.now) (λ q. 0 < V.content views.now q) state.now epoch }
    ensures seen { IsTrue result ↔
        NoneLeftAtAll (V.graph views.now) (IsSeenBy (V.content views.now) (V.waiting views.now) (V.workers views.now) 0) state.now epoch }
{
    for output in 0..state.output_count() {
        if !views.none_before(0, &output_place(state.output(output), epoch)) {
            return false;
        }
    }
    true
}

/// Whether the first worker sees that no record could still come to an output for an epoch. The output is given by its place.
pub fn is_past<V: Views>(views: &V, state: &State, output: u32, epoch: u32) -> bool
    requires some { 0 < V.workers views.now }
    requires outputs { AreOutputsIn (V.graph views.now) state.now }
    requires place { IsOutputPlace state.now output }
    ensures there { IsTrue result → NoneLeft (V.graph views.now) (λ q. 0 < V.content views.now q) state.now output epoch }
    ensures seen { IsTrue result ↔
        NoneLeft (V.graph views.now) (IsSeenBy (V.content views.now) (V.waiting views.now) (V.workers views.now) 0) state.now output epoch }
{
    let vertex = state.output(output as usize);
    views.none_before(0, &output_place(vertex, epoch))
}

/// The pointstamp at which the records of an epoch come to an output.
#[inline(always)]
pub fn output_place(output: VertexId, epoch: u32) -> Pointstamp
    ensures { result ≡ at_vertex output.0 (at_epoch epoch) }
{
    Pointstamp::new(Time::at_epoch(epoch), Location::Vertex(output))
}
