//! A tracker that checks every active pointstamp.

ghost use Rattle.std.specs.Prelude.{◌≡◌, ◌+◌, ◌<◌, ◌≤◌, ◌↔◌, [], IsTrue, IfSome, IfNone, Some, true, false, remove, slice_get, vec_capacity, vec_len};
ghost use Rattle.graph.specs.Shown.{shown_graph};
ghost use Rattle.semantics.specs.Could.{CouldResultIn, IsTimeAt};
ghost use Rattle.progress.specs.Content.{AllAt, IsBlocked, IsClear, times_in};

use path_summary::{Paths, Pointstamp};
use progress::Progress;
use record_core::NoMemory;
use std::alloc::Global;
use std::marker::Model;
use std::sync::Arc;

/// A tracker that keeps a list of the active pointstamps, and scans it.
#[derive(Drop)]
pub struct PlainTracker {
    paths: Arc<Paths, Global>,
    active: Vec<Pointstamp>,
    spare: u32,
}

impl Model for PlainTracker {
    ghost use Rattle.expr_tree.specs.contracts.scalar.Scalar as scalar;
    ghost use Rattle.expr_tree.specs.contracts.condition.Cond as condition;
    ghost use Rattle.std.specs.Coded.{codes};
    ghost use Rattle.std.specs.Prelude.{◌+◌, ◌≤◌, vec_capacity, vec_len};
    ghost use Rattle.std.specs.contracts.alloc.Global as heap;
    ghost use Rattle.std.specs.contracts.impls.GlobalAllocator.TheImpl as allocates;
    ghost use Rattle.graph.specs.Shown.{shown_graph};
    ghost use Rattle.progress.specs.Content.{AllAt, times_in};
    ghost use Rattle.simple_trackers.specs.Shown.{Listed};

    ghost Value = { Listed };

    ghost coded = { Prim.hlevel (codes, (scalar.the_row heap.the_row allocates.ghosts).coded, (condition.the_row heap.the_row allocates.ghosts).coded) };

    ghost view = { λ t. record { graph = t.paths.value; active = t.active.items; spare = t.spare } };

    ghost invariant = { λ t. (vec_len t.active + t.spare ≤ vec_capacity t.active) × AllAt (shown_graph t.paths.value) (times_in t.active.items) };
}

impl PlainTracker {
    /// A tracker in which nothing is active.
    pub fn new(alloc: Global, paths: Arc<Paths, Global>) -> PlainTracker
        ensures { result ≡ record { graph = paths.value; active = []; spare = 0 } }
    {
        PlainTracker {
            paths,
            active: Vec::new(alloc),
            spare: 0,
        }
    }
}

impl PlainTracker {
    /// Whether `p` is active.
    #[tactic(auto, using(progress::proofs::Contents::times_got))]
    pub fn is_active(&self, p: &Pointstamp) -> bool
        ensures { IsTrue result ↔ (0 < times_in self.now.active p.now) }
    {
        place_of(&self.active, p).is_some()
    }
}

impl Progress for PlainTracker {
    ghost graph = { λ t. shown_graph t.graph };

    ghost content = { λ t. times_in t.active };

    ghost room = { λ t. t.spare };

    fn reserve(&mut self, count: u32) -> Result<(), NoMemory> {
        if count > self.spare {
            self.active.reserve(count as usize)?;
            self.spare = count;
        }
        Ok(())
    }

    fn spare(&self) -> u32 {
        self.spare
    }

    fn add(&mut self, p: &Pointstamp) {
        self.active.push_reserved(p.copied());
        self.spare -= 1;
    }

    fn remove(&mut self, p: &Pointstamp) {
        if let Some(place) = place_of(&self.active, p) {
            let _ = self.active.remove(place);
        }
    }

    fn in_frontier(&self, p: &Pointstamp) -> bool {
        is_clear(&self.paths, &self.active, p, true)
    }

    fn none_before(&self, p: &Pointstamp) -> bool {
        is_clear(&self.paths, &self.active, p, false)
    }
}

/// The place of `p` in the list.
fn place_of(active: &[Pointstamp], p: &Pointstamp) -> Option<usize>
    ensures some { IfSome result (λ i. slice_get active.now i ≡ Some p.now) }
    ensures none { IfNone result (times_in active.now p.now ≡ 0) }
{
    for i in 0..active.len() {
        if active[i].same(p) {
            return Some(i);
        }
    }
    None
}

/// Whether none of these could result in `p`; if `other`, none but `p` itself.
fn is_clear(paths: &Paths, active: &[Pointstamp], p: &Pointstamp, other: bool) -> bool
    requires known { IsTimeAt (shown_graph paths.now) p.now.location p.now.time }
    requires all { AllAt (shown_graph paths.now) (times_in active.now) }
    ensures clear { result ≡ true → IsClear (shown_graph paths.now) (times_in active.now) p.now other }
    ensures blocked { result ≡ false → IsBlocked (shown_graph paths.now) (times_in active.now) p.now other }
{
    for i in 0..active.len() {
        if blocks(paths, &active[i], p, other) {
            return false;
        }
    }
    true
}

/// Whether `q` could result in `p` and, if `other`, is different from it.
fn blocks(paths: &Paths, q: &Pointstamp, p: &Pointstamp, other: bool) -> bool
    requires from { IsTimeAt (shown_graph paths.now) q.now.location q.now.time }
    requires to { IsTimeAt (shown_graph paths.now) p.now.location p.now.time }
    ensures { IsTrue result ↔ ((other ≡ true → q.now ≡ p.now → ⊥) × CouldResultIn (shown_graph paths.now) q.now p.now) }
{
    !(other && q.same(p)) && paths.could(q, p)
}
