//! A tracker that keeps precursor counts.

ghost use Rattle.std.specs.Prelude.{◌≡◌, ◌+◌, ◌≤◌, [], vec_capacity};
ghost use Rattle.graph.specs.Shown.{shown_graph};
ghost use Rattle.simple_trackers.specs.Counts.{AreExact, all_occurrences, occurrences_in};

use crate::counted::{Counted, is_clear, place_of, put, take};
use path_summary::{Paths, Pointstamp};
use progress::Progress;
use record_core::NoMemory;
use std::alloc::Global;
use std::marker::Model;
use std::sync::Arc;

/// A tracker that keeps for each active pointstamp its occurrence count, how often it is active, and its precursor count, how many other active
/// pointstamps could result in it. The frontier is those without a precursor. An addition or a removal updates the precursor counts of the others.
#[derive(Drop)]
pub struct CountTracker {
    paths: Arc<Paths, Global>,
    active: Vec<Counted>,
    occurrences: usize,
    spare: u32,
}

impl Model for CountTracker {
    ghost use Rattle.expr_tree.specs.contracts.scalar.Scalar as scalar;
    ghost use Rattle.expr_tree.specs.contracts.condition.Cond as condition;
    ghost use Rattle.std.specs.Coded.{codes};
    ghost use Rattle.std.specs.Prelude.{◌+◌, ◌≤◌, ◌≡◌, vec_capacity};
    ghost use Rattle.std.specs.contracts.alloc.Global as heap;
    ghost use Rattle.std.specs.contracts.impls.GlobalAllocator.TheImpl as allocates;
    ghost use Rattle.graph.specs.Shown.{shown_graph};
    ghost use Rattle.simple_trackers.specs.Counts.{AreExact, all_occurrences};
    ghost use Rattle.simple_trackers.specs.Shown.{ShownCounts};

    ghost Value = { ShownCounts };

    ghost coded = { Prim.hlevel (codes, (scalar.the_row heap.the_row allocates.ghosts).coded, (condition.the_row heap.the_row allocates.ghosts).coded) };

    ghost view = { λ t. record { graph = t.paths.value; active = t.active.items; spare = t.spare } };

    ghost invariant = { λ t. (t.occurrences ≡ all_occurrences t.active.items) × (t.occurrences + t.spare ≤ vec_capacity t.active)
        × AreExact (shown_graph t.paths.value) t.active.items };
}

impl CountTracker {
    /// A tracker in which nothing is active.
    pub fn new(alloc: Global, paths: Arc<Paths, Global>) -> CountTracker
        ensures { result ≡ record { graph = paths.value; active = []; spare = 0 } }
    {
        CountTracker {
            paths,
            active: Vec::new(alloc),
            occurrences: 0,
            spare: 0,
        }
    }

    /// Both counts of each active pointstamp are exact. Nothing is done.
    pub fn law_of_counts(&self)
        ensures { AreExact (shown_graph self.now.graph) self.now.active }
    {
        let _ = &self.active;
    }
}

impl Progress for CountTracker {
    ghost graph = { λ t. shown_graph t.graph };

    ghost content = { λ t. occurrences_in t.active };

    ghost room = { λ t. t.spare };

    fn reserve(&mut self, count: u32) -> Result<(), NoMemory> {
        if count > self.spare {
            let repeated = self.occurrences - self.active.len();
            self.active.reserve(repeated + count as usize)?;
            self.spare = count;
        }
        Ok(())
    }

    fn spare(&self) -> u32 {
        self.spare
    }

    fn add(&mut self, p: &Pointstamp) {
        put(&self.paths, &mut self.active, p);
        self.occurrences += 1;
        self.spare -= 1;
    }

    fn remove(&mut self, p: &Pointstamp) {
        take(&self.paths, &mut self.active, p);
        self.occurrences -= 1;
    }

    fn in_frontier(&self, p: &Pointstamp) -> bool {
        match place_of(&self.active, p) {
            Some(place) => self.active[place].precursors == 0,
            None => is_clear(&self.paths, &self.active, p),
        }
    }

    fn none_before(&self, p: &Pointstamp) -> bool {
        is_clear(&self.paths, &self.active, p)
    }
}
