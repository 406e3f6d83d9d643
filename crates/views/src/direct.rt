//! Views that are never late.

ghost use Rattle.std.specs.Prelude.{◌≡◌, ◌<◌, ◌≤◌, [], IfOk, false, refl};
ghost use Rattle.graph.specs.Shown.{shown_graph};
ghost use Rattle.semantics.specs.Limits.{max_workers};
ghost use Rattle.semantics.specs.Could.{Pointstamp as Active};
ghost use Rattle.views.specs.Opening.{active_at_first};

use crate::opening::open_inputs;
use crate::tracked::{add_all, remove_all};
use crate::views::Views;
use path_summary::{Paths, Pointstamp};
use progress::Progress;
use record_core::NoMemory;
use std::alloc::Global;

/// All workers see one tracker, and nothing waits.
#[derive(Drop)]
pub struct Direct<P> {
    workers: u32,
    tracker: P,
}

impl<P: Progress> Direct<P> {
    /// Views for 1 to 64 workers on one tracker of a graph, in which nothing may be active yet. Each input is then active at epoch 0.
    pub fn new(
        alloc: Global,
        paths: &Paths,
        workers: u32,
        mut tracker: P,
    ) -> Result<Direct<P>, NoMemory>
        requires some { 0 < workers }
        requires few { workers ≤ max_workers }
        requires same { P.graph tracker ≡ shown_graph paths.now }
        requires none { (q : Active) → P.content tracker q ≡ 0 }
        ensures graph { IfOk result (λ d. P.graph d.tracker ≡ shown_graph paths.now) }
        ensures workers { IfOk result (λ d. d.workers ≡ workers) }
        ensures content { IfOk result (λ d. (q : Active) → P.content d.tracker q ≡ active_at_first (shown_graph paths.now) q) }
    {
        let first = open_inputs(alloc, paths)?;
        tracker.reserve(first.len() as u32)?;
        add_all(&mut tracker, &first);
        Ok(Direct { workers, tracker })
    }
}

impl<P: Progress> Views for Direct<P> {
    ghost graph = { λ d. P.graph d.tracker };

    ghost workers = { λ d. d.workers };

    ghost content = { λ d. P.content d.tracker };

    ghost waiting = { λ d worker sender. [] };

    ghost behind = { λ d worker sender. [] };

    ghost room = { λ d. P.room d.tracker };

    ghost late = { false };

    #[inline(always)]
    fn reserve(&mut self, count: u32) -> Result<(), NoMemory> {
        self.tracker.reserve(count)
    }

    fn spare(&self) -> u32 {
        self.tracker.spare()
    }

    #[inline(always)]
    fn post(&mut self, _sender: u32, added: &[Pointstamp], removed: &[Pointstamp]) {
        add_all(&mut self.tracker, added);
        remove_all(&mut self.tracker, removed);
    }

    fn apply(&mut self, _worker: u32, _sender: u32) -> bool {
        false
    }

    fn waits(&self, _worker: u32) -> bool {
        false
    }

    #[inline(always)]
    fn in_frontier(&self, _worker: u32, p: &Pointstamp) -> bool {
        self.tracker.in_frontier(p)
    }

    #[inline(always)]
    fn none_before(&self, _worker: u32, p: &Pointstamp) -> bool {
        self.tracker.none_before(p)
    }

    fn waiting(&self) -> u64 {
        0
    }

    ghost as_lists = { λ d worker sender. refl };
}
