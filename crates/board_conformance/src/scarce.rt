//! Views without memory.

ghost use Rattle.std.specs.Prelude.{◌≡◌, ◌<◌, ◌≤◌, IfSome};

use board::Board;
use graph::Graph;
use path_summary::{Paths, Pointstamp};
use record_core::NoMemory;
use std::alloc::Global;
use std::sync::Arc;
use views::{LocalViews, Views};

/// Views that refuse one of their growths.
#[derive(Drop)]
pub struct Refusing<V> {
    views: V,
    /// How many growths there are until that one.
    granted: u32,
    has_refused: bool,
}

impl<V: Views> Views for Refusing<V> {
    ghost graph = { λ r. V.graph r.views };

    ghost workers = { λ r. V.workers r.views };

    ghost content = { λ r. V.content r.views };

    ghost waiting = { λ r. V.waiting r.views };

    ghost behind = { λ r. V.behind r.views };

    ghost room = { λ r. V.room r.views };

    ghost late = { V.late };

    fn reserve(&mut self, count: u32) -> Result<(), NoMemory> {
        if self.granted == 0 && !self.has_refused {
            self.has_refused = true;
            return Err(NoMemory);
        }
        self.granted = self.granted.saturating_sub(1);
        self.views.reserve(count)
    }

    fn spare(&self) -> u32 {
        self.views.spare()
    }

    fn post(&mut self, sender: u32, added: &[Pointstamp], removed: &[Pointstamp]) {
        self.views.post(sender, added, removed);
    }

    fn apply(&mut self, worker: u32, sender: u32) -> bool {
        self.views.apply(worker, sender)
    }

    fn waits(&self, worker: u32) -> bool {
        self.views.waits(worker)
    }

    fn in_frontier(&self, worker: u32, p: &Pointstamp) -> bool {
        self.views.in_frontier(worker, p)
    }

    fn none_before(&self, worker: u32, p: &Pointstamp) -> bool {
        self.views.none_before(worker, p)
    }

    fn waiting(&self) -> u64 {
        self.views.waiting()
    }

    ghost as_lists = { λ r. V.as_lists r.views };
}

/// A board with a view for each worker. The views refuse a growth after that many; nothing if the opening is refused.
pub fn late_board_after(
    alloc: Global,
    graph: Arc<Graph, Global>,
    workers: u32,
    granted: u32,
) -> Option<Board<Refusing<LocalViews>>>
    requires some { 0 < workers }
    requires few { workers ≤ 64 }
    ensures { IfSome result (λ b. b.shown.graph ≡ graph.value) }
{
    let paths = Arc::new(alloc, Paths::of(alloc, &graph).ok()?).ok()?;
    let views = LocalViews::new(alloc, paths, workers).ok()?;
    let refusing = Refusing {
        views,
        granted,
        has_refused: false,
    };
    Board::with_views(alloc, graph, workers, refusing).ok()
}
