//! Views without memory.

ghost use Rattle.std.specs.Prelude.{◌≡◌, IfOk};
ghost use Rattle.graph.specs.Shown.{shown_graph};
ghost use Rattle.semantics.specs.Could.{Pointstamp as Active};
ghost use Rattle.progress.specs.Content.{times_at};
ghost use Rattle.views.specs.Opening.{active_at_first};

use board::Board;
use graph::Graph;
use path_summary::{Paths, Pointstamp};
use progress::LocationTracker;
use record_core::NoMemory;
use std::alloc::Global;
use std::sync::Arc;
use views::{Direct, LocalViews, Views};

/// Views that refuse one of their growths.
#[derive(Drop)]
pub struct Refusing<V> {
    views: V,
    /// How many growths there are until that one.
    granted: u32,
    has_refused: bool,
}

impl<V: Views> Views for Refusing<V> {
    ghost graph = { λ r. V.graph r.views };

    ghost workers = { λ r. V.workers r.views };

    ghost content = { λ r. V.content r.views };

    ghost waiting = { λ r. V.waiting r.views };

    ghost behind = { λ r. V.behind r.views };

    ghost room = { λ r. V.room r.views };

    ghost late = { V.late };

    fn reserve(&mut self, count: u32) -> Result<(), NoMemory> {
        if self.granted == 0 && !self.has_refused {
            self.has_refused = true;
            return Err(NoMemory);
        }
        self.granted = self.granted.saturating_sub(1);
        self.views.reserve(count)
    }

    fn spare(&self) -> u32 {
        self.views.spare()
    }

    fn post(&mut self, sender: u32, added: &[Pointstamp], removed: &[Pointstamp]) {
        self.views.post(sender, added, removed);
    }

    fn apply(&mut self, worker: u32, sender: u32) -> bool {
        self.views.apply(worker, sender)
    }

    fn waits(&self, worker: u32) -> bool {
        self.views.waits(worker)
    }

    fn in_frontier(&self, worker: u32, p: &Pointstamp) -> bool {
        self.views.in_frontier(worker, p)
    }

    fn none_before(&self, worker: u32, p: &Pointstamp) -> bool {
        self.views.none_before(worker, p)
    }

    fn waiting(&self) -> u64 {
        self.views.waiting()
    }

    ghost as_lists = { λ r. V.as_lists r.views };
}

/// Views by two workers of a graph, who see one tracker. The views refuse a growth after that many.
fn direct_after(
    alloc: Global,
    graph: &Arc<Graph, Global>,
    granted: u32,
) -> Result<Refusing<Direct<LocationTracker>>, NoMemory>
    ensures graph { IfOk result (λ r. shown_graph r.views.tracker.graph ≡ shown_graph graph.now.value) }
    ensures workers { IfOk result (λ r. r.views.workers ≡ 2) }
    ensures first { IfOk result (λ r. (q : Active) →
        times_at r.views.tracker.edges r.views.tracker.vertices q ≡ active_at_first (shown_graph graph.now.value) q) }
{
    let paths = Arc::new(alloc, Paths::of(alloc, graph)?)?;
    let tracker = LocationTracker::new(alloc, Arc::try_clone(&paths)?)?;
    let views = Direct::new(alloc, &paths, 2, tracker)?;
    Ok(Refusing {
        views,
        granted,
        has_refused: false,
    })
}

/// A board of two workers, who see one tracker, which refuses a growth after that many; nothing if the opening is refused.
pub fn board_after(
    alloc: Global,
    graph: Arc<Graph, Global>,
    granted: u32,
) -> Option<Board<Refusing<Direct<LocationTracker>>>> {
    let Ok(views) = direct_after(alloc, &graph, granted) else {
        return None;
    };
    Board::with_views(alloc, graph, 2, views).ok()
}

/// The same with a view for each worker.
pub fn late_board_after(
    alloc: Global,
    graph: Arc<Graph, Global>,
    granted: u32,
) -> Option<Board<Refusing<LocalViews>>> {
    let paths = Arc::new(alloc, Paths::of(alloc, &graph).ok()?).ok()?;
    let views = LocalViews::new(alloc, paths, 2).ok()?;
    let refusing = Refusing {
        views,
        granted,
        has_refused: false,
    };
    Board::with_views(alloc, graph, 2, refusing).ok()
}
