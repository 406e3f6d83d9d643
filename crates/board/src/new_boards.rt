//! New boards.

ghost use Rattle.std.specs.Prelude.{◌≡◌, ◌<◌, ◌≤◌, IfOk};
ghost use Rattle.machine.specs.World.{opening};
ghost use Rattle.semantics.specs.Limits.{max_workers};
ghost use Rattle.board.specs.Lateness.{AreUpToDate};
ghost use Rattle.board.specs.Promises.{IsOpening};
ghost use Rattle.board.specs.Showing.{Shows};

use crate::board::Board;
use graph::Graph;
use path_summary::Paths;
use record_core::NoMemory;
use std::alloc::Global;
use std::sync::Arc;
use views::{Direct, LocalViews, LocationTracker};

impl Board<Direct<LocationTracker>> {
    /// A board that runs a graph on 1 to 64 workers, all of which see one tracker. The inputs are open at epoch 0.
    pub fn new(
        alloc: Global,
        graph: Arc<Graph, Global>,
        workers: u32,
    ) -> Result<Board<Direct<LocationTracker>>, NoMemory>
        requires some { 0 < workers }
        requires few { workers ≤ max_workers }
        ensures opening { IfOk result (λ b. IsOpening graph.value workers b.shown) }
        ensures shows { IfOk result (λ b. Shows b.shown opening) }
        ensures prompt { IfOk result (λ b. AreUpToDate b) }
    {
        let paths = Arc::new(alloc, Paths::of(alloc, &graph)?)?;
        let tracker = LocationTracker::new(alloc, Arc::try_clone(&paths)?)?;
        let views = Direct::new(alloc, &paths, workers, tracker)?;
        let board = Board::with_views(alloc, graph, workers, views)?;
        Ok(board)
    }
}

impl Board<LocalViews> {
    /// A board that runs a graph on 1 to 64 workers, each with its own view, which may be late. The inputs are open at epoch 0.
    pub fn with_local_views(
        alloc: Global,
        graph: Arc<Graph, Global>,
        workers: u32,
    ) -> Result<Board<LocalViews>, NoMemory>
        requires some { 0 < workers }
        requires few { workers ≤ max_workers }
        ensures opening { IfOk result (λ b. IsOpening graph.value workers b.shown) }
        ensures shows { IfOk result (λ b. Shows b.shown opening) }
        ensures prompt { IfOk result (λ b. AreUpToDate b) }
    {
        let paths = Arc::new(alloc, Paths::of(alloc, &graph)?)?;
        let views = LocalViews::new(alloc, paths, workers)?;
        let board = Board::with_views(alloc, graph, workers, views)?;
        Ok(board)
    }
}
