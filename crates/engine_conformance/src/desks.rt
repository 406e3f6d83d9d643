//! The boards of first lines, over each kind of views.

ghost use Rattle.std.specs.Prelude.{◌≡◌, ◌<◌, ◌≤◌, IfOk, IfSome};
ghost use Rattle.graph.specs.Shown.{shown_graph};
ghost use Rattle.semantics.specs.Could.{Pointstamp as Active};

use crate::desk::Desk;
use crate::times::graph_of;
use board::Board;
use graph::Graph;
use path_summary::Paths;
use progress::{LocationTracker, Progress};
use rows::WorkFault;
use simple_trackers::{CountTracker, PlainTracker};
use std::alloc::Global;
use std::sync::Arc;
use views::{Direct, LocalViews};

/// What a board is made of.
#[derive(Drop)]
struct Plan {
    workers: u32,
    graph: Arc<Graph, Global>,
    paths: Arc<Paths, Global>,
}

/// The plan of a text `2: QUERY`, for 2 workers.
fn plan_of(alloc: Global, text: &str) -> Result<Option<Plan>, WorkFault>
    ensures { IfOk result (λ made. IfSome made (λ p. (0 < p.workers) × ((p.workers ≤ 64) × (p.paths.value ≡ p.graph.value)))) }
{
    let (workers, query) = text.split_once(": ").unwrap_or((text, ""));
    let (Ok(workers), Some(graph)) = (workers.parse::<u32>(), graph_of(alloc, query)) else {
        return Ok(None);
    };
    if workers == 0 || workers > 64 {
        return Ok(None);
    }
    let graph = Arc::new(alloc, graph)?;
    let paths = Arc::new(alloc, Paths::of(alloc, &graph)?)?;
    Ok(Some(Plan {
        workers,
        graph,
        paths,
    }))
}

/// A board whose workers all see one tracker, in which nothing is active yet.
fn desk_over<P: Progress>(
    alloc: Global,
    plan: Plan,
    tracker: P,
) -> Result<Option<Desk<Direct<P>>>, WorkFault>
    requires some { 0 < plan.workers }
    requires few { plan.workers ≤ 64 }
    requires paths { plan.paths.value ≡ plan.graph.value }
    requires same { P.graph tracker ≡ shown_graph plan.paths.value }
    requires none { (q : Active) → P.content tracker q ≡ 0 }
{
    let Plan {
        workers,
        graph,
        paths,
    } = plan;
    let views = Direct::new(alloc, &paths, workers, tracker)?;
    let board = Board::with_views(alloc, graph, workers, views)?;
    Ok(Some(Desk::new(alloc, board)?))
}

/// The board of a first line `board of 2: QUERY`.
pub fn new_board(
    alloc: Global,
    text: &str,
) -> Result<Option<Desk<Direct<LocationTracker>>>, WorkFault> {
    let Some(plan) = plan_of(alloc, text)? else {
        return Ok(None);
    };
    let tracker = LocationTracker::new(alloc, Arc::try_clone(&plan.paths)?)?;
    desk_over(alloc, plan, tracker)
}

/// The board of a first line `board-plain of 2: QUERY`.
pub fn new_plain_board(
    alloc: Global,
    text: &str,
) -> Result<Option<Desk<Direct<PlainTracker>>>, WorkFault> {
    let Some(plan) = plan_of(alloc, text)? else {
        return Ok(None);
    };
    let tracker = PlainTracker::new(alloc, Arc::try_clone(&plan.paths)?);
    desk_over(alloc, plan, tracker)
}

/// The board of a first line `board-counting of 2: QUERY`.
pub fn new_counting_board(
    alloc: Global,
    text: &str,
) -> Result<Option<Desk<Direct<CountTracker>>>, WorkFault> {
    let Some(plan) = plan_of(alloc, text)? else {
        return Ok(None);
    };
    let tracker = CountTracker::new(alloc, Arc::try_clone(&plan.paths)?);
    desk_over(alloc, plan, tracker)
}

/// The board of a first line `board-late of 2: QUERY`, with a view for each worker.
pub fn new_late_board(alloc: Global, text: &str) -> Result<Option<Desk<LocalViews>>, WorkFault> {
    let Some(Plan { workers, graph, .. }) = plan_of(alloc, text)? else {
        return Ok(None);
    };
    let board = Board::with_local_views(alloc, graph, workers)?;
    Ok(Some(Desk::new(alloc, board)?))
}
