//! Pointstamps that a worker still sees although they are gone, because their removals wait for it.

ghost use Rattle.std.specs.Prelude.{◌↔◌, ◌<◌, ◌≤◌, IsTrue, MatchBool, length, true, false};
ghost use Rattle.graph.specs.Shown.{shown_graph};
ghost use Rattle.semantics.specs.Could.{IsTimeAt, Pointstamp as Active};
ghost use Rattle.progress.specs.Content.{IsBlocked, IsClear};
ghost use Rattle.views.specs.Queued.{AllKnown, removes_in};
ghost use Rattle.views.specs.WorkerViews.{HasPlaces};
ghost use Rattle.views.specs.Stale.{AreKnown, LetsThrough, adds_for, removes_for, stale_count};

use crate::batches::times;
use crate::queue::{Change, Queue};
use path_summary::{Paths, Pointstamp};

/// Whether a stale pointstamp could result in `p`; if `other`, one that is different from it. Looks only at removals that wait.
pub fn is_blocked(paths: &Paths, queues: &[Queue], worker: u32, p: &Pointstamp, other: bool) -> bool
    requires few { length queues.now ≤ 65 }
    requires placed { HasPlaces queues.now worker }
    requires known { AreKnown (shown_graph paths.now) queues.now }
    requires to { IsTimeAt (shown_graph paths.now) p.now.location p.now.time }
    ensures { MatchBool result (IsBlocked (shown_graph paths.now) (stale_count queues.now worker) p.now other)
        (IsClear (shown_graph paths.now) (stale_count queues.now worker) p.now other) }
{
    for s in 0..queues.len() {
        let queue = &queues[s];
        let waiting = queue.waiting(worker);
        if is_blocked_by_one_of(paths, queues, worker, waiting, p, other) {
            return true;
        }
    }
    false
}

/// As `is_blocked`, for what these changes remove.
fn is_blocked_by_one_of(
    paths: &Paths,
    queues: &[Queue],
    worker: u32,
    waiting: &[Change],
    p: &Pointstamp,
    other: bool,
) -> bool
    requires few { length queues.now ≤ 65 }
    requires placed { HasPlaces queues.now worker }
    requires known { AllKnown (shown_graph paths.now) waiting.now }
    requires to { IsTimeAt (shown_graph paths.now) p.now.location p.now.time }
    ensures { MatchBool result (IsBlocked (shown_graph paths.now) (stale_count queues.now worker) p.now other)
        ((q : Active) → 0 < removes_in waiting.now q → LetsThrough (shown_graph paths.now) (stale_count queues.now worker) p.now other q) }
{
    for i in 0..waiting.len() {
        match &waiting[i] {
            Change::Add(_) => {}
            Change::Remove(q) => {
                if is_blocked_by(paths, queues, worker, q, p, other) {
                    return true;
                }
            }
            Change::End => {}
        }
    }
    false
}

/// As `is_blocked`, for one pointstamp.
fn is_blocked_by(
    paths: &Paths,
    queues: &[Queue],
    worker: u32,
    q: &Pointstamp,
    p: &Pointstamp,
    other: bool,
) -> bool
    requires few { length queues.now ≤ 65 }
    requires placed { HasPlaces queues.now worker }
    requires from { IsTimeAt (shown_graph paths.now) q.now.location q.now.time }
    requires to { IsTimeAt (shown_graph paths.now) p.now.location p.now.time }
    ensures { MatchBool result (IsBlocked (shown_graph paths.now) (stale_count queues.now worker) p.now other)
        (LetsThrough (shown_graph paths.now) (stale_count queues.now worker) p.now other q.now) }
{
    if other && q.same(p) {
        return false;
    }
    if !paths.could(q, p) {
        return false;
    }
    is_stale(queues, worker, q)
}

/// Whether the changes that wait for the worker remove the pointstamp more often than they add it.
fn is_stale(queues: &[Queue], worker: u32, p: &Pointstamp) -> bool
    requires few { length queues.now ≤ 65 }
    requires placed { HasPlaces queues.now worker }
    ensures { IsTrue result ↔ (adds_for queues.now worker p.now < removes_for queues.now worker p.now) }
{
    let mut adds: u128 = 0;
    let mut removes: u128 = 0;
    for s in 0..queues.len() {
        let queue = &queues[s];
        let (added, removed) = times(queue.waiting(worker), p);
        adds += added as u128;
        removes += removed as u128;
    }
    adds < removes
}
