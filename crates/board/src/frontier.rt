//! Finds the requests whose notifications may be delivered.

ghost use Rattle.std.specs.Prelude.{◌≡◌, ◌↔◌, ◌<◌, ℕ, suc, [], length, slice_index, EachIndex, IfSome, IfNone, IsTrue};
ghost use Rattle.semantics.specs.Could.{IsTimeAt, Location as Where};
ghost use Rattle.semantics.specs.Dataflow.{IsDataflow};
ghost use Rattle.views.specs.Waiting.{IsSeenBy};
ghost use Rattle.board.specs.Deliverable.{AreAtVertices, HasDeliverable, IsDeliverable, NoneDeliverable, StandsBefore};

use arrayvec::ArrayVec;
use events::Request;
use exchange::Mailbox;
use graph::Location;
use path_summary::Pointstamp;
use views::{Views, law_of_waiting};

/// The number of blocked requests that a scan remembers.
const REMEMBERED: usize = 8;

/// The place of the first request that the worker's view lets through. Of each vertex, the views are asked about the earliest requests only: a
/// request at or after a blocked one is blocked too.
pub fn first_seen<V: Views>(views: &V, worker: u32, requests: &Mailbox<Request>) -> Option<usize>
    requires worker { worker < V.workers views.now }
    requires flows { IsDataflow (V.graph views.now) }
    requires known { AreAtVertices (V.graph views.now) requests.now.messages }
    ensures some { IfSome result (λ at. HasDeliverable (V.graph views.now) (λ q. 0 < V.content views.now q) requests.now.messages at) }
    ensures none { IfNone result (NoneDeliverable (V.graph views.now)
        (IsSeenBy (V.content views.now) (V.waiting views.now) (V.workers views.now) worker) requests.now.messages) }
{
    let mut fronts = ArrayVec::<usize, REMEMBERED>::new();
    for place in 0..requests.len() {
        let request = requests.get(place);
        if is_behind(requests, fronts.as_slice(), request) {
            continue;
        }
        if may_deliver(views, worker, request) {
            return Some(place);
        }
        let _remembered = fronts.try_push(place);
    }
    None
}

/// As `first_seen`, for a worker whose view is up to date: the first request that may be delivered.
#[inline(always)]
pub fn first_deliverable<V: Views>(
    views: &V,
    worker: u32,
    requests: &Mailbox<Request>,
) -> Option<usize>
    requires worker { worker < V.workers views.now }
    requires flows { IsDataflow (V.graph views.now) }
    requires known { AreAtVertices (V.graph views.now) requests.now.messages }
    requires prompt { (s : ℕ) → s < suc (V.workers views.now) → V.waiting views.now worker s ≡ [] }
    ensures some { IfSome result (λ at. HasDeliverable (V.graph views.now) (λ q. 0 < V.content views.now q) requests.now.messages at) }
    ensures none { IfNone result (NoneDeliverable (V.graph views.now) (λ q. 0 < V.content views.now q) requests.now.messages) }
{
    law_of_waiting();
    first_seen(views, worker, requests)
}

/// Whether the worker's view lets a request through.
#[inline(always)]
pub fn may_deliver<V: Views>(views: &V, worker: u32, request: &Request) -> bool
    requires worker { worker < V.workers views.now }
    requires known { IsTimeAt (V.graph views.now) (Where.vertex request.now.vertex) request.now.time }
    ensures seen { IsTrue result ↔
        IsDeliverable (V.graph views.now) (IsSeenBy (V.content views.now) (V.waiting views.now) (V.workers views.now) worker) request.now }
    ensures there { IsTrue result → IsDeliverable (V.graph views.now) (λ q. 0 < V.content views.now q) request.now }
{
    views.in_frontier(
        worker,
        &Pointstamp::new(request.time.copied(), Location::Vertex(request.vertex)),
    )
}

/// Whether one of these places has a request of the same vertex at the same time or an earlier one.
#[inline(always)]
fn is_behind(requests: &Mailbox<Request>, places: &[usize], request: &Request) -> bool
    requires { EachIndex places.now (λ i. slice_index places.now i < length requests.now.messages) }
    ensures { IsTrue result → (i : ℕ) × (i < length places.now) × StandsBefore requests.now.messages request.now (slice_index places.now i) }
{
    for place in places {
        let other = requests.get(*place);
        if other.vertex == request.vertex && other.time.leq(&request.time) {
            return true;
        }
    }
    false
}
