//! The choices of a worker, by number.

ghost use Rattle.std.specs.Prelude.{◌<◌, ℕ, IfSome, IfNone};
ghost use Rattle.machine.specs.Choices.{Kth};
ghost use Rattle.views.specs.Waiting.{IsSeenBy};
ghost use Rattle.board.specs.Deliverable.{AreAtVertices, HasDeliverable, IsDeliverable};

use crate::frontier::may_deliver;
use events::Request;
use exchange::Mailbox;
use views::Views;

/// The place of the request that comes at that number, from 0, among those that the worker's view lets through.
pub fn kth_deliverable<V: Views>(
    views: &V,
    worker: u32,
    requests: &Mailbox<Request>,
    number: u64,
) -> Option<usize>
    requires worker { worker < V.workers views.now }
    requires known { AreAtVertices (V.graph views.now) requests.now.messages }
    ensures some { IfSome result (λ at. Kth (IsDeliverable (V.graph views.now)
        (IsSeenBy (V.content views.now) (V.waiting views.now) (V.workers views.now) worker)) requests.now.messages number at) }
    ensures there { IfSome result (λ at. HasDeliverable (V.graph views.now) (λ q. 0 < V.content views.now q) requests.now.messages at) }
    ensures none { IfNone result ((at : ℕ) → Kth (IsDeliverable (V.graph views.now)
        (IsSeenBy (V.content views.now) (V.waiting views.now) (V.workers views.now) worker)) requests.now.messages number at → ⊥) }
{
    let mut left = number;
    for place in 0..requests.len() {
        if may_deliver(views, worker, requests.get(place)) {
            if left == 0 {
                return Some(place);
            }
            left -= 1;
        }
    }
    None
}
