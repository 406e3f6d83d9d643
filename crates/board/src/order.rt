//! Chooses the message that a worker takes next.

ghost use Rattle.std.specs.Prelude.{◌<◌, length, IfSome};

use crate::merging::WINDOW;
use events::{Message, Request};
use exchange::Mailbox;
use graph::Edge;
use std::cmp::Ordering;

/// The place of the message to take next: the earliest of the first ones, so that what is sent in pieces is together before it is taken. If others
/// are like it, it is left for when it is the first, since messages are merged into the first one only; the first is taken then. Any choice is right:
/// the order decides only how many events there are.
#[inline(always)]
pub fn next_place(edges: &[Edge], mailbox: &Mailbox<Message>) -> usize
    requires { 0 < length mailbox.now.messages }
    ensures { result < length mailbox.now.messages }
{
    if mailbox.len() == 1 {
        return 0;
    }
    let earliest = earliest(edges, mailbox);
    if is_alone(mailbox, earliest) {
        earliest
    } else {
        0
    }
}

/// The place of the earliest message, of the first one, those within the window behind it, and as many evenly over the whole mailbox: where what
/// is sent takes ways of different lengths round a loop, messages of earlier turns may be anywhere.
fn earliest(edges: &[Edge], mailbox: &Mailbox<Message>) -> usize
    requires { 0 < length mailbox.now.messages }
    ensures { result < length mailbox.now.messages }
{
    let mut earliest = 0;
    for place in 1..mailbox.len().min(WINDOW + 1) {
        if is_before(edges, mailbox.get(place), mailbox.get(earliest)) {
            earliest = place;
        }
    }
    let step = mailbox.len() / (WINDOW + 1);
    for nth in 2..WINDOW + 1 {
        let place = step.saturating_mul(nth);
        if place > WINDOW && place < mailbox.len() {
            if is_before(edges, mailbox.get(place), mailbox.get(earliest)) {
                earliest = place;
            }
        }
    }
    earliest
}

/// The place of the first request, of those that have waited longest, at an earlier turn of a message's loop, or at an earlier epoch outside loops.
#[inline(always)]
pub fn due_before(message: &Message, requests: &Mailbox<Request>) -> Option<usize>
    ensures { IfSome result (λ at. at < length requests.now.messages) }
{
    let depth = message.time().depth();
    for place in 0..requests.len().min(WINDOW) {
        let time = &requests.get(place).time;
        if time.depth() == depth && time.cmp(message.time()) == Ordering::Less {
            return Some(place);
        }
    }
    None
}

/// Whether no other message of those is worth merging with the one at that place.
fn is_alone(mailbox: &Mailbox<Message>, place: usize) -> bool
    requires { place < length mailbox.now.messages }
{
    let message = mailbox.get(place);
    for other in 0..mailbox.len().min(WINDOW + 1) {
        if other != place && message.is_worth_merging(mailbox.get(other)) {
            return false;
        }
    }
    true
}

/// Whether one message comes before the other: by its time, and then by its edge. Edges are numbered in the order of the vertices that they enter,
/// so within a turn of a loop a vertex comes after those that send to it.
fn is_before(edges: &[Edge], one: &Message, other: &Message) -> bool {
    match one.time().cmp(other.time()) {
        Ordering::Less => true,
        Ordering::Equal => is_before_at_once(edges, one, other),
        Ordering::Greater => false,
    }
}

/// The same of two messages of one time. Of those that enter one vertex, the one with the most rows is first: then a join looks for the few among
/// the many, and the many aren't looked for at all.
fn is_before_at_once(edges: &[Edge], one: &Message, other: &Message) -> bool {
    let (first, second) = (one.edge().0, other.edge().0);
    if one.rows() != other.rows() {
        if let (Some(to), Some(beside)) = (edges.get(first as usize), edges.get(second as usize)) {
            if to.target == beside.target {
                return one.rows() > other.rows();
            }
        }
    }
    first < second
}
