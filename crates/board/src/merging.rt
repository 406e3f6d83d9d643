//! Merges messages of a mailbox.

ghost use Rattle.std.specs.Prelude.{◌≡◌, ◌≤◌, ◌<◌, ℕ, IfNone, IfSome, MatchBool};
ghost use Rattle.std.specs.Bool.{OnTrue};
ghost use Rattle.board.specs.Merging.{AreAlike, AreMerged, window};

use events::Message;
use exchange::Mailbox;
use graph::Location;
use path_summary::Pointstamp;

/// The number of places behind the first message that are searched, so that a claim's time is bounded.
pub const WINDOW: usize = 16;

/// Merges the message at that place behind the first into the first, if they are alike and memory allows, and gives the pointstamp of the second.
/// Otherwise nothing changes. Copies no record.
pub fn merge(mailbox: &mut Mailbox<Message>, place: usize) -> Option<Pointstamp>
    ensures merged { IfSome result (λ ends. AreMerged mailbox.old.messages mailbox.new.messages place ends) }
    ensures same { IfNone result (mailbox.new.messages ≡ mailbox.old.messages) }
{
    if !are_alike(mailbox, place) {
        return None;
    }
    let second = mailbox.take(place + 1);
    let mut first = mailbox.take(0);
    let ends = Pointstamp::new(second.time().copied(), Location::Edge(second.edge()));
    let merged = first.merge(second);
    mailbox.put_first(first);
    match merged {
        Ok(()) => Some(ends),
        Err(second) => {
            mailbox.put_at(place + 1, second);
            None
        }
    }
}

/// Whether the message at that place behind the first may be merged into it.
fn are_alike(mailbox: &Mailbox<Message>, place: usize) -> bool
    ensures alike { MatchBool result (AreAlike mailbox.now.messages place) (AreAlike mailbox.now.messages place → ⊥) }
    ensures fits { OnTrue result (place < 18446744073709551615) }
{
    if mailbox.len().saturating_sub(1) <= place {
        return false;
    }
    mailbox.get(0).may_merge(mailbox.get(place + 1))
}

/// The first place, from `from` on and within the window, of a message that is like the first.
pub fn next_alike(mailbox: &Mailbox<Message>, from: usize) -> Option<usize>
    ensures found { IfSome result (λ at. (from ≤ at) × AreAlike mailbox.now.messages at) }
    ensures none { IfNone result ((at : ℕ) → from ≤ at → at < window → AreAlike mailbox.now.messages at → ⊥) }
{
    for place in from..WINDOW.min(mailbox.len().saturating_sub(1)) {
        if are_alike(mailbox, place) {
            return Some(place);
        }
    }
    None
}
