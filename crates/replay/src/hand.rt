//! The events that a schedule has in hand: claimed and computed, but not committed.

ghost use Rattle.std.specs.Prelude.{◌≡◌, ℕ, IfOk, None, Option, Some, replicate};
ghost use Rattle.events.specs.Jobs.{Pass};
ghost use Rattle.board.specs.Commits.{IsOf};
ghost use Rattle.replay.specs.Hands.{in_hand};

use board::Board;
use events::Done;
use std::alloc::{AllocError, Global};
use views::Views;

/// Nothing in hand, for that many workers.
pub fn empty_hand(alloc: Global, workers: u32) -> Result<Vec<Option<Done>>, AllocError>
    ensures { IfOk result (λ hand. hand.items ≡ replicate workers None) }
{
    let places = workers as usize;
    let mut hand = Vec::with_capacity(alloc, places)?;
    for _worker in 0..places {
        hand.push_reserved(None);
    }
    Ok(hand)
}

/// Abandons everything in hand.
pub fn abandon_hand<V: Views>(board: &mut Board<V>, hand: Vec<Option<Done>>)
    requires { (k : ℕ) (p : Pass) → in_hand hand.items k ≡ Some p → IsOf board.old.shown p }
{
    let mut rest = hand;
    while !rest.is_empty() {
        match rest.take_last() {
            None => {}
            Some(done) => board.abandon_done(done),
        }
    }
    rest.destroy_empty();
}
