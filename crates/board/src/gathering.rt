//! Merges small messages before a claim.

ghost use Rattle.std.specs.Prelude.{◌≡◌, ◌≤◌, false};
ghost use Rattle.board.specs.Answers.{Gathers};
ghost use Rattle.board.specs.Lateness.{KeepsCalled};
ghost use Rattle.board.specs.Shown.{tables};

use crate::board::Board;
use views::Views;

/// The most messages that one call looks at, so that its time is bounded.
const MOST: usize = 64;

/// Merges into a free worker's first message the small ones close behind it that are like it, so that many small messages are one event. Copies no
/// record. False if nothing was changed.
pub fn gather<V: Views>(board: &mut Board<V>, worker: u32) -> bool
    ensures gathers { Gathers board.old.shown worker board.new.shown }
    ensures nothing { result ≡ false → board.new ≡ board.old }
    ensures tables { tables board.new.shown ≡ tables board.old.shown }
    ensures graph { board.new.shown.graph ≡ board.old.shown.graph }
    ensures passed { board.old.passed ≤ board.new.passed }
    ensures called { KeepsCalled board.old board.new }
{
    let mut merged = false;
    let mut place = 0;
    for _looks in 0..MOST {
        let Some(next) = board.next_alike(worker, place) else {
            return merged;
        };
        if !board.is_worth_merging(worker, next) {
            place = next.saturating_add(1);
            continue;
        }
        if !board.merge(worker, next) {
            return merged;
        }
        merged = true;
        place = next;
    }
    merged
}
