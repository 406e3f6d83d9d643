//! Claims.

ghost use Rattle.std.specs.Prelude.{◌≡◌, ◌≤◌};
ghost use Rattle.board.specs.Answers.{Claims, Gathers, IfNothing};
ghost use Rattle.board.specs.Lateness.{IsUpToDate};
ghost use Rattle.board.specs.Shown.{Shown, tables};

use board::{Board, Claimed, Views, gather};

/// Hands out an event to the worker, if it has one. Its messages that are alike are merged before, so that many small messages are one event.
#[inline(always)]
pub fn claim<V: Views>(board: &mut Board<V>, worker: u32) -> Claimed
    ensures claims { (s : Shown) × Gathers board.old.shown worker s × Claims s board.new.shown worker result }
    ensures graph { board.new.shown.graph ≡ board.old.shown.graph }
    ensures tables { tables board.new.shown ≡ tables board.old.shown }
    ensures idle { IfNothing result (IsUpToDate board.new worker) }
    ensures passed { board.old.passed ≤ board.new.passed }
{
    let _merged = gather(board, worker);
    board.claim(worker)
}
