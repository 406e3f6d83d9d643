//! What a run begins and ends with.

ghost use Rattle.std.specs.Prelude.{◌≡◌, IfOk};
ghost use Rattle.driver.specs.Tallies.{IsTally};

use board::Board;
use driver::Tally;
use record_core::NoMemory;
use std::alloc::Global;
use views::Views;
use workers::Report;

/// A new board, and the counters of what each vertex does in its run.
#[derive(Drop)]
pub struct Start<V: Views> {
    pub board: Board<V>,
    pub tally: Tally,
}

impl<V: Views> Start<V> {
    /// A run on the board. The counters are 0, or there are none if it isn't counted.
    pub fn new(alloc: Global, board: Board<V>, counting: bool) -> Result<Start<V>, NoMemory>
        ensures board { IfOk result (λ start. start.board ≡ board) }
        ensures begins { IfOk result (λ start. IsTally start.board.shown start.board.shown start.tally) }
    {
        if counting {
            let tally = Tally::of(alloc, &board)?;
            return Ok(Start { board, tally });
        }
        let tally = Tally::none(alloc);
        Ok(Start { board, tally })
    }
}

/// What a run has done, and its counters.
#[derive(Drop)]
pub struct Finish<V: Views> {
    pub report: Report<V>,
    pub tally: Tally,
}
