//! Replaces the board between epochs, so that memory holds some epochs and not all.

ghost use Rattle.std.specs.Prelude.{◌≡◌, ◌≤◌, ◌+◌, IfOk, OnOk};
ghost use Rattle.machine.specs.World.{opening};
ghost use Rattle.board.specs.Promises.{IsOpening};
ghost use Rattle.board.specs.Showing.{Shows};
ghost use Rattle.collector.specs.Lines.{max_epochs};
ghost use Rattle.follow.specs.Steps.{Renews};

use crate::numbering::FirstEpoch;
use crate::outcome::Halt;
use crate::position::Position;
use crate::worker_count::WorkerCount;
use board::Board;
use graph::Graph;
use progress::LocationTracker;
use std::alloc::Global;
use std::sync::Arc;
use views::Direct;

/// The number of lines that a board takes, before the epoch that is open then is finished on it.
pub const LINES: u64 = 16_384;

/// What each board is made of, and what the first epoch is called.
#[derive(Drop)]
pub struct Plan {
    pub graph: Arc<Graph, Global>,
    pub workers: WorkerCount,
    pub first: FirstEpoch,
}

impl Plan {
    /// A new board, whose workers all see one tracker, so that no view is late.
    pub fn new_board(&self, alloc: Global) -> Result<Board<Direct<LocationTracker>>, Halt>
        ensures opening { IfOk result (λ b. IsOpening self.now.graph.value self.now.workers.count b.shown) }
        ensures shows { IfOk result (λ b. Shows b.shown opening) }
    {
        let shared = Arc::try_clone(&self.graph)?;
        let board = Board::<Direct<LocationTracker>>::new(alloc, shared, self.workers.count())?;
        Ok(board)
    }
}

/// Replaces a board on which all epochs but the last are complete, and nothing was written of the last. Otherwise the board stays.
pub fn renew(
    alloc: Global,
    plan: &Plan,
    board: &mut Board<Direct<LocationTracker>>,
    position: &mut Position,
) -> Result<(), Halt>
    requires few { position.old.base + position.old.intake.begun ≤ max_epochs }
    ensures renews { OnOk result (Renews plan.now.first.number plan.now.graph.value board.old.shown board.new.shown position.old position.new) }
    ensures pending { position.new.pending ≡ position.old.pending }
    ensures line { position.new.intake.line ≡ position.old.intake.line }
{
    position.until = position.intake.line.saturating_add(LINES);
    let Some(last) = position.intake.begun.checked_sub(1) else {
        return Ok(());
    };
    if position.reporting.done != last || !position.reporting.is_between_epochs() {
        return Ok(());
    }
    *board = plan.new_board(alloc)?;
    position.base += last;
    position.intake.begun = 1;
    position.reporting.done = 0;
    Ok(())
}
