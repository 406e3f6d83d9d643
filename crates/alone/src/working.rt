//! The loop of one thread over a board.

ghost use Rattle.std.specs.Prelude.{◌≡◌, ◌≤◌, ◌+◌, length, true, false};
ghost use Rattle.events.specs.Outputs.{counted};
ghost use Rattle.driver.specs.Tallies.{StaysTally};
ghost use Rattle.alone.specs.Parts.{DoesOne, IfOff, IfPartly, StaysFreeThen};
ghost use Rattle.driver.specs.Received.{received_of};
ghost use Rattle.alone.specs.Moves.{Moves};
ghost use Rattle.alone.specs.Rests.{HasPassedOver, HasStopped, IsAtRest, IsDone, IsFree, StaysFree};
ghost use Rattle.board.specs.WorkerShown.{AreClosed};
ghost use Rattle.board.specs.Promises.{IsDrained};

use board::{Board, Claimed};
use driver::{Ended, Tally, claim, process};
use events::Gate;
use std::alloc::Global;
use views::Views;

/// How far a worker came with its events.
#[derive(Clone, Copy)]
pub enum Worked {
    /// It did as many as it was to do, and may have more.
    Partly,
    /// It has no more to do now, or can't go on: the answer of `work_off`.
    Off(Option<Ended>),
}

/// Claims and processes one event of the worker.
#[inline(always)]
fn work_once<V: Views, G: Gate>(
    alloc: Global,
    board: &mut Board<V>,
    gate: &G,
    worker: u32,
    turn: &mut u64,
    tally: &mut Tally,
) -> Worked
    ensures passed { IfOff result (λ end. IsDone end → length board.new.shown.sides ≡ 1 → HasPassedOver board.new.shown) }
    ensures rests { IfOff result (λ end. IsDone end → length board.new.shown.sides ≡ 1 → IsAtRest board.new.shown) }
    ensures runs { IfOff result (λ end. IsDone end → board.new.shown.stopped ≡ false) }
    ensures drained { IfOff result (λ end. IsDone end → length board.new.shown.sides ≡ 1 → AreClosed board.new.shown → IsDrained board.new.shown) }
    ensures moves { Moves board.old.shown board.new.shown }
    ensures stopped { IfOff result (λ end. HasStopped end → board.new.shown.stopped ≡ true) }
    ensures graph { board.new.shown.graph ≡ board.old.shown.graph }
    ensures free { IsFree board.old.shown worker → StaysFreeThen board.new.shown worker result }
    ensures rises { board.old.passed ≤ board.new.passed }
    ensures counts { StaysTally board.old.shown tally.old board.new.shown tally.new }
    ensures received { received_of tally.old ≤ received_of tally.new }
    ensures turn { IfPartly result (turn.new ≡ counted (turn.old + 1)) }
    ensures event { IfPartly result (DoesOne board.old.shown worker board.new.shown) }
{
    board.law_run();
    match claim(board, worker) {
        Claimed::Work(work) => match process(alloc, board, gate, *turn, work) {
            Ok(sent) => {
                tally.count(sent);
                *turn = turn.saturating_add(1);
                Worked::Partly
            }
            Err(fault) => Worked::Off(Some(Ended::from(fault))),
        },
        Claimed::Idle => {
            board.law_inputs();
            Worked::Off(None)
        }
        Claimed::Drained => Worked::Off(Some(Ended::Drained)),
        Claimed::Stopped => Worked::Off(Some(Ended::Stopped)),
        Claimed::Busy => Worked::Off(Some(Ended::Busy)),
    }
}

/// Claims and processes events of the worker until it has nothing to do now, which is None, or can't go on. `turn` goes on counting the events, and the
/// tally counts those that are committed.
pub fn work_off<V: Views, G: Gate>(
    alloc: Global,
    board: &mut Board<V>,
    gate: &G,
    worker: u32,
    turn: &mut u64,
    tally: &mut Tally,
) -> Option<Ended>
    ensures passed { IsDone result → length board.new.shown.sides ≡ 1 → HasPassedOver board.new.shown }
    ensures rests { IsDone result → length board.new.shown.sides ≡ 1 → IsAtRest board.new.shown }
    ensures runs { IsDone result → board.new.shown.stopped ≡ false }
    ensures drained { IsDone result → length board.new.shown.sides ≡ 1 → AreClosed board.new.shown → IsDrained board.new.shown }
    ensures moves { Moves board.old.shown board.new.shown }
    ensures graph { board.new.shown.graph ≡ board.old.shown.graph }
    ensures stopped { HasStopped result → board.new.shown.stopped ≡ true }
    ensures free { IsFree board.old.shown worker → StaysFree board.new.shown worker result }
    ensures rises { board.old.passed ≤ board.new.passed }
    ensures counts { StaysTally board.old.shown tally.old board.new.shown tally.new }
    ensures received { received_of tally.old ≤ received_of tally.new }
{
    'events: loop {
        board.law_run();
        match work_once(alloc, board, gate, worker, turn, tally) {
            Worked::Partly => {}
            Worked::Off(end) => return end,
        }
    }
}

/// As `work_off`, but does at most so many events.
pub fn work_some<V: Views, G: Gate>(
    alloc: Global,
    board: &mut Board<V>,
    gate: &G,
    worker: u32,
    turn: &mut u64,
    tally: &mut Tally,
    most: u32,
) -> Worked
    ensures passed { IfOff result (λ end. IsDone end → length board.new.shown.sides ≡ 1 → HasPassedOver board.new.shown) }
    ensures rests { IfOff result (λ end. IsDone end → length board.new.shown.sides ≡ 1 → IsAtRest board.new.shown) }
    ensures runs { IfOff result (λ end. IsDone end → board.new.shown.stopped ≡ false) }
    ensures drained { IfOff result (λ end. IsDone end → length board.new.shown.sides ≡ 1 → AreClosed board.new.shown → IsDrained board.new.shown) }
    ensures moves { Moves board.old.shown board.new.shown }
    ensures graph { board.new.shown.graph ≡ board.old.shown.graph }
    ensures stopped { IfOff result (λ end. HasStopped end → board.new.shown.stopped ≡ true) }
    ensures free { IsFree board.old.shown worker → StaysFreeThen board.new.shown worker result }
    ensures rises { board.old.passed ≤ board.new.passed }
    ensures counts { StaysTally board.old.shown tally.old board.new.shown tally.new }
    ensures received { received_of tally.old ≤ received_of tally.new }
    ensures most { IfPartly result (counted turn.new ≡ counted (turn.old + most)) }
{
    'events: for _event in 0..most {
        match work_once(alloc, board, gate, worker, turn, tally) {
            Worked::Partly => {}
            Worked::Off(end) => return Worked::Off(end),
        }
    }
    Worked::Partly
}
