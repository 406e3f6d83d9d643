//! A run of one worker in the caller's thread: with no lock and no waiting. It returns, and fails for lack of memory or for a count alone.

ghost use Rattle.std.specs.Prelude.{◌≡◌, ◌≤◌, ◌<◌, ◌+◌, ℕ, length, false, IfOk, OnOk};
ghost use Rattle.semantics.specs.Graph.{input_count};
ghost use Rattle.graph.specs.Shown.{shown_graph};
ghost use Rattle.board.specs.Promises.{CountsPassed, IsDrained, IsOpening};
ghost use Rattle.board.specs.WorkerShown.{AreClosed};
ghost use Rattle.driver.specs.Tallies.{IsTally, Rows, StaysTally};
ghost use Rattle.driver.specs.Received.{received_of};
ghost use Rattle.collector.specs.ReadEpochs.{epoch_count};
ghost use Rattle.alone.specs.Moves.{Moves};
ghost use Rattle.alone.specs.Rests.{IsDone, IsFree, StaysFree};
ghost use Rattle.alone.specs.Scenes.{Grows};
ghost use Rattle.execution.specs.Fed.{HoldsFed};
ghost use Rattle.execution.specs.Single.{Fit, IsFeeding};
ghost use Rattle.execution.specs.Told.{Tells, untold};

use crate::start::{Finish, Start};
use crate::task::Task;
use crate::watching::Watch;
use alone::{Worked, close_inputs, feed_all, seal_inputs, work_off, work_some};
use board::Board;
use driver::{Tally, received};
use record_core::NoMemory;
use rows::WorkFault;
use std::alloc::Global;
use std::io::Write;
use views::Views;
use workers::{Ended, Gate, report_of};

/// The events between two looks at the counters.
const EVENTS_AT_ONCE: u32 = 64;

/// Feeds an epoch at each input, and seals it there.
#[inline(always)]
fn feed_epoch<V: Views>(
    alloc: Global,
    board: &mut Board<V>,
    task: Task<'_>,
    epoch: u32,
) -> Result<(), NoMemory>
    requires inputs { task.inputs ≤ input_count (shown_graph board.old.shown.graph) }
    requires fit { Fit task.epochs.now board.old.shown.graph }
    requires few { epoch < 4294967295 }
    requires fed { IsFeeding board.old.shown task.inputs task.epochs.now epoch 0 }
    ensures fed { OnOk result (IsFeeding board.new.shown task.entry.inputs task.entry.epochs.now (epoch + 1) 0) }
    ensures grows { OnOk result (Grows board.old.shown board.new.shown) }
    ensures rises { OnOk result (board.old.passed ≤ board.new.passed) }
    ensures counts { OnOk result ((rows : Rows) → StaysTally board.old.shown rows board.new.shown rows) }
{
    board.law_run();
    for input in 0..task.inputs {
        board.law_inputs();
        feed_all(alloc, board, input, task.epochs.batches(input, epoch))?;
    }
    board.law_inputs();
    seal_inputs(board, task.inputs)
}

/// As `work_off`, and tells a watcher meanwhile how many records were received.
#[inline(always)]
#[tactic(auto, using(crate::proofs::Tellings::tells_nothing))]
fn work_and_tell<V: Views, G: Gate, W: Write>(
    alloc: Global,
    board: &mut Board<V>,
    gate: &G,
    turn: &mut u64,
    tally: &mut Tally,
    watch: &mut Watch<W>,
) -> Option<Ended>
    requires received { watch.old.told.received ≤ received_of tally.old }
    ensures moves { Moves board.old.shown board.new.shown }
    ensures free { IsFree board.old.shown 0 → StaysFree board.new.shown 0 result }
    ensures runs { IsDone result → board.new.shown.stopped ≡ false }
    ensures drained { IsDone result → length board.new.shown.sides ≡ 1 → AreClosed board.new.shown → IsDrained board.new.shown }
    ensures rises { board.old.passed ≤ board.new.passed }
    ensures counts { StaysTally board.old.shown tally.old board.new.shown tally.new }
    ensures received { watch.new.told.received ≤ received_of tally.new }
    ensures passed { watch.new.told.passed ≡ watch.old.told.passed }
    ensures tells { Tells W.contents watch.old.watcher watch.new.watcher watch.old.told watch.new.told }
{
    let looks = if watch.is_on() { u32::MAX } else { 0 };
    'looks: for _look in 0..looks {
        match work_some(alloc, board, gate, 0, turn, tally, EVENTS_AT_ONCE) {
            Worked::Partly => watch.tell_received(received(tally)),
            Worked::Off(end) => return end,
        }
    }
    work_off(alloc, board, gate, 0, turn, tally)
}

/// Works until there is nothing to do now, and tells a watcher how many epochs have passed then.
#[inline(always)]
#[tactic(auto, using(crate::proofs::Tellings::tells_nothing))]
fn work_now<V: Views, G: Gate, W: Write>(
    alloc: Global,
    board: &mut Board<V>,
    gate: &G,
    turn: &mut u64,
    tally: &mut Tally,
    watch: &mut Watch<W>,
) -> Result<(), WorkFault>
    requires told { watch.old.told.passed ≤ board.old.passed }
    requires received { watch.old.told.received ≤ received_of tally.old }
    requires free { IsFree board.old.shown 0 }
    ensures moves { OnOk result (Moves board.old.shown board.new.shown) }
    ensures free { OnOk result (IsFree board.new.shown 0) }
    ensures runs { OnOk result (board.new.shown.stopped ≡ false) }
    ensures drained { OnOk result (length board.new.shown.sides ≡ 1 → AreClosed board.new.shown → IsDrained board.new.shown) }
    ensures counts { OnOk result (StaysTally board.old.shown tally.old board.new.shown tally.new) }
    ensures told { OnOk result (watch.new.told.passed ≤ board.new.passed) }
    ensures most { OnOk result ((n : ℕ) → CountsPassed board.new.shown n → watch.new.told.passed ≤ n) }
    ensures received { watch.new.told.received ≤ received_of tally.new }
    ensures tells { Tells W.contents watch.old.watcher watch.new.watcher watch.old.told watch.new.told }
{
    match work_and_tell(alloc, board, gate, turn, tally, watch) {
        None | Some(Ended::Drained) => {}
        Some(Ended::Stopped) => return Err(WorkFault::NoMemory),
        Some(Ended::Count) => return Err(WorkFault::Count),
        Some(Ended::Busy) => unreachable!(),
    }
    watch.tell_rise(board.passed_count());
    Ok(())
}

/// Feeds the epochs to a new board of one worker, works off each before it feeds the next, and closes the inputs.
#[tactic(auto, using(crate::proofs::Tellings::tells_nothing))]
fn feed_and_work<V: Views, G: Gate, W: Write>(
    alloc: Global,
    board: &mut Board<V>,
    task: Task<'_>,
    gate: &G,
    tally: &mut Tally,
    watch: &mut Watch<W>,
) -> Result<(), WorkFault>
    requires one { length board.old.shown.sides ≡ 1 }
    requires inputs { task.inputs ≤ input_count (shown_graph board.old.shown.graph) }
    requires fit { Fit task.epochs.now board.old.shown.graph }
    requires fed { IsFeeding board.old.shown task.inputs task.epochs.now 0 0 }
    requires told { watch.old.told.passed ≤ board.old.passed }
    requires received { watch.old.told.received ≤ received_of tally.old }
    ensures graph { OnOk result (board.new.shown.graph ≡ board.old.shown.graph) }
    ensures drained { OnOk result (IsDrained board.new.shown) }
    ensures fed { OnOk result (HoldsFed board.new.shown task.entry.inputs task.entry.epochs.now (epoch_count task.entry.epochs.now)) }
    ensures counts { OnOk result (StaysTally board.old.shown tally.old board.new.shown tally.new) }
    ensures most { OnOk result ((n : ℕ) → CountsPassed board.new.shown n → watch.new.told.passed ≤ n) }
    ensures received { watch.new.told.received ≤ received_of tally.new }
    ensures tells { Tells W.contents watch.old.watcher watch.new.watcher watch.old.told watch.new.told }
{
    let mut turn = 0;
    for epoch in 0..task.epochs.count() {
        feed_epoch(alloc, board, task, epoch)?;
        work_now(alloc, board, gate, &mut turn, tally, watch)?;
    }
    close_inputs(board);
    work_now(alloc, board, gate, &mut turn, tally, watch)?;
    board.law_inputs();
    Ok(())
}

/// Runs a new board of one worker until nothing is left to do.
#[tactic(auto, using(crate::proofs::Tellings::tells_nothing))]
pub fn run_single<V: Views, G: Gate, W: Write>(
    alloc: Global,
    start: Start<V>,
    task: Task<'_>,
    gate: &G,
    watch: &mut Watch<W>,
) -> Result<Finish<V>, WorkFault>
    requires begins { IsTally start.board.shown start.board.shown start.tally }
    requires new { IsOpening start.board.shown.graph 1 start.board.shown }
    requires inputs { task.inputs ≤ input_count (shown_graph start.board.shown.graph) }
    requires fit { Fit task.epochs.now start.board.shown.graph }
    requires untold { watch.old.told ≡ untold }
    ensures graph { IfOk result (λ r. r.report.graph ≡ start.board.shown.graph) }
    ensures drained { IfOk result (λ r. IsDrained r.report) }
    ensures fed { IfOk result (λ r. HoldsFed r.report task.entry.inputs task.entry.epochs.now (epoch_count task.entry.epochs.now)) }
    ensures counts { IfOk result (λ r. IsTally start.board.shown r.report r.tally) }
    ensures most { IfOk result (λ r. (n : ℕ) → CountsPassed r.report n → watch.new.told.passed ≤ n) }
    ensures received { IfOk result (λ r. watch.new.told.received ≤ received_of r.tally) }
    ensures tells { Tells W.contents watch.old.watcher watch.new.watcher watch.old.told watch.new.told }
{
    let Start {
        mut board,
        mut tally,
    } = start;
    feed_and_work(alloc, &mut board, task, gate, &mut tally, watch)?;
    let report = report_of(board);
    Ok(Finish { report, tally })
}
