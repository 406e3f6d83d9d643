//! Feeding, sealing and closing: calls on a board that runs, of which no worker holds an event, are refused for lack of memory alone.

ghost use Rattle.std.specs.Prelude.{◌≡◌, ◌<◌, ◌≤◌, ℕ, length, OnOk};
ghost use Rattle.semantics.specs.Graph.{input_count};
ghost use Rattle.graph.specs.Shown.{shown_graph};
ghost use Rattle.rows.specs.FlatRows.{arity_of, joined};
ghost use Rattle.semantics.specs.PortArity.{HaveFields};
ghost use Rattle.board.specs.Fitting.{arity_in};
ghost use Rattle.driver.specs.Tallies.{Rows, StaysTally};
ghost use Rattle.alone.specs.Scenes.{Closes, Feeds, FeedsAll, IsReady, Seals, SealsOne, open_at};

use board::{Board, StepRefusal};
use record_core::NoMemory;
use rows::Batch;
use std::alloc::Global;
use views::Views;

/// The lack of memory for which a call is refused.
fn no_memory(refusal: StepRefusal) -> NoMemory
    requires { refusal ≡ StepRefusal.NoMemory }
{
    match refusal {
        StepRefusal::NoMemory => NoMemory,
        StepRefusal::Stopped
        | StepRefusal::UnknownInput
        | StepRefusal::InputClosed
        | StepRefusal::WrongFieldCount
        | StepRefusal::LastEpoch
        | StepRefusal::HoldsEvent
        | StepRefusal::NoSuchEvent => unreachable!(),
    }
}

/// Feeds a batch to an input.
#[inline(always)]
pub fn feed<V: Views>(
    alloc: Global,
    board: &mut Board<V>,
    input: u32,
    batch: Batch,
) -> Result<(), NoMemory>
    requires ready { IsReady board.old.shown }
    requires there { input < length board.old.shown.inputs }
    requires fits { arity_of batch ≡ arity_in board.old.shown.graph input }
    ensures feeds { OnOk result (Feeds board.old.shown board.new.shown input batch) }
    ensures rises { OnOk result (board.old.passed ≤ board.new.passed) }
    ensures counts { OnOk result ((rows : Rows) → StaysTally board.old.shown rows board.new.shown rows) }
{
    board.law_run();
    match board.feed(alloc, input, batch) {
        Ok(()) => Ok(()),
        Err(refusal) => Err(no_memory(refusal)),
    }
}

/// Feeds batches to an input, in order.
pub fn feed_all<V: Views>(
    alloc: Global,
    board: &mut Board<V>,
    input: u32,
    batches: &[Batch],
) -> Result<(), NoMemory>
    requires ready { IsReady board.old.shown }
    requires there { input < length board.old.shown.inputs }
    requires fits { HaveFields (arity_in board.old.shown.graph input) (joined batches.now) }
    ensures feeds { OnOk result (FeedsAll board.old.shown board.new.shown input (joined batches.now)) }
    ensures rises { OnOk result (board.old.passed ≤ board.new.passed) }
    ensures counts { OnOk result ((rows : Rows) → StaysTally board.old.shown rows board.new.shown rows) }
{
    board.law_run();
    board.law_inputs();
    for batch in batches {
        let _some = batch.arity();
        board.law_inputs();
        feed(alloc, board, input, batch.share()?)?;
    }
    Ok(())
}

/// Seals an input.
#[inline(always)]
fn seal<V: Views>(board: &mut Board<V>, input: u32) -> Result<(), NoMemory>
    requires ready { IsReady board.old.shown }
    requires there { input < length board.old.shown.inputs }
    requires below { open_at board.old.shown input < 4294967295 }
    ensures seals { OnOk result (SealsOne board.old.shown board.new.shown input) }
    ensures rises { OnOk result (board.old.passed ≤ board.new.passed) }
    ensures counts { OnOk result ((rows : Rows) → StaysTally board.old.shown rows board.new.shown rows) }
{
    board.law_run();
    match board.seal(input) {
        Ok(()) => Ok(()),
        Err(refusal) => Err(no_memory(refusal)),
    }
}

/// Seals the first `inputs` inputs.
pub fn seal_inputs<V: Views>(board: &mut Board<V>, inputs: u32) -> Result<(), NoMemory>
    requires ready { IsReady board.old.shown }
    requires there { inputs ≤ length board.old.shown.inputs }
    requires below { (i : ℕ) → i < inputs → open_at board.old.shown i < 4294967295 }
    ensures seals { OnOk result (Seals board.old.shown board.new.shown inputs) }
    ensures rises { OnOk result (board.old.passed ≤ board.new.passed) }
    ensures counts { OnOk result ((rows : Rows) → StaysTally board.old.shown rows board.new.shown rows) }
{
    board.law_run();
    board.law_inputs();
    for input in 0..inputs {
        board.law_inputs();
        seal(board, input)?;
    }
    Ok(())
}

/// Closes every input.
pub fn close_inputs<V: Views>(board: &mut Board<V>)
    requires ready { IsReady board.old.shown }
    ensures closes { Closes board.old.shown board.new.shown (input_count (shown_graph board.old.shown.graph)) }
    ensures rises { board.old.passed ≤ board.new.passed }
    ensures counts { (rows : Rows) → StaysTally board.old.shown rows board.new.shown rows }
{
    board.law_run();
    for input in 0..board.graph().input_count() as u32 {
        board.law_inputs();
        match board.close(input) {
            Ok(()) => {}
            Err(_) => unreachable!(),
        }
    }
}
