//! From a schedule's text to the text of its answer.

ghost use Rattle.std.specs.Prelude.{◌≡◌, ◌<◌, ◌≤◌, map, IfOk, IfErr};
ghost use Rattle.graph.specs.Shown.{shown_inputs};
ghost use Rattle.record_core.specs.Inputs.{input_of};
ghost use Rattle.semantics.specs.Limits.{max_workers};
ghost use Rattle.machine.specs.World.{opening};
ghost use Rattle.board.specs.Showing.{Shows};
ghost use Rattle.board.specs.Lateness.{AreUpToDate};
ghost use Rattle.schedule.specs.LineReader.{command_of};
ghost use Rattle.schedule.specs.ScheduleText.{IsRefused};
ghost use Rattle.schedule.specs.declared.refusal.ScheduleRefusal.TheVariants.{NoMemory};
ghost use Rattle.replay.specs.Replays.{Replays};
ghost use Rattle.driver.specs.Inputs.{AreInputsOf};
ghost use Rattle.replay.specs.Steps.{AnswersText, setting_of};
ghost use Rattle.replay.specs.Waits.{State, at_first};

use crate::replaying::replay;
use board::Board;
use driver::law_inputs;
use graph::Graph;
use progress::LocationTracker;
use record_core::DeclaredInput;
use schedule::{Line, ScheduleRefusal, ViewKind, read_schedule};
use std::alloc::Global;
use std::sync::Arc;
use views::{Direct, LocalViews, Views};

/// Does the lines on a new board.
fn replay_new<V: Views>(
    alloc: Global,
    board: Board<V>,
    inputs: &[DeclaredInput],
    lines: &[Line<'_>],
) -> Result<Vec<u8>, ScheduleRefusal>
    requires inputs { AreInputsOf board.shown.graph (map input_of inputs.now) }
    requires shows { Shows board.shown opening }
    requires prompt { AreUpToDate board }
    ensures answers { IfOk result (λ answer. (last : State) × Replays (setting_of V.late board.shown) at_first (map command_of lines.now) last answer.items) }
    ensures refused { IfErr result (λ e. e ≡ NoMemory) }
{
    match replay(alloc, board, inputs, lines) {
        Ok(answer) => Ok(answer),
        Err(_) => Err(ScheduleRefusal::NoMemory),
    }
}

/// Runs a schedule on a new board for the graph and 1 to 64 workers, which share one view or have one each, and gives the text of what it prints. The
/// schedule is read whole first; if it has a faulty line it is refused by the first one, and nothing is done.
pub fn replay_text(
    alloc: Global,
    graph: Graph,
    workers: u32,
    kind: ViewKind,
    text: &[u8],
) -> Result<Vec<u8>, ScheduleRefusal>
    requires some { 0 < workers }
    requires few { workers ≤ max_workers }
    ensures answers { IfOk result (λ answer. AnswersText kind graph workers text.now answer.items) }
    ensures refused { IfErr result (IsRefused kind text.now) }
{
    let lines = match read_schedule(alloc, kind, text) {
        Ok(lines) => lines,
        Err(refusal) => return Err(refusal),
    };
    let graph = Arc::new(alloc, graph)?;
    law_inputs(&graph);
    let shared = Arc::try_clone(&graph)?;
    let inputs = graph.inputs();
    match kind {
        ViewKind::Shared => match Board::<Direct<LocationTracker>>::new(alloc, shared, workers) {
            Ok(board) => replay_new(alloc, board, inputs, lines.as_slice()),
            Err(_) => Err(ScheduleRefusal::NoMemory),
        },
        ViewKind::Local => match Board::<LocalViews>::with_local_views(alloc, shared, workers) {
            Ok(board) => replay_new(alloc, board, inputs, lines.as_slice()),
            Err(_) => Err(ScheduleRefusal::NoMemory),
        },
    }
}
