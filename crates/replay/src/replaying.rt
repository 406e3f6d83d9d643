//! Runs a schedule.

ghost use Rattle.std.specs.Prelude.{◌≡◌, ◌++◌, ℕ, List, map, length, IfOk, OnOk};
ghost use Rattle.record_core.specs.Inputs.{input_of};
ghost use Rattle.schedule.specs.LineReader.{command_of};
ghost use Rattle.replay.specs.Hands.{HoldsAll, HoldsNone, IsHand};
ghost use Rattle.replay.specs.Replays.{Replays};
ghost use Rattle.driver.specs.Inputs.{AreInputsOf};
ghost use Rattle.replay.specs.Steps.{Answers, IsStep, Leads, ShowsState, setting_of};
ghost use Rattle.replay.specs.Waits.{State};

use crate::answer::{push_answer, push_refusal};
use crate::hand::{abandon_hand, empty_hand};
use crate::input_lines::{close, feed, seal};
use crate::refusal::Refusal;
use crate::worker_lines::{apply, commit, deliver, take};
use board::Board;
use events::Done;
use record_core::DeclaredInput;
use schedule::Line;
use std::alloc::{AllocError, Global};
use views::Views;

/// Does what a line says that isn't a question.
fn step<V: Views>(
    alloc: Global,
    board: &mut Board<V>,
    hand: &mut [Option<Done>],
    inputs: &[DeclaredInput],
    line: &Line<'_>,
) -> Result<(), Refusal>
    requires inputs { AreInputsOf board.old.shown.graph (map input_of inputs.now) }
    requires hand { IsHand board.old.shown hand.old }
    requires step { IsStep (command_of line.now) }
    ensures hand { IsHand board.new.shown hand.new }
    ensures answers { Answers V.late board.old board.new hand.old hand.new (command_of line.now) result }
{
    match line {
        Line::Feed { input, fields } => feed(alloc, board, inputs, input, fields.as_slice()),
        Line::Seal { input } => seal(board, inputs, input),
        Line::Close { input } => close(board, inputs, input),
        Line::Take { worker, choice } => take(alloc, board, hand, *worker, *choice),
        Line::Commit { worker } => commit(board, hand, *worker),
        Line::Deliver { worker, choice } => deliver(alloc, board, *worker, *choice),
        Line::Print { .. } => Ok(()),
        Line::Apply { worker, sender } => apply(board, *worker, *sender),
    }
}

/// Does what a line says, and appends what it prints.
fn replay_line<V: Views>(
    alloc: Global,
    board: &mut Board<V>,
    hand: &mut [Option<Done>],
    inputs: &[DeclaredInput],
    line: &Line<'_>,
    out: &mut Vec<u8>,
) -> Result<(), AllocError>
    requires inputs { AreInputsOf board.old.shown.graph (map input_of inputs.now) }
    requires hand { IsHand board.old.shown hand.old }
    ensures hand { IsHand board.new.shown hand.new }
    ensures graph { board.new.shown.graph ≡ board.old.shown.graph }
    ensures line { OnOk result ((text : List ℕ) × (out.new.items ≡ out.old.items ++ text) ×
        Leads V.late board.old board.new hand.old hand.new (command_of line.now) text) }
{
    if let Line::Print { epoch } = line {
        push_answer(alloc, board, *epoch, out)?;
        return Ok(());
    }
    match step(alloc, board, hand, inputs, line) {
        Ok(()) => Ok(()),
        Err(Refusal::Step { code }) => push_refusal(out, code),
        Err(Refusal::NoMemory) => Err(AllocError),
    }
}

/// Does what the lines say, one after another, and gives the text of what they print.
fn replay_lines<V: Views>(
    alloc: Global,
    board: &mut Board<V>,
    hand: &mut [Option<Done>],
    inputs: &[DeclaredInput],
    lines: &[Line<'_>],
) -> Result<Vec<u8>, AllocError>
    requires inputs { AreInputsOf board.old.shown.graph (map input_of inputs.now) }
    requires hand { IsHand board.old.shown hand.old }
    ensures hand { IsHand board.new.shown hand.new }
    ensures replays { IfOk result (λ text. (x : State) → ShowsState board.old x → HoldsAll x.world (length board.old.shown.sides) hand.old →
        (y : State) × Replays (setting_of V.late board.old.shown) x (map command_of lines.now) y text.items) }
{
    let mut out = Vec::new(alloc);
    for line in lines {
        replay_line(alloc, board, hand, inputs, line, &mut out)?;
    }
    Ok(out)
}

/// Runs a schedule on a board whose workers hold nothing: does its lines one after another in the caller's thread. Events that are still in hand at
/// the end are abandoned.
///
/// The answer is the text of what the lines print. A step that the board refuses prints its code and changes nothing, and the schedule goes on. If a
/// count would be too large, the event that was taken is abandoned, which stops the board; the line prints 39, and the schedule goes on too. Running
/// out of memory ends it.
pub fn replay<V: Views>(
    alloc: Global,
    board: Board<V>,
    inputs: &[DeclaredInput],
    lines: &[Line<'_>],
) -> Result<Vec<u8>, AllocError>
    requires inputs { AreInputsOf board.shown.graph (map input_of inputs.now) }
    ensures { IfOk result (λ text. (x : State) → ShowsState board x → HoldsNone x.world (length board.shown.sides) →
        (y : State) × Replays (setting_of V.late board.shown) x (map command_of lines.now) y text.items) }
{
    let mut board = board;
    let mut hand = empty_hand(alloc, board.workers())?;
    let answer = replay_lines(alloc, &mut board, hand.as_mut_slice(), inputs, lines);
    abandon_hand(&mut board, hand);
    answer
}
