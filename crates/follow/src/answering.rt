//! Computes and writes out the answer to the lines that were taken.

ghost use Rattle.std.specs.Prelude.{◌≡◌, ◌≤◌, ◌+◌, ◌-◌, false, IfOk, OnOk};
ghost use Rattle.collector.specs.Lines.{max_epochs};
ghost use Rattle.follow.specs.Working.{IsWorkedOff};
ghost use Rattle.follow.specs.Steps.{AnswersLast, AnswersOpen, MayAnswer};

use crate::intake::{Intake, feed_portion};
use crate::numbering::Numbering;
use crate::outcome::Halt;
use crate::reporting::{Reporting, report};
use crate::rounds::work_off;
use alone::close_inputs;
use board::{Board, HEAVY};
use std::alloc::Global;
use std::thread::Threads;
use views::Views;

/// Feeds all that waits, works until there is nothing to do, and gives the text to write then. `records` is the number of lines per epoch since the
/// last call.
pub fn answer_open<V: Views, R: Threads + Sync>(
    rt: &R,
    alloc: Global,
    records: u64,
    board: &mut Board<V>,
    numbering: Numbering,
    intake: &mut Intake,
    reporting: &mut Reporting,
) -> Result<Vec<u8>, Halt>
    requires may { MayAnswer numbering.first.number board.old.shown numbering.base intake.old reporting.old (intake.old.begun - 1) }
    requires few { numbering.base + intake.old.begun ≤ max_epochs }
    ensures answers { IfOk result (λ out. AnswersOpen numbering.first.number numbering.base board.old.shown board.new.shown intake.old intake.new reporting.old reporting.new out.items) }
    ensures rests { OnOk result (IsWorkedOff board.new.shown) }
    ensures line { OnOk result (intake.new.line ≡ intake.old.line) }
{
    feed_portion(alloc, board, intake)?;
    work_off(rt, alloc, records, board)?;
    let mut out = Vec::new(alloc);
    let sealed = intake.begun.saturating_sub(1);
    report(board, numbering, reporting, intake.begun, sealed, &mut out)?;
    Ok(out)
}

/// As `answer_open`, at the end of the input: closes every input, so every epoch passes.
pub fn answer_last<V: Views, R: Threads + Sync>(
    rt: &R,
    alloc: Global,
    board: &mut Board<V>,
    numbering: Numbering,
    intake: &mut Intake,
    reporting: &mut Reporting,
) -> Result<Vec<u8>, Halt>
    requires prompt { V.late ≡ false }
    requires may { MayAnswer numbering.first.number board.old.shown numbering.base intake.old reporting.old intake.old.begun }
    requires few { numbering.base + intake.old.begun ≤ max_epochs }
    ensures { IfOk result (λ out. AnswersLast numbering.first.number numbering.base board.old.shown board.new.shown intake.old reporting.old reporting.new out.items) }
{
    feed_portion(alloc, board, intake)?;
    close_inputs(board);
    work_off(rt, alloc, HEAVY, board)?;
    board.law_prompt();
    let mut out = Vec::new(alloc);
    report(
        board,
        numbering,
        reporting,
        intake.begun,
        intake.begun,
        &mut out,
    )?;
    Ok(out)
}
