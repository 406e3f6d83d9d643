//! Reports what was emitted: the lines of records, and of epochs that are complete.

ghost use Rattle.std.specs.Prelude.{◌≡◌, ◌<◌, ◌≤◌, ℕ, ◌+◌, IfOk, IsTrue, OnOk, length, map};
ghost use Rattle.board.specs.Lateness.{IsUpToDate};
ghost use Rattle.board.specs.Promises.{HasPassed, HasPassedAtAll, IsOutputPlace};
ghost use Rattle.collector.specs.Lines.{max_epochs};
ghost use Rattle.collector.specs.OutputText.{is_plain, label_of};
ghost use Rattle.graph.specs.Views.{name_of_output};
ghost use Rattle.follow.specs.Scenes.{HasRoom, IsWithin, batches_of, reported_count};
ghost use Rattle.follow.specs.Steps.{Completes, IsFresh, MayReport, Reports, ReportsOpen, ReportsOutput};

use crate::batches::push_batches;
use crate::line_texts::push_complete;
use crate::numbering::Numbering;
use crate::outcome::Halt;
use board::Board;
use graph::GraphOutput;
use record_core::Name;
use std::alloc::Global;
use views::Views;

/// How far the answer is reported: the number of the board's epochs that are complete, and for each output the number of batches of the next
/// epoch that were written.
#[derive(Drop)]
pub struct Reporting {
    pub done: u32,
    pub reported: Vec<usize>,
}

impl Reporting {
    /// Nothing written yet, for that many outputs.
    pub fn new(alloc: Global, outputs: u32) -> Result<Reporting, Halt>
        ensures fresh { IfOk result IsFresh }
        ensures room { IfOk result (λ t. length t.reported.items ≡ outputs) }
    {
        let mut reported = Vec::with_capacity(alloc, outputs as usize)?;
        for _output in 0..outputs {
            reported.push(0)?;
        }
        Ok(Reporting { done: 0, reported })
    }

    /// Whether the report is between two epochs: nothing was written of the first one that isn't complete.
    pub fn is_between_epochs(&self) -> bool
        ensures { IsTrue result → (k : ℕ) → reported_count self.now k ≡ 0 }
    {
        for place in 0..self.reported.len() {
            if self.reported[place] != 0 {
                return false;
            }
        }
        true
    }

    /// Counts the epoch as complete; nothing was written of the next one.
    fn complete(&mut self)
        requires { self.old.done < 4294967295 }
        ensures { Completes self.old self.new }
    {
        let done = self.done + 1;
        for place in 0..self.reported.len() {
            self.reported[place] = 0;
        }
        self.done = done;
    }
}

/// Whether the only output is named `out`.
fn are_plain(outputs: &[GraphOutput]) -> bool
    ensures { result ≡ is_plain (map name_of_output outputs.now) }
{
    match outputs {
        [only] => only.name.bytes() == b"out".as_slice(),
        _ => false,
    }
}

/// Whether an epoch has passed at every output.
fn has_passed<V: Views>(board: &Board<V>, epoch: u32) -> bool
    ensures passed { IsTrue result → (k : ℕ) → IsOutputPlace board.now.shown k → HasPassed board.now.shown k epoch }
    ensures seen { IsUpToDate board.now 0 → HasPassedAtAll board.now.shown epoch → IsTrue result }
{
    for output in 0..board.output_count() {
        if !board.passed(output, epoch) {
            return false;
        }
    }
    true
}

/// Appends the lines of what was emitted at an output for the first incomplete epoch and wasn't written yet.
fn report_output<V: Views>(
    board: &Board<V>,
    numbering: Numbering,
    reporting: &mut Reporting,
    output: u32,
    plain: bool,
    name: &Name,
    out: &mut Vec<u8>,
) -> Result<(), Halt>
    requires there { IsOutputPlace board.now.shown output }
    requires room { HasRoom board.now.shown reporting.old }
    requires within { reported_count reporting.old output ≤ length (batches_of board.now.shown output reporting.old.done) }
    requires few { numbering.base + reporting.old.done ≤ max_epochs }
    ensures { OnOk result (ReportsOutput numbering.first.number board.now.shown numbering.base reporting.old reporting.new output (label_of plain name.now) out.old.items out.new.items) }
{
    let place = output as usize;
    let batches = board.emitted(output, reporting.done);
    let reported = reporting.reported[place];
    let epoch = numbering.number(reporting.done);
    push_batches(out, epoch, plain, name, &batches[reported..])?;
    reporting.reported[place] = batches.len();
    Ok(())
}

/// Appends the lines of what was emitted at each output for the first incomplete epoch and wasn't written yet.
fn report_open<V: Views>(
    board: &Board<V>,
    numbering: Numbering,
    reporting: &mut Reporting,
    out: &mut Vec<u8>,
) -> Result<(), Halt>
    requires room { HasRoom board.now.shown reporting.old }
    requires within { IsWithin board.now.shown reporting.old }
    requires few { numbering.base + reporting.old.done ≤ max_epochs }
    ensures { OnOk result (ReportsOpen numbering.first.number board.now.shown numbering.base reporting.old reporting.new out.old.items out.new.items) }
{
    let outputs = board.graph().outputs();
    let plain = are_plain(outputs);
    for output in 0..board.output_count() {
        let name = &outputs[output as usize].name;
        report_output(board, numbering, reporting, output, plain, name, out)?;
    }
    Ok(())
}

/// Appends what can be written: the board's epochs in order, up to the first that isn't complete. An epoch below `sealed` is complete once it has
/// passed.
pub fn report<V: Views>(
    board: &Board<V>,
    numbering: Numbering,
    reporting: &mut Reporting,
    begun: u32,
    sealed: u32,
    out: &mut Vec<u8>,
) -> Result<(), Halt>
    requires may { MayReport numbering.first.number board.now.shown numbering.base reporting.old begun sealed }
    requires few { numbering.base + begun ≤ max_epochs }
    ensures reports { OnOk result (Reports numbering.first.number board.now.shown numbering.base reporting.old reporting.new begun sealed out.old.items out.new.items) }
    ensures all { OnOk result (IsUpToDate board.now 0 → ((epoch : ℕ) → HasPassedAtAll board.now.shown epoch) → sealed ≡ begun →
        reporting.old.done ≤ begun → reporting.new.done ≡ begun) }
{
    board.law_headline();
    for epoch in reporting.done..begun {
        report_open(board, numbering, reporting, out)?;
        if epoch >= sealed {
            return Ok(());
        }
        if !has_passed(board, epoch) {
            return Ok(());
        }
        push_complete(out, numbering.number(epoch))?;
        reporting.complete();
    }
    Ok(())
}
