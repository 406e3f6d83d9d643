//! What was taken of an input text.

ghost use Rattle.std.specs.Prelude.{◌≡◌, ◌++◌, ℕ, List, true, false, IfOk, OnOk};
ghost use Rattle.collector.specs.Piecewise.{HasRead, row_line};
ghost use Rattle.graph.specs.Shown.{shown_inputs};
ghost use Rattle.commands.specs.Taken.{ReadsFor};

use collector::{InputReader, InputRefusal};
use command_line::Workers;
use diagnostics::{Fault, Texts};
use graph::Graph;
use record_core::NoMemory;
use std::alloc::Global;

/// The graph of a query, and what was read of its input text.
#[derive(Drop)]
pub struct Intake {
    pub(crate) graph: Graph,
    pub(crate) workers: Workers,
    pub(crate) reader: InputReader,
    /// How many lines were taken.
    pub(crate) lines: u64,
    ghost taken: { ∥ ReadsFor (shown_inputs graph) reader ∥₁ },
}

/// How many lines a text has that ends with a line feed.
fn line_count(text: &[u8]) -> u64 {
    text.iter().filter(|byte| **byte == b'\n').count() as u64
}

/// Takes more lines. The line of a refusal counts from the first of these; after it no more is taken.
pub(crate) fn take_lines(
    alloc: Global,
    intake: &mut Intake,
    lines: &[u8],
) -> Result<(), InputRefusal>
    ensures graph { intake.new.graph ≡ intake.old.graph }
    ensures taken { (text : List ℕ) → HasRead (shown_inputs intake.old.graph) text intake.old.reader →
        OnOk result (HasRead (shown_inputs intake.old.graph) (text ++ lines.now) intake.new.reader) }
{
    intake.reader.take(alloc, lines, intake.graph.inputs())?;
    intake.lines = intake.lines.saturating_add(line_count(lines));
    Ok(())
}

/// Takes a record in place of its line. False, and nothing is taken, where that would be refused.
pub(crate) fn take_record(
    alloc: Global,
    intake: &mut Intake,
    name: &[u8],
    row: &[i64],
) -> Result<bool, NoMemory>
    ensures graph { intake.new.graph ≡ intake.old.graph }
    ensures taken { (text : List ℕ) → HasRead (shown_inputs intake.old.graph) text intake.old.reader →
        IfOk result (λ b. b ≡ true → HasRead (shown_inputs intake.old.graph) (text ++ row_line name.now row.now) intake.new.reader) }
    ensures same { (text : List ℕ) → HasRead (shown_inputs intake.old.graph) text intake.old.reader →
        IfOk result (λ b. b ≡ false → HasRead (shown_inputs intake.old.graph) text intake.new.reader) }
{
    let is_taken = intake
        .reader
        .take_row(alloc, intake.graph.inputs(), name, row)?;
    if is_taken {
        intake.lines = intake.lines.saturating_add(1);
    }
    Ok(is_taken)
}

/// The fault of lines that are refused, with that many before them. They are left in `texts`, if there is memory for them.
pub(crate) fn lines_fault(
    alloc: Global,
    refusal: InputRefusal,
    before: u64,
    lines: &[u8],
    texts: &mut Texts,
) -> Fault {
    let InputRefusal::At { code, line } = refusal else {
        return Fault::NoMemory;
    };
    if let Ok(text) = lines.to_vec(alloc) {
        texts.input = text;
        texts.input_from = before.saturating_add(1);
    }
    let line = before.saturating_add(line);
    Fault::Input { code, line }
}
