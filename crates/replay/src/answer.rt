//! Writes what a schedule prints.

ghost use Rattle.std.specs.Prelude.{◌≡◌, ◌++◌, ℕ, List, OnOk, decimal, map};
ghost use Rattle.board.specs.Promises.{IsOutputPlace};
ghost use Rattle.graph.specs.Views.{name_of_output};
ghost use Rattle.collector.specs.OutputText.{is_plain, label_of};
ghost use Rattle.replay.specs.Replays.{heading, refusal_line};
ghost use Rattle.replay.specs.Steps.{Says, SaysOne, ShowsState, word_of};
ghost use Rattle.replay.specs.Waits.{State};

use board::Board;
use collector::push_sorted;
use graph::GraphOutput;
use itoa::Buffer;
use record_core::Name;
use std::alloc::{AllocError, Global};
use views::Views;

fn push_text(out: &mut Vec<u8>, text: &[u8]) -> Result<(), AllocError>
    ensures { OnOk result (out.new.items ≡ out.old.items ++ text.now) }
{
    out.extend_from_slice(text)
}

/// Appends a number.
fn push_number(out: &mut Vec<u8>, number: u64) -> Result<(), AllocError>
    ensures { OnOk result (out.new.items ≡ out.old.items ++ decimal number) }
{
    let mut buffer = Buffer::new();
    out.extend_from_slice(buffer.format(number).as_bytes())
}

/// Appends the line of a refusal.
pub fn push_refusal(out: &mut Vec<u8>, code: u8) -> Result<(), AllocError>
    ensures { OnOk result (out.new.items ≡ out.old.items ++ refusal_line code) }
{
    push_text(out, b"refused ")?;
    push_number(out, code as u64)?;
    push_text(out, b"\n")
}

/// The word for whether an epoch has passed.
fn passed_word(has_passed: bool) -> &'static [u8]
    ensures { result.now ≡ word_of has_passed }
{
    if has_passed { b" passed" } else { b" open" }
}

/// Appends the line of an epoch at an output, with the output's label.
fn push_heading(
    out: &mut Vec<u8>,
    epoch: u64,
    plain: bool,
    name: &Name,
    has_passed: bool,
) -> Result<(), AllocError>
    ensures { OnOk result (out.new.items ≡ out.old.items ++ heading epoch (label_of plain name.now) (word_of has_passed)) }
{
    push_text(out, b"epoch ")?;
    push_number(out, epoch)?;
    if !plain {
        push_text(out, b" ")?;
        push_text(out, name.bytes())?;
    }
    push_text(out, passed_word(has_passed))?;
    push_text(out, b"\n")
}

/// Whether the only output is named `out`.
fn are_plain(outputs: &[GraphOutput]) -> bool
    ensures { result ≡ is_plain (map name_of_output outputs.now) }
{
    match outputs {
        [only] => only.name.bytes() == b"out".as_slice(),
        _ => false,
    }
}

/// Appends whether the epoch has passed at an output, as worker 0 sees it, and what was emitted there for it so far.
fn push_output<V: Views>(
    alloc: Global,
    board: &Board<V>,
    epoch: u32,
    output: u32,
    plain: bool,
    name: &Name,
    out: &mut Vec<u8>,
) -> Result<(), AllocError>
    requires { IsOutputPlace board.now.shown output }
    ensures { OnOk result ((text : List ℕ) × (out.new.items ≡ out.old.items ++ text) ×
        SaysOne V.late board.now output epoch (label_of plain name.now) text) }
{
    board.law_headline();
    board.law_prompt();
    board.law_waits();
    push_heading(out, epoch as u64, plain, name, board.passed(output, epoch))?;
    push_sorted(alloc, out, board.emitted(output, epoch))?;
    Ok(())
}

/// Appends, for each output, whether the epoch has passed there, as worker 0 sees it, and what was emitted for it so far.
pub fn push_answer<V: Views>(
    alloc: Global,
    board: &Board<V>,
    epoch: u32,
    out: &mut Vec<u8>,
) -> Result<(), AllocError>
    ensures { OnOk result ((text : List ℕ) × (out.new.items ≡ out.old.items ++ text) × ((x : State) → ShowsState board.now x →
        Says V.late board.now epoch text x)) }
{
    let outputs = board.graph().outputs();
    let plain = are_plain(outputs);
    for output in 0..board.output_count() {
        let name = &outputs[output as usize].name;
        push_output(alloc, board, epoch, output, plain, name, out)?;
    }
    Ok(())
}
