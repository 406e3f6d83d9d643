//! Reads the input text.

ghost use Rattle.std.specs.Prelude.{◌≡◌, ◌++◌, ℕ, ℤ, List, length, map, IfOk, IfErr, IfSome, OnOk};
ghost use Rattle.std.specs.List.{AllZip};
ghost use Rattle.record_core.specs.Inputs.{input_of};
ghost use Rattle.semantics.specs.Query.{Input};
ghost use Rattle.collector.specs.DraftGrowth.{CanTake, IsEven, Takes};
ghost use Rattle.collector.specs.Drafts.{draft_count};
ghost use Rattle.collector.specs.InputText.{IsInputText, IsReadFrom, IsRefused};
ghost use Rattle.collector.specs.Parts.{IsPart, together};
ghost use Rattle.collector.specs.Piecewise.{Reads, further};
ghost use Rattle.collector.specs.Said.{item_of};

use crate::codes::NO_LINE_FEED;
use crate::draft::Draft;
use crate::epochs::Epochs;
use crate::first_line::{Stop, next_line};
use crate::line::Line;
use crate::refusal::InputRefusal;
use record_core::{DeclaredInput, NoMemory};
use std::alloc::Global;

/// Adds what a line says to the draft. The fields of a record are in the buffer.
fn take_line(alloc: Global, draft: &mut Draft, said: Line, fields: &[i64]) -> Result<(), NoMemory>
    requires even { IsEven draft.old }
    requires can { CanTake draft.old (item_of said fields.now) }
    ensures { OnOk result (Takes draft.old draft.new (item_of said fields.now)) }
{
    match said {
        Line::Epoch => draft.begin(alloc),
        Line::Row { input } => draft.push(alloc, input, fields),
    }
}

/// Reads the lines of a text into a draft, behind what it holds. The lines of a refusal count from the first of these.
pub(crate) fn read_into(
    alloc: Global,
    text: &[u8],
    inputs: &[DeclaredInput],
    draft: Draft,
) -> Result<Draft, InputRefusal>
    requires even { IsEven draft }
    requires inputs { length draft.tracks.items ≡ length inputs.now }
    ensures read { IfOk result (Reads (map input_of inputs.now) text.now draft) }
    ensures refused { IfErr result (λ e. (before : List ℕ) (records : ℕ → ℕ → List (List ℤ))
        (is : IsInputText (map input_of inputs.now) before (draft_count draft) records)
        → IsRefused (map input_of inputs.now) (before ++ text.now) (further (length is.lines) e)) }
{
    let mut draft = draft;
    let mut fields = Vec::new(alloc);
    let mut rest = text;
    let mut number = 0;
    while !rest.is_empty() {
        number += 1;
        match next_line(rest, inputs, draft.count(), &mut fields) {
            Ok((said, after)) => {
                take_line(alloc, &mut draft, said, fields.as_slice())?;
                rest = after;
            }
            Err(Stop::NoMemory) => return Err(InputRefusal::NoMemory),
            Err(Stop::Fault(fault)) => {
                return Err(InputRefusal::At {
                    code: fault.code(),
                    line: number,
                });
            }
            Err(Stop::NoLineFeed) => {
                return Err(InputRefusal::At {
                    code: NO_LINE_FEED,
                    line: number,
                });
            }
        }
    }
    Ok(draft)
}

/// Reads a whole input text for these inputs, in linear time.
///
/// Lines end with a line feed. A line `epoch` begins the next epoch; any other line is an input's name and a record's fields, each after one space. A
/// refusal names the first faulty line, and nothing is kept.
pub fn read_input(
    alloc: Global,
    text: &[u8],
    inputs: &[DeclaredInput],
) -> Result<Epochs, InputRefusal>
    ensures read { IfOk result (λ e. IsReadFrom (map input_of inputs.now) text.now e) }
    ensures refused { IfErr result (IsRefused (map input_of inputs.now) text.now) }
{
    let draft = Draft::new(alloc, inputs.len())?;
    let read = read_into(alloc, text, inputs, draft)?;
    Ok(read.finish(alloc)?)
}

/// Reads a part of an input text in which an epoch has begun before its first line. The lines of a refusal count from the part's first one.
pub fn read_part(
    alloc: Global,
    text: &[u8],
    inputs: &[DeclaredInput],
) -> Result<Epochs, InputRefusal>
    ensures { IfOk result (IsPart (map input_of inputs.now) 1 text.now) }
{
    let mut draft = Draft::new(alloc, inputs.len())?;
    draft.begin(alloc)?;
    let read = read_into(alloc, text, inputs, draft)?;
    Ok(read.finish(alloc)?)
}

/// The epochs of a text that was read in parts, one behind the other; its first part was read as a whole text is. `None` where memory is refused, or
/// there are too many epochs.
pub fn join_parts(first: Epochs, parts: Vec<Epochs>) -> Option<Epochs>
    ensures { (inputs : List Input) (text : List ℕ) (texts : List (List ℕ)) → IsReadFrom inputs text first →
        AllZip (IsPart inputs 1) texts parts.items → IfSome result (IsReadFrom inputs (text ++ together texts)) }
{
    let mut whole = first;
    for part in parts {
        match whole.append(part) {
            Ok(true) => {}
            Ok(false) | Err(_) => return None,
        }
    }
    Some(whole)
}
