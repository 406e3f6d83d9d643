//! Reads an input text piece by piece.

ghost use Rattle.std.specs.Prelude.{◌≡◌, ◌++◌, ℕ, List, [], length, map, true, false, IfErr, IfOk, OnOk};
ghost use Rattle.record_core.specs.Inputs.{input_of};
ghost use Rattle.semantics.specs.Query.{Input};
ghost use Rattle.collector.specs.DraftGrowth.{IsEven};
ghost use Rattle.collector.specs.InputText.{IsReadFrom, IsRefused};
ghost use Rattle.collector.specs.Piecewise.{HasRead, HasStopped, Reads, further, row_line};
ghost use Rattle.collector.specs.Quick.{Fit};

use crate::draft::Draft;
use crate::epochs::Epochs;
use crate::input_reader::InputReader;
use crate::line::{find_input, is_word, make_record};
use crate::output::push_spaced;
use crate::reading::read_into;
use crate::refusal::InputRefusal;
use record_core::{DeclaredInput, NoMemory};
use std::alloc::{AllocError, Global};

/// Appends the line of a record of the input of that name.
pub fn push_row_line(out: &mut Vec<u8>, name: &[u8], row: &[i64]) -> Result<(), AllocError>
    ensures { OnOk result (out.new.items ≡ out.old.items ++ row_line name.now row.now) }
{
    out.extend_from_slice(name)?;
    for number in row {
        push_spaced(out, number)?;
    }
    out.push(b'\n')?;
    Ok(())
}

/// The elements are numbers of 64 bits. Nothing is done.
#[inline(always)]
fn law_fit(row: &[i64])
    ensures { Fit row.now }
{
    for i in 0..row.len() {
        let _number = row[i];
    }
}

/// Adds a record to the draft in place of its line. False, and nothing is added, where its line would be refused.
fn push_row(
    alloc: Global,
    draft: &mut Draft,
    inputs: &[DeclaredInput],
    name: &[u8],
    row: &[i64],
) -> Result<bool, NoMemory>
    requires even { IsEven draft.old }
    requires inputs { length draft.old.tracks.items ≡ length inputs.now }
    ensures read { IfOk result (λ b. b ≡ true → Reads (map input_of inputs.now) (row_line name.now row.now) draft.old draft.new) }
    ensures same { IfOk result (λ b. b ≡ false → draft.new ≡ draft.old) }
{
    let Some((input, arity)) = find_input(inputs, name) else {
        return Ok(false);
    };
    if draft.count() == 0 || !is_word(name) || !make_record(row, arity) {
        return Ok(false);
    }
    law_fit(row);
    draft.push(alloc, input, row)?;
    Ok(true)
}

impl InputReader {
    /// Of an empty text, for that many inputs.
    pub fn new(alloc: Global, inputs: usize) -> Result<InputReader, NoMemory>
        ensures { IfOk result (λ r. (is : List Input) → length is ≡ inputs → HasRead is [] r) }
    {
        let draft = Draft::new(alloc, inputs)?;
        Ok(InputReader { draft: Some(draft) })
    }

    /// Reads the next lines, each with its line feed. The line of a refusal counts from the first of these.
    pub fn take(
        &mut self,
        alloc: Global,
        lines: &[u8],
        inputs: &[DeclaredInput],
    ) -> Result<(), InputRefusal>
        ensures read { (text : List ℕ) → HasRead (map input_of inputs.now) text self.old →
            OnOk result (HasRead (map input_of inputs.now) (text ++ lines.now) self.new) }
        ensures refused { (text : List ℕ) (has : HasRead (map input_of inputs.now) text self.old) →
            IfErr result (λ e. IsRefused (map input_of inputs.now) (text ++ lines.now) (further (length has.is.lines) e)) }
        ensures stopped { IfErr result (λ e. HasStopped self.new) }
        ensures stays { HasStopped self.old → HasStopped self.new }
    {
        let Some(draft) = self.draft.take() else {
            return Err(InputRefusal::NoMemory);
        };
        if draft.inputs() != inputs.len() {
            return Err(InputRefusal::NoMemory);
        }
        let read = read_into(alloc, lines, inputs, draft)?;
        self.draft = Some(read);
        Ok(())
    }

    /// Reads a record in place of its line. False, and nothing is read, where its line would be refused.
    #[inline(always)]
    pub fn take_row(
        &mut self,
        alloc: Global,
        inputs: &[DeclaredInput],
        name: &[u8],
        row: &[i64],
    ) -> Result<bool, NoMemory>
        ensures read { (text : List ℕ) → HasRead (map input_of inputs.now) text self.old →
            IfOk result (λ b. b ≡ true → HasRead (map input_of inputs.now) (text ++ row_line name.now row.now) self.new) }
        ensures same { IfOk result (λ b. b ≡ false → self.new.draft ≡ self.old.draft) }
        ensures stopped { IfErr result (λ e. HasStopped self.new) }
        ensures stays { HasStopped self.old → HasStopped self.new }
    {
        let Some(mut draft) = self.draft.take() else {
            return Err(NoMemory);
        };
        if draft.inputs() != inputs.len() {
            return Err(NoMemory);
        }
        let is_read = push_row(alloc, &mut draft, inputs, name, row)?;
        self.draft = Some(draft);
        Ok(is_read)
    }

    /// The epochs of all that was read.
    pub fn finish(self, alloc: Global) -> Result<Epochs, NoMemory>
        ensures read { (inputs : List Input) (text : List ℕ) → HasRead inputs text self → IfOk result (IsReadFrom inputs text) }
        ensures stopped { HasStopped self → IfOk result (λ e. ⊥) }
    {
        let InputReader { draft, .. } = self;
        match draft {
            Some(draft) => draft.finish(alloc),
            None => Err(NoMemory),
        }
    }
}
