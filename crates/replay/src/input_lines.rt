//! Lines of a schedule that name an input.

ghost use Rattle.std.specs.Prelude.{◌≡◌, ◌<◌, length, map, ◌≤◌, ◌∷◌, [], List, Option, IfOk, IfSome, IfNone};
ghost use Rattle.record_core.specs.Inputs.{input_of};
ghost use Rattle.graph.specs.Limits.{max_vertices};
ghost use Rattle.collector.specs.Lines.{MakeRecord};
ghost use Rattle.events.specs.Jobs.{Pass};
ghost use Rattle.schedule.specs.Commands.{Command};
ghost use Rattle.driver.specs.Inputs.{AreInputsOf};
ghost use Rattle.replay.specs.Steps.{Answers, IsNumbered};

use crate::refusal::{Refusal, line_refusal};
use board::{Board, WRONG_FIELD_COUNT};
use collector::find_input;
use record_core::{DeclaredInput, Record};
use rows::Batch;
use std::alloc::{AllocError, Global};
use views::Views;

/// The number of an input and its arity. A name that no input has gets the greatest number.
fn input_number(inputs: &[DeclaredInput], name: &[u8]) -> (u32, u64)
    requires few { length inputs.now ≤ max_vertices }
    ensures { IsNumbered (map input_of inputs.now) name.now result }
{
    match find_input(inputs, name) {
        Some((input, arity)) => (input as u32, arity),
        None => (u32::MAX, 0),
    }
}

/// A batch of one record.
fn batch_of(alloc: Global, row: Record) -> Result<Batch, AllocError>
    ensures { IfOk result (λ b. b ≡ row ∷ []) }
{
    match Batch::from_records(alloc, &[row]) {
        Ok(batch) => Ok(batch),
        Err(_) => Err(AllocError),
    }
}

/// A record for an input of that arity; `None` if the fields don't make one.
fn record_of(fields: &[i64], arity: u64) -> Option<Record>
    ensures found { IfSome result (λ r. (r ≡ fields.now) × MakeRecord arity fields.now) }
    ensures none { IfNone result (MakeRecord arity fields.now → ⊥) }
{
    if fields.len() as u64 == arity {
        Record::new(fields)
    } else {
        None
    }
}

/// Feeds a record to the input of that name, at its open epoch.
pub fn feed<V: Views>(
    alloc: Global,
    board: &mut Board<V>,
    inputs: &[DeclaredInput],
    name: &[u8],
    fields: &[i64],
) -> Result<(), Refusal>
    requires inputs { AreInputsOf board.old.shown.graph (map input_of inputs.now) }
    ensures { (hand : List (Option Pass)) → Answers V.late board.old board.new hand hand (Command.feed name.now fields.now) result }
{
    let (input, arity) = input_number(inputs, name);
    board.law_inputs();
    if let Some(refusal) = board.input_refusal(input) {
        return Err(line_refusal(refusal));
    }
    let Some(row) = record_of(fields, arity) else {
        return Err(Refusal::Step {
            code: WRONG_FIELD_COUNT,
        });
    };
    let Ok(batch) = batch_of(alloc, row) else {
        return Err(Refusal::NoMemory);
    };
    match board.feed(alloc, input, batch) {
        Ok(()) => Ok(()),
        Err(refusal) => Err(line_refusal(refusal)),
    }
}

/// Ends the open epoch of the input of that name.
pub fn seal<V: Views>(
    board: &mut Board<V>,
    inputs: &[DeclaredInput],
    name: &[u8],
) -> Result<(), Refusal>
    requires inputs { AreInputsOf board.old.shown.graph (map input_of inputs.now) }
    ensures { (hand : List (Option Pass)) → Answers V.late board.old board.new hand hand (Command.seal name.now) result }
{
    let (input, _) = input_number(inputs, name);
    board.law_inputs();
    match board.seal(input) {
        Ok(()) => Ok(()),
        Err(refusal) => Err(line_refusal(refusal)),
    }
}

/// Closes the input of that name.
pub fn close<V: Views>(
    board: &mut Board<V>,
    inputs: &[DeclaredInput],
    name: &[u8],
) -> Result<(), Refusal>
    requires inputs { AreInputsOf board.old.shown.graph (map input_of inputs.now) }
    ensures { (hand : List (Option Pass)) → Answers V.late board.old board.new hand hand (Command.close name.now) result }
{
    let (input, _) = input_number(inputs, name);
    board.law_inputs();
    match board.close(input) {
        Ok(()) => Ok(()),
        Err(refusal) => Err(line_refusal(refusal)),
    }
}
