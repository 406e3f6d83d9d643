//! What was taken of the input.

ghost use Rattle.std.specs.Prelude.{◌≡◌, ◌<◌, ◌≤◌, ◌+◌, ℤ, List, length, map, IfOk, IsTrue, OnOk};
ghost use Rattle.graph.specs.Shown.{shown_inputs};
ghost use Rattle.record_core.specs.Inputs.{input_of};
ghost use Rattle.collector.specs.Lines.{Item};
ghost use Rattle.collector.specs.Said.{item_of};
ghost use Rattle.follow.specs.Scenes.{arity_at, IsFedSo, IsTakenSo};
ghost use Rattle.follow.specs.Steps.{CanTake, Counts, Empties, FeedsPortion, FeedsRows, Gathers, HaveArities, IsNew, TakesItem, TakesLines};
ghost use Rattle.follow.specs.declared.line_stop.Taken.TheVariants as taken;

use crate::line_stop::{Taken, is_too_long};
use crate::outcome::Halt;
use alone::{feed, seal_inputs};
use board::Board;
use collector::{Line, MALFORMED, Stop, next_line};
use driver::law_inputs;
use record_core::{DeclaredInput, NoMemory};
use rows::{Batch, Rows};
use std::alloc::Global;
use std::mem::replace;
use views::Views;

/// The number of the board's epochs that have begun, the number of lines taken, and for each input the records of the last epoch that wait to be fed.
#[derive(Drop)]
pub struct Intake {
    pub begun: u32,
    pub line: u64,
    pub portion: Vec<Rows>,
}

impl Intake {
    /// An intake that has taken nothing, for these inputs.
    pub fn new(alloc: Global, inputs: &[DeclaredInput]) -> Result<Intake, Halt>
        requires { HaveArities (map input_of inputs.now) }
        ensures { IfOk result (IsNew (map input_of inputs.now)) }
    {
        let mut portion = Vec::with_capacity(alloc, inputs.len())?;
        for declared in inputs {
            portion.push(Rows::new(alloc, declared.arity as usize))?;
        }
        Ok(Intake {
            begun: 0,
            line: 0,
            portion,
        })
    }

    /// Keeps a record of an input, to be fed.
    fn gather(&mut self, input: usize, row: &[i64]) -> Result<(), Halt>
        requires some { 0 < self.old.begun }
        requires there { input < length self.old.portion.items }
        requires fits { arity_at self.old input ≡ length row.now }
        ensures { OnOk result (Gathers self.old self.new input row.now) }
    {
        self.portion[input].push(row)?;
        Ok(())
    }

    /// Counts a line that was taken.
    fn count_line(&mut self)
        requires { self.old.line < 18446744073709551615 }
        ensures { Counts self.old self.new }
    {
        self.line += 1;
    }
}

/// Takes the rows of an input that wait.
fn take_rows(alloc: Global, intake: &mut Intake, input: usize) -> Rows
    requires { input < length intake.old.portion.items }
    ensures empties { Empties intake.old intake.new input result.rows }
    ensures arity { result.arity ≡ arity_at intake.old input }
{
    let arity = intake.portion[input].arity();
    replace(&mut intake.portion[input], Rows::new(alloc, arity))
}

/// Feeds the rows of an input that wait.
fn feed_rows<V: Views>(
    alloc: Global,
    board: &mut Board<V>,
    intake: &mut Intake,
    input: usize,
) -> Result<(), Halt>
    requires there { input < length intake.old.portion.items }
    requires fed { IsFedSo board.old.shown intake.old }
    ensures { OnOk result (FeedsRows board.old.shown board.new.shown intake.old intake.new input) }
{
    board.law_inputs();
    law_inputs(board.graph());
    let rows = take_rows(alloc, intake, input);
    match Batch::from_rows(alloc, rows)? {
        None => Ok(()),
        Some(batch) => match feed(alloc, board, input as u32, batch) {
            Ok(()) => Ok(()),
            Err(NoMemory) => Err(Halt::NoMemory),
        },
    }
}

/// Feeds everything that waits.
pub fn feed_portion<V: Views>(
    alloc: Global,
    board: &mut Board<V>,
    intake: &mut Intake,
) -> Result<(), Halt>
    requires { IsFedSo board.old.shown intake.old }
    ensures { OnOk result (FeedsPortion board.old.shown board.new.shown intake.old intake.new) }
{
    for input in 0..intake.portion.len() {
        feed_rows(alloc, board, intake, input)?;
    }
    Ok(())
}

/// Begins the next epoch: feeds what waits, and seals the epoch before it at each input.
fn begin<V: Views>(alloc: Global, board: &mut Board<V>, intake: &mut Intake) -> Result<(), Halt>
    requires fed { IsFedSo board.old.shown intake.old }
    requires few { intake.old.begun < 4294967295 }
    ensures { OnOk result (TakesItem board.old.shown board.new.shown intake.old intake.new Item.epoch) }
{
    feed_portion(alloc, board, intake)?;
    if intake.begun == 0 {
        intake.begun = 1;
        return Ok(());
    }
    board.law_inputs();
    law_inputs(board.graph());
    seal_inputs(board, intake.portion.len() as u32)?;
    intake.begun += 1;
    Ok(())
}

/// Takes what a line says. The fields of a record are in the buffer.
fn take_item<V: Views>(
    alloc: Global,
    board: &mut Board<V>,
    intake: &mut Intake,
    said: Line,
    fields: &[i64],
) -> Result<(), Halt>
    requires { CanTake board.old.shown intake.old (item_of said fields.now) }
    ensures { OnOk result (TakesItem board.old.shown board.new.shown intake.old intake.new (item_of said fields.now)) }
{
    match said {
        Line::Epoch => begin(alloc, board, intake),
        Line::Row { input } => intake.gather(input, fields),
    }
}

/// Whether a line begins an epoch.
fn begins_epoch(said: Line) -> bool
    ensures { IsTrue result → (fields : List ℤ) → item_of said fields ≡ Item.epoch }
{
    match said {
        Line::Epoch => true,
        Line::Row { input: _ } => false,
    }
}

/// Takes the lines of a text one after another, but stops after the first line at or beyond line `until` that begins an epoch. Gives the text after
/// them, and why it stopped. The board's epoch 0 is the input's epoch `base`.
pub fn take_lines<'a, V: Views>(
    alloc: Global,
    board: &mut Board<V>,
    inputs: &[DeclaredInput],
    base: u32,
    until: u64,
    intake: &mut Intake,
    text: &'a [u8],
) -> Result<(&'a [u8], Taken), Halt>
    requires same { map input_of inputs.now ≡ shown_inputs board.old.shown.graph }
    requires taken { IsTakenSo board.old.shown base intake.old (map input_of inputs.now) text.now }
    requires few { intake.old.line + length text.now < 18446744073709551615 }
    ensures lines { IfOk result (λ r. TakesLines base board.old.shown board.new.shown intake.old intake.new (map input_of inputs.now) text.entry.now r.0.now r.1) }
    ensures shorter { IfOk result (λ r. r.1 ≡ taken.Epoch → length r.0.now < length text.entry.now) }
    ensures counted { IfOk result (λ r. intake.new.line + length r.0.now ≤ intake.old.line + length text.entry.now) }
{
    let mut fields = Vec::new(alloc);
    let mut rest = text;
    while !rest.is_empty() {
        if is_too_long(rest) {
            return Ok((rest, Taken::Fault(MALFORMED)));
        }
        match next_line(rest, inputs, base + intake.begun, &mut fields) {
            Ok((said, after)) => {
                take_item(alloc, board, intake, said, fields.as_slice())?;
                intake.count_line();
                rest = after;
                if intake.line >= until && begins_epoch(said) {
                    return Ok((rest, Taken::Epoch));
                }
            }
            Err(Stop::NoMemory) => return Err(Halt::NoMemory),
            Err(Stop::Fault(fault)) => return Ok((rest, Taken::Fault(fault.code()))),
            Err(Stop::NoLineFeed) => return Ok((rest, Taken::Whole)),
        }
    }
    Ok((rest, Taken::Whole))
}
