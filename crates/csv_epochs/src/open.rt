//! What was taken of a text and not handed out.

ghost use Rattle.std.specs.Prelude.{◌≡◌, ◌<◌, ◌≤◌, ◌↔◌, ◌⊎◌, ◌++◌, false, true, [], IfErr, IfOk, IsTrue, OnOk, length, option_map, take};
ghost use Rattle.csv.specs.Reading.{strip_bom};
ghost use Rattle.csv_strict.specs.Strict.{IsStrict, ends_text};
ghost use Rattle.csv_epochs.specs.Epochs.{AreEpochs, IsFaulty, IsStuck, TakesOf};
ghost use Rattle.csv_epochs.specs.Opened.{Advances, EndsBody, EndsRow, EndsTail, HandsBody, HasHeader, IsAfter, IsKept, IsSame, IsStuckAt, KeepsRow, cell_in, held_of, listed, text_in};
ghost use Rattle.csv_epochs.specs.Rows.{row_cell};

use crate::epoch::{Ending, Epoch, SplitFault};
use crate::lines::{count_lines, is_mark, without_mark};
use crate::place::Place;
use crate::row::{Row, RowStop};
use csv_strict::{Refusal, check_text};
use std::alloc::{AllocError, Global};

/// The header row, the whole records of the open epoch, and the beginning of the record behind them.
#[derive(Drop)]
pub struct Open {
    pub alloc: Global,
    /// The header row, or its beginning.
    pub header: Vec<u8>,
    /// Whether the header row is whole.
    pub has_header: bool,
    /// The whole records.
    pub body: Vec<u8>,
    /// The cell of these records.
    pub cell: Option<Vec<u8>>,
    /// The bytes behind them.
    pub tail: Vec<u8>,
    /// What was read of the row that isn't whole: of the header row, or of the bytes behind the records.
    pub row: Row,
    /// The number of lines of the records that were handed out; it stops at the largest number.
    pub lines: u64,
}

/// A list of these epochs.
fn listed(
    alloc: Global,
    first: Option<Epoch>,
    last: Option<Epoch>,
) -> Result<Vec<Epoch>, AllocError>
    ensures { IfOk result (λ v. v.items ≡ listed first last) }
{
    let mut epochs = Vec::new(alloc);
    if let Some(epoch) = first {
        epochs.push(epoch)?;
    }
    if let Some(epoch) = last {
        epochs.push(epoch)?;
    }
    Ok(epochs)
}

impl Open {
    /// Nothing was taken yet.
    pub fn new(alloc: Global, column: usize) -> Open
        ensures kept { IsKept result }
        ensures held { held_of result false ≡ record { column = column; has_header = false; header = []; bytes = []; before = 0; failed = false } }
    {
        Open {
            alloc,
            header: Vec::new(alloc),
            has_header: false,
            body: Vec::new(alloc),
            cell: None,
            tail: Vec::new(alloc),
            row: Row::new(alloc, column),
            lines: 0,
        }
    }

    /// As much of a piece as is read at once of the header row: one of the first three bytes, which may be a byte order mark.
    fn header_part<'p>(&self, piece: &'p [u8]) -> &'p [u8]
        requires { 0 < length piece.now }
        ensures few { length self.now.header.items < 3 → result.now ≡ take 1 piece.now }
        ensures more { 3 ≤ length self.now.header.items → result.now ≡ piece.now }
    {
        if self.header.len() < 3 {
            &piece[..1]
        } else {
            piece
        }
    }

    /// Takes bytes of the header row: one of the first three, which may be a byte order mark, or those up to the row's end. Gives what is left.
    fn take_header<'p>(&mut self, piece: &'p [u8]) -> Result<&'p [u8], RowStop>
        requires kept { IsKept self.old }
        requires stage { self.old.has_header ≡ false }
        requires some { 0 < length piece.now }
        ensures taken { IfOk result (λ rest. Advances self.old self.new piece.now rest.now) }
        ensures kept { OnOk result (IsKept self.new) }
        ensures refused { IfErr result (IsStuckAt self.old self.new piece.now) }
    {
        let part = self.header_part(piece);
        match self.row.read_on(part) {
            Ok(Some(count)) => {
                self.header.extend_from_slice(&piece[..count])?;
                self.has_header = true;
                self.row.restart();
                Ok(&piece[count..])
            }
            Ok(None) => {
                self.header.extend_from_slice(part)?;
                if is_mark(self.header.as_slice()) {
                    self.row.restart();
                }
                Ok(&piece[part.len()..])
            }
            Err(stop) => Err(stop),
        }
    }

    /// Takes bytes of a record, up to its end. Says whether it has ended, and gives what is left.
    fn take_row<'p>(&mut self, piece: &'p [u8]) -> Result<(bool, &'p [u8]), RowStop>
        requires kept { IsKept self.old }
        requires stage { self.old.has_header ≡ true }
        requires some { 0 < length piece.now }
        ensures taken { IfOk result (λ r. Advances self.old self.new piece.now r.1.now) }
        ensures ended { IfOk result (λ r. IsAfter r.0 self.new) }
        ensures refused { IfErr result (IsStuckAt self.old self.new piece.now) }
    {
        match self.row.read_on(piece) {
            Ok(Some(count)) => {
                self.tail.extend_from_slice(&piece[..count])?;
                Ok((true, &piece[count..]))
            }
            Ok(None) => {
                self.tail.extend_from_slice(piece)?;
                Ok((false, &[]))
            }
            Err(stop) => Err(stop),
        }
    }

    /// Takes bytes up to the end of the header row, of a record, or of the piece. Says whether a record has ended, and gives what is left.
    fn advance<'p>(&mut self, piece: &'p [u8]) -> Result<(bool, &'p [u8]), RowStop>
        requires kept { IsKept self.old }
        requires some { 0 < length piece.now }
        ensures taken { IfOk result (λ r. Advances self.old self.new piece.now r.1.now) }
        ensures ended { IfOk result (λ r. IsAfter r.0 self.new) }
        ensures refused { IfErr result (IsStuckAt self.old self.new piece.now) }
    {
        if self.has_header {
            return self.take_row(piece);
        }
        match self.take_header(piece) {
            Ok(rest) => Ok((false, rest)),
            Err(stop) => Err(stop),
        }
    }

    /// Whether the row has the cell of the open epoch.
    fn is_same(&self) -> bool
        ensures { IsTrue result ↔ IsSame (cell_in self.now) (row_cell self.now.row) }
    {
        match (&self.cell, self.row.place) {
            (Some(cell), Place::Inside | Place::Behind) => cell.as_slice()
                == self.row.cell.as_slice(),
            (Some(_), Place::Before(_)) | (None, _) => false,
        }
    }

    /// The cell of the row.
    fn row_cell(&self) -> Result<Option<Vec<u8>>, AllocError>
        ensures { IfOk result (λ cell. option_map (λ v. v.items) cell ≡ row_cell self.now.row) }
    {
        match self.row.place {
            Place::Inside | Place::Behind => Ok(Some(self.row.cell.clone()?)),
            Place::Before(_) => Ok(None),
        }
    }

    /// Puts the row to the records of the open epoch.
    fn keep_row(&mut self) -> Result<(), AllocError>
        ensures { OnOk result (KeepsRow self.old self.new) }
    {
        if self.body.is_empty() {
            self.cell = self.row_cell()?;
        }
        self.body.extend_from_slice(self.tail.as_slice())?;
        self.tail.clear();
        self.row.restart();
        Ok(())
    }

    /// Hands out the records of the open epoch.
    fn hand_out(&mut self) -> Result<Epoch, AllocError>
        ensures { IfOk result (HandsBody self.old self.new) }
    {
        let mut text = Vec::with_capacity(self.alloc, self.header.len())?;
        text.extend_from_slice(self.header.as_slice())?;
        text.extend_from_slice(self.body.as_slice())?;
        let header_lines = count_lines(self.header.as_slice());
        let first_line = self.lines.saturating_add(header_lines.saturating_add(1));
        self.lines = self.lines.saturating_add(count_lines(self.body.as_slice()));
        self.body.clear();
        Ok(Epoch {
            text,
            cell: self.cell.take(),
            first_line,
            header_lines,
        })
    }

    /// Whether the row belongs to the open epoch, or begins the first one.
    fn goes_on(&self) -> bool
        ensures goes { result ≡ true → ((self.now.body.items ≡ []) ⊎ IsSame (cell_in self.now) (row_cell self.now.row)) }
        ensures ends { result ≡ false → (0 < length self.now.body.items) × ¬ IsSame (cell_in self.now) (row_cell self.now.row) }
    {
        if self.body.is_empty() {
            return true;
        }
        self.is_same()
    }

    /// The end of a row: the epoch before it is handed out if the row is of another.
    fn end_row(&mut self) -> Result<Option<Epoch>, AllocError>
        ensures { IfOk result (EndsRow self.old self.new) }
    {
        if self.goes_on() {
            self.keep_row()?;
            return Ok(None);
        }
        let epoch = self.hand_out()?;
        self.keep_row()?;
        Ok(Some(epoch))
    }

    /// All that is held, and the piece behind it.
    fn text_with(&self, piece: &[u8]) -> Result<Vec<u8>, AllocError>
        ensures { IfOk result (λ v. v.items ≡ text_in self.now ++ piece.now) }
    {
        let mut text = Vec::from_slice(self.alloc, self.header.as_slice())?;
        text.extend_from_slice(self.body.as_slice())?;
        text.extend_from_slice(self.tail.as_slice())?;
        text.extend_from_slice(piece)?;
        Ok(text)
    }

    /// The first fault of what is held and the piece behind it.
    fn fault_of(&self, piece: &[u8]) -> SplitFault
        requires { ¬ IsStrict (strip_bom (text_in self.now ++ piece.now)) }
        ensures { IsFaulty self.now.lines (text_in self.now ++ piece.now) result }
    {
        let Ok(text) = self.text_with(piece) else {
            return SplitFault::NoMemory;
        };
        match check_text(without_mark(text.as_slice())) {
            Ok(()) => unreachable!(),
            Err(refusal) => SplitFault::Text(Refusal {
                fault: refusal.fault,
                line: self.lines.saturating_add(refusal.line),
            }),
        }
    }

    /// Takes a piece up to the end of the first record behind an epoch, which is handed out; or the whole piece.
    pub fn take<'p>(&mut self, piece: &'p [u8]) -> Result<(Option<Epoch>, &'p [u8]), SplitFault>
        requires { IsKept self.old }
        ensures taken { IfOk result (λ r. TakesOf (held_of self.old false) (held_of self.new false) piece.now r.0 r.1.now) }
        ensures kept { OnOk result (IsKept self.new) }
        ensures refused { IfErr result (IsStuck self.old.lines (text_in self.old ++ piece.now)) }
    {
        let mut rest = piece;
        while !rest.is_empty() {
            let (ended, behind) = match self.advance(rest) {
                Ok(taken) => taken,
                Err(RowStop::NoMemory) => return Err(SplitFault::NoMemory),
                Err(RowStop::Refused) => return Err(self.fault_of(rest)),
            };
            rest = behind;
            if ended {
                if let Some(epoch) = self.end_row()? {
                    return Ok((Some(epoch), rest));
                }
            }
        }
        Ok((None, rest))
    }

    /// The end of a record that no line feed ends, if there is one.
    fn end_tail(&mut self) -> Result<Option<Epoch>, AllocError>
        ensures { IfOk result (EndsTail self.old self.new) }
    {
        if self.tail.is_empty() {
            return Ok(None);
        }
        self.end_row()
    }

    /// The end of the open epoch, if there is one.
    fn end_body(&mut self) -> Result<Option<Epoch>, AllocError>
        ensures { IfOk result (EndsBody self.old self.new) }
    {
        if self.body.is_empty() {
            return Ok(None);
        }
        Ok(Some(self.hand_out()?))
    }

    /// The last epochs of a text that ends here.
    fn last_epochs(&mut self) -> Result<Vec<Epoch>, AllocError>
        requires kept { IsKept self.old }
        requires ends { ends_text self.old.row.state ≡ true }
        ensures epochs { IfOk result (λ v. AreEpochs self.old.row.column self.old.header.items self.old.lines (self.old.body.items ++ self.old.tail.items) v.items) }
        ensures header { OnOk result (self.new.header ≡ self.old.header) }
    {
        let first = self.end_tail()?;
        let last = self.end_body()?;
        let epochs = listed(self.alloc, first, last)?;
        Ok(epochs)
    }

    /// The end of the text.
    pub fn finish(mut self) -> Result<Ending, SplitFault>
        requires { IsKept self }
        ensures header { IfOk result (λ ending. ending.header.items ≡ self.header.items) }
        ensures whole { OnOk result (HasHeader self) }
        ensures strict { OnOk result (IsStrict (strip_bom (text_in self))) }
        ensures epochs { IfOk result (λ ending. AreEpochs self.row.column self.header.items self.lines (self.body.items ++ self.tail.items) ending.epochs.items) }
        ensures refused { IfErr result (IsFaulty self.lines (text_in self)) }
    {
        if !self.row.state.may_end() {
            return Err(self.fault_of(b""));
        }
        let epochs = self.last_epochs()?;
        Ok(Ending {
            header: self.header,
            epochs,
        })
    }
}
