//! A record, byte by byte.

ghost use Rattle.std.specs.Prelude.{◌≡◌, ◌≢◌, [], IfErr, IfOk, OnOk};
ghost use Rattle.csv_strict.specs.declared.state.State.TheVariants.{Record};
ghost use Rattle.csv_epochs.specs.Cells.{add_quoted, after};
ghost use Rattle.csv_epochs.specs.Places.{add_byte};
ghost use Rattle.csv_epochs.specs.declared.row.RowStop.TheVariants as stop;
ghost use Rattle.csv_epochs.specs.Rows.{IsStuckRow, Moves, Reads, reading_of};

use crate::place::Place;
use csv_strict::State;
use std::alloc::{AllocError, Global};

/// What was read of a record.
#[derive(Drop)]
pub struct Row {
    /// The number of the column that is asked for, from 0.
    pub column: usize,
    pub state: State,
    pub place: Place,
    /// The bytes of the cell so far.
    pub cell: Vec<u8>,
}

/// Why a record isn't read on.
#[derive(Clone, Copy)]
pub enum RowStop {
    NoMemory,
    /// A byte may not come.
    Refused,
}

impl From<AllocError> for RowStop {
    ghost from_gives = { λ _ e. e ≡ stop.NoMemory };

    fn from(_error: AllocError) -> RowStop {
        RowStop::NoMemory
    }
}

impl Row {
    /// The beginning of a record.
    pub fn new(alloc: Global, column: usize) -> Row
        ensures reading { reading_of result ≡ after column [] }
        ensures column { result.column ≡ column }
    {
        Row {
            column,
            state: State::Record,
            place: Place::before(column),
            cell: Vec::new(alloc),
        }
    }

    /// Begins the next record.
    pub fn restart(&mut self)
        ensures reading { reading_of self.new ≡ after self.old.column [] }
        ensures column { self.new.column ≡ self.old.column }
    {
        self.state = State::Record;
        self.place = Place::before(self.column);
        self.cell.clear();
    }

    /// Adds a byte to the cell, if it is one of the cell.
    fn add(&mut self, byte: u8) -> Result<(), AllocError>
        ensures column { OnOk result (self.new.column ≡ self.old.column) }
        ensures state { OnOk result (self.new.state ≡ self.old.state) }
        ensures place { OnOk result (self.new.place ≡ self.old.place) }
        ensures cell { OnOk result (self.new.cell.items ≡ add_byte self.old.place self.old.cell.items byte) }
    {
        match self.place {
            Place::Inside => self.cell.push(byte)?,
            Place::Before(_) | Place::Behind => {}
        }
        Ok(())
    }

    /// Adds a byte between quotes to the cell; the quote that opens it isn't one of its bytes.
    fn add_quoted(&mut self, byte: u8) -> Result<(), AllocError>
        ensures column { OnOk result (self.new.column ≡ self.old.column) }
        ensures place { OnOk result (self.new.place ≡ self.old.place) }
        ensures cell { OnOk result (self.new.cell.items ≡ add_quoted self.old.state self.old.place self.old.cell.items byte) }
    {
        match self.state {
            State::Quoted | State::Quote => self.add(byte),
            State::Record | State::Field | State::Bare | State::Return => Ok(()),
        }
    }

    /// Takes a byte that leads to a state in the same record.
    fn step(&mut self, byte: u8, next: State) -> Result<(), AllocError>
        requires { next ≢ Record }
        ensures { OnOk result (Moves self.old self.new byte next) }
    {
        match next {
            State::Field => self.place = self.place.next(),
            State::Bare => self.add(byte)?,
            State::Quoted => self.add_quoted(byte)?,
            State::Record | State::Quote | State::Return => {}
        }
        self.state = next;
        Ok(())
    }

    /// Reads the piece up to the end of the record, and gives the number of bytes; `None` if the piece ends before the record does.
    pub fn read_on(&mut self, piece: &[u8]) -> Result<Option<usize>, RowStop>
        ensures reads { IfOk result (Reads self.old self.new piece.now) }
        ensures refused { IfErr result (IsStuckRow self.old piece.now) }
    {
        for i in 0..piece.len() {
            let Some(next) = self.state.next(piece[i]) else {
                return Err(RowStop::Refused);
            };
            if next == State::Record {
                self.state = next;
                return Ok(Some(i + 1));
            }
            self.step(piece[i], next)?;
        }
        Ok(None)
    }
}
