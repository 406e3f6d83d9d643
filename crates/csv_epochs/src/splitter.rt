//! A text of CSV, epoch by epoch.

ghost use Rattle.std.specs.Prelude.{◌≡◌, ◌⊎◌, ◌++◌, false, true, [], IfErr, IfOk, OnErr, OnOk};
ghost use Rattle.csv.specs.Reading.{strip_bom};
ghost use Rattle.csv_strict.specs.Strict.{IsStrict};
ghost use Rattle.csv_epochs.specs.Epochs.{AreEpochs, IsFaulty, IsHeader, IsStuck, TakesOf, text_of};

use crate::epoch::{Ending, Epoch, SplitFault};
use crate::open::Open;
use std::alloc::Global;
use std::marker::Model;

/// Takes a text piece by piece, and hands out its epochs: consecutive records with the same cell in one column. It holds the records of one epoch and the
/// bytes of the record behind them. After a fault every call answers with that fault.
#[derive(Drop)]
pub struct Splitter {
    open: Open,
    fault: Option<SplitFault>,
}

impl Model for Splitter {
    ghost use Rattle.std.specs.Prelude.{is_some, ◌≡◌, None};
    ghost use Rattle.csv_epochs.specs.Epochs.{Held};
    ghost use Rattle.csv_epochs.specs.Opened.{IsKept, held_of};

    ghost Value = { Held };

    ghost view = { λ s. held_of s.open (is_some s.fault) };

    ghost invariant = { λ s. s.fault ≡ None → IsKept s.open };
}

impl Splitter {
    /// A splitter by the column of that number, counted from 0, that has taken nothing.
    pub fn new(alloc: Global, column: usize) -> Splitter
        ensures { result ≡ record { column = column; has_header = false; header = []; bytes = []; before = 0; failed = false } }
    {
        Splitter {
            open: Open::new(alloc, column),
            fault: None,
        }
    }

    /// The header row, or what has come of it.
    pub fn header(&self) -> &[u8]
        ensures { result.now ≡ self.now.header }
    {
        self.open.header.as_slice()
    }

    /// Takes the next piece of the text. If a record ends in it that is of another epoch than those before it, the epoch before it is handed out, with what
    /// is left of the piece, which is to be taken next; otherwise the whole piece is taken. A text that isn't strict is refused at its first fault.
    pub fn take<'p>(&mut self, piece: &'p [u8]) -> Result<(Option<Epoch>, &'p [u8]), SplitFault>
        ensures taken { IfOk result (λ r. TakesOf self.old self.new piece.now r.0 r.1.now) }
        ensures refused { self.old.failed ≡ false → IfErr result (IsStuck self.old.before (text_of self.old ++ piece.now)) }
        ensures failed { OnErr result (self.new.failed ≡ true) }
    {
        if let Some(fault) = self.fault {
            return Err(fault);
        }
        match self.open.take(piece) {
            Ok(taken) => Ok(taken),
            Err(fault) => {
                self.fault = Some(fault);
                Err(fault)
            }
        }
    }

    /// The end of the text: hands out the last epochs. A text that may not end here is refused.
    pub fn finish(self) -> Result<Ending, SplitFault>
        ensures going { OnOk result (self.failed ≡ false) }
        ensures header { IfOk result (λ ending. ending.header.items ≡ self.header) }
        ensures whole { OnOk result (IsHeader self.column self.header ⊎ (self.bytes ≡ [])) }
        ensures strict { OnOk result (IsStrict (strip_bom (text_of self))) }
        ensures epochs { IfOk result (λ ending. AreEpochs self.column self.header self.before self.bytes ending.epochs.items) }
        ensures refused { self.failed ≡ false → IfErr result (IsFaulty self.before (text_of self)) }
    {
        match self.fault {
            Some(fault) => Err(fault),
            None => self.open.finish(),
        }
    }
}
