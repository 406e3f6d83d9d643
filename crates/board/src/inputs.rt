//! An input of a board, and what was fed to it.

ghost use Rattle.std.specs.Prelude.{◌≡◌, ◌+◌, ◌<◌, [], ◌∷◌, true, false, OnOk, OnErr};
ghost use Rattle.board.specs.Steps.{more_at};

use crate::epochs::Epochs;
use rows::Batch;
use std::alloc::Global;
use std::marker::Model;

/// What was fed to an input, by epoch; its open epoch; and whether it is closed.
#[derive(Drop)]
pub struct Input {
    open_epoch: u32,
    closed: bool,
    fed: Epochs,
}

impl Model for Input {
    ghost use Rattle.board.specs.Shown.{InputShown};

    ghost Value = { InputShown };

    ghost view = { λ i. record { open_epoch = i.open_epoch; closed = i.closed; fed = i.fed } };
}

impl Input {
    /// A new input, open at epoch 0.
    pub fn new(alloc: Global) -> Input
        ensures { result ≡ record { open_epoch = 0; closed = false; fed = [] } }
    {
        Input {
            open_epoch: 0,
            closed: false,
            fed: Epochs::new(alloc),
        }
    }

    #[inline(always)]
    pub fn open_epoch(&self) -> u32
        ensures { result ≡ self.now.open_epoch }
    {
        self.open_epoch
    }

    #[inline(always)]
    pub fn is_closed(&self) -> bool
        ensures { result ≡ self.now.closed }
    {
        self.closed
    }

    #[inline(always)]
    pub fn fed(&self) -> &Epochs
        ensures { result.now ≡ self.now.fed }
    {
        &self.fed
    }

    /// Takes a batch at the open epoch. If memory runs out, nothing changes, and the batch comes back.
    #[inline(always)]
    pub fn feed(&mut self, batch: Batch) -> Result<(), Batch>
        ensures ok { OnOk result (self.new ≡ record self.old { fed = more_at self.old.open_epoch (batch ∷ []) self.old.fed }) }
        ensures err { OnErr result (self.new ≡ self.old) }
    {
        self.fed.add(self.open_epoch, batch)
    }

    /// Ends the open epoch, and opens the next.
    #[inline(always)]
    pub fn seal(&mut self)
        requires { self.old.open_epoch < 4294967295 }
        ensures { self.new ≡ record self.old { open_epoch = self.old.open_epoch + 1 } }
    {
        self.open_epoch += 1;
    }

    pub fn close(&mut self)
        ensures { self.new ≡ record self.old { closed = true } }
    {
        self.closed = true;
    }
}
