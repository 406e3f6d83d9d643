//! What epochs are called.

ghost use Rattle.std.specs.Prelude.{◌≡◌, ◌+◌, ◌≤◌};

/// What the first epoch of an input is called, at most 9223372036854775807: so each epoch of it has a number of 64 bits.
#[derive(Clone, Copy)]
pub struct FirstEpoch {
    number: u64,
    ghost few: { number ≤ 9223372036854775807 },
}

impl FirstEpoch {
    /// That number.
    pub fn new(number: u64) -> FirstEpoch
        requires { number ≤ 9223372036854775807 }
        ensures { result.number ≡ number }
    {
        FirstEpoch { number }
    }
}

/// What a board's epochs are called: its epoch 0 is the input's epoch `base`.
#[derive(Clone, Copy)]
pub struct Numbering {
    pub first: FirstEpoch,
    pub base: u32,
}

impl Numbering {
    /// What a board's epoch is called.
    pub fn number(self, epoch: u32) -> u64
        requires { self.base + epoch ≤ 4294967295 }
        ensures { result ≡ self.first.number + (self.base + epoch) }
    {
        self.first.number + u64::from(self.base + epoch)
    }
}
