//! What a command line calls the first epoch.

ghost use Rattle.std.specs.Prelude.{◌≡◌, ◌≤◌, IfNone, IfSome};

/// The number of the first epoch, 0 to 9223372036854775807.
#[derive(Clone, Copy)]
pub struct FirstEpoch {
    number: u64,
    ghost few: { number ≤ 9223372036854775807 },
}

impl FirstEpoch {
    /// Epoch 0.
    pub fn zero() -> FirstEpoch
        ensures { result.number ≡ 0 }
    {
        FirstEpoch { number: 0 }
    }

    /// The epoch of that number. None exactly where it isn't 0 to 9223372036854775807.
    pub fn new(number: u64) -> Option<FirstEpoch>
        ensures found { IfSome result (λ f. f.number ≡ number) }
        ensures none { IfNone result (number ≤ 9223372036854775807 → ⊥) }
    {
        if number <= 9_223_372_036_854_775_807 {
            Some(FirstEpoch { number })
        } else {
            None
        }
    }

    /// The number.
    pub fn number(self) -> u64
        ensures value { result ≡ self.number }
        ensures few { result ≤ 9223372036854775807 }
    {
        self.number
    }
}
