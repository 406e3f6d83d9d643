//! Why no phrase was read.

ghost use Rattle.std.specs.Prelude.{◌≡◌};
ghost use Rattle.parser.specs.declared.fault.Fault.TheVariants as fault;

use record_core::{NoMemory, Span};
use std::alloc::{AllocError, AllocFailed};

/// The greatest height of a phrase, and the most brackets that may be open at once.
pub const MAX_HEIGHT: u32 = 64;

/// Why no phrase was read, before a refusal is made of it.
#[derive(Clone, Copy)]
pub enum Fault {
    /// The token at that place can't follow the tokens before it; `None` is the end of the text.
    Unexpected(Option<Span>),
    /// The bracket there would be the 65th open one, or the phrase with its head there is higher than 64.
    TooHigh(Span),
    NoMemory,
}

impl From<AllocError> for Fault {
    ghost from_gives = { λ _ f. f ≡ fault.NoMemory };

    fn from(_: AllocError) -> Fault {
        Fault::NoMemory
    }
}

impl<T: Drop> From<AllocFailed<T>> for Fault {
    ghost from_gives = { λ _ f. f ≡ fault.NoMemory };

    fn from(_: AllocFailed<T>) -> Fault {
        Fault::NoMemory
    }
}

impl From<NoMemory> for Fault {
    ghost from_gives = { λ _ f. f ≡ fault.NoMemory };

    fn from(_: NoMemory) -> Fault {
        Fault::NoMemory
    }
}
