//! The numbers of the refusals.

ghost use Rattle.std.specs.Prelude.{◌≡◌};
ghost use Rattle.record_core.specs.declared.span.Refusal.TheVariants.{At};

use record_core::{Refusal, Span};

/// A scalar or an aggregate computes of a text, or of quantities that don't go together.
pub const COMPUTED: u8 = 26;

/// A condition compares what may not be compared, or orders texts.
pub const COMPARED: u8 = 27;

/// A join compares columns of different kinds.
pub const JOINED: u8 = 28;

/// Relations that are put together, or a loop's start and its body, have fields of different kinds.
pub const PUT_TOGETHER: u8 = 29;

/// The refusal with that number at the place.
pub fn refusal_at(code: u8, span: Span) -> Refusal
    ensures { result ≡ At code span }
{
    Refusal::At { code, span }
}
