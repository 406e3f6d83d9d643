//! The codes of the refusals, with the place of each.

ghost use Rattle.std.specs.Prelude.{◌≡◌};
ghost use Rattle.record_core.specs.declared.span.Refusal.TheVariants.{At};

use record_core::{Refusal, Span};

/// A name that isn't in scope: `output b;` where nothing is called `b`. Its place is the name.
pub const UNKNOWN_NAME: u8 = 11;
/// A name that is in scope and is declared again. Its place is the second declaration's name.
pub const NAME_TAKEN: u8 = 12;
/// A column that its relation hasn't. Its place is the column.
pub const NO_SUCH_COLUMN: u8 = 13;
/// Two relations of different arities in a `concat`, an `except` or an `intersect`. Its place is the whole form.
pub const ARITIES_DIFFER: u8 = 14;
/// A loop's body of another arity than its start. Its place is the body.
pub const BODY_DIFFERS: u8 = 15;
/// An arity of 0 or over 16. Its place is the number of an input, else the whole form.
pub const BAD_ARITY: u8 = 16;
/// Over 65535 turns. Its place is their number.
pub const TOO_MANY_TURNS: u8 = 17;
/// A loop in the bodies of 16 others. Its place is the whole loop.
pub const TOO_DEEP: u8 = 18;
/// An input after 16 others. Its place is the name.
pub const TOO_MANY_INPUTS: u8 = 19;
/// An output's name that an earlier output has. Its place is the second output's name.
pub const OUTPUT_TAKEN: u8 = 20;
/// An output after 16 others. Its place is the word `output`.
pub const TOO_MANY_OUTPUTS: u8 = 23;

/// A refusal with its place.
pub(crate) fn at(code: u8, span: Span) -> Refusal
    ensures { result ≡ At code span }
{
    Refusal::At { code, span }
}
