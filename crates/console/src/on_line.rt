//! Queries on the command line itself.

ghost use Rattle.std.specs.Prelude.{◌≡◌, Some};

use collector::Sources;

/// The texts that stand on the line: each is its own name.
#[derive(Clone, Copy)]
pub struct OnLine;

impl<'a> Sources<'a> for OnLine {
    type Reader = &'a [u8];

    ghost content = { λ _ name. Some name };

    fn open(&self, name: &'a str) -> &'a [u8]
        ensures { Some result.now ≡ Some name.entry.now }
    {
        name.as_bytes()
    }
}
