//! Where the texts of a command are found.

ghost use Rattle.std.specs.Prelude.{◌≡◌, ℕ, List, Option, None};

use std::io::Read;

/// Opens the texts that a command line names.
pub trait Sources<'a> {
    /// A text, as it is read. One that isn't there fails at its first read, so faults are reported in the order of reading.
    type Reader: Read + Drop;

    // the bytes of the text of each name, where they are known
    ghost content: { Self → List ℕ → Option (List ℕ) } = { λ _ _. None };

    /// The text of that name.
    fn open(&self, name: &'a str) -> Self::Reader
        ensures { Self.Reader.remaining result ≡ content self.now name.entry.now };
}
