//! Where the lines of an input text go.

ghost use Rattle.std.specs.Prelude.{◌≡◌, ◌++◌, ℕ, List, OnOk, ⊤};
ghost use Rattle.csv_cells.specs.Encoded.{line_text};
ghost use Rattle.tables.specs.declared.line_sink.SinkFault.TheVariants as fault;

use csv_cells::append_line;
use std::alloc::AllocError;

/// Why lines aren't taken.
#[derive(Clone, Copy)]
pub enum SinkFault {
    NoMemory,
    /// What takes them says why.
    Stopped,
}

impl From<AllocError> for SinkFault {
    ghost from_gives = { λ _ f. f ≡ fault.NoMemory };

    fn from(_: AllocError) -> SinkFault {
        SinkFault::NoMemory
    }
}

/// Takes the lines of an input text, one behind the other.
pub trait LineSink {
    // Since the first it has taken these lines.
    ghost took: { (first now : Self) → List ℕ → Type 0 };

    // What is true of it since the first, whether it takes what it is given or refuses it.
    ghost stays: { (first now : Self) → Type 0 };

    /// Takes whole lines.
    fn append(&mut self, lines: &[u8]) -> Result<(), SinkFault>
        ensures taken { (first : Self) (taken : List ℕ) → took first self.old taken → OnOk result (took first self.new (taken ++ lines.now)) }
        ensures stays { (first : Self) → stays first self.old → stays first self.new };

    /// Takes the line of a record.
    fn append_row(&mut self, name: &[u8], numbers: &[i64]) -> Result<(), SinkFault>
        ensures taken { (first : Self) (taken : List ℕ) → took first self.old taken → OnOk result (took first self.new (taken ++ line_text name.now numbers.now)) }
        ensures stays { (first : Self) → stays first self.old → stays first self.new };
}

impl LineSink for Vec<u8> {
    ghost took = { λ first now taken. now.items ≡ first.items ++ taken };

    ghost stays = { λ _ _. ⊤ };

    #[inline(always)]
    fn append(&mut self, lines: &[u8]) -> Result<(), SinkFault> {
        self.extend_from_slice(lines)?;
        Ok(())
    }

    #[inline(always)]
    fn append_row(&mut self, name: &[u8], numbers: &[i64]) -> Result<(), SinkFault> {
        append_line(self, name, numbers)?;
        Ok(())
    }
}
