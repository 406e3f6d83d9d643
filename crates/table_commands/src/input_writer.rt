//! Writes the lines of an input text as they come.

ghost use Rattle.std.specs.Prelude.{◌≡◌, ◌++◌, [], List, OnOk, false, ℕ};
ghost use Rattle.std.specs.Io.KnownBytes.{Appends};
ghost use Rattle.collector.specs.Watching.{inner_of};
ghost use Rattle.table_commands.specs.Streamed.{WritesNoMark};
ghost use Rattle.table_commands.specs.declared.input_writer.InputWriter.{InputWriter};

use collector::{Watched, put};
use csv_cells::append_line;
use std::alloc::Global;
use std::io::Write;
use tables::{LineSink, SinkFault};

/// The last line of an input that has an end mark.
pub(crate) const END_MARK: &[u8] = b"end\n";

/// From this number of bytes on, the lines are written.
const PIECE: usize = 65_536;

/// Writes the lines of an input text in long pieces. What was written never ends with the end mark; the last lines are left to its owner.
#[derive(Drop)]
pub(crate) struct InputWriter<'o, W> {
    pub(crate) out: &'o mut Watched<W>,
    pub(crate) lines: Vec<u8>,
    /// Whether the writer failed.
    pub(crate) broken: bool,
}

impl<'o, W> InputWriter<'o, W> {
    /// Without lines yet.
    pub(crate) fn new(alloc: Global, out: &'o mut Watched<W>) -> InputWriter<'o, W>
        ensures out { result.out ≡ out.entry }
        ensures lines { result.lines.items ≡ [] }
        ensures whole { result.broken ≡ false }
    {
        InputWriter {
            out,
            lines: Vec::new(alloc),
            broken: false,
        }
    }
}

impl<W: Write> InputWriter<'_, W> {
    /// Writes the lines if they are many. None that end as the end mark does are written, before others have come behind them.
    fn write_many(&mut self) -> Result<(), SinkFault>
        ensures taken { OnOk result ((given : List ℕ) × (self.new.out.ghost_name ≡ self.old.out.ghost_name)
            × Appends (W.contents (inner_of self.old.out.now)) (W.contents (inner_of self.new.out.now)) given × (self.old.lines.items ≡ given ++ self.new.lines.items)) }
        ensures stays { (first : InputWriter W) → WritesNoMark W.contents first self.old → WritesNoMark W.contents first self.new }
    {
        let lines = self.lines.as_slice();
        let len = lines.len();
        if len < PIECE || lines[len - 2] == b'd' {
            return Ok(());
        }
        if put(self.out, lines).is_err() {
            self.broken = true;
            return Err(SinkFault::Stopped);
        }
        self.lines.clear();
        Ok(())
    }
}

impl<W: Write> LineSink for InputWriter<'_, W> {
    ghost use Rattle.table_commands.specs.Streamed.{HasWritten, WritesNoMark};

    ghost took = { HasWritten W.contents };

    ghost stays = { WritesNoMark W.contents };

    fn append(&mut self, lines: &[u8]) -> Result<(), SinkFault> {
        self.lines.extend_from_slice(lines)?;
        self.write_many()
    }

    fn append_row(&mut self, name: &[u8], numbers: &[i64]) -> Result<(), SinkFault> {
        append_line(&mut self.lines, name, numbers)?;
        self.write_many()
    }
}
