//! Writes a whole text.

ghost use Rattle.std.specs.Prelude.{IfErr, OnOk};
ghost use Rattle.std.specs.Io.KnownBytes.{Appends};
ghost use Rattle.collector.specs.Watching.{inner_of};
ghost use Rattle.table_faults.specs.Written.{IsWriteFault};

use collector::{Watched, put};
use std::io::Write;
use table_faults::Fault;

/// Writes a text.
pub fn write_text<'a, W: Write>(text: &[u8], out: &mut Watched<W>) -> Result<(), Fault<'a>>
    ensures written { OnOk result (Appends (W.contents (inner_of out.old)) (W.contents (inner_of out.new)) text.now) }
    ensures fault { IfErr result IsWriteFault }
{
    match put(out, text) {
        Ok(()) => Ok(()),
        Err(_) => Err(Fault::Write),
    }
}
