//! What a command prints, written.

ghost use Rattle.std.specs.Prelude.{◌≡◌, true, IfErr, OnOk, OnErr};
ghost use Rattle.std.specs.Io.KnownBytes.{Appends};
ghost use Rattle.collector.specs.Watching.{has_failed, inner_of};
ghost use Rattle.collector.specs.WrittenBytes.{AppendsFront};
ghost use Rattle.diagnostics.specs.declared.fault.Fault.TheVariants as fault;

use collector::{Watched, put};
use diagnostics::Fault;
use std::io::Write;

/// Writes a text. Its only fault is that of a writer that failed.
pub fn write_text<W: Write>(writer: &mut Watched<W>, text: &[u8]) -> Result<(), Fault>
    ensures whole { OnOk result (Appends (W.contents (inner_of writer.old)) (W.contents (inner_of writer.new)) text.now) }
    ensures front { OnErr result (AppendsFront (W.contents (inner_of writer.old)) (W.contents (inner_of writer.new)) text.now) }
    ensures fault { IfErr result (λ e. e ≡ fault.Write) }
    ensures failed { OnErr result (has_failed writer.new ≡ true) }
{
    match put(writer, text) {
        Ok(()) => Ok(()),
        Err(_) => Err(Fault::Write),
    }
}
