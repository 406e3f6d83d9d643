//! The canonical form of a query, written.

ghost use Rattle.std.specs.Prelude.{◌≡◌, true, IfErr, IsErrOf};
ghost use Rattle.collector.specs.Watching.{has_failed, inner_of};
ghost use Rattle.commands.specs.Formats.{FormatEnds};
ghost use Rattle.commands.specs.Readings.{FormatsOnHanded, FormatsOver, KeepsQuery};
ghost use Rattle.commands.specs.Runs.{IsAfterReading};
ghost use Rattle.diagnostics.specs.declared.fault.Fault.TheVariants as fault;

use crate::reading::read_query;
use crate::writing::write_text;
use collector::Watched;
use compile::canonical_text;
use diagnostics::{Fault, Texts};
use std::alloc::{Allocator, Global};
use std::io::{Read, Write};

/// Writes the canonical text of a query.
fn write_canonical<A: Allocator + Copy, W: Write>(
    alloc: Global,
    arena: A,
    query: &[u8],
    writer: &mut Watched<W>,
) -> Result<(), Fault>
    ensures ends { FormatEnds query.now (W.contents (inner_of writer.old)) (W.contents (inner_of writer.new)) result }
    ensures writer { IsErrOf result fault.Write → has_failed writer.new ≡ true }
    ensures read { IfErr result IsAfterReading }
{
    let text = match canonical_text(alloc, arena, query) {
        Ok(text) => text,
        Err(fault) => return Err(fault),
    };
    write_text(writer, text.as_slice())
}

/// Reads a query, and writes its canonical text: each item on a line, one space between words, and brackets only where they are
/// needed. It need not be well typed. Where the canonical text is no longer than a query may be, 1,048,576 bytes, it reads as the same
/// query. It is written only once all of it is made. The text that was read is left in `texts`.
#[tactic(auto, using(crate::proofs::HandedOver::format_unread, crate::proofs::HandedOver::one_read))]
pub fn format_query<A: Allocator + Copy, Q: Read, W: Write>(
    alloc: Global,
    arena: A,
    query: &mut Watched<Q>,
    texts: &mut Texts,
    writer: &mut Watched<W>,
) -> Result<(), Fault>
    ensures ends { FormatsOver (Q.remaining (inner_of query.old)) (W.contents (inner_of writer.old)) (W.contents (inner_of writer.new)) result }
    ensures handed { FormatsOnHanded Q.remaining query.old query.new (W.contents (inner_of writer.old)) (W.contents (inner_of writer.new)) result }
    ensures query { IsErrOf result fault.ReadQuery → has_failed query.new ≡ true }
    ensures writer { IsErrOf result fault.Write → has_failed writer.new ≡ true }
    ensures kept { KeepsQuery (Q.remaining (inner_of query.old)) result texts.new.query.items }
{
    match read_query(alloc, query) {
        Ok(text) => texts.query = text,
        Err(fault) => return Err(fault),
    }
    write_canonical(alloc, arena, &texts.query, writer)
}
