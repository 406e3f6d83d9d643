//! The check of a query: its inputs and its arities, written.

ghost use Rattle.std.specs.Prelude.{◌≡◌, true, IfErr, IsErrOf};
ghost use Rattle.collector.specs.Watching.{has_failed, inner_of};
ghost use Rattle.commands.specs.Checks.{CheckEnds};
ghost use Rattle.commands.specs.Readings.{ChecksOnHanded, ChecksOver, KeepsQuery};
ghost use Rattle.commands.specs.Runs.{IsAfterReading};
ghost use Rattle.diagnostics.specs.declared.fault.Fault.TheVariants as fault;

use crate::reading::read_query;
use crate::writing::write_text;
use collector::Watched;
use compile::checked_text;
use diagnostics::{Fault, Texts};
use std::alloc::{Allocator, Global};
use std::io::{Read, Write};

/// Checks a query text, and writes its arities.
fn write_checked<A: Allocator + Copy, W: Write>(
    alloc: Global,
    arena: A,
    query: &[u8],
    writer: &mut Watched<W>,
) -> Result<(), Fault>
    ensures ends { CheckEnds query.now (W.contents (inner_of writer.old)) (W.contents (inner_of writer.new)) result }
    ensures writer { IsErrOf result fault.Write → has_failed writer.new ≡ true }
    ensures read { IfErr result IsAfterReading }
{
    let text = match checked_text(alloc, arena, query) {
        Ok(text) => text,
        Err(fault) => return Err(fault),
    };
    write_text(writer, text.as_slice())
}

/// Reads a query, checks it, and writes its arities: a line `input NAME/ARITY` for each input in order, and for each output
/// `output NAME/ARITY`, or `output ARITY` where it is named `out`. The lines are written together, once all of them are made. The text that
/// was read is left in `texts`.
#[tactic(auto, using(crate::proofs::HandedOver::check_unread, crate::proofs::HandedOver::one_read))]
pub fn check_query<A: Allocator + Copy, Q: Read, W: Write>(
    alloc: Global,
    arena: A,
    query: &mut Watched<Q>,
    texts: &mut Texts,
    writer: &mut Watched<W>,
) -> Result<(), Fault>
    ensures ends { ChecksOver (Q.remaining (inner_of query.old)) (W.contents (inner_of writer.old)) (W.contents (inner_of writer.new)) result }
    ensures handed { ChecksOnHanded Q.remaining query.old query.new (W.contents (inner_of writer.old)) (W.contents (inner_of writer.new)) result }
    ensures query { IsErrOf result fault.ReadQuery → has_failed query.new ≡ true }
    ensures writer { IsErrOf result fault.Write → has_failed writer.new ≡ true }
    ensures kept { KeepsQuery (Q.remaining (inner_of query.old)) result texts.new.query.items }
{
    match read_query(alloc, query) {
        Ok(text) => texts.query = text,
        Err(fault) => return Err(fault),
    }
    write_checked(alloc, arena, &texts.query, writer)
}
