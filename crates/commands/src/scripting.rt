//! The script of a query, written.

ghost use Rattle.std.specs.Prelude.{◌≡◌, true, IfErr, IsErrOf};
ghost use Rattle.collector.specs.Watching.{has_failed, inner_of};
ghost use Rattle.commands.specs.Scripts.{ScriptEnds};
ghost use Rattle.commands.specs.Readings.{KeepsQuery, ScriptsOnHanded, ScriptsOver};
ghost use Rattle.commands.specs.Runs.{IsAfterReading};
ghost use Rattle.sql.specs.Asked.{asked_of};
ghost use Rattle.diagnostics.specs.declared.fault.Fault.TheVariants as fault;

use crate::reading::read_query;
use crate::writing::write_text;
use collector::Watched;
use compile::{Request, script_text};
use diagnostics::{Fault, Texts};
use std::alloc::{Allocator, Global};
use std::io::{Read, Write};

/// Writes the script of a query.
fn write_script<A: Allocator + Copy, W: Write>(
    alloc: Global,
    arena: A,
    request: Request<'_>,
    query: &[u8],
    writer: &mut Watched<W>,
) -> Result<(), Fault>
    ensures ends { ScriptEnds (asked_of request.entry) query.now (W.contents (inner_of writer.old)) (W.contents (inner_of writer.new)) result }
    ensures writer { IsErrOf result fault.Write → has_failed writer.new ≡ true }
    ensures read { IfErr result IsAfterReading }
{
    let text = match script_text(alloc, arena, query, request) {
        Ok(text) => text,
        Err(fault) => return Err(fault),
    };
    write_text(writer, text.as_slice())
}

/// Reads a query, and writes its script of SQL, as it is asked for. It is written only once all of it is made. A query that takes more than 4096
/// tables is refused, and one without the output that is asked for. The text that was read is left in `texts`.
#[tactic(auto, using(crate::proofs::HandedOver::script_unread, crate::proofs::HandedOver::one_read))]
pub fn script_query<A: Allocator + Copy, Q: Read, W: Write>(
    alloc: Global,
    arena: A,
    request: Request<'_>,
    query: &mut Watched<Q>,
    texts: &mut Texts,
    writer: &mut Watched<W>,
) -> Result<(), Fault>
    ensures ends { ScriptsOver (asked_of request.entry) (Q.remaining (inner_of query.old)) (W.contents (inner_of writer.old)) (W.contents (inner_of writer.new)) result }
    ensures handed { ScriptsOnHanded (asked_of request.entry) Q.remaining query.old query.new (W.contents (inner_of writer.old)) (W.contents (inner_of writer.new)) result }
    ensures query { IsErrOf result fault.ReadQuery → has_failed query.new ≡ true }
    ensures writer { IsErrOf result fault.Write → has_failed writer.new ≡ true }
    ensures kept { KeepsQuery (Q.remaining (inner_of query.old)) result texts.new.query.items }
{
    match read_query(alloc, query) {
        Ok(text) => texts.query = text,
        Err(fault) => return Err(fault),
    }
    write_script(alloc, arena, request, &texts.query, writer)
}
