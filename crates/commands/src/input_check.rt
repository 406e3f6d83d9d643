//! The check of a query together with an input, written.

ghost use Rattle.std.specs.Prelude.{◌≡◌, true, IfErr, IfOk, IsErrOf};
ghost use Rattle.collector.specs.Watching.{has_failed, inner_of};
ghost use Rattle.compile.specs.Early.{NotesEarly};
ghost use Rattle.commands.specs.InputChecks.{CheckInputEnds};
ghost use Rattle.commands.specs.Readings.{ChecksBothOnHanded, ChecksBothOver, KeepsInput, KeepsQuery};
ghost use Rattle.commands.specs.Runs.{IsAfterReading};
ghost use Rattle.diagnostics.specs.declared.fault.Fault.TheVariants as fault;

use crate::reading::read_texts;
use crate::writing::write_text;
use collector::Watched;
use compile::{CheckedInput, checked_input};
use diagnostics::{Fault, Texts};
use std::alloc::{Allocator, Global};
use std::io::{Read, Write};

/// Checks a query text and an input text, writes the arities, and notes which inputs are early.
fn write_checked<A: Allocator + Copy, W: Write>(
    alloc: Global,
    arena: A,
    query: &[u8],
    input: &[u8],
    early: &mut Vec<u32>,
    writer: &mut Watched<W>,
) -> Result<(), Fault>
    ensures ends { CheckInputEnds query.now input.now (W.contents (inner_of writer.old)) (W.contents (inner_of writer.new)) result }
    ensures writer { IsErrOf result fault.Write → has_failed writer.new ≡ true }
    ensures read { IfErr result IsAfterReading }
    ensures early { IfOk result (λ _. NotesEarly query.now input.now early.new.items) }
{
    let CheckedInput { text, early: found } = match checked_input(alloc, arena, query, input) {
        Ok(checked) => checked,
        Err(fault) => return Err(fault),
    };
    *early = found;
    write_text(writer, text.as_slice())
}

/// Reads a query and an input, checks both, and writes the query's arities as `check_query` does, once both are right.
///
/// Faults are reported in this order: the query can't be read, the input can't be read, the query is refused, the input is refused, the
/// writer failed. Lack of memory may come at any point. The texts that were read are left in `texts`, with the inputs that are early.
#[tactic(auto, using(crate::proofs::HandedOver::check_input_unread, crate::proofs::HandedOver::both_read))]
pub fn check_input<A: Allocator + Copy, Q: Read, I: Read, W: Write>(
    alloc: Global,
    arena: A,
    query: &mut Watched<Q>,
    input: &mut Watched<I>,
    texts: &mut Texts,
    writer: &mut Watched<W>,
) -> Result<(), Fault>
    ensures ends { ChecksBothOver (Q.remaining (inner_of query.old)) (I.remaining (inner_of input.old))
        (W.contents (inner_of writer.old)) (W.contents (inner_of writer.new)) result }
    ensures handed { ChecksBothOnHanded Q.remaining query.old query.new input.old input.new (W.contents (inner_of writer.old)) (W.contents (inner_of writer.new)) result }
    ensures query { IsErrOf result fault.ReadQuery → has_failed query.new ≡ true }
    ensures input { IsErrOf result fault.ReadInput → has_failed input.new ≡ true }
    ensures writer { IsErrOf result fault.Write → has_failed writer.new ≡ true }
    ensures kept_query { KeepsQuery (Q.remaining (inner_of query.old)) result texts.new.query.items }
    ensures kept_input { KeepsInput (I.remaining (inner_of input.old)) result texts.new.input.items }
    ensures early { IfOk result (λ _. NotesEarly texts.new.query.items texts.new.input.items texts.new.early.items) }
{
    match read_texts(alloc, query, input, texts) {
        Ok(()) => {}
        Err(fault) => return Err(fault),
    }
    let mut early = Vec::new(alloc);
    let done = write_checked(alloc, arena, &texts.query, &texts.input, &mut early, writer);
    texts.early = early;
    done
}
