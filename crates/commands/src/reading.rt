//! What a command reads of its texts.

ghost use Rattle.std.specs.Prelude.{◌≡◌, ◌⊎◌, true, IfErr, IfOk, IfSome, IsErrOf, OnErr, OnOk};
ghost use Rattle.collector.specs.Watching.{HandsAll, HandsSome, has_failed, inner_of};
ghost use Rattle.commands.specs.Readings.{HandsBoth, HandsQuery, KeepsInput, KeepsQuery, read_part};
ghost use Rattle.commands.specs.Runs.{IsUnreadInput, IsUnreadQuery};
ghost use Rattle.diagnostics.specs.declared.fault.Fault.TheVariants as fault;

use collector::{ReadFault, Watched, read_all, read_at_most};
use diagnostics::{Fault, Texts};
use lexer::MAX_LENGTH;
use std::alloc::Global;
use std::io::Read;

/// The longest query text, in bytes, and one byte more: enough to show that a text is too long.
const QUERY_LIMIT: usize = MAX_LENGTH + 1;

/// Reads a query text, and no byte past the limit.
pub fn read_query<Q: Read>(alloc: Global, query: &mut Watched<Q>) -> Result<Vec<u8>, Fault>
    ensures bytes { IfOk result (λ v. IfSome (Q.remaining (inner_of query.old)) (λ q. v.items ≡ read_part q)) }
    ensures failed { IsErrOf result fault.ReadQuery → has_failed query.new ≡ true }
    ensures unread { IfErr result IsUnreadQuery }
    ensures hands { IfOk result (λ v. HandsQuery Q.remaining query.old query.new v.items) }
    ensures part { OnErr result (HandsSome query.old query.new) }
{
    match read_at_most(alloc, QUERY_LIMIT, query) {
        Ok(bytes) => Ok(bytes),
        Err(ReadFault::Failed) => Err(Fault::ReadQuery),
        Err(ReadFault::NoMemory) => Err(Fault::NoMemory),
    }
}

/// Reads an input text, or a schedule.
fn read_input_text<I: Read>(alloc: Global, input: &mut Watched<I>) -> Result<Vec<u8>, Fault>
    ensures bytes { IfOk result (λ v. IfSome (I.remaining (inner_of input.old)) (λ i. v.items ≡ i)) }
    ensures failed { IsErrOf result fault.ReadInput → has_failed input.new ≡ true }
    ensures unread { IfErr result IsUnreadInput }
    ensures hands { IfOk result (λ v. HandsAll input.old input.new v.items) }
    ensures part { OnErr result (HandsSome input.old input.new) }
{
    match read_all(alloc, input) {
        Ok(bytes) => Ok(bytes),
        Err(ReadFault::Failed) => Err(Fault::ReadInput),
        Err(ReadFault::NoMemory) => Err(Fault::NoMemory),
    }
}

/// Reads a query, and then its input or its schedule. What was read is left in `texts`.
#[tactic(auto, using(crate::proofs::HandedOver::hands_nothing, crate::proofs::HandedOver::hands_part))]
pub fn read_texts<Q: Read, I: Read>(
    alloc: Global,
    query: &mut Watched<Q>,
    input: &mut Watched<I>,
    texts: &mut Texts,
) -> Result<(), Fault>
    ensures query { OnOk result (IfSome (Q.remaining (inner_of query.old)) (λ q. texts.new.query.items ≡ read_part q)) }
    ensures input { OnOk result (IfSome (I.remaining (inner_of input.old)) (λ i. texts.new.input.items ≡ i)) }
    ensures failed_query { IsErrOf result fault.ReadQuery → has_failed query.new ≡ true }
    ensures failed_input { IsErrOf result fault.ReadInput → has_failed input.new ≡ true }
    ensures unread { IfErr result (λ e. IsUnreadQuery e ⊎ IsUnreadInput e) }
    ensures kept_query { KeepsQuery (Q.remaining (inner_of query.old)) result texts.new.query.items }
    ensures kept_input { KeepsInput (I.remaining (inner_of input.old)) result texts.new.input.items }
    ensures hands { OnOk result (HandsBoth Q.remaining query.old query.new input.old input.new texts.new.query.items texts.new.input.items) }
    ensures part { OnErr result (HandsSome query.old query.new × HandsSome input.old input.new) }
{
    match read_query(alloc, query) {
        Ok(text) => texts.query = text,
        Err(fault) => return Err(fault),
    }
    match read_input_text(alloc, input) {
        Ok(text) => texts.input = text,
        Err(fault) => return Err(fault),
    }
    Ok(())
}
