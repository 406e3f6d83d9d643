//! The replay of a schedule, from bytes to bytes.

ghost use Rattle.std.specs.Prelude.{◌≡◌, true, IfErr, IfOk, IsErrOf};
ghost use Rattle.collector.specs.Watching.{has_failed, inner_of};
ghost use Rattle.command_line.specs.Counts.{count_of};
ghost use Rattle.commands.specs.Readings.{HeedsOver, KeepsInput, KeepsQuery, ReplaysOnHanded, ReplaysOver};
ghost use Rattle.commands.specs.Replayed.{IsReplay, IsReplayFault, ReplayEnds};
ghost use Rattle.commands.specs.Runs.{IsAfterReading};
ghost use Rattle.diagnostics.specs.declared.fault.Fault.TheVariants as fault;

use crate::fault::schedule_fault;
use crate::reading::read_texts;
use crate::running::graph_of_text;
use crate::writing::write_text;
use collector::Watched;
use command_line::Workers;
use diagnostics::{Fault, Texts};
use replay::replay_text;
use schedule::ViewKind;
use std::alloc::Global;
use std::io::{Read, Write};

/// The text that a schedule's lines print, over the graph of a query text.
fn text_of_replay(
    alloc: Global,
    workers: Workers,
    kind: ViewKind,
    query: &[u8],
    schedule: &[u8],
) -> Result<Vec<u8>, Fault>
    ensures text { IfOk result (λ t. IsReplay query.now (count_of workers) kind schedule.now t.items) }
    ensures fault { IfErr result (IsReplayFault query.now kind schedule.now) }
{
    let graph = match graph_of_text(alloc, query) {
        Ok(graph) => graph,
        Err(fault) => return Err(fault),
    };
    match replay_text(alloc, graph, workers.count(), kind, schedule) {
        Ok(text) => Ok(text),
        Err(refusal) => Err(schedule_fault(refusal)),
    }
}

/// Writes what a schedule's lines print.
fn write_replayed<W: Write>(
    alloc: Global,
    workers: Workers,
    kind: ViewKind,
    query: &[u8],
    schedule: &[u8],
    writer: &mut Watched<W>,
) -> Result<(), Fault>
    ensures ends { ReplayEnds query.now (count_of workers) kind schedule.now (W.contents (inner_of writer.old)) (W.contents (inner_of writer.new)) result }
    ensures writer { IsErrOf result fault.Write → has_failed writer.new ≡ true }
    ensures read { IfErr result IsAfterReading }
{
    let text = match text_of_replay(alloc, workers, kind, query, schedule) {
        Ok(text) => text,
        Err(fault) => return Err(fault),
    };
    write_text(writer, text.as_slice())
}

/// Reads a query and a schedule, does the schedule's lines on that many workers over the query's graph, and writes what they print. The
/// workers share one view or have views of their own.
///
/// It is written only once all of it is made. Faults are reported in this order: the query can't be read, the schedule can't be read, the
/// query is refused, the schedule is refused, the writer failed. Lack of memory may come at any point. The texts that were read are left
/// in `texts`, the schedule as its input.
#[tactic(auto, using(crate::proofs::Heeding::replay_heeds, crate::proofs::HandedOver::replay_unread, crate::proofs::HandedOver::both_read))]
pub fn replay_schedule<Q: Read, S: Read, W: Write>(
    alloc: Global,
    workers: Workers,
    kind: ViewKind,
    query: &mut Watched<Q>,
    schedule: &mut Watched<S>,
    texts: &mut Texts,
    writer: &mut Watched<W>,
) -> Result<(), Fault>
    ensures ends { ReplaysOver (count_of workers) kind (Q.remaining (inner_of query.old)) (S.remaining (inner_of schedule.old))
        (W.contents (inner_of writer.old)) (W.contents (inner_of writer.new)) result }
    ensures heeds { HeedsOver (Q.remaining (inner_of query.old)) (W.contents (inner_of writer.old)) (W.contents (inner_of writer.new)) result }
    ensures handed { ReplaysOnHanded (count_of workers) kind Q.remaining query.old query.new schedule.old schedule.new
        (W.contents (inner_of writer.old)) (W.contents (inner_of writer.new)) result }
    ensures query { IsErrOf result fault.ReadQuery → has_failed query.new ≡ true }
    ensures schedule { IsErrOf result fault.ReadInput → has_failed schedule.new ≡ true }
    ensures writer { IsErrOf result fault.Write → has_failed writer.new ≡ true }
    ensures kept_query { KeepsQuery (Q.remaining (inner_of query.old)) result texts.new.query.items }
    ensures kept_schedule { KeepsInput (S.remaining (inner_of schedule.old)) result texts.new.input.items }
{
    match read_texts(alloc, query, schedule, texts) {
        Ok(()) => {}
        Err(fault) => return Err(fault),
    }
    write_replayed(alloc, workers, kind, &texts.query, &texts.input, writer)
}
