//! The answer to an input that is followed, from bytes to bytes.

ghost use Rattle.std.specs.Prelude.{◌≡◌, true, IsErrOf};
ghost use Rattle.collector.specs.Watching.{has_failed, inner_of};
ghost use Rattle.commands.specs.Followed.{FollowEnds};
ghost use Rattle.commands.specs.Readings.{FollowsOnHanded, FollowsOver};
ghost use Rattle.follow.specs.Follows.{HasRead};
ghost use Rattle.diagnostics.specs.declared.fault.Fault.TheVariants as fault;

use crate::fault::follow_fault;
use crate::reading::read_query;
use crate::run_options::FollowOptions;
use crate::running::graph_of_text;
use collector::Watched;
use diagnostics::{Fault, Texts};
use follow::{FirstEpoch, Manner, WorkerCount, follow};
use std::alloc::Global;
use std::io::{Read, Write};
use std::thread::Threads;

/// Follows an input over the graph of a query text.
#[tactic(auto, using(crate::proofs::FollowedText::text_ends))]
fn follow_text<R: Threads + Sync, I: Read, W: Write>(
    rt: &R,
    alloc: Global,
    options: FollowOptions,
    query: &[u8],
    input: &mut Watched<I>,
    rest: &mut Vec<u8>,
    writer: &mut Watched<W>,
) -> Result<(), Fault>
    ensures ends { FollowEnds options.first.number query.now (HasRead I.remaining input.old input.new) (W.contents (inner_of writer.old)) (W.contents (inner_of writer.new)) result }
    ensures query { IsErrOf result fault.ReadQuery → ⊥ }
    ensures input { IsErrOf result fault.ReadInput → has_failed input.new ≡ true }
    ensures writer { IsErrOf result fault.Write → has_failed writer.new ≡ true }
{
    let graph = match graph_of_text(alloc, query) {
        Ok(graph) => graph,
        Err(fault) => return Err(fault),
    };
    let manner = Manner {
        workers: WorkerCount::new(options.workers.count()),
        first: FirstEpoch::new(options.first.number()),
    };
    match follow(rt, alloc, manner, graph, input, rest, writer) {
        Ok(()) => Ok(()),
        Err(ending) => Err(follow_fault(ending)),
    }
}

/// Reads a query, then its input as it comes, and writes the answer line by line while it does, with that many workers, and epochs counted from the
/// number of the first. Its promise holds if it ends.
///
/// A line `E f1 f2 ..` is a record of epoch E's answer, with its output's name after E unless the only output is `out`, and a line
/// `complete E` says that all of them have come. Epochs come in order. After a fault what was written stays true of the lines before
/// it: the faults are those of a run, and a fault of the query is reported before the input is opened. The query is left in `texts`, and of the input
/// what was read from a faulty line on.
#[tactic(auto, using(crate::proofs::FollowedText::ends_known, crate::proofs::FollowedText::follows_unread, crate::proofs::FollowedText::follows_read))]
pub fn follow_query<R: Threads + Sync, Q: Read, I: Read, W: Write>(
    rt: &R,
    alloc: Global,
    options: FollowOptions,
    query: &mut Watched<Q>,
    input: &mut Watched<I>,
    texts: &mut Texts,
    writer: &mut Watched<W>,
) -> Result<(), Fault>
    ensures ends { FollowsOver options.first.number (Q.remaining (inner_of query.old)) (I.remaining (inner_of input.old))
        (W.contents (inner_of writer.old)) (W.contents (inner_of writer.new)) result }
    ensures handed { FollowsOnHanded options.first.number Q.remaining I.remaining query.old query.new input.old input.new (W.contents (inner_of writer.old)) (W.contents (inner_of writer.new)) result }
    ensures query { IsErrOf result fault.ReadQuery → has_failed query.new ≡ true }
    ensures input { IsErrOf result fault.ReadInput → has_failed input.new ≡ true }
    ensures writer { IsErrOf result fault.Write → has_failed writer.new ≡ true }
{
    match read_query(alloc, query) {
        Ok(text) => texts.query = text,
        Err(fault) => return Err(fault),
    }
    let mut rest = Vec::new(alloc);
    let ended = follow_text(rt, alloc, options, &texts.query, input, &mut rest, writer);
    if let Err(Fault::Input { line, .. }) = ended {
        texts.input = rest;
        texts.input_from = line;
    }
    ended
}
