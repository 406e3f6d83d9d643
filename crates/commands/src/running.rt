//! A run, from bytes to bytes.

ghost use Rattle.std.specs.Prelude.{◌≡◌, ◌⊎◌, ◌<◌, ◌≤◌, [], length, true, IfOk, IfErr, IsErrOf};
ghost use Rattle.graph.specs.Shown.{shown_graph, shown_inputs, shown_names};
ghost use Rattle.graph.specs.Limits.{max_vertices};
ghost use Rattle.collector.specs.InputText.{IsReadFrom, IsRefused};
ghost use Rattle.collector.specs.Watching.{has_failed, inner_of};
ghost use Rattle.compile.specs.Compiled.{IsCompiled, IsQueryFault};
ghost use Rattle.compile.specs.Early.{NotesEarly, early_inputs};
ghost use Rattle.command_line.specs.Counts.{count_of};
ghost use Rattle.commands.specs.Answers.{RespondsBy};
ghost use Rattle.commands.specs.Heeded.{Heeds};
ghost use Rattle.commands.specs.Readings.{HeedsOver, KeepsInput, KeepsQuery, RunsOnHanded, RunsOver};
ghost use Rattle.commands.specs.Reported.{ReportsFor, ReportsOver};
ghost use Rattle.commands.specs.Runs.{Ends, IsAfterReading};
ghost use Rattle.execution.specs.Single.{Fit};
ghost use Rattle.diagnostics.specs.declared.fault.Fault.TheVariants as fault;

use crate::graph_answer::respond;
use crate::reading::read_texts;
use crate::run_options::RunOptions;
use crate::streams::Streams;
use bumpalo::Bump;
use collector::{Epochs, InputRefusal, Watched};
use command_line::Workers;
use compile::{compile, graph_fault, input_fault, noted_early};
use diagnostics::{Fault, Texts};
use driver::law_inputs;
use execution::Gate;
use graph::Graph;
use parallel_texts::read_by_threads;
use std::alloc::Global;
use std::io::{Read, Write};
use std::sync::Wait;
use std::thread::Threads;

/// The graph of a query text; its tree is gone.
pub fn graph_of_text(alloc: Global, query: &[u8]) -> Result<Graph, Fault>
    ensures graph { IfOk result (λ g. IsCompiled query.now (shown_graph g) (shown_inputs g) (shown_names g)) }
    ensures few { IfOk result (λ g. length (shown_graph g) ≤ max_vertices) }
    ensures fault { IfErr result (IsQueryFault query.now) }
{
    let arena = Bump::new(alloc);
    match compile(alloc, &arena, query) {
        Ok(graph) => Ok(graph),
        Err(fault) => Err(graph_fault(fault)),
    }
}

/// The epochs of an input text, for the inputs of a graph, read by as many threads as there are workers.
fn epochs_of_text<R: Threads + Sync>(
    rt: &R,
    alloc: Global,
    workers: Workers,
    graph: &Graph,
    input: &[u8],
) -> Result<Epochs, InputRefusal>
    ensures read { IfOk result (λ e. IsReadFrom (shown_inputs graph.now) input.now e) }
    ensures refused { IfErr result (IsRefused (shown_inputs graph.now) input.now) }
{
    read_by_threads(rt, alloc, workers.count(), input, graph.inputs())
}

/// Answers the query of a graph over epochs that were read for its inputs, and notes which inputs are early.
pub(crate) fn answer_epochs<
    R: Threads + Wait + Sync,
    G: Gate + Sync,
    W: Write,
    O: Write + Send + Drop,
    E: Write,
>(
    rt: &R,
    alloc: Global,
    options: RunOptions<'_, G>,
    graph: Graph,
    epochs: &Epochs,
    early: &mut Vec<u32>,
    streams: &mut Streams<W, E, O>,
) -> Result<(), Fault>
    requires { Fit epochs.now graph }
    ensures text { RespondsBy graph epochs.now (W.contents (inner_of streams.old.out)) (W.contents (inner_of streams.new.out)) result }
    ensures failed { IsErrOf result fault.Write → has_failed streams.new.out ≡ true }
    ensures several { IsErrOf result fault.NoWorker → 1 < count_of options.entry.workers }
    ensures whole { count_of options.entry.workers ≡ 1 → IsErrOf result fault.Incomplete → ⊥ }
    ensures counts { ReportsFor options.entry.stats graph epochs.now (E.contents streams.old.err) (E.contents streams.new.err) }
    ensures early { (early.new.items ≡ []) ⊎ (early.new.items ≡ early_inputs epochs.now (length (shown_inputs graph))) }
{
    *early = noted_early(alloc, epochs, graph.inputs().len());
    respond(rt, alloc, options, graph, epochs, streams)
}

/// Answers a query text over an input text, and notes which inputs are early.
pub(crate) fn answer<
    R: Threads + Wait + Sync,
    G: Gate + Sync,
    W: Write,
    O: Write + Send + Drop,
    E: Write,
>(
    rt: &R,
    alloc: Global,
    options: RunOptions<'_, G>,
    query: &[u8],
    input: &[u8],
    early: &mut Vec<u32>,
    streams: &mut Streams<W, E, O>,
) -> Result<(), Fault>
    ensures ends { Ends query.now input.now (W.contents (inner_of streams.old.out)) (W.contents (inner_of streams.new.out)) result }
    ensures heeds { Heeds query.now (W.contents (inner_of streams.old.out)) (W.contents (inner_of streams.new.out)) result }
    ensures failed { IsErrOf result fault.Write → has_failed streams.new.out ≡ true }
    ensures several { IsErrOf result fault.NoWorker → 1 < count_of options.entry.workers }
    ensures whole { count_of options.entry.workers ≡ 1 → IsErrOf result fault.Incomplete → ⊥ }
    ensures read { IfErr result IsAfterReading }
    ensures counts { ReportsOver options.entry.stats query.now input.now (E.contents streams.old.err) (E.contents streams.new.err) }
    ensures early { IfOk result (λ _. NotesEarly query.now input.now early.new.items) }
{
    let graph = match graph_of_text(alloc, query) {
        Ok(graph) => graph,
        Err(fault) => return Err(fault),
    };
    let epochs = match epochs_of_text(rt, alloc, options.workers, &graph, input) {
        Ok(epochs) => epochs,
        Err(refusal) => return Err(input_fault(refusal)),
    };
    law_inputs(&graph);
    answer_epochs(rt, alloc, options, graph, &epochs, early, streams)
}

/// Reads a query and its input, and writes the answer. Its promise holds if it ends. The gate computes each event; the program's is `NoGate`.
///
/// Faults are reported in this order: the query can't be read, the input can't be read, the query is refused, the input is refused, a count
/// is too large, the writer failed. Lack of memory may come at any point, but a count that was too large at any worker is reported before
/// it, and a worker that can't be started before anything is written. The texts that were read are left in `texts`. A watcher gets lines
/// `passed M` with rising numbers, the last one once all workers have ended; if its writer fails, nothing else changes. If `stats` is asked
/// for, lines on `err` say, once the answer is written, what each vertex of the graph computed, took in and sent; if that writer fails,
/// nothing else changes. The inputs that are fed in the first epoch alone, where others are fed later, are noted in `texts`.
pub fn run<
    R: Threads + Wait + Sync,
    G: Gate + Sync,
    Q: Read,
    I: Read,
    W: Write,
    O: Write + Send + Drop,
    E: Write,
>(
    rt: &R,
    alloc: Global,
    options: RunOptions<'_, G>,
    query: &mut Watched<Q>,
    input: &mut Watched<I>,
    texts: &mut Texts,
    streams: &mut Streams<W, E, O>,
) -> Result<(), Fault>
    ensures ends { RunsOver (Q.remaining (inner_of query.old)) (I.remaining (inner_of input.old))
        (W.contents (inner_of streams.old.out)) (W.contents (inner_of streams.new.out)) result }
    ensures heeds { HeedsOver (Q.remaining (inner_of query.old)) (W.contents (inner_of streams.old.out)) (W.contents (inner_of streams.new.out)) result }
    ensures handed { RunsOnHanded Q.remaining query.old query.new input.old input.new (W.contents (inner_of streams.old.out)) (W.contents (inner_of streams.new.out)) result }
    ensures query { IsErrOf result fault.ReadQuery → has_failed query.new ≡ true }
    ensures input { IsErrOf result fault.ReadInput → has_failed input.new ≡ true }
    ensures writer { IsErrOf result fault.Write → has_failed streams.new.out ≡ true }
    ensures several { IsErrOf result fault.NoWorker → 1 < count_of options.entry.workers }
    ensures whole { count_of options.entry.workers ≡ 1 → IsErrOf result fault.Incomplete → ⊥ }
    ensures kept_query { KeepsQuery (Q.remaining (inner_of query.old)) result texts.new.query.items }
    ensures kept_input { KeepsInput (I.remaining (inner_of input.old)) result texts.new.input.items }
    ensures counts { ReportsOver options.entry.stats texts.new.query.items texts.new.input.items (E.contents streams.old.err) (E.contents streams.new.err) }
    ensures early { IfOk result (λ _. NotesEarly texts.new.query.items texts.new.input.items texts.new.early.items) }
{
    match read_texts(alloc, query, input, texts) {
        Ok(()) => {}
        Err(fault) => return Err(fault),
    }
    let mut early = Vec::new(alloc);
    let done = answer(
        rt,
        alloc,
        options,
        &texts.query,
        &texts.input,
        &mut early,
        streams,
    );
    texts.early = early;
    done
}
