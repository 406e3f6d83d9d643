//! What a graph makes of epochs, computed and written.

ghost use Rattle.std.specs.Prelude.{◌≡◌, ◌<◌, ◌≤◌, true, length, IsErrOf};
ghost use Rattle.board.specs.Promises.{IsOpening};
ghost use Rattle.collector.specs.Watching.{has_failed, inner_of};
ghost use Rattle.command_line.specs.Counts.{count_of};
ghost use Rattle.commands.specs.Answers.{RespondsBy};
ghost use Rattle.commands.specs.Reported.{ReportsFor, ReportsRun};
ghost use Rattle.execution.specs.Fed.{IsWorkedOff};
ghost use Rattle.execution.specs.Single.{Fit};
ghost use Rattle.diagnostics.specs.declared.fault.Fault.TheVariants as fault;

use crate::counting::{Reporting, report_counts};
use crate::fault::run_fault;
use crate::run_options::RunOptions;
use crate::streams::Streams;
use board::Board;
use collector::{Epochs, OutFault, Watched, write_epochs};
use diagnostics::Fault;
use execution::{Gate, Parallelism, Report, Start, Unfinished, emitted, execute};
use graph::Graph;
use parallel_texts::ParallelSorter;
use std::alloc::Global;
use std::io::Write;
use std::sync::{Arc, Wait};
use std::thread::Threads;
use views::Views;

/// Writes what a run that is worked off has emitted; up to that many threads sort the records of an epoch.
fn write_emitted<V: Views, R: Threads + Sync, W: Write>(
    rt: &R,
    alloc: Global,
    report: &Report<V>,
    threads: u32,
    epochs: &Epochs,
    writer: &mut Watched<W>,
) -> Result<(), Fault>
    requires { IsWorkedOff report.now.graph report.now epochs.now }
    ensures text { RespondsBy report.now.graph epochs.now (W.contents (inner_of writer.old)) (W.contents (inner_of writer.new)) result }
    ensures failed { IsErrOf result fault.Write → has_failed writer.new ≡ true }
    ensures started { IsErrOf result fault.NoWorker → ⊥ }
    ensures whole { IsErrOf result fault.Incomplete → ⊥ }
{
    report.law_headline();
    report.law_drained();
    let outputs = match emitted(alloc, report, epochs.count()) {
        Ok(outputs) => outputs,
        Err(_) => return Err(Fault::NoMemory),
    };
    let sorter = ParallelSorter::new(rt, threads);
    match write_epochs(alloc, &sorter, outputs.as_slice(), epochs.count(), writer) {
        Ok(()) => Ok(()),
        Err(OutFault::NoMemory) => Err(Fault::NoMemory),
        Err(OutFault::Write) => Err(Fault::Write),
    }
}

/// What a run does: how many threads it has, the epochs that it works off, and the gate by which each event is computed.
#[derive(Clone, Copy)]
struct Task<'a, G> {
    threads: u32,
    epochs: &'a Epochs,
    gate: &'a G,
}

/// Works the epochs off on a new board, writes what was emitted, and reports what was counted.
#[tactic(auto, using(crate::proofs::RunEnds::all_started))]
fn respond_on<
    V: Views + Send,
    R: Threads + Wait + Sync,
    G: Gate + Sync,
    W: Write,
    E: Write,
    O: Write + Send + Drop,
>(
    rt: &R,
    alloc: Global,
    board: Board<V>,
    report: Option<Reporting>,
    task: Task<'_, G>,
    streams: &mut Streams<W, E, O>,
) -> Result<(), Fault>
    requires new { IsOpening board.shown.graph (length board.shown.sides) board.shown }
    requires fit { Fit task.epochs.now board.shown.graph }
    ensures text { RespondsBy board.shown.graph task.entry.epochs.now (W.contents (inner_of streams.old.out)) (W.contents (inner_of streams.new.out)) result }
    ensures failed { IsErrOf result fault.Write → has_failed streams.new.out ≡ true }
    ensures several { IsErrOf result fault.NoWorker → 1 < task.entry.threads }
    ensures whole { length board.shown.sides ≡ 1 → task.entry.threads ≤ 1 → IsErrOf result fault.Incomplete → ⊥ }
    ensures counts { ReportsRun board.shown task.entry.epochs.now report (E.contents streams.old.err) (E.contents streams.new.err) }
{
    let counting = report.is_some() || streams.watcher.is_some();
    let Ok(start) = Start::new(alloc, board, counting) else {
        return Err(Fault::NoMemory);
    };
    let (threads, epochs) = (task.threads, task.epochs);
    match execute(
        rt,
        alloc,
        start,
        threads,
        epochs,
        task.gate,
        &mut streams.watcher,
    ) {
        Ok(finish) => {
            let done = write_emitted(rt, alloc, &finish.report, threads, epochs, &mut streams.out);
            if done.is_ok() {
                report_counts(alloc, &report, &finish.tally, &mut streams.err);
            }
            done
        }
        // A single worker has the caller's thread.
        Err(Unfinished::NoWorker) if threads > 1 => Err(Fault::NoWorker),
        Err(unfinished) => Err(run_fault(unfinished)),
    }
}

/// Has the workers work the epochs off over the graph, and writes what was emitted: whatever text the graph was compiled from, what that
/// means on the epochs. The watcher is shown how many epochs have passed. If `stats` is asked for, a line for each vertex on `err`, or a drawing,
/// says then what it did. A single worker sees at once what is active, and each of several has a view of its own.
pub fn respond<
    R: Threads + Wait + Sync,
    G: Gate + Sync,
    W: Write,
    E: Write,
    O: Write + Send + Drop,
>(
    rt: &R,
    alloc: Global,
    options: RunOptions<'_, G>,
    graph: Graph,
    epochs: &Epochs,
    streams: &mut Streams<W, E, O>,
) -> Result<(), Fault>
    requires fit { Fit epochs.now graph }
    ensures text { RespondsBy graph epochs.now (W.contents (inner_of streams.old.out)) (W.contents (inner_of streams.new.out)) result }
    ensures failed { IsErrOf result fault.Write → has_failed streams.new.out ≡ true }
    ensures several { IsErrOf result fault.NoWorker → 1 < count_of options.entry.workers }
    ensures whole { count_of options.entry.workers ≡ 1 → IsErrOf result fault.Incomplete → ⊥ }
    ensures counts { ReportsFor options.entry.stats graph epochs.now (E.contents streams.old.err) (E.contents streams.new.err) }
{
    let Ok(graph) = Arc::new(alloc, graph) else {
        return Err(Fault::NoMemory);
    };
    let parallelism = Parallelism::of(options.workers.count(), &graph, epochs);
    let workers = parallelism.workers();
    let Ok(report) = Reporting::of(alloc, options.stats, &graph, workers, epochs) else {
        return Err(Fault::NoMemory);
    };
    let task = Task {
        threads: parallelism.threads(),
        epochs,
        gate: options.gate,
    };
    if workers == 1 {
        match Board::new(alloc, graph, 1) {
            Ok(board) => respond_on(rt, alloc, board, report, task, streams),
            Err(_) => Err(Fault::NoMemory),
        }
    } else {
        match Board::with_local_views(alloc, graph, workers) {
            Ok(board) => respond_on(rt, alloc, board, report, task, streams),
            Err(_) => Err(Fault::NoMemory),
        }
    }
}
