//! A run of a whole input.

ghost use Rattle.std.specs.Prelude.{◌≡◌, ◌≤◌, ◌<◌, ℕ, [], None, Some, IfErr, IfOk, OnErr, length, vec_capacity};
ghost use Rattle.semantics.specs.Graph.{input_count};
ghost use Rattle.graph.specs.Shown.{shown_graph};
ghost use Rattle.board.specs.Promises.{CountsPassed, IsDrained, IsOpening};
ghost use Rattle.board.specs.Shown.{tables};
ghost use Rattle.driver.specs.Tallies.{IsTally};
ghost use Rattle.driver.specs.Received.{received_of};
ghost use Rattle.collector.specs.ReadEpochs.{epoch_count};
ghost use Rattle.execution.specs.Fed.{HoldsFed, IsWorkedOff};
ghost use Rattle.execution.specs.Single.{Fit, IsOfWork};
ghost use Rattle.execution.specs.Told.{IsNear, IsTold, Tells, untold};
ghost use Rattle.execution.specs.declared.watching.Progress.{Progress};

use crate::notice::Notice;
use crate::readings::is_fed;
use crate::single::run_single;
use crate::start::{Finish, Start};
use crate::task::Task;
use crate::threads::{try_threads, work_off, work_off_watched};
use crate::unfinished::Unfinished;
use crate::watching::{INTERVAL, Observer, Reader, Watch, Watcher, fill};
use collector::Epochs;
use driver::{law_inputs, received};
use std::alloc::Global;
use std::io::Write;
use std::marker::Brand;
use std::sync::Wait;
use std::thread::Threads;
use views::Views;
use workers::{Counters, Engine, Gate, Mark, Naming, Publisher, Seat, finish_counting};

/// A new mark with a seat at it, its publisher, and the place to which the seat returns.
#[derive(Drop)]
struct Fresh {
    reader: Reader,
    publisher: Publisher,
    place: Vec<Seat>,
    ghost own: { publisher.table ≡ reader.mark },
    ghost none: { publisher.number ≡ 0 },
    ghost empty: { (place.items ≡ []) × (0 < vec_capacity place) },
}

/// The marks of passed epochs and of received records.
#[derive(Drop)]
struct Marks {
    passed: Fresh,
    received: Fresh,
}

/// Makes a mark.
fn new_mark(alloc: Global) -> Result<Fresh, Unfinished> {
    let (mark, publisher, mut seats) = Mark::new(alloc, 1)?;
    let Some(seat) = seats.pop() else {
        unreachable!()
    };
    Ok(Fresh {
        reader: Reader::new(mark, seat),
        publisher,
        place: seats,
    })
}

/// Runs a new board, under a lock of its own, until nothing is left to do. Ok only if it is drained.
fn drive<J: Naming + Send + Sync, V: Views + Send, R: Threads + Wait + Sync, G: Gate + Sync>(
    rt: &R,
    alloc: Global,
    start: Start<V>,
    publisher: Publisher,
    task: Task<'_>,
    gate: &G,
) -> Result<Finish<V>, Unfinished>
    requires names { tables start.board.shown ≡ J.names }
    requires graph { start.board.shown.graph ≡ J.graph }
    requires first { start.board.shown ≡ J.first }
    requires mark { publisher.table ≡ J.mark }
    requires unwatched { J.received ≡ None }
    requires fresh { publisher.number ≡ 0 }
    requires begins { IsTally start.board.shown start.board.shown start.tally }
    ensures graph { IfOk result (λ r. r.report.graph ≡ J.graph) }
    ensures drained { IfOk result (λ r. IsDrained r.report) }
    ensures fed { IfOk result (λ r. HoldsFed r.report task.entry.inputs task.entry.epochs.now (epoch_count task.entry.epochs.now)) }
    ensures counts { IfOk result (λ r. IsTally J.first r.report r.tally) }
{
    let Start { board, tally } = start;
    let counters = Counters::new(tally);
    let engine = Engine::<J, V>::counting(alloc, board, publisher, counters)?;
    let done = work_off(rt, alloc, &engine, task, gate);
    let (report, tally) = finish_counting(engine, Vec::new(alloc), Vec::new(alloc));
    finished(Finish { report, tally }, task, done)
}

/// The same, while one more thread tells the watcher how far the run is.
fn drive_watched<
    J: Naming + Send + Sync,
    V: Views + Send,
    R: Threads + Wait + Sync,
    G: Gate + Sync,
    W: Write + Send + Drop,
>(
    rt: &R,
    alloc: Global,
    start: Start<V>,
    marks: Marks,
    task: Task<'_>,
    gate: &G,
    watch: &mut Watch<W>,
) -> Result<Finish<V>, Unfinished>
    requires names { tables start.board.shown ≡ J.names }
    requires graph { start.board.shown.graph ≡ J.graph }
    requires first { start.board.shown ≡ J.first }
    requires mark { marks.passed.reader.mark ≡ J.mark }
    requires watched { J.received ≡ Some marks.received.reader.mark }
    requires begins { IsTally start.board.shown start.board.shown start.tally }
    requires untold { watch.old.told ≡ untold }
    ensures graph { IfOk result (λ r. r.report.graph ≡ J.graph) }
    ensures drained { IfOk result (λ r. IsDrained r.report) }
    ensures fed { IfOk result (λ r. HoldsFed r.report task.entry.inputs task.entry.epochs.now (epoch_count task.entry.epochs.now)) }
    ensures counts { IfOk result (λ r. IsTally J.first r.report r.tally) }
    ensures most { IfOk result (λ r. (n : ℕ) → CountsPassed r.report n → watch.new.told.passed ≤ n) }
    ensures received { IfOk result (λ r. watch.new.told.received ≤ received_of r.tally) }
    ensures tells { Tells W.contents watch.old.watcher watch.new.watcher watch.old.told watch.new.told }
{
    let Marks { passed, received } = marks;
    let Fresh {
        reader: epochs,
        publisher: epochs_publisher,
        place: mut epochs_place,
    } = passed;
    let Fresh {
        reader: records,
        publisher: records_publisher,
        place: mut records_place,
    } = received;
    let Start { board, tally } = start;
    let counters = Counters::watched(tally, records_publisher, INTERVAL);
    let engine = Engine::<J, V>::counting(alloc, board, epochs_publisher, counters)?;
    let observer = Observer::new(epochs, records, watch.lend());
    let (observer, done) = work_off_watched(rt, alloc, &engine, task, gate, observer);
    let Observer {
        passed,
        received,
        watch: lent,
    } = observer;
    watch.take_back(lent);
    epochs_place.push_reserved(passed.seat);
    records_place.push_reserved(received.seat);
    let (report, tally) = finish_counting(engine, epochs_place, records_place);
    finished(Finish { report, tally }, task, done)
}

/// The end of a run of several workers in which nothing is left to do, and that was fed what was read.
fn finished<V: Views>(
    finish: Finish<V>,
    task: Task<'_>,
    done: Result<(), Unfinished>,
) -> Result<Finish<V>, Unfinished>
    ensures same { IfOk result (λ r. r ≡ finish) }
    ensures drained { IfOk result (λ r. IsDrained r.report) }
    ensures fed { IfOk result (λ r. HoldsFed r.report task.entry.inputs task.entry.epochs.now (epoch_count task.entry.epochs.now)) }
{
    if task.notice.is_over() {
        return Err(Unfinished::Count);
    }
    done?;
    if finish.report.stopped() {
        return Err(Unfinished::NoMemory);
    }
    let epochs = task.epochs;
    if finish.report.drained() && is_fed(&finish.report, task.inputs, epochs, epochs.count()) {
        Ok(finish)
    } else {
        Err(Unfinished::Incomplete)
    }
}

/// As `drive` or `drive_watched`, for any board. With one worker the caller's thread does all, and there is no lock.
#[tactic(auto, using(crate::proofs::Tellings::tells_nothing))]
fn drive_any<V: Views + Send, R: Threads + Wait + Sync, G: Gate + Sync, W: Write + Send + Drop>(
    rt: &R,
    alloc: Global,
    start: Start<V>,
    task: Task<'_>,
    gate: &G,
    watch: &mut Watch<W>,
) -> Result<Finish<V>, Unfinished>
    requires begins { IsTally start.board.shown start.board.shown start.tally }
    requires untold { watch.old.told ≡ untold }
    requires workers { task.workers ≡ length start.board.shown.sides }
    requires new { IsOpening start.board.shown.graph (length start.board.shown.sides) start.board.shown }
    requires inputs { task.inputs ≤ input_count (shown_graph start.board.shown.graph) }
    requires fit { Fit task.epochs.now start.board.shown.graph }
    ensures graph { IfOk result (λ r. r.report.graph ≡ start.board.shown.graph) }
    ensures drained { IfOk result (λ r. IsDrained r.report) }
    ensures fed { IfOk result (λ r. HoldsFed r.report task.entry.inputs task.entry.epochs.now (epoch_count task.entry.epochs.now)) }
    ensures counts { IfOk result (λ r. IsTally start.board.shown r.report r.tally) }
    ensures most { IfOk result (λ r. (n : ℕ) → CountsPassed r.report n → watch.new.told.passed ≤ n) }
    ensures received { IfOk result (λ r. watch.new.told.received ≤ received_of r.tally) }
    ensures tells { Tells W.contents watch.old.watcher watch.new.watcher watch.old.told watch.new.told }
    ensures alone { task.entry.workers ≡ 1 → task.entry.threads ≤ 1 → IfErr result IsOfWork }
{
    if task.workers == 1 {
        if task.threads > 1 {
            try_threads(rt, task.threads)?;
        }
        return Ok(run_single(alloc, start, task, gate, watch)?);
    }
    if !watch.is_on() {
        let (_mark, publisher, _seats) = Mark::new(alloc, 0)?;
        return drive::<Brand, V, R, G>(rt, alloc, start, publisher, task, gate);
    }
    let marks = Marks {
        passed: new_mark(alloc)?,
        received: new_mark(alloc)?,
    };
    drive_watched::<Brand, V, R, G, W>(rt, alloc, start, marks, task, gate, watch)
}

/// As `execute`, but the last line isn't ended.
#[tactic(auto, using(crate::proofs::Tellings::tells_nothing))]
fn run<V: Views + Send, R: Threads + Wait + Sync, G: Gate + Sync, W: Write + Send + Drop>(
    rt: &R,
    alloc: Global,
    start: Start<V>,
    threads: u32,
    epochs: &Epochs,
    gate: &G,
    watch: &mut Watch<W>,
) -> Result<Finish<V>, Unfinished>
    requires begins { IsTally start.board.shown start.board.shown start.tally }
    requires untold { watch.old.told ≡ untold }
    requires new { IsOpening start.board.shown.graph (length start.board.shown.sides) start.board.shown }
    requires fit { Fit epochs.now start.board.shown.graph }
    ensures worked { IfOk result (λ r. IsWorkedOff start.board.shown.graph r.report epochs.now) }
    ensures counts { IfOk result (λ r. IsTally start.board.shown r.report r.tally) }
    ensures last { IfOk result (λ r. CountsPassed r.report watch.new.told.passed) }
    ensures received { IfOk result (λ r. IsNear watch.new.told.received (received_of r.tally)) }
    ensures alone { length start.board.shown.sides ≡ 1 → threads ≤ 1 → IfErr result IsOfWork }
    ensures tells { Tells W.contents watch.old.watcher watch.new.watcher watch.old.told watch.new.told }
{
    let graph = start.board.graph();
    law_inputs(graph);
    let inputs = graph.inputs().len() as u32;
    let notice = Notice::new();
    let task = Task {
        epochs,
        inputs,
        threads: threads.max(start.board.workers()),
        workers: start.board.workers(),
        notice: &notice,
    };
    let finish = drive_any(rt, alloc, start, task, gate, watch)?;
    let passed = finish.report.passed();
    watch.tell_received(received(&finish.tally));
    watch.tell_rise(passed);
    Ok(finish)
}

/// Feeds the epochs to a new board, and runs it until nothing is left to do. The gate computes each event. Before the first feed `threads` threads are
/// started, or one for each worker if that is more. A single worker has the caller's thread, and no lock; where one thread is asked for, none is
/// started then.
///
/// Ok only if nothing is left to do, and each input was fed, at each epoch, exactly what was read. A run of one worker that starts no threads fails for
/// lack of memory or for a count alone. A watcher writes how many epochs have passed, as
/// `passed M` with rising numbers, of which the last is how many have passed at the end; and, as `received N`, how many records the vertices took in,
/// each time that the counters have risen by 1,048,576. If its writer fails, nothing else changes. The counters say what each vertex did at each
/// worker.
pub fn execute<V: Views + Send, R: Threads + Wait + Sync, G: Gate + Sync, W: Write + Send + Drop>(
    rt: &R,
    alloc: Global,
    start: Start<V>,
    threads: u32,
    epochs: &Epochs,
    gate: &G,
    watcher: &mut Option<Watcher<W>>,
) -> Result<Finish<V>, Unfinished>
    requires begins { IsTally start.board.shown start.board.shown start.tally }
    requires new { IsOpening start.board.shown.graph (length start.board.shown.sides) start.board.shown }
    requires fit { Fit epochs.now start.board.shown.graph }
    ensures worked { IfOk result (λ r. IsWorkedOff start.board.shown.graph r.report epochs.now) }
    ensures counts { IfOk result (λ r. IsTally start.board.shown r.report r.tally) }
    ensures told { IfOk result (λ r. (n : Progress) × CountsPassed r.report n.passed × IsNear n.received (received_of r.tally) × IsTold W.contents watcher.old watcher.new n) }
    ensures alone { length start.board.shown.sides ≡ 1 → threads ≤ 1 → IfErr result IsOfWork }
    ensures begun { OnErr result ((n : Progress) × IsTold W.contents watcher.old watcher.new n) }
{
    let mut watch = Watch::begin(watcher);
    let result = run(rt, alloc, start, threads, epochs, gate, &mut watch);
    fill(watcher, watch.end());
    result
}
