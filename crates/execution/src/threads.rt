//! The threads of a run.

ghost use Rattle.std.specs.Prelude.{◌≡◌};
ghost use Rattle.execution.specs.Told.{Tells};

use crate::feeding::{close_inputs, feed_epochs};
use crate::task::Task;
use crate::unfinished::Unfinished;
use crate::watching::{Observer, keep_watch};
use std::alloc::Global;
use std::io::Write;
use std::sync::Wait;
use std::thread::{Scope, Threads, join, scope, scope_env};
use views::Views;
use workers::{Engine, Gate, Naming, work};

/// Starts threads that have nothing to do: so whether the system grants a run's threads doesn't depend on its input.
pub fn try_threads<R: Threads + Wait + Sync>(rt: &R, threads: u32) -> Result<(), Unfinished> {
    scope(scope_env(), rt, move |started| {
        for _thread in 0..threads {
            if started.spawn(move || {}).is_err() {
                return Err(Unfinished::NoWorker);
            }
        }
        Ok(())
    })
}

/// Starts the threads, and has each worker's work. A thread without a worker ends at once.
fn start_workers<
    's,
    E,
    J: Naming + Send + Sync,
    V: Views + Send,
    R: Threads + Wait + Sync,
    G: Gate + Sync,
>(
    threads: &'s Scope<'s, E>,
    rt: &'s R,
    alloc: Global,
    engine: &'s Engine<J, V>,
    task: Task<'s>,
    gate: &'s G,
) -> Result<(), Unfinished> {
    let notice = task.notice;
    let workers = task.workers;
    for worker in 0..task.threads {
        let started = threads.spawn(move || {
            if worker < workers {
                notice.note(work(rt, alloc, engine, worker, gate));
            }
        });
        if started.is_err() {
            return Err(Unfinished::NoWorker);
        }
    }
    Ok(())
}

/// Starts the workers, feeds the engine, and returns once all threads have ended. However the feeding goes, all inputs are closed at the end, so that
/// the workers end too.
pub fn work_off<J: Naming + Send + Sync, V: Views + Send, R: Threads + Wait + Sync, G: Gate + Sync>(
    rt: &R,
    alloc: Global,
    engine: &Engine<J, V>,
    task: Task<'_>,
    gate: &G,
) -> Result<(), Unfinished> {
    scope(scope_env(), rt, move |threads| {
        let mut done = start_workers(threads, rt, alloc, engine, task, gate);
        if done.is_ok() {
            done = feed_epochs(rt, alloc, engine, task);
        }
        close_inputs(rt, engine, task.inputs);
        done
    })
}

/// As `work_off`, while one more thread watches. Where it can't be started, this one watches at the end. Gives back what watched.
pub fn work_off_watched<
    J: Naming + Send + Sync,
    V: Views + Send,
    R: Threads + Wait + Sync,
    G: Gate + Sync,
    W: Write + Send + Drop,
>(
    rt: &R,
    alloc: Global,
    engine: &Engine<J, V>,
    task: Task<'_>,
    gate: &G,
    observer: Observer<W>,
) -> (Observer<W>, Result<(), Unfinished>)
    ensures passed { result.0.passed.mark ≡ observer.passed.mark }
    ensures received { result.0.received.mark ≡ observer.received.mark }
    ensures tells { Tells W.contents observer.watch.watcher result.0.watch.watcher observer.watch.told result.0.watch.told }
{
    join(
        rt,
        move || keep_watch(rt, engine, observer),
        move || work_off(rt, alloc, engine, task, gate),
    )
}
