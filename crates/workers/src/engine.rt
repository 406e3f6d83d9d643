//! A board under a lock, for any number of threads.

ghost use Rattle.std.specs.Prelude.{◌≡◌, ◌≤◌, ◌<◌, None, true, IfOk};
ghost use Rattle.board.specs.Looks.{ShowsEachOutput, ShowsPassed};
ghost use Rattle.board.specs.Shown.{tables};
ghost use Rattle.driver.specs.Ends.{event_of};
ghost use Rattle.driver.specs.Tallies.{IsTally};
ghost use Rattle.workers.specs.Names.{GivesNamed, IsNamed};

use crate::counters::Counters;
use crate::held::{Held, Naming};
use crate::mark::{Publisher, Seat};
use crate::plan::{Feed, Plan};
use crate::shared::{Shared, Wakeups};
use crate::waiting::News;
use board::{Board, Claimed, Look, StepRefusal};
use driver::Tally;
use events::{Done, Work};
use record_core::NoMemory;
use rows::{Batch, WorkFault};
use std::alloc::Global;
use std::collections::VecDeque;
use std::sync::{Condvar, Mutex, Wait};
use views::Views;

/// A board under a lock, with a bell for each worker and one for the threads that wait for progress.
#[derive(Drop)]
pub struct Engine<J: Naming, V: Views> {
    shared: Mutex<Shared<J, V>>,
    plan: Plan<J>,
    bells: Vec<Condvar>,
    passing: Condvar,
}

impl<J: Naming, V: Views> Engine<J, V> {
    /// An engine over a board, with a publisher that has published nothing yet.
    pub fn new(
        alloc: Global,
        board: Board<V>,
        publisher: Publisher,
    ) -> Result<Engine<J, V>, NoMemory>
        requires names { tables board.shown ≡ J.names }
        requires graph { board.shown.graph ≡ J.graph }
        requires mark { publisher.table ≡ J.mark }
        requires unwatched { J.received ≡ None }
        requires fresh { publisher.number ≡ 0 }
    {
        let counters = Counters::new(Tally::none(alloc));
        Engine::counting(alloc, board, publisher, counters)
    }

    /// The same with counters, which count each commit under the lock.
    pub fn counting(
        alloc: Global,
        board: Board<V>,
        publisher: Publisher,
        counters: Counters<J>,
    ) -> Result<Engine<J, V>, NoMemory>
        requires names { tables board.shown ≡ J.names }
        requires graph { board.shown.graph ≡ J.graph }
        requires mark { publisher.table ≡ J.mark }
        requires fresh { publisher.number ≡ 0 }
        requires counts { IsTally J.first board.shown counters.tally }
    {
        let plan = Plan::new(board.share_wiring()?);
        let bells = new_bells(alloc, board.workers())?;
        Ok(Engine {
            shared: Mutex::new(Shared::new(Held::new(board, publisher, counters))),
            plan,
            bells,
            passing: Condvar::new(),
        })
    }

    /// Feeds a batch to an input at its open epoch. The batch is cut into messages before the lock is taken.
    pub fn feed<R: Wait>(
        &self,
        rt: &R,
        alloc: Global,
        input: u32,
        batch: Batch,
    ) -> Result<(), StepRefusal> {
        match self.plan.cut_sized(alloc, input, batch) {
            Ok(sized) => {
                let (result, _left, wakeups) = self.shared.lock(rt).feed_cut(sized);
                self.wake(wakeups);
                result
            }
            Err(refusal) => Err(self.first_refusal(rt, input, refusal)),
        }
    }

    /// Feeds and seals in order, as single calls would, up to the first that is refused. All batches are cut first, and the lock is taken once.
    pub fn feed_all<R: Wait>(
        &self,
        rt: &R,
        alloc: Global,
        feeds: Vec<Feed>,
    ) -> Result<(), StepRefusal> {
        let mut cut = VecDeque::new(alloc);
        let all_cut = self.plan.cut_all(alloc, feeds, &mut cut);
        let (result, _left, wakeups) = self.shared.lock(rt).feed_all(&mut cut);
        self.wake(wakeups);
        result?;
        match all_cut {
            Ok(()) => Ok(()),
            Err(error) => Err(self.first_refusal(rt, error.input, error.refusal)),
        }
    }

    /// The board's first reason to refuse a batch that can't be cut.
    fn first_refusal<R: Wait>(&self, rt: &R, input: u32, refusal: StepRefusal) -> StepRefusal {
        match self.shared.lock(rt).held().input_refusal(input) {
            Some(first) => first,
            None => refusal,
        }
    }

    /// Ends the open epoch of an input.
    pub fn seal<R: Wait>(&self, rt: &R, input: u32) -> Result<(), StepRefusal> {
        let (result, wakeups) = self.shared.lock(rt).seal(input);
        self.wake(wakeups);
        result
    }

    /// Closes an input.
    pub fn close<R: Wait>(&self, rt: &R, input: u32) -> Result<(), StepRefusal> {
        let (result, wakeups) = self.shared.lock(rt).close(input);
        self.wake(wakeups);
        result
    }

    /// Sleeps until `count` epochs have passed, or the board is stopped, or nothing is left to do.
    pub fn wait_for<R: Wait>(&self, rt: &R, count: u64) {
        self.wait_for_news(rt, count, u64::MAX);
    }

    /// The same, but returns also once it was published that more than `received` records were received.
    pub fn wait_for_news<R: Wait>(&self, rt: &R, count: u64, received: u64) {
        let wanted = News {
            passed: count,
            received,
        };
        let mut shared = self.shared.lock(rt);
        for _turn in rt.forever() {
            if shared.has_come(wanted) {
                return;
            }
            shared = self.passing.wait(rt, shared);
        }
    }

    /// What the board shows of an epoch, to be kept. Has the seat read the mark first: below what it reads, every epoch is shown as passed.
    pub fn look<R: Wait>(
        &self,
        rt: &R,
        alloc: Global,
        epoch: u32,
        seat: &mut Seat,
    ) -> Result<Look, NoMemory>
        requires { seat.old.table ≡ J.mark }
        ensures table { seat.new.table ≡ seat.old.table }
        ensures rises { seat.old.number ≤ seat.new.number }
        ensures passed { IfOk result (λ l. epoch < seat.new.number → ShowsPassed l) }
        ensures graph { IfOk result (λ l. l.graph ≡ J.graph) }
        ensures whole { IfOk result (λ l. (l.epoch ≡ epoch) × ShowsEachOutput l) }
    {
        self.shared.lock(rt).look(alloc, epoch, seat)
    }

    /// Claims an event for the worker's thread; sleeps while there is nothing that the thread could do.
    pub(crate) fn claim<R: Wait>(&self, rt: &R, worker: u32) -> Claimed
        ensures { GivesNamed J.names result }
    {
        let Some(bell) = self.bells.get(worker as usize) else {
            return Claimed::Busy;
        };
        let mut shared = self.shared.lock(rt);
        for _turn in rt.forever() {
            let (claimed, wakeups) = shared.claim_or_sleep(worker);
            self.wake(wakeups);
            match claimed {
                Claimed::Idle if wakeups.threads.has(worker) => {}
                Claimed::Idle => shared = bell.wait(rt, shared),
                claimed => return claimed,
            }
        }
        unreachable!()
    }

    /// Ends an event of a worker under one lock: commits it and claims the thread's next one, or abandons it, which stops the board.
    pub(crate) fn settle<R: Wait>(
        &self,
        rt: &R,
        thread: u32,
        worker: u32,
        computed: Result<Done, (Work, WorkFault)>,
    ) -> Result<Claimed, WorkFault>
        requires { IsNamed J.names (event_of computed) }
        ensures { IfOk result (λ claimed. GivesNamed J.names claimed) }
    {
        let (result, wakeups) = self.shared.lock(rt).settle(thread, worker, computed);
        self.wake(wakeups);
        result
    }

    /// Wakes these threads. They go on once the lock is free.
    fn wake(&self, wakeups: Wakeups) {
        if !wakeups.threads.is_empty() {
            let mut thread = 0;
            for bell in &self.bells {
                if wakeups.threads.has(thread) {
                    bell.notify_all();
                }
                thread = thread.saturating_add(1);
            }
        }
        if wakeups.waiting {
            self.passing.notify_all();
        }
    }

    /// The board with its publisher, once no thread shares the engine.
    pub(crate) fn into_held(self) -> Held<J, V> {
        let Engine {
            shared,
            plan: _,
            bells: _,
            passing: _,
        } = self;
        shared.into_inner().into_held()
    }
}

/// That many bells, one for each worker.
fn new_bells(alloc: Global, workers: u32) -> Result<Vec<Condvar>, NoMemory> {
    let mut bells = Vec::with_capacity(alloc, workers as usize)?;
    for _worker in 0..workers {
        bells.push(Condvar::new())?;
    }
    Ok(bells)
}
