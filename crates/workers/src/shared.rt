//! What the threads share under the lock. Each call ends by waking the threads that are to be woken, so that no wakeup is lost.
//!
//! No wakeup is lost: whenever the lock is released, some thread is up, or no sleeping thread has an event that its worker could claim; and at the
//! board's end nobody is asleep. Who is asked applies all that waits for its worker first, so no event is missed because a view is late. A thread that waits
//! for progress waits for what hasn't come; what a call brings rings the bell.

ghost use Rattle.std.specs.Prelude.{◌≡◌, ◌≤◌, ◌<◌, Some, false, IfOk};
ghost use Rattle.board.specs.Looks.{ShowsEachOutput, ShowsPassed};
ghost use Rattle.driver.specs.Ends.{event_of};
ghost use Rattle.workers.specs.Names.{GivesNamed, IsNamed};
ghost use Rattle.workers.specs.Sleeping.{Wakes};
ghost use Rattle.workers.specs.Waiting.{AreMissing, first_of};
ghost use Rattle.workers.specs.Wakeups.{LosesNoWakeup, RestsAndWakes, SettlesAndWakes};

use crate::dispatcher::Dispatcher;
use crate::held::{Held, Naming};
use crate::mark::Seat;
use crate::plan::{ReadyFeed, SizedBatch};
use crate::thread_set::ThreadSet;
use crate::waiting::{News, Waiting};
use board::{Claimed, Look, StepRefusal};
use events::{CutBatch, Done, Work};
use record_core::NoMemory;
use rows::WorkFault;
use std::alloc::Global;
use std::collections::VecDeque;
use views::Views;

/// Who is woken once the lock is released.
#[derive(Clone, Copy)]
pub struct Wakeups {
    /// The threads that work.
    pub threads: ThreadSet,
    /// Whether those that wait for progress are woken too.
    pub waiting: bool,
}

/// A board with its threads, and who waits for progress. No wakeup is lost.
#[derive(Drop)]
pub struct Shared<J: Naming, V: Views> {
    dispatcher: Dispatcher<J, V>,
    waiting: Waiting,
    ghost lost: { LosesNoWakeup dispatcher.threads dispatcher.held.board.shown },
    ghost waits: { AreMissing dispatcher.held waiting.first },
}

/// Wakes the threads that are to be woken now. `eager` says that the caller may make no further call.
fn wake<J: Naming, V: Views>(
    dispatcher: &mut Dispatcher<J, V>,
    waiting: &mut Waiting,
    eager: bool,
) -> Wakeups
    ensures wakes { Wakes dispatcher.old.threads dispatcher.new.threads result.threads }
    ensures lost { LosesNoWakeup dispatcher.new.threads dispatcher.new.held.board.shown }
    ensures waits { AreMissing dispatcher.new.held waiting.new.first }
    ensures rings { result.waiting ≡ false → waiting.new ≡ waiting.old }
{
    let at_end = dispatcher.is_at_end();
    let threads = dispatcher.wake(at_end, eager);
    let waiting = waiting.ring(&dispatcher.held, at_end);
    Wakeups { threads, waiting }
}

impl<J: Naming, V: Views> Shared<J, V> {
    /// No thread has started yet.
    pub fn new(held: Held<J, V>) -> Shared<J, V> {
        Shared {
            dispatcher: Dispatcher::new(held),
            waiting: Waiting::none(),
        }
    }

    /// The board.
    pub fn held(&self) -> &Held<J, V>
        ensures { result.now ≡ self.now.dispatcher.held }
    {
        &self.dispatcher.held
    }

    /// Feeds a batch that is cut, and gives what is left of it.
    pub fn feed_cut(
        &mut self,
        sized: SizedBatch<J>,
    ) -> (Result<(), StepRefusal>, Option<CutBatch>, Wakeups)
        ensures wakes { Wakes self.old.dispatcher.threads self.new.dispatcher.threads result.2.threads }
        ensures rings { result.2.waiting ≡ false → self.new.waiting ≡ self.old.waiting }
    {
        let (result, left) = self.dispatcher.feed_cut(sized);
        (
            result,
            left,
            wake(&mut self.dispatcher, &mut self.waiting, false),
        )
    }

    /// Feeds and seals in order, up to the first that is refused, and gives what is left of that one.
    pub fn feed_all(
        &mut self,
        feeds: &mut VecDeque<ReadyFeed<J>>,
    ) -> (Result<(), StepRefusal>, Option<CutBatch>, Wakeups)
        ensures wakes { Wakes self.old.dispatcher.threads self.new.dispatcher.threads result.2.threads }
        ensures rings { result.2.waiting ≡ false → self.new.waiting ≡ self.old.waiting }
    {
        let (result, left) = self.dispatcher.feed_all(feeds);
        (
            result,
            left,
            wake(&mut self.dispatcher, &mut self.waiting, false),
        )
    }

    /// Ends the open epoch of an input.
    pub fn seal(&mut self, input: u32) -> (Result<(), StepRefusal>, Wakeups)
        ensures wakes { Wakes self.old.dispatcher.threads self.new.dispatcher.threads result.1.threads }
        ensures rings { result.1.waiting ≡ false → self.new.waiting ≡ self.old.waiting }
    {
        let result = self.dispatcher.held.seal(input);
        (result, wake(&mut self.dispatcher, &mut self.waiting, false))
    }

    /// Closes an input, and wakes every thread that has something to do, since the one that closes an input may make no further call.
    pub fn close(&mut self, input: u32) -> (Result<(), StepRefusal>, Wakeups)
        ensures wakes { Wakes self.old.dispatcher.threads self.new.dispatcher.threads result.1.threads }
        ensures rings { result.1.waiting ≡ false → self.new.waiting ≡ self.old.waiting }
    {
        let result = self.dispatcher.held.close(input);
        (result, wake(&mut self.dispatcher, &mut self.waiting, true))
    }

    /// An event for a thread, if there is one that it could compute now; one that finds nothing to do falls asleep. It may be among those that are woken,
    /// and then must not wait.
    pub fn claim_or_sleep(&mut self, thread: u32) -> (Claimed, Wakeups)
        ensures named { GivesNamed J.names result.0 }
        ensures wakes { RestsAndWakes self.old.dispatcher.threads self.new.dispatcher.threads thread result.0 result.1.threads }
        ensures rings { result.1.waiting ≡ false → self.new.waiting ≡ self.old.waiting }
    {
        let claimed = self.dispatcher.claim(thread);
        self.dispatcher.rest(thread, &claimed);
        (
            claimed,
            wake(&mut self.dispatcher, &mut self.waiting, false),
        )
    }

    /// Ends an event of a worker: commits it and claims the thread's next one, or abandons it, which stops the board.
    pub fn settle(
        &mut self,
        thread: u32,
        worker: u32,
        computed: Result<Done, (Work, WorkFault)>,
    ) -> (Result<Claimed, WorkFault>, Wakeups)
        requires { IsNamed J.names (event_of computed) }
        ensures named { IfOk result.0 (λ claimed. GivesNamed J.names claimed) }
        ensures wakes { SettlesAndWakes self.old.dispatcher.threads self.new.dispatcher.threads thread result.0 result.1.threads }
        ensures rings { result.1.waiting ≡ false → self.new.waiting ≡ self.old.waiting }
    {
        let claimed = self.dispatcher.settle(thread, worker, computed);
        (
            claimed,
            wake(&mut self.dispatcher, &mut self.waiting, false),
        )
    }

    /// Whether what a thread waits for has come, or nothing more will. If not, notes that the thread waits.
    pub fn has_come(&mut self, wanted: News) -> bool
        ensures { result ≡ false → self.new.waiting.first ≡ Some (first_of wanted self.old.waiting.first) }
    {
        let at_end = self.dispatcher.is_at_end();
        self.waiting.has_come(&self.dispatcher.held, at_end, wanted)
    }

    /// Has the seat read the mark, and gives what the board shows of an epoch.
    pub fn look(&mut self, alloc: Global, epoch: u32, seat: &mut Seat) -> Result<Look, NoMemory>
        requires { seat.old.table ≡ J.mark }
        ensures table { seat.new.table ≡ seat.old.table }
        ensures rises { seat.old.number ≤ seat.new.number }
        ensures passed { IfOk result (λ l. epoch < seat.new.number → ShowsPassed l) }
        ensures graph { IfOk result (λ l. l.graph ≡ J.graph) }
        ensures whole { IfOk result (λ l. (l.epoch ≡ epoch) × ShowsEachOutput l) }
    {
        let held = &mut self.dispatcher.held;
        let _passed = held.observe(seat);
        held.look(alloc, epoch)
    }

    /// The board, once nothing shares it.
    pub fn into_held(self) -> Held<J, V> {
        let Shared {
            dispatcher,
            waiting: _,
        } = self;
        dispatcher.into_held()
    }
}
