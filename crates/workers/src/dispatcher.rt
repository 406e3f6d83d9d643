//! Gives events to threads: the board, which of its workers have mail, and which threads are asleep.
//!
//! Each worker has a thread. A thread computes small events in turn, of its own worker and of those whose threads are away: asleep, or not started
//! yet. It falls asleep only when there are none. The worker with the earliest message comes first, and of equals the turn goes round, so that what one
//! worker sends in pieces meets the pieces that the others send; they are merged in the mailboxes before they are taken.
//!
//! A thread leaves what would run ahead in a loop for later (`pace.rt`). If it finds nothing else, it falls asleep over it while another thread is up;
//! the last thread that is up takes whatever there is.

ghost use Rattle.std.specs.Prelude.{◌≡◌, ◌%◌, ◌<◌, ◌⊎◌, ℕ, MatchBool, IfNone, IfOk, IfSome};
ghost use Rattle.board.specs.Answers.{HasNoChoice};
ghost use Rattle.driver.specs.Ends.{event_of};
ghost use Rattle.workers.specs.Names.{GivesNamed, IsNamed};
ghost use Rattle.workers.specs.Sleeping.{Leaves, Wakes};
ghost use Rattle.workers.specs.ThreadSets.{IsIn};
ghost use Rattle.workers.specs.Wakeups.{AreChosen, Asks, IsAtEnd, LosesNoWakeup, Rests, Settles, TakesWork};

use crate::backlog::Backlog;
use crate::held::{Held, Naming};
use crate::pace::Pace;
use crate::plan::{ReadyFeed, SizedBatch};
use crate::scheduler::{Choice, Scheduler};
use crate::thread_set::ThreadSet;
use board::{Claimed, Sent, StepRefusal};
use events::{CutBatch, Done, Work};
use exchange::MAX_WORKERS;
use rows::WorkFault;
use std::collections::VecDeque;
use views::Views;

/// A board with its publisher; the threads; what has come to each worker, and how far each is; the worker whose turn it is to get an event; and the
/// thread that is asked next whether it has something to do.
#[derive(Drop)]
pub struct Dispatcher<J: Naming, V: Views> {
    pub held: Held<J, V>,
    pub threads: Scheduler,
    backlog: Backlog,
    pace: Pace,
    turn: u32,
    asked: u32,
}

impl<J: Naming, V: Views> Dispatcher<J, V> {
    /// No thread has started yet.
    pub fn new(held: Held<J, V>) -> Dispatcher<J, V>
        ensures { LosesNoWakeup result.threads result.held.board.shown }
    {
        let threads = Scheduler::new(held.workers());
        Dispatcher {
            held,
            threads,
            backlog: Backlog::new(),
            pace: Pace::new(),
            turn: 0,
            asked: 0,
        }
    }

    /// Feeds a batch that is cut, and gives what is left of it.
    pub fn feed_cut(&mut self, sized: SizedBatch<J>) -> (Result<(), StepRefusal>, Option<CutBatch>)
        ensures { self.new.threads ≡ self.old.threads }
    {
        let (cut, sent) = sized.into_parts();
        let (result, left) = self.held.feed_cut(cut);
        if result.is_ok() {
            self.note(sent);
        }
        (result, left)
    }

    /// Notes what was sent.
    fn note(&mut self, sent: Sent)
        ensures threads { self.new.threads ≡ self.old.threads }
        ensures held { self.new.held ≡ self.old.held }
    {
        self.backlog.note(sent);
        self.pace.note(ThreadSet::of_workers(sent.receivers()));
    }

    /// Whether the worker's next event is left for later, since it would run ahead in a loop. On a stopped board none is, so that every thread learns
    /// that it is stopped.
    fn is_left(&mut self, worker: u32) -> bool
        ensures threads { self.new.threads ≡ self.old.threads }
        ensures held { self.new.held ≡ self.old.held }
    {
        if self.held.is_stopped() {
            return false;
        }
        self.pace.refresh(&self.held);
        self.pace.leaves(worker)
    }

    /// Feeds and seals in order, up to the first that is refused, and gives what is left of that one.
    pub fn feed_all(
        &mut self,
        feeds: &mut VecDeque<ReadyFeed<J>>,
    ) -> (Result<(), StepRefusal>, Option<CutBatch>)
        ensures { self.new.threads ≡ self.old.threads }
    {
        for _feed in 0..feeds.len() {
            let (result, left) = self.feed_next(feeds.pop_front());
            if result.is_err() {
                return (result, left);
            }
        }
        (Ok(()), None)
    }

    /// Feeds or seals, and gives what is left of a batch.
    fn feed_next(
        &mut self,
        feed: Option<ReadyFeed<J>>,
    ) -> (Result<(), StepRefusal>, Option<CutBatch>)
        ensures { self.new.threads ≡ self.old.threads }
    {
        match feed {
            Some(ReadyFeed::Batch(sized)) => self.feed_cut(sized),
            Some(ReadyFeed::Seal(input)) => (self.held.seal(input), None),
            None => (Ok(()), None),
        }
    }

    /// An event for a thread: one of its own worker, or of a worker whose thread is away.
    pub fn claim(&mut self, thread: u32) -> Claimed
        ensures named { GivesNamed J.names result }
        ensures asks { Asks self.old.threads self.new.threads thread result }
    {
        self.threads.leave(thread);
        self.pace.hold_back();
        match self.claim_next(thread) {
            Claimed::Idle => self.claim_left(thread),
            claimed => claimed,
        }
    }

    /// An event that doesn't run ahead; or any, once nothing is held back.
    fn claim_next(&mut self, thread: u32) -> Claimed
        ensures named { GivesNamed J.names result }
        ensures takes { TakesWork self.old.threads self.new.threads thread result }
    {
        match self.claim_mailed(thread) {
            Claimed::Idle => self.claim_asked(thread),
            claimed => claimed,
        }
    }

    /// An event that was left for later, if no other thread is up.
    fn claim_left(&mut self, thread: u32) -> Claimed
        ensures named { GivesNamed J.names result }
        ensures takes { TakesWork self.old.threads self.new.threads thread result }
    {
        if self.threads.is_anyone_up() || !self.pace.let_go() {
            return Claimed::Idle;
        }
        self.claim_next(thread)
    }

    /// Ends an event of a worker: commits it and claims the thread's next one, or abandons it.
    pub fn settle(
        &mut self,
        thread: u32,
        worker: u32,
        computed: Result<Done, (Work, WorkFault)>,
    ) -> Result<Claimed, WorkFault>
        requires { IsNamed J.names (event_of computed) }
        ensures named { IfOk result (λ claimed. GivesNamed J.names claimed) }
        ensures settles { Settles self.old.threads self.new.threads thread result }
    {
        let sent = match self.held.settle(computed) {
            Ok(sent) => sent,
            Err(fault) => {
                self.threads.leave(thread);
                return Err(fault);
            }
        };
        self.threads.end(worker);
        self.pace.end(worker);
        self.note(sent);
        Ok(self.claim(thread))
    }

    /// Puts a thread to sleep that found nothing to do.
    pub fn rest(&mut self, thread: u32, claimed: &Claimed)
        ensures rests { Rests self.old.threads self.new.threads thread claimed.now }
    {
        match claimed {
            Claimed::Idle => self.threads.fall_asleep(thread),
            Claimed::Stopped | Claimed::Busy | Claimed::Work(_) | Claimed::Drained => {}
        }
    }

    /// The board with its publisher.
    pub fn into_held(self) -> Held<J, V> {
        let Dispatcher {
            held,
            threads: _,
            backlog: _,
            pace: _,
            turn: _,
            asked: _,
        } = self;
        held
    }

    /// Wakes the threads that are to be woken now, and gives them. `eager` says that the caller may make no further call.
    pub fn wake(&mut self, at_end: bool, eager: bool) -> ThreadSet
        requires { MatchBool at_end (IsAtEnd self.old.held.board.shown) (IsAtEnd self.old.held.board.shown → ⊥) }
        ensures wakes { Wakes self.old.threads self.new.threads result }
        ensures lost { LosesNoWakeup self.new.threads self.new.held.board.shown }
        ensures shown { self.new.held.board.shown ≡ self.old.held.board.shown }
    {
        if !self.threads.has_sleepers() {
            return self.threads.wake(ThreadSet::empty());
        }
        self.pace.refresh(&self.held);
        let mail = self.pace.timely(self.backlog.worth_waking());
        let notified = self.backlog.recently_busy();
        let choice = self.threads.choose(at_end, eager, mail, notified);
        let chosen = self.chosen(choice);
        self.threads.wake(chosen)
    }

    /// The threads that are chosen, after those were asked that are to be asked.
    fn chosen(&mut self, choice: Choice) -> ThreadSet
        ensures chosen { AreChosen self.new.held.board.shown choice result }
        ensures threads { self.new.threads ≡ self.old.threads }
        ensures shown { self.new.held.board.shown ≡ self.old.held.board.shown }
    {
        match choice {
            Choice::These(threads) => threads,
            Choice::All(threads) => all_claimable(&mut self.held, threads),
            Choice::First(threads) => first_claimable(&mut self.held, threads),
            Choice::Next(threads) => self.next_claimable(threads),
        }
    }

    /// The next of them in turn, if it has something to do.
    fn next_claimable(&mut self, threads: ThreadSet) -> ThreadSet
        ensures threads { self.new.threads ≡ self.old.threads }
        ensures shown { self.new.held.board.shown ≡ self.old.held.board.shown }
    {
        let Some(thread) = threads.from(self.asked) else {
            return ThreadSet::empty();
        };
        self.asked = thread.wrapping_add(1);
        if !self.pace.is_ahead(thread) && self.held.can_claim(thread) {
            ThreadSet::empty().with(thread)
        } else {
            ThreadSet::empty()
        }
    }

    /// Whether the board is stopped, or nothing is left to do.
    pub fn is_at_end(&self) -> bool
        ensures { MatchBool result (IsAtEnd self.now.held.board.shown) (IsAtEnd self.now.held.board.shown → ⊥) }
    {
        self.held.is_stopped() || self.held.is_drained()
    }

    /// An event of the thread's own worker; idle while another thread has that worker's event.
    fn claim_own(&mut self, thread: u32) -> Claimed
        ensures named { GivesNamed J.names result }
        ensures takes { TakesWork self.old.threads self.new.threads thread result }
    {
        if self.threads.is_taken_over(thread) && !self.held.is_stopped() {
            return Claimed::Idle;
        }
        self.claim_of(thread, thread)
    }

    /// Claims an event of a worker for a thread, after the worker's messages that are alike are merged, unless it would run ahead. Notes a worker that
    /// has nothing to do.
    fn claim_of(&mut self, thread: u32, worker: u32) -> Claimed
        ensures named { GivesNamed J.names result }
        ensures takes { TakesWork self.old.threads self.new.threads thread result }
    {
        let large = self
            .backlog
            .worth_waking()
            .or(self.backlog.recently_busy())
            .has(worker);
        if self.is_left(worker) {
            return Claimed::Idle;
        }
        self.held.gather(worker);
        let claimed = self.held.claim(worker);
        match &claimed {
            Claimed::Work(_) => {
                self.backlog.take(worker);
                self.pace.take(worker);
                self.threads.take(thread, worker, large);
            }
            Claimed::Idle => self.backlog.lighten(worker),
            Claimed::Stopped | Claimed::Busy | Claimed::Drained => {}
        }
        claimed
    }

    /// An event of a worker that has mail, as is known without asking the board: the thread's own worker if much waits for it, or else its own or one
    /// whose thread is away, with mail that isn't worth waking the thread.
    fn claim_mailed(&mut self, thread: u32) -> Claimed
        ensures named { GivesNamed J.names result }
        ensures takes { TakesWork self.old.threads self.new.threads thread result }
    {
        let own = if self.backlog.worth_waking().has(thread) {
            self.claim_own(thread)
        } else {
            Claimed::Idle
        };
        let light = self.backlog.mailed().but(self.backlog.worth_waking());
        let workers = self
            .threads
            .free(self.threads.away().with(thread))
            .both(light);
        match own {
            Claimed::Idle => self.claim_among(thread, workers),
            own => own,
        }
    }

    /// An event of a worker without mail: a notification of the thread's own worker, or else of one whose thread is away. Finding one means looking
    /// at all the requests that wait.
    fn claim_asked(&mut self, thread: u32) -> Claimed
        ensures named { GivesNamed J.names result }
        ensures takes { TakesWork self.old.threads self.new.threads thread result }
    {
        let own = self.claim_own(thread);
        let others = self.threads.away().but(self.backlog.mailed());
        match own {
            Claimed::Idle => self.claim_among(thread, others),
            own => own,
        }
    }

    /// An event of one of these workers, of which no other thread has an event: the one with the earliest message, of equals the one whose turn it is;
    /// or else the next that has one.
    fn claim_among(&mut self, thread: u32, workers: ThreadSet) -> Claimed
        ensures named { GivesNamed J.names result }
        ensures takes { TakesWork self.old.threads self.new.threads thread result }
    {
        self.pace.refresh(&self.held);
        let mut left = workers;
        for _worker in 0..MAX_WORKERS {
            let Some(worker) = self.pace.earliest(left, self.turn) else {
                return Claimed::Idle;
            };
            left = left.without(worker);
            match self.claim_of(thread, worker) {
                Claimed::Work(work) => {
                    self.turn = worker.wrapping_add(1);
                    return Claimed::Work(work);
                }
                Claimed::Stopped | Claimed::Busy | Claimed::Drained | Claimed::Idle => {}
            }
        }
        Claimed::Idle
    }
}

/// The first of these threads whose worker has an event to claim; without one, the set is empty.
fn first_claimable<J: Naming, V: Views>(held: &mut Held<J, V>, threads: ThreadSet) -> ThreadSet
    ensures shown { held.new.board.shown ≡ held.old.board.shown }
    ensures first { ((n : ℕ) × IsIn result n × IsIn threads n) ⊎ ((n : ℕ) → IsIn threads n → HasNoChoice held.new.board.shown n) }
{
    threads.law_few();
    for thread in 0..MAX_WORKERS {
        if can_claim_one(held, threads, thread) {
            return ThreadSet::empty().with(thread);
        }
    }
    ThreadSet::empty()
}

/// Those of these threads whose workers have events to claim.
fn all_claimable<J: Naming, V: Views>(held: &mut Held<J, V>, threads: ThreadSet) -> ThreadSet
    ensures shown { held.new.board.shown ≡ held.old.board.shown }
    ensures all { (n : ℕ) → IsIn threads n → IsIn result n ⊎ HasNoChoice held.new.board.shown n }
{
    threads.law_few();
    let mut claimable = ThreadSet::empty();
    for thread in 0..MAX_WORKERS {
        claimable = claimable.or(claimable_one(held, threads, thread));
    }
    claimable
}

/// That thread alone, if it is one of these and its worker has an event to claim.
fn claimable_one<J: Naming, V: Views>(
    held: &mut Held<J, V>,
    threads: ThreadSet,
    thread: u32,
) -> ThreadSet
    requires { thread < 64 }
    ensures shown { held.new.board.shown ≡ held.old.board.shown }
    ensures one { IsIn threads thread → IsIn result thread ⊎ HasNoChoice held.new.board.shown thread }
{
    if threads.has(thread) && held.can_claim(thread) {
        ThreadSet::empty().with(thread)
    } else {
        ThreadSet::empty()
    }
}

/// Whether the thread is one of these, and its worker has an event to claim.
fn can_claim_one<J: Naming, V: Views>(
    held: &mut Held<J, V>,
    threads: ThreadSet,
    thread: u32,
) -> bool
    requires { thread < 64 }
    ensures shown { held.new.board.shown ≡ held.old.board.shown }
    ensures one { MatchBool result (IsIn threads (thread % 64)) (IsIn threads thread → HasNoChoice held.new.board.shown thread) }
{
    threads.has(thread) && held.can_claim(thread)
}
