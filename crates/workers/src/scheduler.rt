//! Which threads are asleep, and which of them are woken: the rules, with no lock and no board.
//!
//! A sleeping thread is woken only when it is worth the cost:
//!
//! - when many records wait for its worker, or it has a notification and many came before;
//! - when no thread is up, or all that are up have large events, and it has something to do;
//! - when an input is closed, and it has something to do;
//! - when the board is at its end.

ghost use Rattle.std.specs.Prelude.{◌≡◌, ◌%◌, ℕ, MatchBool};
ghost use Rattle.workers.specs.Sleeping.{IsCareful, Leaves, Sleeps, Takes, Wakes};
ghost use Rattle.workers.specs.ThreadSets.{IsEmpty, IsIn};

use crate::thread_set::ThreadSet;

/// Which threads are to be woken.
#[derive(Clone, Copy)]
pub enum Choice {
    /// These.
    These(ThreadSet),
    /// Those of these that have something to do. All are asked.
    All(ThreadSet),
    /// The first of these that has something to do. All are asked, until one has.
    First(ThreadSet),
    /// The next of these in turn, if it has something to do. Only that one is asked, so that the cost doesn't grow with the number of sleepers.
    Next(ThreadSet),
}

/// The threads that haven't started; those that are asleep; those that are up, that is, hold an event or were woken; those whose event is large; and
/// the workers whose event another worker's thread computes.
#[derive(Drop)]
pub struct Scheduler {
    absent: ThreadSet,
    asleep: ThreadSet,
    up: ThreadSet,
    busy: ThreadSet,
    taken_over: ThreadSet,
}

impl Scheduler {
    /// No thread has started yet.
    pub fn new(threads: u32) -> Scheduler
        ensures asleep { IsEmpty result.asleep }
        ensures up { IsEmpty result.up }
    {
        Scheduler {
            absent: ThreadSet::of_first(threads),
            asleep: ThreadSet::empty(),
            up: ThreadSet::empty(),
            busy: ThreadSet::empty(),
            taken_over: ThreadSet::empty(),
        }
    }

    /// The thread has started, and has no event.
    pub fn leave(&mut self, thread: u32)
        ensures { Leaves self.old self.new thread }
    {
        self.absent = self.absent.without(thread);
        self.asleep = self.asleep.without(thread);
        self.up = self.up.without(thread);
        self.busy = self.busy.without(thread);
    }

    /// The thread has an event of a worker.
    pub fn take(&mut self, thread: u32, worker: u32, large: bool)
        ensures { Takes self.old self.new thread }
    {
        if worker != thread {
            self.taken_over = self.taken_over.with(worker);
        }
        if large {
            self.busy = self.busy.with(thread);
        }
        self.up = self.up.with(thread);
    }

    /// A worker's event has ended.
    pub fn end(&mut self, worker: u32)
        ensures asleep { self.new.asleep ≡ self.old.asleep }
        ensures up { self.new.up ≡ self.old.up }
    {
        self.taken_over = self.taken_over.without(worker);
    }

    /// The thread, which found nothing to do, falls asleep.
    pub fn fall_asleep(&mut self, thread: u32)
        ensures { Sleeps self.old self.new thread }
    {
        self.asleep = self.asleep.with(thread);
    }

    /// Wakes those of these threads that are asleep, and gives them. They are up from now on.
    pub fn wake(&mut self, threads: ThreadSet) -> ThreadSet
        ensures wakes { Wakes self.old self.new result }
        ensures all { (n : ℕ) → IsIn threads n → IsIn self.old.asleep n → IsIn result n }
    {
        let woken = threads.both(self.asleep);
        self.asleep = self.asleep.but(woken);
        self.up = self.up.or(woken);
        woken
    }

    /// Whether anybody is up.
    pub fn is_anyone_up(&self) -> bool {
        !self.up.is_empty()
    }

    /// Whether anybody is asleep.
    pub fn has_sleepers(&self) -> bool
        ensures { MatchBool result ((n : ℕ) × IsIn self.now.asleep n) (IsEmpty self.now.asleep) }
    {
        !self.asleep.is_empty()
    }

    /// Whether another thread has the worker's event.
    pub fn is_taken_over(&self, worker: u32) -> bool {
        self.taken_over.has(worker)
    }

    /// The workers whose threads compute nothing, since they are asleep or haven't started, and whose event no other thread has.
    pub fn away(&self) -> ThreadSet {
        self.absent.or(self.asleep).but(self.taken_over)
    }

    /// These workers, without those whose event another thread has.
    pub fn free(&self, workers: ThreadSet) -> ThreadSet {
        workers.but(self.taken_over)
    }

    /// Which threads are to be woken. `eager` says that the caller may make no further call; `mail` are the workers whose mail is worth waking a thread,
    /// `notified` those whose notifications are.
    pub fn choose(&self, at_end: bool, eager: bool, mail: ThreadSet, notified: ThreadSet) -> Choice
        ensures { IsCareful self.now at_end result }
    {
        if at_end {
            return Choice::These(self.asleep);
        }
        if eager {
            return Choice::All(self.asleep);
        }
        let sleepers = self.asleep.but(self.taken_over);
        let worth_waking = sleepers.both(mail);
        if !worth_waking.is_empty() {
            return Choice::These(worth_waking);
        }
        if self.up.is_empty() {
            return Choice::First(self.asleep);
        }
        if self.up.but(self.busy).is_empty() {
            return Choice::Next(sleepers);
        }
        Choice::Next(sleepers.both(notified))
    }
}
