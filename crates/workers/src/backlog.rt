//! How much work waits for each worker, to decide which threads to wake.

use crate::thread_set::ThreadSet;
use board::{HEAVY, Sent};
use exchange::MAX_WORKERS;

/// What waits for each worker, and what came to it of late, by the rows of large messages. The first decides whether its mail is worth waking its
/// thread; the second whether its notifications are, since they are about the rows that came before.
#[derive(Drop)]
pub struct Backlog {
    mailed: ThreadSet,
    waiting: Rows,
    recent: Rows,
}

impl Backlog {
    /// Nothing has come to any worker.
    pub fn new() -> Backlog {
        Backlog {
            mailed: ThreadSet::empty(),
            waiting: Rows::none(),
            recent: Rows::none(),
        }
    }

    /// The workers that may have mail.
    pub fn mailed(&self) -> ThreadSet {
        self.mailed
    }

    /// The workers whose mail is worth waking a thread.
    pub fn worth_waking(&self) -> ThreadSet {
        self.mailed.both(self.waiting.many)
    }

    /// The workers without mail whose notifications are worth waking a thread.
    pub fn recently_busy(&self) -> ThreadSet {
        self.recent.many.but(self.mailed)
    }

    /// Notes what was sent.
    pub fn note(&mut self, sent: Sent) {
        self.mailed = self.mailed.or(ThreadSet::of_workers(sent.receivers()));
        let burdened = sent.burdened();
        if !burdened.is_empty() {
            for worker in 0..MAX_WORKERS {
                if burdened.has(worker) {
                    self.waiting.add(worker, sent.rows());
                    self.recent.add(worker, sent.rows());
                }
            }
        }
    }

    /// Notes that the worker's next event is taken. What it carries isn't asked: half of what waited is taken to go with it.
    pub fn take(&mut self, worker: u32) {
        self.waiting.halve(worker);
    }

    /// Notes that the worker has nothing to do.
    pub fn lighten(&mut self, worker: u32) {
        self.mailed = self.mailed.without(worker);
        self.waiting.set(worker, 0);
        self.recent.halve(worker);
    }
}

/// Rows by worker, and the workers that have many.
#[derive(Drop)]
struct Rows {
    many: ThreadSet,
    rows: [u64; MAX_WORKERS as usize],
}

impl Rows {
    fn none() -> Rows {
        Rows {
            many: ThreadSet::empty(),
            rows: [0; MAX_WORKERS as usize],
        }
    }

    fn add(&mut self, worker: u32, rows: u64) {
        self.set(worker, self.of(worker).saturating_add(rows));
    }

    fn halve(&mut self, worker: u32) {
        let rows = self.of(worker);
        if rows != 0 {
            self.set(worker, rows / 2);
        }
    }

    fn of(&self, worker: u32) -> u64 {
        match self.rows.get(worker as usize) {
            Some(rows) => *rows,
            None => 0,
        }
    }

    fn set(&mut self, worker: u32, rows: u64) {
        if let Some(place) = self.rows.get_mut(worker as usize) {
            *place = rows;
        }
        self.many = if rows >= HEAVY {
            self.many.with(worker)
        } else {
            self.many.without(worker)
        };
    }
}
