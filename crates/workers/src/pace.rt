//! How far each worker has got in the loops, so that none runs far ahead of the others.

use crate::held::{Held, Naming};
use crate::thread_set::ThreadSet;
use exchange::MAX_WORKERS;
use graph::Location;
use path_summary::Pointstamp;
use views::Views;

/// A message that is this many turns of a loop behind another is left for later.
const MOST_AHEAD: u32 = 2;

/// The number of workers.
const WORKERS: usize = MAX_WORKERS as usize;

/// Where a message is active: its epoch, the counters of the three outermost loops around it, the number of those loops, and its edge. Deeper loops
/// aren't told apart.
#[derive(Clone, Copy)]
struct Turn {
    epoch: u32,
    counters: [u32; 3],
    depth: usize,
    edge: u32,
}

impl Turn {
    fn of(place: &Pointstamp) -> Turn {
        let time = place.time();
        let mut counters = [0, 0, 0];
        let mut depth: usize = 0;
        for counter in time.counters() {
            if let Some(own) = counters.get_mut(depth) {
                *own = *counter;
                depth = depth.saturating_add(1);
            }
        }
        Turn {
            epoch: time.epoch(),
            counters,
            depth,
            edge: edge_of(place.location()),
        }
    }

    /// Whether it comes before the other: by its time, and then by its edge.
    fn is_before(&self, other: &Turn) -> bool {
        if self.epoch != other.epoch {
            return self.epoch < other.epoch;
        }
        for level in 0..3 {
            let (own, beside) = (self.counters[level], other.counters[level]);
            if own != beside {
                return own < beside;
            }
        }
        if self.depth != other.depth {
            return self.depth < other.depth;
        }
        self.edge < other.edge
    }

    /// Whether it is in the same epoch, and in a much later turn of a loop that is around both.
    fn is_far_behind(&self, other: &Turn) -> bool {
        if self.epoch != other.epoch {
            return false;
        }
        for level in 0..3 {
            if self.depth <= level || other.depth <= level {
                return false;
            }
            let (own, beside) = (self.counters[level], other.counters[level]);
            if own != beside {
                return own > beside.saturating_add(MOST_AHEAD);
            }
        }
        false
    }
}

/// The number of an edge. What waits for a notification comes behind all messages of its time.
fn edge_of(location: Location) -> u32 {
    match location {
        Location::Edge(edge) => edge.0,
        Location::Vertex(_) => u32::MAX,
    }
}

/// For each worker what it takes next, or that of which its event is out; the workers of which that may have changed; and those whose event is out;
/// whether those that are ahead are held back, and whether one was. It decides only the order of events: any order is right.
#[derive(Drop)]
pub struct Pace {
    turns: [Option<Turn>; WORKERS],
    stale: ThreadSet,
    out: ThreadSet,
    holds: bool,
    left: bool,
}

impl Pace {
    /// No worker has a message.
    pub fn new() -> Pace {
        Pace {
            turns: [None; WORKERS],
            stale: ThreadSet::empty(),
            out: ThreadSet::empty(),
            holds: true,
            left: false,
        }
    }

    /// From now on what is ahead is held back.
    pub fn hold_back(&mut self) {
        self.holds = true;
        self.left = false;
    }

    /// From now on nothing is held back. Whether something was.
    pub fn let_go(&mut self) -> bool {
        self.holds = false;
        self.left
    }

    /// Whether the worker's next event is left for later. Notes that one was.
    pub fn leaves(&mut self, worker: u32) -> bool {
        if self.holds && self.is_ahead(worker) {
            self.left = true;
            return true;
        }
        false
    }

    /// Notes that these workers got messages.
    pub fn note(&mut self, receivers: ThreadSet) {
        self.stale = self.stale.or(receivers);
    }

    /// Notes that an event of the worker is out.
    pub fn take(&mut self, worker: u32) {
        self.out = self.out.with(worker);
    }

    /// Notes that an event of the worker has ended.
    pub fn end(&mut self, worker: u32) {
        self.out = self.out.without(worker);
        self.stale = self.stale.with(worker);
    }

    /// Looks at the mail of each worker that may have another next message.
    pub fn refresh<J: Naming, V: Views>(&mut self, held: &Held<J, V>) {
        if held.workers() == 1 {
            return;
        }
        let mut left = self.stale.but(self.out);
        self.stale = self.stale.both(self.out);
        for _worker in 0..MAX_WORKERS {
            let Some(worker) = left.from(0) else {
                return;
            };
            left = left.without(worker);
            if let Some(turn) = self.turns.get_mut(worker as usize) {
                *turn = match held.next_pointstamp(worker) {
                    Some(place) => Some(Turn::of(&place)),
                    None => None,
                };
            }
        }
    }

    /// Whether the worker's next message is in a much later turn of a loop than what some other worker does or will do next.
    pub fn is_ahead(&self, worker: u32) -> bool {
        let Some(turn) = self.turn(worker) else {
            return false;
        };
        if turn.depth == 0 {
            return false;
        }
        for other in &self.turns {
            if let Some(other) = other {
                if turn.is_far_behind(other) {
                    return true;
                }
            }
        }
        false
    }

    /// Those of these workers that aren't ahead.
    pub fn timely(&self, workers: ThreadSet) -> ThreadSet {
        let mut left = workers;
        let mut timely = workers;
        for _worker in 0..MAX_WORKERS {
            let Some(worker) = left.from(0) else {
                return timely;
            };
            left = left.without(worker);
            if self.is_ahead(worker) {
                timely = timely.without(worker);
            }
        }
        timely
    }

    /// The one of these workers whose next message is the earliest; of equals, the first from `from` on.
    pub fn earliest(&self, workers: ThreadSet, from: u32) -> Option<u32> {
        let mut left = workers;
        let mut earliest = left.from(from)?;
        for _worker in 0..MAX_WORKERS {
            let Some(worker) = left.from(from) else {
                return Some(earliest);
            };
            left = left.without(worker);
            if self.is_earlier(worker, earliest) {
                earliest = worker;
            }
        }
        Some(earliest)
    }

    /// Whether the worker's next message is before the other's.
    fn is_earlier(&self, worker: u32, other: u32) -> bool {
        match (self.turn(worker), self.turn(other)) {
            (Some(turn), Some(beside)) => turn.is_before(&beside),
            (Some(_), None) => true,
            (None, _) => false,
        }
    }

    fn turn(&self, worker: u32) -> Option<Turn> {
        match self.turns.get(worker as usize) {
            Some(turn) => *turn,
            None => None,
        }
    }
}
