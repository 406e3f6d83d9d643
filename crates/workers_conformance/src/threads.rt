//! Several threads on one engine.

use crate::calls::{Call, TAKEN, make};
use std::alloc::Global;
use std::sync::Wait;
use std::thread;
use std::thread::Threads;
use views::Views;
use workers::{Ended, Engine, Gate, Naming, work};

/// A worker has found nothing left to do.
pub const DRAINED: u64 = 1;
/// Two workers have.
pub const BOTH_DRAINED: u64 = 11;
/// Two workers have stopped, since an event was abandoned.
pub const BOTH_STOPPED: u64 = 22;

/// No such feeding, or one that wasn't taken.
const NONE: u64 = 99;

/// A digit for the reason why a worker ended.
pub fn digit_of(ended: Ended) -> u64 {
    match ended {
        Ended::Drained => 1,
        Ended::Stopped => 2,
        Ended::Count => 3,
        Ended::Busy => 4,
    }
}

/// Both workers, a thread for each.
pub fn work_both<
    J: Naming + Send + Sync,
    V: Views + Send,
    G: Gate + Sync,
    R: Threads + Wait + Sync,
>(rt: &R, alloc: Global, engine: &Engine<J, V>, gate: &G) -> u64 {
    let (one, other) = thread::join(
        rt,
        move || work(rt, alloc, engine, 0, gate),
        move || work(rt, alloc, engine, 1, gate),
    );
    digit_of(one)
        .saturating_mul(10)
        .saturating_add(digit_of(other))
}

/// Calls that two threads make at once, and the last calls, which are made after them.
type Feeding = [&'static [Call]; 3];

/// 0 to 199, once each, by both ways to feed.
pub const ONCE_EACH: usize = 0;
/// An epoch of 1 and 2, one of nothing, one of 3 twice and one of 1.
pub const FOUR_EPOCHS: usize = 1;

const FEEDINGS: [Feeding; 2] = [
    [
        &[Call::FeedEach(0, 100)],
        &[Call::FeedAtOnce(100, 200)],
        &[Call::Seal(0), Call::Close(0)],
    ],
    [
        &[
            Call::Feed(0, 1),
            Call::Feed(0, 2),
            Call::Seal(0),
            Call::Seal(0),
            Call::Feed(0, 3),
            Call::Feed(0, 3),
            Call::Seal(0),
            Call::Feed(0, 1),
            Call::Seal(0),
        ],
        &[],
        &[Call::Close(0)],
    ],
];

/// Makes the calls of a part of a feeding.
fn make_part<J: Naming, V: Views, R: Wait>(
    rt: &R,
    alloc: Global,
    engine: &Engine<J, V>,
    feeding: usize,
    part: usize,
) -> u64 {
    match FEEDINGS.get(feeding) {
        Some(parts) => match parts.get(part) {
            Some(calls) => make(rt, alloc, engine, calls),
            None => NONE,
        },
        None => NONE,
    }
}

/// Two threads feed, and then the last calls are made. The answer is the first one that isn't `TAKEN`.
fn feed_both<J: Naming + Send + Sync, V: Views + Send, R: Threads + Wait + Sync>(
    rt: &R,
    alloc: Global,
    engine: &Engine<J, V>,
    feeding: usize,
) -> u64 {
    let (one, other) = thread::join(
        rt,
        move || make_part(rt, alloc, engine, feeding, 0),
        move || make_part(rt, alloc, engine, feeding, 1),
    );
    if one != TAKEN {
        return one;
    }
    if other != TAKEN {
        return other;
    }
    make_part(rt, alloc, engine, feeding, 2)
}

/// Both workers are at work while two threads feed. The answer is that of the workers, or `NONE` where a call wasn't taken.
pub fn work_while<
    J: Naming + Send + Sync,
    V: Views + Send,
    G: Gate + Sync,
    R: Threads + Wait + Sync,
>(rt: &R, alloc: Global, engine: &Engine<J, V>, gate: &G, feeding: usize) -> u64 {
    let (one, other) = thread::join(
        rt,
        move || work_both(rt, alloc, engine, gate),
        move || feed_both(rt, alloc, engine, feeding),
    );
    if other == TAKEN { one } else { NONE }
}
