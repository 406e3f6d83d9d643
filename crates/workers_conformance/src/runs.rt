//! Runs of one worker and of two, where all workers see one tracker, and where each has a view of its own.

ghost use Rattle.std.specs.Prelude.{◌<◌, ◌≤◌};

use crate::boards::{copying, copying_with_local_views};
use crate::calls::{Call, TAKEN};
use crate::flags::Meeting;
use crate::scenarios::{Question, Scenario, Step, WORKED_OFF, play};
use crate::threads::{BOTH_DRAINED, DRAINED, FOUR_EPOCHS, ONCE_EACH};
use std::alloc::Global;
use std::sync::Wait;
use std::thread::Threads;
use workers::NoGate;

/// What an observer sees of an epoch before the work and after it.
const LOOKED_AT: Scenario = Scenario {
    steps: &[
        (Step::Call(Call::Feed(0, 7)), TAKEN),
        (Step::Call(Call::Seal(0)), TAKEN),
        (Step::Call(Call::Seal(0)), TAKEN),
        (Step::Call(Call::Close(0)), TAKEN),
        (Step::Fed(0, 7), 1),
        (Step::Emitted(0, 7), 0),
        (Step::Passed(0), 0),
        (Step::Work, DRAINED),
        (Step::Fed(0, 7), 1),
        (Step::Emitted(0, 7), 1),
        (Step::Passed(0), 1),
        (Step::Mark, 2),
    ],
    report: &[],
};

/// Epochs of nothing pass though nobody works: what waits for the first worker is applied by whoever seals.
const SEALED_TWICE: Scenario = Scenario {
    steps: &[
        (Step::Call(Call::Seal(0)), TAKEN),
        (Step::Call(Call::Seal(0)), TAKEN),
        (Step::Mark, 2),
    ],
    report: &[],
};

/// The first reason to refuse a feed is the one that is told: no such input, closed, number of fields.
const REFUSED: Scenario = Scenario {
    steps: &[
        (Step::Call(Call::Feed(0, 7)), TAKEN),
        (Step::Call(Call::Seal(0)), TAKEN),
        (Step::Call(Call::Feed(0, 8)), TAKEN),
        (Step::Call(Call::FeedWide(0)), 33),
        (Step::Call(Call::FeedWide(1)), 32),
        (Step::Call(Call::Close(0)), TAKEN),
        (Step::Call(Call::Feed(0, 9)), 31),
        (Step::Call(Call::FeedWide(0)), 31),
    ],
    report: &[],
};

/// Each epoch shows what was fed for it.
const PASSED: Scenario = Scenario {
    steps: &[
        (Step::Mark, 0),
        (Step::WorkWhile(FOUR_EPOCHS), BOTH_DRAINED),
        (Step::Mark, 4),
    ],
    report: &[
        (Question::Emitted(0, 1), 1),
        (Question::Emitted(0, 2), 1),
        (Question::Emitted(0, 3), 0),
        (Question::Emitted(1, 1), 0),
        (Question::Emitted(1, 2), 0),
        (Question::Emitted(1, 3), 0),
        (Question::Emitted(2, 1), 0),
        (Question::Emitted(2, 2), 0),
        (Question::Emitted(2, 3), 2),
        (Question::Emitted(3, 1), 1),
        (Question::Emitted(3, 2), 0),
        (Question::Emitted(3, 3), 0),
    ],
};

/// Two workers and two feeders.
const FED_BY_TWO: Scenario = Scenario {
    steps: &[(Step::WorkWhile(ONCE_EACH), BOTH_DRAINED)],
    report: &[
        (Question::FedOnce(200), 200),
        (Question::End(200), WORKED_OFF),
    ],
};

/// The same after a first batch, of which each worker's part is so large that no other thread computes it.
const LARGE_FIRST: Scenario = Scenario {
    steps: &[
        (Step::Call(Call::FeedBatch(1_000, 11_000)), TAKEN),
        (Step::WorkWhile(ONCE_EACH), BOTH_DRAINED),
    ],
    report: &[
        (Question::FedOnce(200), 200),
        (Question::End(200), WORKED_OFF),
    ],
};

/// Whether a scenario goes as it says where all workers see one tracker.
fn goes_on_one_tracker<R: Threads + Wait + Sync>(
    rt: &R,
    alloc: Global,
    workers: u32,
    scenario: Scenario,
) -> bool
    requires some { 0 < workers }
    requires few { workers ≤ 64 }
{
    let board = copying(alloc, workers);
    play(rt, alloc, board, &NoGate, scenario) == Some(true)
}

/// The same where each worker has a view of its own.
fn goes_on_local_views<R: Threads + Wait + Sync>(
    rt: &R,
    alloc: Global,
    workers: u32,
    scenario: Scenario,
) -> bool
    requires some { 0 < workers }
    requires few { workers ≤ 64 }
{
    let board = copying_with_local_views(alloc, workers);
    play(rt, alloc, board, &NoGate, scenario) == Some(true)
}

#[test]
fn looks_before_and_after(rt: HostRuntime) {
    assert!(rt; goes_on_one_tracker(&rt, rt.alloc(), 1, LOOKED_AT));
    assert!(rt; goes_on_local_views(&rt, rt.alloc(), 1, LOOKED_AT));
}

#[test]
fn passes_without_workers(rt: HostRuntime) {
    assert!(rt; goes_on_one_tracker(&rt, rt.alloc(), 1, SEALED_TWICE));
    assert!(rt; goes_on_local_views(&rt, rt.alloc(), 2, SEALED_TWICE));
}

#[test]
fn refuses_in_order(rt: HostRuntime) {
    assert!(rt; goes_on_one_tracker(&rt, rt.alloc(), 2, REFUSED));
    assert!(rt; goes_on_local_views(&rt, rt.alloc(), 2, REFUSED));
}

#[test]
fn passes_each_epoch(rt: HostRuntime) {
    assert!(rt; goes_on_one_tracker(&rt, rt.alloc(), 2, PASSED));
    assert!(rt; goes_on_local_views(&rt, rt.alloc(), 2, PASSED));
}

#[test]
fn two_feeders(rt: HostRuntime) {
    assert!(rt; goes_on_one_tracker(&rt, rt.alloc(), 2, FED_BY_TWO));
    assert!(rt; goes_on_local_views(&rt, rt.alloc(), 2, FED_BY_TWO));
}

/// Two events are computed at once.
#[test]
fn two_at_once(rt: HostRuntime) {
    let board = copying(rt.alloc(), 2);
    let meeting = Meeting::new();
    assert_eq!(rt;
        play(&rt, rt.alloc(), board, &meeting, LARGE_FIRST),
        Some(true)
    );
    assert!(rt; meeting.have_met());
}
