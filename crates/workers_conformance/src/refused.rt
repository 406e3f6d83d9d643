//! Runs by two threads that lack memory: all workers end.

use crate::boards::{COPY, graph_of};
use crate::calls::{Call, TAKEN};
use crate::scarce::{board_after, late_board_after};
use crate::scenarios::{ANY, GIVEN_UP, Question, Scenario, Step, play};
use crate::threads::BOTH_STOPPED;
use board::Board;
use std::alloc::Global;
use std::sync::Wait;
use std::test::Fail;
use std::thread::Threads;
use workers::NoGate;

/// How often the views grow before the first commit: at the opening, at each feed and at the seal.
const GRANTED: u32 = 4;

/// Two records, each of which goes to a worker of its own, so that nothing is merged. The first commit is refused.
const STOPPED: Scenario = Scenario {
    steps: &[
        (Step::Call(Call::FeedEach(0, 2)), TAKEN),
        (Step::Call(Call::Seal(0)), TAKEN),
        (Step::Call(Call::Close(0)), TAKEN),
        (Step::WorkBoth, BOTH_STOPPED),
    ],
    report: &[(Question::End(2), GIVEN_UP)],
};

/// Twenty records, each in a batch of its own. An event whose computation or commit is refused is abandoned.
const ENDED: Scenario = Scenario {
    steps: &[
        (Step::Call(Call::FeedEach(0, 20)), TAKEN),
        (Step::Call(Call::Seal(0)), TAKEN),
        (Step::Call(Call::Close(0)), TAKEN),
        (Step::WorkBoth, ANY),
    ],
    report: &[(Question::HasEnded(20), 1)],
};

/// Drops repeats, of which there are none, and takes memory for each event.
const DISTINCT: &str = "input a/1; output distinct(a);";

#[test]
fn stops_all_workers(rt: HostRuntime) -> Result<(), Fail> {
    let graph = graph_of(rt.alloc(), COPY).ok_or("no graph")?;
    let board = board_after(rt.alloc(), graph, GRANTED);
    assert_eq!(rt; play(&rt, rt.alloc(), board, &NoGate, STOPPED), Some(true));
    Ok(())
}

#[test]
fn stops_all_workers_with_local_views(rt: HostRuntime) -> Result<(), Fail> {
    let graph = graph_of(rt.alloc(), COPY).ok_or("no graph")?;
    let board = late_board_after(rt.alloc(), graph, GRANTED);
    assert_eq!(rt; play(&rt, rt.alloc(), board, &NoGate, STOPPED), Some(true));
    Ok(())
}

fn new_run<R: Threads + Wait + Sync>(rt: &R, alloc: Global) -> Option<bool> {
    let board = Board::new(alloc, graph_of(alloc, DISTINCT)?, 2).ok();
    play(rt, alloc, board, &NoGate, ENDED)
}

fn new_run_with_local_views<R: Threads + Wait + Sync>(rt: &R, alloc: Global) -> Option<bool> {
    let board = Board::with_local_views(alloc, graph_of(alloc, DISTINCT)?, 2).ok();
    play(rt, alloc, board, &NoGate, ENDED)
}

// To be run with each allocation refused in turn: what is refused before the work can be done again.
#[test]
fn refused_by_the_heap(rt: HostRuntime) {
    let first = new_run(&rt, rt.alloc());
    assert!(rt; first == Some(true) || first.is_none() && new_run(&rt, rt.alloc()) == Some(true));
}

#[test]
fn refused_by_the_heap_with_local_views(rt: HostRuntime) {
    let alloc = rt.alloc();
    let first = new_run_with_local_views(&rt, alloc);
    assert!(rt;
        first == Some(true) || first.is_none() && new_run_with_local_views(&rt, alloc) == Some(true)
    );
}
