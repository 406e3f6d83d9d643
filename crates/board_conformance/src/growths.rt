//! Calls that are refused for lack of memory: the board is as before, and takes the same call again.

ghost use Rattle.std.specs.Prelude.{◌≡◌, IfOk, IfSome};
ghost use Rattle.graph.specs.Shown.{shown_graph};
ghost use Rattle.semantics.specs.Could.{Pointstamp as Active};
ghost use Rattle.progress.specs.Content.{times_at};
ghost use Rattle.views.specs.Opening.{active_at_first};
ghost use Rattle.board.specs.Commits.{IsOf};

use crate::boards::{
    batch_of, board_of, emitted_at, fields_of, graph_of, late_board_of, passed_at,
};
use crate::scarce::late_board_after;
use board::{Board, Claimed, CommitRefusal, StepRefusal};
use events::{Done, Work};
use graph::Graph;
use path_summary::{Paths, Pointstamp};
use progress::{LocationTracker, Progress};
use record_core::NoMemory;
use std::alloc::{AllocError, Global};
use std::sync::Arc;
use std::test::Fail;
use views::{Direct, Views};

const COUNTS: &str = "input a/1; output group(select(a; #0 * 2); #0; count);";

const KEYS: &str = "input a/1; output group(a; #0; count);";

/// A tracker that refuses one of its growths.
#[derive(Drop)]
pub struct Refusing {
    tracker: LocationTracker,
    /// How many growths there are until that one.
    granted: u32,
    has_refused: bool,
}

impl Progress for Refusing {
    ghost graph = { λ t. shown_graph t.tracker.graph };

    ghost content = { λ t. times_at t.tracker.edges t.tracker.vertices };

    ghost room = { λ t. t.tracker.spare };

    fn reserve(&mut self, count: u32) -> Result<(), NoMemory> {
        if self.granted == 0 && !self.has_refused {
            self.has_refused = true;
            return Err(NoMemory);
        }
        self.granted = self.granted.saturating_sub(1);
        self.tracker.reserve(count)
    }

    fn spare(&self) -> u32 {
        self.tracker.spare()
    }

    fn add(&mut self, p: &Pointstamp) {
        self.tracker.add(p);
    }

    fn remove(&mut self, p: &Pointstamp) {
        self.tracker.remove(p);
    }

    fn in_frontier(&self, p: &Pointstamp) -> bool {
        self.tracker.in_frontier(p)
    }

    fn none_before(&self, p: &Pointstamp) -> bool {
        self.tracker.none_before(p)
    }
}

/// Views by two workers of a graph, which see one tracker that refuses a growth after that many.
fn views_after(
    alloc: Global,
    graph: &Arc<Graph, Global>,
    granted: u32,
) -> Result<Direct<Refusing>, NoMemory>
    ensures graph { IfOk result (λ d. shown_graph d.tracker.tracker.graph ≡ shown_graph graph.now.value) }
    ensures workers { IfOk result (λ d. d.workers ≡ 2) }
    ensures first { IfOk result (λ d. (q : Active) →
        times_at d.tracker.tracker.edges d.tracker.tracker.vertices q ≡ active_at_first (shown_graph graph.now.value) q) }
{
    let paths = Arc::new(alloc, Paths::of(alloc, graph)?)?;
    let tracker = LocationTracker::new(alloc, Arc::try_clone(&paths)?)?;
    let refusing = Refusing {
        tracker,
        granted,
        has_refused: false,
    };
    Direct::new(alloc, &paths, 2, refusing)
}

/// A board of two workers whose tracker refuses a growth after that many; nothing if the opening is refused.
pub fn board_after(
    alloc: Global,
    graph: Arc<Graph, Global>,
    granted: u32,
) -> Option<Board<Direct<Refusing>>>
    ensures { IfSome result (λ b. b.shown.graph ≡ graph.value) }
{
    let Ok(views) = views_after(alloc, &graph, granted) else {
        return None;
    };
    Board::with_views(alloc, graph, 2, views).ok()
}

/// Why a schedule ended early.
#[derive(Clone, Copy)]
enum Fault {
    /// After a refusal the board wasn't as before, or it refused the same call again.
    Spoiled,
    /// There was no memory to compute an event, which was abandoned.
    GivenUp,
}

/// How many records the board has emitted for an epoch, with their repeats.
fn emitted_count<V: Views>(board: &Board<V>, epoch: u32) -> usize {
    let mut count = 0usize;
    for batch in emitted_at(board, 0, epoch) {
        count = count.saturating_add(batch.weight());
    }
    count
}

/// Records at the output of two epochs, the number of passed epochs, and whether each of two workers holds an event.
fn shown<V: Views>(board: &mut Board<V>) -> (usize, usize, u64, bool, bool)
    ensures { board.new.shown ≡ board.old.shown }
{
    (
        emitted_count(board, 0),
        emitted_count(board, 1),
        board.passed_count(),
        board.holding(0),
        board.holding(1),
    )
}

/// Commits an event again after a refusal, or abandons it without memory.
fn commit_again<V: Views>(board: &mut Board<V>, done: Done) -> bool
    requires { IsOf board.old.shown done }
{
    match board.commit(done) {
        Ok(_sent) => true,
        Err(CommitRefusal::NoMemory(done)) => {
            board.abandon_done(done);
            false
        }
    }
}

/// Commits an event, if need be twice. How often that was refused.
fn commit_twice<V: Views>(board: &mut Board<V>, done: Done) -> Result<u32, Fault>
    requires { IsOf board.old.shown done }
{
    let before = shown(board);
    match board.commit(done) {
        Ok(_sent) => Ok(0),
        Err(CommitRefusal::NoMemory(done)) => {
            let is_same = shown(board) == before;
            if commit_again(board, done) && is_same {
                Ok(1)
            } else {
                Err(Fault::Spoiled)
            }
        }
    }
}

/// Computes an event and commits it, if need be twice. How often that was refused.
fn finish<V: Views>(alloc: Global, board: &mut Board<V>, work: Work) -> Result<u32, Fault>
    requires { IsOf board.old.shown work.0 }
{
    match work.compute(alloc) {
        Ok(done) => commit_twice(board, done),
        Err((work, _fault)) => {
            board.abandon(work);
            Err(Fault::GivenUp)
        }
    }
}

/// Feeds a record, or seals the input where there is none.
fn offer<V: Views>(
    alloc: Global,
    board: &mut Board<V>,
    field: Option<i64>,
) -> Result<(), StepRefusal> {
    match field {
        None => board.seal(0),
        Some(field) => match batch_of(alloc, &[field]) {
            None => Err(StepRefusal::NoMemory),
            Some(batch) => board.feed(alloc, 0, batch),
        },
    }
}

/// Does so, if need be twice. How often that was refused.
fn offer_twice<V: Views>(
    alloc: Global,
    board: &mut Board<V>,
    field: Option<i64>,
) -> Result<u32, Fault> {
    let before = shown(board);
    if offer(alloc, board, field).is_ok() {
        return Ok(0);
    }
    if shown(board) == before && offer(alloc, board, field).is_ok() {
        return Ok(1);
    }
    Err(Fault::Spoiled)
}

/// Feeds two epochs and lets two workers take turns until the board is drained. How many calls were refused.
fn refused<V: Views>(alloc: Global, board: &mut Board<V>) -> Result<u32, Fault> {
    let mut refused = 0u32;
    for field in [Some(1), Some(1), Some(2), None, Some(2), None] {
        refused = refused.saturating_add(offer_twice(alloc, board, field)?);
    }
    if board.close(0).is_err() {
        return Err(Fault::Spoiled);
    }
    for turn in 0..100u32 {
        match board.claim(turn % 2) {
            Claimed::Work(work) => {
                refused = refused.saturating_add(finish(alloc, board, work)?);
            }
            Claimed::Drained => return Ok(refused),
            Claimed::Idle => {}
            Claimed::Stopped | Claimed::Busy => return Err(Fault::Spoiled),
        }
    }
    Err(Fault::Spoiled)
}

/// Whether the board emitted what `COUNTS` means on what `refused` feeds.
fn is_answered<V: Views>(alloc: Global, board: &Board<V>) -> Result<bool, AllocError> {
    let first = fields_of(alloc, emitted_at(board, 0, 0))?;
    let second = fields_of(alloc, emitted_at(board, 0, 1))?;
    Ok(
        matches!(first.as_slice(), [2, 2, 4, 1] | [4, 1, 2, 2])
            && matches!(second.as_slice(), [4, 1])
            && passed_at(board, 0, 1),
    )
}

/// How many calls were refused on a new board, if the answer is whole.
fn refused_on<V: Views>(alloc: Global, mut board: Board<V>) -> Option<u32> {
    let count = refused(alloc, &mut board).ok()?;
    board.catch_up(0);
    match is_answered(alloc, &board) {
        Ok(true) => Some(count),
        _ => None,
    }
}

/// How many calls were refused if the tracker refuses a growth after that many, where the answer is whole.
fn refused_after(alloc: Global, granted: u32) -> Option<u32> {
    refused_on(
        alloc,
        board_after(alloc, graph_of(alloc, COUNTS)?, granted)?,
    )
}

/// The same where each worker has a view, which refuses its growth.
fn refused_late_after(alloc: Global, granted: u32) -> Option<u32> {
    refused_on(
        alloc,
        late_board_after(alloc, graph_of(alloc, COUNTS)?, 2, granted)?,
    )
}

// The opening reserves twice, and each feed, seal and commit once: there are four feeds, two seals and twelve commits at least.
#[test]
fn refused_by_the_tracker(rt: HostRuntime) -> Result<(), Fail> {
    let graph = graph_of(rt.alloc(), COUNTS).ok_or("no graph")?;
    for granted in 0..2u32 {
        let shared = Arc::try_clone(&graph)?;
        assert!(rt; board_after(rt.alloc(), shared, granted).is_none());
    }
    for granted in 2..100u32 {
        match refused_after(rt.alloc(), granted) {
            Some(0) => {
                assert!(rt; granted > 19);
                return Ok(());
            }
            count => assert_eq!(rt; count, Some(1)),
        }
    }
    Err(Fail::from("always refused"))
}

// Here the opening reserves once.
#[test]
fn refused_by_late_views(rt: HostRuntime) -> Result<(), Fail> {
    let graph = graph_of(rt.alloc(), COUNTS).ok_or("no graph")?;
    assert!(rt; late_board_after(rt.alloc(), graph, 2, 0).is_none());
    for granted in 1..100u32 {
        match refused_late_after(rt.alloc(), granted) {
            Some(0) => {
                assert!(rt; granted > 18);
                return Ok(());
            }
            count => assert_eq!(rt; count, Some(1)),
        }
    }
    Err(Fail::from("always refused"))
}

/// Whether an output shows these fields for epoch 0, and whether it shows the epoch as passed.
fn shows_at<V: Views>(
    alloc: Global,
    board: &Board<V>,
    output: u32,
    emitted: &[i64],
    passed: bool,
) -> bool {
    match fields_of(alloc, emitted_at(board, output, 0)) {
        Ok(fields) => fields.as_slice() == emitted && passed_at(board, output, 0) == passed,
        Err(_) => false,
    }
}

/// Does a worker's first choice, which must be there or not. How often a call was refused.
fn finish_picked<V: Views>(
    alloc: Global,
    board: &mut Board<V>,
    worker: u32,
    is_there: bool,
) -> Result<u32, Fault> {
    match board.pick(worker, 0) {
        Ok(work) => {
            let refused = finish(alloc, board, work)?;
            if is_there {
                Ok(refused)
            } else {
                Err(Fault::Spoiled)
            }
        }
        Err(StepRefusal::NoSuchEvent) if !is_there => Ok(0),
        Err(_) => Err(Fault::Spoiled),
    }
}

/// Two workers count a key each. Worker 0 isn't notified while a record is on its way to worker 1, whose group is the same vertex.
fn counted<V: Views>(alloc: Global, board: &mut Board<V>) -> Result<u32, Fault> {
    let mut refused = 0u32;
    for field in [Some(1), Some(2), None] {
        refused = refused.saturating_add(offer_twice(alloc, board, field)?);
    }
    for (worker, is_there, emitted, passed) in [
        (0, true, [].as_slice(), false),
        (0, false, &[], false),
        (1, true, &[], false),
        (0, true, &[], false),
        (1, true, &[], false),
        (0, true, &[1, 1], false),
        (1, true, &[1, 1, 2, 1], true),
    ] {
        refused = refused.saturating_add(finish_picked(alloc, board, worker, is_there)?);
        if !shows_at(alloc, board, 0, emitted, passed) {
            return Err(Fault::Spoiled);
        }
    }
    Ok(refused)
}

/// How many calls were refused if the tracker refuses a growth after that many, where each showed what it should.
fn counted_after(alloc: Global, granted: u32) -> Option<u32> {
    let mut board = board_after(alloc, graph_of(alloc, KEYS)?, granted)?;
    counted(alloc, &mut board).ok()
}

// After the opening's two there are two feeds, a seal and six commits.
#[test]
fn counts_refused_by_the_tracker(rt: HostRuntime) {
    for granted in 2..11u32 {
        assert_eq!(rt; counted_after(rt.alloc(), granted), Some(1));
    }
    assert_eq!(rt; counted_after(rt.alloc(), 11), Some(0));
}

/// Whether the answer is whole, or an event was abandoned: then the board is stopped, and the event's epoch never passes.
fn is_whole_or_stopped<V: Views>(alloc: Global, board: &mut Board<V>) -> Result<bool, AllocError> {
    match refused(alloc, board) {
        Ok(count) => {
            board.catch_up(0);
            let is_whole = match is_answered(alloc, board) {
                Ok(is_whole) => is_whole,
                Err(_) => is_answered(alloc, board)?,
            };
            Ok(is_whole && count <= 1)
        }
        Err(Fault::GivenUp) => {
            board.catch_up(0);
            Ok(board.is_stopped() && !passed_at(board, 0, 1))
        }
        Err(Fault::Spoiled) => Ok(false),
    }
}

// To be run with each allocation refused in turn, as the next one.
#[test]
fn refused_by_the_heap(rt: HostRuntime) -> Result<(), Fail> {
    let alloc = rt.alloc();
    let first = board_of(alloc, COUNTS, 2);
    let mut board = match first {
        Some(board) => board,
        None => board_of(alloc, COUNTS, 2).ok_or("no board")?,
    };
    assert!(rt; is_whole_or_stopped(alloc, &mut board)?);
    Ok(())
}

#[test]
fn refused_by_the_heap_where_views_are_late(rt: HostRuntime) -> Result<(), Fail> {
    let alloc = rt.alloc();
    let first = late_board_of(alloc, COUNTS, 2);
    let mut board = match first {
        Some(board) => board,
        None => late_board_of(alloc, COUNTS, 2).ok_or("no board")?,
    };
    assert!(rt; is_whole_or_stopped(alloc, &mut board)?);
    Ok(())
}
