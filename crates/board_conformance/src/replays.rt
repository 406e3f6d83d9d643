//! Schedules that are replayed while each growth of the board's tracker or views is refused in turn: the whole text is printed, or nothing.

ghost use Rattle.std.specs.Prelude.{◌≡◌};

use crate::boards::graph_of;
use crate::growths::board_after;
use crate::scarce::late_board_after;
use board::Board;
use driver::law_inputs;
use graph::Graph;
use replay::replay;
use schedule::{Line, ViewKind, read_schedule};
use std::alloc::Global;
use std::sync::Arc;
use std::test::Fail;
use views::Views;

const COUNTED: &str = "input a/1; output group(a; #0; count);";

/// Two workers count a key each. Each holds an event while the other's is committed.
const SCHEDULE: &str =
    "f a 1\nf a 2\nt 0 0\nt 1 0\np 0\nc 0\ns a\nt 0 0\nc 1\nt 0 0\nd 1 0\np 0\nd 1 0\np 0\nc 0\nd 0 0\np 0\nx a\nf a 3\nf b 1\n";

/// What it prints: worker 0 isn't notified while worker 1 holds a record that comes to the group.
const PRINTED: &str =
    "epoch 0 open\nrefused 34\nepoch 0 open\nepoch 0 open\n2 1\nepoch 0 passed\n1 1\n2 1\nrefused 31\nrefused 32\n";

/// One worker counts a key. It isn't notified before it has applied the feed and the seal, and its own last change must be applied before the
/// epoch is seen to have passed.
const LATE_SCHEDULE: &str =
    "f a 5\ns a\nd 0 0\nd 0 0\nv 0 1\nv 0 1\nv 0 0\nd 0 0\nd 0 0\np 0\nv 0 0\nv 0 0\np 0\nv 0 0\n";

const LATE_PRINTED: &str = "refused 34\nepoch 0 open\n5 1\nepoch 0 passed\n5 1\nrefused 40\n";

/// What the lines print on a board; nothing where the replay is refused.
pub fn printed_on<V: Views>(
    alloc: Global,
    graph: &Graph,
    board: Board<V>,
    lines: &[Line<'_>],
) -> Option<Vec<u8>>
    requires { board.shown.graph ≡ graph.now }
{
    law_inputs(graph);
    replay(alloc, board, graph.inputs(), lines).ok()
}

/// What the schedule prints if the tracker refuses a growth after that many; nothing if the opening or the replay is refused.
fn printed_after(alloc: Global, granted: u32) -> Option<Vec<u8>> {
    let lines = read_schedule(alloc, ViewKind::Shared, SCHEDULE.as_bytes()).ok()?;
    let graph = graph_of(alloc, COUNTED)?;
    let shared = Arc::try_clone(&graph).ok()?;
    let board = board_after(alloc, shared, granted)?;
    printed_on(alloc, &graph, board, lines.as_slice())
}

/// The same of the schedule for late views, where these refuse a growth.
fn late_printed_after(alloc: Global, granted: u32) -> Option<Vec<u8>> {
    let lines = read_schedule(alloc, ViewKind::Local, LATE_SCHEDULE.as_bytes()).ok()?;
    let graph = graph_of(alloc, COUNTED)?;
    let shared = Arc::try_clone(&graph).ok()?;
    let board = late_board_after(alloc, shared, 1, granted)?;
    printed_on(alloc, &graph, board, lines.as_slice())
}

// The opening reserves twice, and each feed, seal and commit once: there are two feeds, a seal and six commits.
#[test]
fn replays_refused_by_the_tracker(rt: HostRuntime) -> Result<(), Fail> {
    for granted in 0..11u32 {
        assert!(rt; printed_after(rt.alloc(), granted).is_none());
    }
    let printed = printed_after(rt.alloc(), 11).ok_or("refused once more")?;
    assert_eq!(rt; printed.as_slice(), PRINTED.as_bytes());
    Ok(())
}

// The opening, the feed, the seal and each of three commits reserve once.
#[test]
fn replays_refused_by_late_views(rt: HostRuntime) -> Result<(), Fail> {
    for granted in 0..6u32 {
        assert!(rt; late_printed_after(rt.alloc(), granted).is_none());
    }
    let printed = late_printed_after(rt.alloc(), 6).ok_or("refused once more")?;
    assert_eq!(rt; printed.as_slice(), LATE_PRINTED.as_bytes());
    Ok(())
}
