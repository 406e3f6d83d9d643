//! The same schedule at random on two boards: on one the workers have a view each, which may be late, on the other they see one tracker. What
//! is seen as passed with a late view has passed, and once nothing waits both see the same.

ghost use Rattle.std.specs.Prelude.{◌<◌};

use crate::boards::{Turn, batch_of, board_of, late_board_of, passed_at, take_turn};
use crate::schedules::{Dice, EPOCHS, REACH};
use board::Board;
use progress::LocationTracker;
use std::alloc::Global;
use std::test::Fail;
use views::{Direct, LocalViews};

/// Two boards on which the same was done.
#[derive(Drop)]
struct Twins {
    late: Board<LocalViews>,
    prompt: Board<Direct<LocationTracker>>,
    /// How often the input was sealed.
    sealed: u32,
}

/// What was seen after any of the steps of a schedule.
#[derive(Clone, Copy)]
struct Seen {
    /// Changes waited on the board with late views.
    waiting: bool,
    /// An epoch had passed, and was seen so there, too, or wasn't.
    passed: bool,
    missed: bool,
}

fn twins_of(alloc: Global) -> Option<Twins> {
    Some(Twins {
        late: late_board_of(alloc, REACH, 2)?,
        prompt: board_of(alloc, REACH, 2)?,
        sealed: 0,
    })
}

/// Feeds an edge of five nodes.
fn feed(alloc: Global, twins: &mut Twins, dice: &mut Dice) -> bool {
    let edge = [i64::from(dice.below(5)), i64::from(dice.below(5))];
    match (batch_of(alloc, &edge), batch_of(alloc, &edge)) {
        (Some(one), Some(other)) => {
            twins.late.feed(alloc, 0, one).is_ok() && twins.prompt.feed(alloc, 0, other).is_ok()
        }
        _ => false,
    }
}

fn seal(twins: &mut Twins) -> bool {
    twins.sealed = twins.sealed.saturating_add(1);
    twins.late.seal(0).is_ok() && twins.prompt.seal(0).is_ok()
}

/// Lets a worker take a turn. All events here are messages, so both boards hand out the same. What came of it, if it is the same.
fn turn(alloc: Global, twins: &mut Twins, worker: u32) -> Option<Turn> {
    let late = take_turn(alloc, &mut twins.late, worker);
    let prompt = take_turn(alloc, &mut twins.prompt, worker);
    if late == prompt { Some(late) } else { None }
}

/// Applies a batch of changes that waits for a worker, if there is one, seals, feeds an edge, or lets a worker take a turn.
fn step(alloc: Global, twins: &mut Twins, dice: &mut Dice) -> bool {
    match dice.below(12) {
        0 | 1 => {
            let worker = dice.below(2);
            let sender = dice.below(3);
            let _applied = twins.late.apply(worker, sender);
            true
        }
        2 if twins.sealed.saturating_add(1) < EPOCHS && dice.below(4) == 0 => seal(twins),
        3 if dice.below(4) == 0 => feed(alloc, twins, dice),
        _ => {
            let worker = dice.below(2);
            matches!(
                turn(alloc, twins, worker),
                Some(Turn::Committed | Turn::Idle)
            )
        }
    }
}

/// Notes what is seen. No where the late view lets an epoch through that hasn't passed.
fn look(twins: &mut Twins, seen: &mut Seen) -> bool {
    if twins.late.waiting_changes() > 0 {
        seen.waiting = true;
    }
    for epoch in 0..EPOCHS {
        match (
            passed_at(&twins.late, 0, epoch),
            passed_at(&twins.prompt, 0, epoch),
        ) {
            (true, true) => seen.passed = true,
            (false, true) => seen.missed = true,
            (false, false) => {}
            (true, false) => return false,
        }
    }
    twins.late.passed_count() <= twins.prompt.passed_count()
}

/// Whether both see the same as passed once all is applied for the first worker.
fn agree(twins: &mut Twins) -> bool {
    twins.late.catch_up(0);
    for epoch in 0..EPOCHS {
        if passed_at(&twins.late, 0, epoch) != passed_at(&twins.prompt, 0, epoch) {
            return false;
        }
    }
    twins.late.passed_count() == twins.prompt.passed_count()
}

/// Takes that many steps, and notes after each what is seen. Now and then, and in the end, all is applied for the first worker.
fn runs(alloc: Global, twins: &mut Twins, seed: u64, steps: u32, seen: &mut Seen) -> bool {
    let mut dice = Dice::of(seed);
    for _step in 0..steps {
        if !step(alloc, twins, &mut dice) || !look(twins, seen) {
            return false;
        }
        if dice.below(40) == 0 && !agree(twins) {
            return false;
        }
    }
    agree(twins)
}

#[test]
fn sees_no_more_than_there_is(rt: HostRuntime) -> Result<(), Fail> {
    let mut seen = Seen {
        waiting: false,
        passed: false,
        missed: false,
    };
    for seed in 0..40u64 {
        let mut twins = twins_of(rt.alloc()).ok_or("no boards")?;
        assert!(rt; runs(rt.alloc(), &mut twins, seed, 400, &mut seen));
    }
    assert!(rt; seen.waiting && seen.passed && seen.missed);
    Ok(())
}
