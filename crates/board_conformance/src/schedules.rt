//! Schedules at random over a loop with a join, on two workers, who see one tracker or have a view each: after each call both halves of the
//! promise are compared with a plain evaluator.

ghost use Rattle.std.specs.Prelude.{◌<◌};

use crate::boards::{Turn, batch_of, board_of, emitted_at, late_board_of, passed_at, take_turn};
use crate::reach::{is_part, pairs_of, within_three};
use board::Board;
use std::alloc::{AllocError, Global};
use std::test::Fail;
use views::Views;

pub const REACH: &str =
    "input e/2; output iterate(2; x = e; distinct(concat(x, select(join(x, e; #1 = #0); #0, #3))));";

pub const EPOCHS: u32 = 3;

/// Pseudo-random numbers.
#[derive(Drop)]
pub struct Dice {
    state: u64,
}

impl Dice {
    pub fn of(seed: u64) -> Dice {
        Dice { state: seed }
    }

    /// A number below this one, which isn't 0.
    pub fn below(&mut self, bound: u32) -> u32
        requires { 0 < bound }
        ensures { result < bound }
    {
        self.state = self
            .state
            .wrapping_mul(6_364_136_223_846_793_005)
            .wrapping_add(1_442_695_040_888_963_407);
        ((self.state >> 33) as u32) % bound
    }
}

/// Whether the records emitted for an epoch are part of what the query means on those fed for it, and whether they are all of them.
fn compared<V: Views>(
    alloc: Global,
    board: &Board<V>,
    epoch: u32,
) -> Result<(bool, bool), AllocError> {
    let emitted = pairs_of(alloc, emitted_at(board, 0, epoch))?;
    let fed = pairs_of(alloc, board.fed(0, epoch))?;
    let meant = within_three(alloc, &fed)?;
    Ok((is_part(&emitted, &meant), emitted == meant))
}

/// Whether the records emitted for each epoch are part of what the query means, and all of them where it is seen as passed.
fn keeps_its_promise<V: Views>(alloc: Global, board: &Board<V>) -> Result<bool, AllocError> {
    for epoch in 0..EPOCHS {
        let (is_part, is_whole) = compared(alloc, board, epoch)?;
        if !is_part || passed_at(board, 0, epoch) && !is_whole {
            return Ok(false);
        }
    }
    Ok(true)
}

/// Whether each epoch is seen as passed, and the records emitted for it are all that the query means.
fn is_answered<V: Views>(alloc: Global, board: &Board<V>) -> Result<bool, AllocError> {
    for epoch in 0..EPOCHS {
        let (_, is_whole) = compared(alloc, board, epoch)?;
        if !passed_at(board, 0, epoch) || !is_whole {
            return Ok(false);
        }
    }
    Ok(true)
}

/// Feeds an edge of five nodes.
fn feed<V: Views>(alloc: Global, board: &mut Board<V>, dice: &mut Dice) -> bool {
    let from = i64::from(dice.below(5));
    let to = i64::from(dice.below(5));
    match batch_of(alloc, &[from, to]) {
        Some(batch) => board.feed(alloc, 0, batch).is_ok(),
        None => false,
    }
}

/// Feeds an edge, seals, applies a batch of changes that waits for a worker, if there is one, merges two messages, if they may be, or lets a
/// worker take a turn.
fn step<V: Views>(alloc: Global, board: &mut Board<V>, dice: &mut Dice) -> bool {
    match dice.below(12) {
        0 => feed(alloc, board, dice),
        1 if board.passed_count().saturating_add(1) < u64::from(EPOCHS) && dice.below(4) == 0 =>
            board.seal(0).is_ok(),
        2 | 3 => {
            let worker = dice.below(2);
            let sender = dice.below(3);
            let _applied = board.apply(worker, sender);
            true
        }
        4 => {
            let worker = dice.below(2);
            let place = dice.below(3);
            let _merged = board.merge(worker, place as usize);
            true
        }
        _ => {
            let worker = dice.below(2);
            matches!(
                take_turn(alloc, board, worker),
                Turn::Committed | Turn::Idle
            )
        }
    }
}

/// Lets two workers take turns until the board is drained.
fn is_worked_off<V: Views>(alloc: Global, board: &mut Board<V>) -> bool {
    for turn in 0..10_000u32 {
        match take_turn(alloc, board, turn % 2) {
            Turn::Drained => return true,
            Turn::Committed | Turn::Idle => {}
            Turn::Stopped | Turn::Busy | Turn::NoMemory | Turn::Count => return false,
        }
    }
    false
}

/// Whether the promise holds after each of that many steps, and in the end the first worker sees that all is emitted.
fn runs<V: Views>(
    alloc: Global,
    board: &mut Board<V>,
    seed: u64,
    steps: u32,
) -> Result<bool, AllocError> {
    let mut dice = Dice::of(seed);
    for _step in 0..steps {
        if !step(alloc, board, &mut dice) || !keeps_its_promise(alloc, board)? {
            return Ok(false);
        }
    }
    if board.close(0).is_err() || !is_worked_off(alloc, board) {
        return Ok(false);
    }
    board.catch_up(0);
    is_answered(alloc, board)
}

#[test]
fn schedules_at_random(rt: HostRuntime) -> Result<(), Fail> {
    for seed in 0..40u64 {
        let mut board = board_of(rt.alloc(), REACH, 2).ok_or("no board")?;
        assert!(rt; runs(rt.alloc(), &mut board, seed, 150)?);
    }
    Ok(())
}

// A batch of changes is applied at random, or with all others at a claim that finds nothing.
#[test]
fn schedules_with_late_views(rt: HostRuntime) -> Result<(), Fail> {
    for seed in 0..40u64 {
        let mut board = late_board_of(rt.alloc(), REACH, 2).ok_or("no board")?;
        assert!(rt; runs(rt.alloc(), &mut board, seed, 150)?);
    }
    Ok(())
}
