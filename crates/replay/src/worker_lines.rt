//! Lines of a schedule that name a worker.

ghost use Rattle.std.specs.Prelude.{◌≡◌, ◌<◌, ◌⊎◌, List, Option, Some, None, length, slice_set, IfOk, IfErr, OnErr, OnOk};
ghost use Rattle.events.specs.Jobs.{Pass};
ghost use Rattle.board.specs.Answers.{Holds};
ghost use Rattle.board.specs.Commits.{IsOf};
ghost use Rattle.board.specs.Overflow.{DoesOverflow, NeverOverflows};
ghost use Rattle.schedule.specs.Commands.{Command};
ghost use Rattle.replay.specs.Hands.{IsHand, in_hand};
ghost use Rattle.replay.specs.Steps.{Answers, IsCommitted, IsAbandoned, Stays};
ghost use Rattle.replay.specs.declared.refusal.Refusal.TheVariants as refusal;

use crate::refusal::{NOTHING_HELD, NOTHING_WAITS, Refusal, line_refusal};
use board::Board;
use driver::process;
use events::{Done, NoGate, Work};
use record_core::NoMemory;
use std::alloc::Global;
use views::Views;

/// Computes an event that was taken. One that is refused, for lack of memory or a count that is too large, is abandoned, which stops the board.
fn compute<V: Views>(alloc: Global, board: &mut Board<V>, work: Work) -> Result<Done, Refusal>
    requires own { IsOf board.old.shown work.0 }
    requires whole { work.1 ≡ None }
    ensures done { IfOk result (λ d. d ≡ work.0) }
    ensures fits { Holds board.old.shown work.0 → OnOk result (NeverOverflows board.old.shown work.0) }
    ensures kept { OnOk result (board.new ≡ board.old) }
    ensures stays { Stays board.old.shown board.new.shown }
    ensures abandoned { OnErr result (IsAbandoned board.old work.0 board.new) }
    ensures refused { IfErr result (λ e. (e ≡ refusal.NoMemory) ⊎ ((e ≡ refusal.Step 39) × DoesOverflow board.old.shown work.0)) }
{
    match driver::compute(alloc, board, &NoGate, 0, work) {
        Ok(done) => Ok(done),
        Err(fault) => Err(Refusal::from(fault)),
    }
}

/// Ends a computed event; without memory, abandons it, which stops the board.
fn end<V: Views>(board: &mut Board<V>, done: Done) -> Result<(), Refusal>
    requires own { IsOf board.old.shown done }
    ensures ends { OnOk result (IsCommitted V.late board.old done board.new) }
    ensures stays { Stays board.old.shown board.new.shown }
    ensures memory { IfErr result (λ e. e ≡ refusal.NoMemory) }
{
    match driver::commit(board, done) {
        Ok(_sent) => Ok(()),
        Err(NoMemory) => Err(Refusal::NoMemory),
    }
}

/// Computes an event that was taken, and ends it. One that is refused is abandoned, which stops the board.
fn complete<V: Views>(alloc: Global, board: &mut Board<V>, work: Work) -> Result<(), Refusal>
    requires own { IsOf board.old.shown work.0 }
    requires whole { work.1 ≡ None }
    ensures ends { OnOk result (IsCommitted V.late board.old work.0 board.new) }
    ensures fits { OnOk result (NeverOverflows board.old.shown work.0) }
    ensures stays { Stays board.old.shown board.new.shown }
    ensures abandoned { OnErr result (IsAbandoned board.old work.0 board.new) }
    ensures refused { IfErr result (λ e. (e ≡ refusal.NoMemory) ⊎ ((e ≡ refusal.Step 39) × DoesOverflow board.old.shown work.0)) }
{
    match process(alloc, board, &NoGate, 0, work) {
        Ok(_sent) => Ok(()),
        Err(fault) => Err(Refusal::from(fault)),
    }
}

/// Puts an event into its worker's empty place in hand.
fn keep<V: Views>(board: &mut Board<V>, hand: &mut [Option<Done>], worker: u32, done: Done)
    requires place { worker < length hand.old }
    requires own { (p : Pass) → in_hand hand.old worker ≡ Some p → IsOf board.old.shown p }
    ensures hand { hand.new ≡ slice_set hand.old worker (Some done) }
    ensures kept { in_hand hand.old worker ≡ None → board.new ≡ board.old }
    ensures stays { Stays board.old.shown board.new.shown }
{
    match hand[worker as usize].replace(done) {
        None => {}
        Some(before) => board.abandon_done(before),
    }
}

/// The worker takes its choice of that number, computes it, and keeps it in hand. Abandons it if a count would be too large.
pub fn take<V: Views>(
    alloc: Global,
    board: &mut Board<V>,
    hand: &mut [Option<Done>],
    worker: u32,
    choice: u32,
) -> Result<(), Refusal>
    requires hand { IsHand board.old.shown hand.old }
    ensures hand { IsHand board.new.shown hand.new }
    ensures answers { Answers V.late board.old board.new hand.old hand.new (Command.take worker choice) result }
{
    board.law_prompt();
    board.law_waits();
    let work = match board.pick(worker, choice as u64) {
        Ok(work) => work,
        Err(refusal) => return Err(line_refusal(refusal)),
    };
    let done = match compute(alloc, board, work) {
        Ok(done) => done,
        Err(refusal) => return Err(refusal),
    };
    keep(board, hand, worker, done);
    Ok(())
}

/// Ends the event that the worker has in hand.
pub fn commit<V: Views>(
    board: &mut Board<V>,
    hand: &mut [Option<Done>],
    worker: u32,
) -> Result<(), Refusal>
    requires hand { IsHand board.old.shown hand.old }
    ensures hand { IsHand board.new.shown hand.new }
    ensures answers { Answers V.late board.old board.new hand.old hand.new (Command.commit worker) result }
{
    let place = worker as usize;
    if place >= hand.len() {
        return Err(Refusal::Step { code: NOTHING_HELD });
    }
    match hand[place].take() {
        None => Err(Refusal::Step { code: NOTHING_HELD }),
        Some(done) => end(board, done),
    }
}

/// The worker takes its choice of that number, computes it, and commits it. Abandons it if a count would be too large.
pub fn deliver<V: Views>(
    alloc: Global,
    board: &mut Board<V>,
    worker: u32,
    choice: u32,
) -> Result<(), Refusal>
    ensures { (hand : List (Option Pass)) → IsHand board.old.shown hand → Answers V.late board.old board.new hand hand (Command.deliver worker choice) result }
{
    board.law_prompt();
    board.law_waits();
    match board.pick(worker, choice as u64) {
        Ok(work) => complete(alloc, board, work),
        Err(refusal) => Err(line_refusal(refusal)),
    }
}

/// The worker applies the next batch of changes that the sender posted.
pub fn apply<V: Views>(board: &mut Board<V>, worker: u32, sender: u32) -> Result<(), Refusal>
    ensures { (hand : List (Option Pass)) → Answers V.late board.old board.new hand hand (Command.apply worker sender) result }
{
    board.law_waits();
    if board.apply(worker, sender) {
        Ok(())
    } else {
        Err(Refusal::Step {
            code: NOTHING_WAITS,
        })
    }
}
