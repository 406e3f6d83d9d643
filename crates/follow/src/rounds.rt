//! Rounds of work on a board. One thread claims and ends the events of all workers, and several threads compute large ones.

ghost use Rattle.std.specs.Prelude.{◌≡◌, ◌<◌, ◌∷◌, ◌++◌, [], All, IfNone, IfOk, IfSome, List, Ok, Err, OnOk, is_ok, length, true};
ghost use Rattle.atomic_table.specs.Seated.{TableId};
ghost use Rattle.board.specs.Commits.{IsOf};
ghost use Rattle.board.specs.Shown.{tables};
ghost use Rattle.alone.specs.Moves.{Advances, Moves};
ghost use Rattle.follow.specs.Working.{EndsAlone, HasEnded, HasNoEvent, HasWorked, IsBusy, IsFreeAt, IsWorkedOff, TakesAlone, TookNothing};
ghost use Rattle.alone.specs.Scenes.{AreFree, AreFreeBut, IsLive, Works};
ghost use Rattle.follow.specs.Slots.{IsSlotOf, event_in, workers_of};
ghost use Rattle.follow.specs.declared.slot.Slot.TheVariants as slot;
ghost use Rattle.follow.specs.declared.outcome.Halt.TheVariants as halt;

use crate::outcome::Halt;
use crate::slot::Slot;
use board::{Board, Claimed, HEAVY, Sent};
use driver::{claim, process, settle};
use events::{NoGate, Work};
use std::alloc::{AllocFailed, Global};
use std::thread::{Threads, for_each_mut};
use views::Views;

/// What a round of work did: nothing, since no worker had an event; or events whose largest message had that many rows.
#[derive(Clone, Copy)]
enum Round {
    Idle,
    Sent(u64),
}

impl Round {
    /// The same with one more event.
    fn with(self, sent: Sent) -> Round
        ensures { IsBusy result }
    {
        match self {
            Round::Idle => Round::Sent(sent.rows()),
            Round::Sent(rows) => Round::Sent(rows.max(sent.rows())),
        }
    }
}

/// Claims an event of a free worker, if it has one.
fn claim_one<V: Views>(board: &mut Board<V>, worker: u32) -> Option<Work>
    requires there { worker < length board.old.shown.sides }
    requires free { IsFreeAt board.old.shown worker }
    ensures tables { tables board.new.shown ≡ tables board.old.shown }
    ensures own { IfSome result (λ w. IsOf board.old.shown w.0) }
    ensures some { IfSome result (λ w. Advances board.old.shown board.new.shown) }
    ensures alone { IfSome result (λ w. (w.0.worker ≡ worker) × TakesAlone board.old.shown board.new.shown worker) }
    ensures none { IfNone result ((board.new.shown ≡ board.old.shown) × HasNoEvent board.old.shown worker) }
{
    board.law_run();
    match claim(board, worker) {
        Claimed::Work(work) => Some(work),
        Claimed::Idle | Claimed::Drained => None,
        Claimed::Stopped | Claimed::Busy => unreachable!(),
    }
}

/// Ends an event: commits it if it was computed, and otherwise abandons it.
fn end<V: Views>(board: &mut Board<V>, slot: Slot) -> Result<Sent, Halt>
    requires own { IsSlotOf (tables board.old.shown) slot }
    ensures tables { tables board.new.shown ≡ tables board.old.shown }
    ensures steps { OnOk result (Advances board.old.shown board.new.shown) }
    ensures alone { OnOk result (EndsAlone board.old.shown board.new.shown (event_in slot).worker) }
{
    board.law_run();
    match settle(board, slot.into_result()) {
        Ok(sent) => Ok(sent),
        Err(fault) => Err(Halt::from(fault)),
    }
}

/// Computes an event and ends it.
fn process_one<V: Views>(alloc: Global, board: &mut Board<V>, work: Work) -> Result<Sent, Halt>
    requires own { IsOf board.old.shown work.0 }
    ensures tables { tables board.new.shown ≡ tables board.old.shown }
    ensures steps { OnOk result (Advances board.old.shown board.new.shown) }
    ensures alone { OnOk result (EndsAlone board.old.shown board.new.shown work.0.worker) }
{
    board.law_run();
    match process(alloc, board, &NoGate, 0, work) {
        Ok(sent) => Ok(sent),
        Err(fault) => Err(Halt::from(fault)),
    }
}

/// Adds an event to those to be computed; without memory for that, abandons it.
fn keep<V: Views>(board: &mut Board<V>, slots: &mut Vec<Slot>, work: Work) -> Result<(), Halt>
    requires event { IsOf board.old.shown work.0 }
    requires own { All (IsSlotOf (tables board.old.shown)) slots.old.items }
    ensures tables { tables board.new.shown ≡ tables board.old.shown }
    ensures own { All (IsSlotOf (tables board.old.shown)) slots.new.items }
    ensures board { OnOk result (board.new ≡ board.old) }
    ensures kept { OnOk result (slots.new.items ≡ slots.old.items ++ slot.Claimed work ∷ []) }
{
    match slots.push(Slot::Claimed(work)) {
        Ok(()) => Ok(()),
        Err(AllocFailed { value }) => {
            let _ = settle(board, value.into_result());
            Err(Halt::NoMemory)
        }
    }
}

/// Claims an event of each worker that has one.
fn claim_each<V: Views>(board: &mut Board<V>, slots: &mut Vec<Slot>) -> Result<(), Halt>
    requires free { AreFree board.old.shown }
    requires none { slots.old.items ≡ [] }
    ensures tables { tables board.new.shown ≡ tables board.old.shown }
    ensures own { All (IsSlotOf (tables board.old.shown)) slots.new.items }
    ensures steps { OnOk result (Moves board.old.shown board.new.shown) }
    ensures free { OnOk result (AreFreeBut board.new.shown (workers_of slots.new.items)) }
    ensures none { OnOk result (TookNothing slots.new.items (length board.old.shown.sides) board.old.shown board.new.shown) }
{
    for worker in 0..board.workers() {
        match claim_one(board, worker) {
            Some(work) => keep(board, slots, work)?,
            None => {}
        }
    }
    Ok(())
}

/// Computes them in parallel.
fn compute_each<R: Threads + Sync>(rt: &R, alloc: Global, slots: &mut Vec<Slot>)
    ensures own { (tables : List TableId) → All (IsSlotOf tables) slots.old.items → All (IsSlotOf tables) slots.new.items }
    ensures length { length slots.new.items ≡ length slots.old.items }
    ensures workers { workers_of slots.new.items ≡ workers_of slots.old.items }
{
    let threads = slots.len().max(1);
    for_each_mut(
        rt,
        slots.as_mut_slice(),
        threads,
        &|_place, slot| { slot.compute(alloc) },
    );
}

/// The results of two calls, if both succeeded. A count that is too large takes precedence over other faults.
fn both<A: Copy, B: Copy>(first: Result<A, Halt>, second: Result<B, Halt>) -> Result<(A, B), Halt>
    ensures made { IfOk result (λ p. (first ≡ Ok p.0) × (second ≡ Ok p.1)) }
    ensures first { first ≡ Err halt.Count → result ≡ Err halt.Count }
    ensures second { second ≡ Err halt.Count → result ≡ Err halt.Count }
{
    match (first, second) {
        (Ok(first), Ok(second)) => Ok((first, second)),
        (Err(first), Err(second)) => Err(first.or(second)),
        (Err(halt), Ok(_)) | (Ok(_), Err(halt)) => Err(halt),
    }
}

/// Adds one event's result; a fault if either has one.
fn add_result(round: Result<Round, Halt>, sent: Result<Sent, Halt>) -> Result<Round, Halt>
    ensures both { IfOk result (λ p. (is_ok round ≡ true) × (is_ok sent ≡ true)) }
    ensures busy { IfOk result IsBusy }
{
    let (round, sent) = both(round, sent)?;
    Ok(round.with(sent))
}

/// Ends all events that were computed.
fn end_each<V: Views>(board: &mut Board<V>, mut slots: Vec<Slot>) -> Result<Round, Halt>
    requires own { All (IsSlotOf (tables board.old.shown)) slots.items }
    ensures tables { tables board.new.shown ≡ tables board.old.shown }
    ensures steps { IfOk result (λ r. HasEnded r [] slots.items board.old.shown board.new.shown) }
    ensures free { OnOk result (AreFreeBut board.old.shown (workers_of slots.items) → AreFree board.new.shown) }
{
    let mut round = Ok(Round::Idle);
    while let Some(slot) = slots.pop() {
        round = add_result(round, end(board, slot));
    }
    slots.destroy_empty();
    round
}

/// Claims an event of each worker that has one, computes them in parallel, and ends them.
fn work_in_parallel<V: Views, R: Threads + Sync>(
    rt: &R,
    alloc: Global,
    board: &mut Board<V>,
) -> Result<Round, Halt>
    requires { AreFree board.old.shown }
    ensures worked { IfOk result (λ r. HasWorked r (length board.old.shown.sides) board.old.shown board.new.shown) }
    ensures free { OnOk result (AreFree board.new.shown) }
{
    let mut slots = Vec::with_capacity(alloc, board.workers() as usize)?;
    let claimed = claim_each(board, &mut slots);
    compute_each(rt, alloc, &mut slots);
    let round = end_each(board, slots);
    let ((), round) = both(claimed, round)?;
    Ok(round)
}

/// Claims an event of each worker that has one, computes it and ends it, one after another.
fn work_in_turn<V: Views>(alloc: Global, board: &mut Board<V>) -> Result<Round, Halt>
    requires { AreFree board.old.shown }
    ensures worked { IfOk result (λ r. HasWorked r (length board.old.shown.sides) board.old.shown board.new.shown) }
    ensures free { OnOk result (AreFree board.new.shown) }
{
    let mut round = Round::Idle;
    for worker in 0..board.workers() {
        match claim_one(board, worker) {
            Some(work) => round = round.with(process_one(alloc, board, work)?),
            None => {}
        }
    }
    Ok(round)
}

/// Works on one event of each worker that has one, in parallel if events may have at least `HEAVY` rows.
fn work_once<V: Views, R: Threads + Sync>(
    rt: &R,
    alloc: Global,
    rows: u64,
    board: &mut Board<V>,
) -> Result<Round, Halt>
    requires { AreFree board.old.shown }
    ensures worked { IfOk result (λ r. HasWorked r (length board.old.shown.sides) board.old.shown board.new.shown) }
    ensures free { OnOk result (AreFree board.new.shown) }
{
    if rows >= HEAVY && board.workers() > 1 {
        return work_in_parallel(rt, alloc, board);
    }
    work_in_turn(alloc, board)
}

/// Works until there is nothing to do now; each round leaves less to do. `rows` is the size of the messages that are under way at first. A
/// notification may come some rounds after the messages that it is about, so the number of rows sent is halved from round to round, not dropped.
pub fn work_off<V: Views, R: Threads + Sync>(
    rt: &R,
    alloc: Global,
    rows: u64,
    board: &mut Board<V>,
) -> Result<(), Halt>
    requires { AreFree board.old.shown }
    ensures works { OnOk result (IsLive board.old.shown → Works board.old.shown board.new.shown) }
    ensures rests { OnOk result (IsWorkedOff board.new.shown) }
{
    let mut rows = rows;
    'rounds: loop {
        board.law_run();
        match work_once(rt, alloc, rows, board)? {
            Round::Idle => return Ok(()),
            Round::Sent(sent) => rows = sent.max(rows / 2),
        }
    }
}
