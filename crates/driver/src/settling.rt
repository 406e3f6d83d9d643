//! Ends of events.

ghost use Rattle.std.specs.Prelude.{◌≡◌, ◌≤◌, None, IfErr, IfOk, OnErr, OnOk};
ghost use Rattle.rows.specs.declared.fault.WorkFault.TheVariants.{Count};
ghost use Rattle.board.specs.Answers.{Holds};
ghost use Rattle.board.specs.Commits.{IsOf};
ghost use Rattle.board.specs.Counting.{TellsCommit};
ghost use Rattle.board.specs.Lateness.{IsAsLate, Posts};
ghost use Rattle.board.specs.Overflow.{DoesOverflow, NeverOverflows};
ghost use Rattle.board.specs.Shown.{tables};
ghost use Rattle.driver.specs.Ends.{Abandons, Ends, IsFaultOf, event_of};

use board::{Board, CommitRefusal, Done, Gate, Sent, Views, Work};
use record_core::NoMemory;
use rows::WorkFault;
use std::alloc::Global;

/// Computes an event by the gate. One that is refused is abandoned, which stops the board. `turn` counts the events of the caller's thread.
#[inline(always)]
pub fn compute<V: Views, G: Gate>(
    alloc: Global,
    board: &mut Board<V>,
    gate: &G,
    turn: u64,
    work: Work,
) -> Result<Done, WorkFault>
    requires own { IsOf board.old.shown work.0 }
    ensures done { IfOk result (λ d. d ≡ work.0) }
    ensures kept { OnOk result (board.new ≡ board.old) }
    ensures abandoned { OnErr result (Abandons board.old.shown board.new.shown work.0) }
    ensures fits { work.1 ≡ None → Holds board.old.shown work.0 → OnOk result (NeverOverflows board.old.shown work.0) }
    ensures over { work.1 ≡ None → IfErr result (λ f. f ≡ Count → DoesOverflow board.old.shown work.0) }
    ensures tables { tables board.new.shown ≡ tables board.old.shown }
    ensures views { IsAsLate board.old board.new }
{
    board.law_counts();
    match gate.compute(alloc, work.worker(), turn, work) {
        Ok(done) => Ok(done),
        Err((work, fault)) => {
            board.abandon(work);
            Err(fault)
        }
    }
}

/// Commits an event that was computed, and gives what it sends. Without memory abandons it, which stops the board.
#[inline(always)]
pub fn commit<V: Views>(board: &mut Board<V>, done: Done) -> Result<Sent, NoMemory>
    requires own { IsOf board.old.shown done }
    ensures ends { Ends board.old.shown board.new.shown done result }
    ensures tells { IfOk result (λ sent. TellsCommit board.old.shown board.new.shown done sent) }
    ensures tables { tables board.new.shown ≡ tables board.old.shown }
    ensures posts { OnOk result (Posts V.late done.worker board.old board.new) }
    ensures views { OnErr result (IsAsLate board.old board.new) }
    ensures passed { board.old.passed ≤ board.new.passed }
{
    match board.commit(done) {
        Ok(sent) => Ok(sent),
        Err(CommitRefusal::NoMemory(done)) => {
            board.abandon_done(done);
            Err(NoMemory)
        }
    }
}

/// Commits an event that was computed elsewhere, and gives what it sends. Abandons one that was refused there.
#[inline(always)]
pub fn settle<V: Views>(
    board: &mut Board<V>,
    computed: Result<Done, (Work, WorkFault)>,
) -> Result<Sent, WorkFault>
    requires own { IsOf board.old.shown (event_of computed) }
    ensures ends { Ends board.old.shown board.new.shown (event_of computed) result }
    ensures tells { IfOk result (λ sent. TellsCommit board.old.shown board.new.shown (event_of computed) sent) }
    ensures fault { IsFaultOf computed result }
    ensures tables { tables board.new.shown ≡ tables board.old.shown }
    ensures posts { OnOk result (Posts V.late (event_of computed).worker board.old board.new) }
    ensures views { OnErr result (IsAsLate board.old board.new) }
    ensures passed { board.old.passed ≤ board.new.passed }
{
    match computed {
        Ok(done) => match commit(board, done) {
            Ok(sent) => Ok(sent),
            Err(NoMemory) => Err(WorkFault::NoMemory),
        },
        Err((work, fault)) => {
            board.abandon(work);
            Err(fault)
        }
    }
}

/// Computes an event by the gate, and settles it.
#[inline(always)]
pub fn process<V: Views, G: Gate>(
    alloc: Global,
    board: &mut Board<V>,
    gate: &G,
    turn: u64,
    work: Work,
) -> Result<Sent, WorkFault>
    requires own { IsOf board.old.shown work.0 }
    ensures ends { Ends board.old.shown board.new.shown work.0 result }
    ensures tells { IfOk result (λ sent. TellsCommit board.old.shown board.new.shown work.0 sent) }
    ensures fits { work.1 ≡ None → OnOk result (NeverOverflows board.old.shown work.0) }
    ensures over { work.1 ≡ None → IfErr result (λ f. f ≡ Count → DoesOverflow board.old.shown work.0) }
    ensures graph { board.new.shown.graph ≡ board.old.shown.graph }
    ensures tables { tables board.new.shown ≡ tables board.old.shown }
    ensures posts { OnOk result (Posts V.late work.0.worker board.old board.new) }
    ensures views { OnErr result (IsAsLate board.old board.new) }
    ensures passed { board.old.passed ≤ board.new.passed }
{
    board.law_counts();
    let worker = work.worker();
    match settle(board, gate.compute(alloc, worker, turn, work)) {
        Ok(sent) => {
            gate.after_commit(worker, turn);
            Ok(sent)
        }
        Err(fault) => Err(fault),
    }
}
