//! The loop of a worker's thread.

ghost use Rattle.std.specs.Prelude.{IfOk};
ghost use Rattle.workers.specs.Names.{GivesNamed, IsNamed};

use crate::engine::Engine;
use crate::held::Naming;
use board::Claimed;
use driver::Ended;
use events::{Gate, Work};
use std::alloc::Global;
use std::sync::Wait;
use views::Views;

/// Claims, computes by the gate and commits, until nothing is left to do or the board is stopped; sleeps while there is nothing that the thread could
/// do. Abandons an event that runs out of memory, or in which a count would be too large. The promise holds if the call returns.
pub fn work<J: Naming, V: Views, R: Wait, G: Gate>(
    rt: &R,
    alloc: Global,
    engine: &Engine<J, V>,
    worker: u32,
    gate: &G,
) -> Ended {
    let mut turn = 0;
    for _turn in rt.forever() {
        let claimed = engine.claim(rt, worker);
        if let Some(ended) = go_on(rt, alloc, engine, worker, gate, &mut turn, claimed) {
            return ended;
        }
    }
    unreachable!()
}

/// Computes and commits what was claimed, and goes on with what each commit claims. `None` if there is nothing to do now.
fn go_on<J: Naming, V: Views, R: Wait, G: Gate>(
    rt: &R,
    alloc: Global,
    engine: &Engine<J, V>,
    worker: u32,
    gate: &G,
    turn: &mut u64,
    claimed: Claimed,
) -> Option<Ended>
    requires { GivesNamed J.names claimed }
{
    let mut claimed = claimed;
    for _event in rt.forever() {
        match claimed {
            Claimed::Work(work) => {
                match turn_over(rt, alloc, engine, worker, gate, *turn, work) {
                    Ok(next) => claimed = next,
                    Err(ended) => return Some(ended),
                }
            }
            Claimed::Idle => return None,
            Claimed::Drained => return Some(Ended::Drained),
            Claimed::Stopped => return Some(Ended::Stopped),
            Claimed::Busy => return Some(Ended::Busy),
        }
        *turn = turn.saturating_add(1);
    }
    unreachable!()
}

/// Computes an event, commits it, and gives what the worker claims then. If the event is abandoned, the worker ends.
fn turn_over<J: Naming, V: Views, R: Wait, G: Gate>(
    rt: &R,
    alloc: Global,
    engine: &Engine<J, V>,
    worker: u32,
    gate: &G,
    turn: u64,
    work: Work,
) -> Result<Claimed, Ended>
    requires { IsNamed J.names work.0 }
    ensures { IfOk result (λ claimed. GivesNamed J.names claimed) }
{
    let of = work.worker();
    let computed = gate.compute(alloc, worker, turn, work);
    let claimed = engine.settle(rt, worker, of, computed)?;
    gate.after_commit(worker, turn);
    Ok(claimed)
}
