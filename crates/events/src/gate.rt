//! What a thread runs around a computation.

ghost use Rattle.std.specs.Prelude.{◌≡◌, None, Some, IfErr, IfOk};
ghost use Rattle.events.specs.Jobs.{FailsBy};
ghost use Rattle.events.specs.TooMany.{CountsFit, CountsOver};
ghost use Rattle.rows.specs.declared.fault.WorkFault.TheVariants.{Count};

use crate::work::{Done, Work};
use rows::WorkFault;
use std::alloc::Global;

/// What a thread does with an event that it has claimed. `worker` is the thread's; the event may be one of a worker whose thread sleeps. Both calls
/// are made without a lock. `turn` counts the thread's events from 0, and stays at 18446744073709551615 when it gets there.
pub trait Gate {
    /// Computes the event, as `Work::compute` does: a refusal spoils the work, and another call is refused in the same way. Apart from lack of memory,
    /// the first refusal is `Count` exactly where a count is too large.
    #[inline(always)]
    fn compute(
        &self,
        alloc: Global,
        worker: u32,
        turn: u64,
        work: Work,
    ) -> Result<Done, (Work, WorkFault)>
        ensures done { IfOk result (λ d. d ≡ work.0) }
        ensures spoiled { IfErr result (λ e. (e.0.0 ≡ work.0) × (e.0.1 ≡ Some e.1)) }
        ensures again { (f : WorkFault) → work.1 ≡ Some f → FailsBy f result }
        ensures fits { work.1 ≡ None → IfOk result (λ d. CountsFit work.0.job) }
        ensures over { work.1 ≡ None → IfErr result (λ e. e.1 ≡ Count → CountsOver work.0.job) };

    /// Called after the event is committed.
    #[inline(always)]
    fn after_commit(&self, worker: u32, turn: u64);
}

/// A gate that only computes.
pub struct NoGate;

impl Gate for NoGate {
    #[inline(always)]
    fn compute(
        &self,
        alloc: Global,
        _worker: u32,
        _turn: u64,
        work: Work,
    ) -> Result<Done, (Work, WorkFault)> {
        work.compute(alloc)
    }

    #[inline(always)]
    fn after_commit(&self, _worker: u32, _turn: u64) {}
}
