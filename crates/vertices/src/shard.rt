//! The shard of a vertex of any kind.

ghost use Rattle.std.specs.Prelude.{◌≡◌, ◌<◌, ◌↔◌, ℕ, None, false, IfErr, IsTrue, OnOk, OnSome};
ghost use Rattle.rows.specs.FlatRows.{arity_of};
ghost use Rattle.semantics.specs.Kinds.{Kind, Role, in_ports, looks_back, role};
ghost use Rattle.semantics.specs.Shard.{Absorbed};
ghost use Rattle.vertices.specs.ByTime.{Forgets};
ghost use Rattle.vertices.specs.Outs.{SendsForNotification, WouldNotifyOver};
ghost use Rattle.vertices.specs.Shards.{Shows, TakesArity, shard_kind};
ghost use Rattle.vertices.specs.TakesIn.{Absorbs, AsksForBatch, IsTooMuch, KeptFit, SendsForBatch, SentFit};
ghost use Rattle.rows.specs.declared.fault.WorkFault.TheVariants.{Count, NoMemory};

use crate::notified::Notified;
use crate::out::Out;
use crate::stateful::Stateful;
use crate::stateless::Stateless;
use loop_context::Time;
use rows::{Batch, WorkFault};
use std::alloc::Global;

/// What one worker keeps of a vertex, by the role of the vertex: what its kind needs and, where the kind has a state, the state of each
/// exact time.
#[derive(Drop)]
pub enum Shard {
    Input,
    Output,
    Stateless(Stateless),
    Stateful(Box<Stateful>),
    Notified(Box<Notified>),
}

impl Shard {
    /// Takes in a batch that comes to an in port at a time; what the shard sends for it, and whether it asks to be notified, goes
    /// into `out`, which is empty before. The records have the arity of the port. `Count` comes exactly where the shard would then keep,
    /// or send, a record too often. After a refusal the shard is spoiled.
    #[inline(always)]
    pub fn on_records(
        &mut self,
        alloc: Global,
        port: u32,
        time: &Time,
        batch: Batch,
        out: &mut Out,
    ) -> Result<(), WorkFault>
        requires port { port < in_ports (shard_kind self.old) }
        requires arity { TakesArity self.old port (arity_of batch) }
        requires whole { (a : Absorbed) × Shows self.old a }
        requires out { out.old ≡ record { first = None; second = None; asked = false } }
        ensures kind { OnOk result (shard_kind self.new ≡ shard_kind self.old) }
        ensures arity { OnOk result ((p n : ℕ) → TakesArity self.old p n → TakesArity self.new p n) }
        ensures absorbed { OnOk result (Absorbs self.old self.new port time.now batch) }
        ensures sends { OnOk result (SendsForBatch self.old port time.now batch out.new) }
        ensures asked { OnOk result (AsksForBatch self.old time.now out.new) }
        ensures fits { OnOk result (KeptFit self.old port time.now batch) }
        ensures fits_sent { OnOk result (SentFit self.old out.new) }
        ensures over { IfErr result (λ e. e ≡ Count → IsTooMuch self.old port time.now batch) }
    {
        match self {
            Shard::Input => unreachable!(),
            Shard::Output => Ok(()),
            Shard::Stateless(vertex) => {
                vertex.on_records(alloc, port, time, batch, out)?;
                Ok(())
            }
            Shard::Stateful(state) => {
                let state: &mut Stateful = state;
                state.on_records(alloc, port, time, &batch, out)?;
                Ok(())
            }
            Shard::Notified(state) => {
                let state: &mut Notified = state;
                state.on_records(alloc, port, time, &batch, out)?;
                Ok(())
            }
        }
    }

    /// Sends what is due at the notification that was asked for at a time: nothing more comes at that time. `Count` exactly where a record
    /// would be sent too often.
    #[inline(always)]
    pub fn on_notify(&self, alloc: Global, time: &Time, out: &mut Out) -> Result<(), WorkFault>
        requires role { role (shard_kind self.now) ≡ Role.notified }
        requires whole { (a : Absorbed) × Shows self.now a }
        ensures sends { OnOk result ((a : Absorbed) → Shows self.now a → SendsForNotification (shard_kind self.now) time.now a out.new) }
        ensures fits_sent { OnOk result (SentFit self.now out.new) }
        ensures over { IfErr result (λ e. e ≡ Count → (a : Absorbed) → Shows self.now a → WouldNotifyOver (shard_kind self.now) time.now a) }
        ensures asked { out.new.asked ≡ out.old.asked }
    {
        match self {
            Shard::Notified(state) => {
                let state: &Notified = state;
                state.on_notify(alloc, time, out)?;
                Ok(())
            }
            Shard::Input => unreachable!(),
            Shard::Output => unreachable!(),
            Shard::Stateless(_) => unreachable!(),
            Shard::Stateful(_) => unreachable!(),
        }
    }

    /// A time of which it keeps something, and that may have passed when something comes at `now`: the turn before in the same loop, or the
    /// epoch before outside loops, or another. `None` also if it keeps nothing by time, or if its notifications read what came at other times.
    #[inline(always)]
    pub fn earlier(&self, now: &Time) -> Option<Time>
        ensures { OnSome result (looks_back (shard_kind self.now) ≡ false) }
    {
        match self {
            Shard::Input => None,
            Shard::Output => None,
            Shard::Stateless(_) => None,
            Shard::Stateful(state) => {
                let state: &Stateful = state;
                state.earlier(now)
            }
            Shard::Notified(state) => {
                let state: &Notified = state;
                state.earlier(now)
            }
        }
    }

    /// Lets go of what it keeps of a time. What it shows of other times is as it was.
    #[inline(always)]
    pub fn forget(&mut self, time: &Time)
        ensures kind { shard_kind self.new ≡ shard_kind self.old }
        ensures arity { (p n : ℕ) → TakesArity self.old p n → TakesArity self.new p n }
        ensures forgets { Forgets (Shows self.old) (Shows self.new) time.now }
    {
        match self {
            Shard::Input => {}
            Shard::Output => {}
            Shard::Stateless(_) => {}
            Shard::Stateful(state) => {
                let state: &mut Stateful = state;
                state.forget(time);
            }
            Shard::Notified(state) => {
                let state: &mut Notified = state;
                state.forget(time);
            }
        }
    }

    /// Whether the vertex is an output, which emits what comes to it.
    pub fn is_output(&self) -> bool
        ensures { IsTrue result ↔ (shard_kind self.now ≡ Kind.output) }
    {
        matches!(self, Shard::Output)
    }
}
