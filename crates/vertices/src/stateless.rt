//! Vertices without a state: each sends what its equation makes of a batch.

ghost use Rattle.std.specs.Prelude.{◌≡◌, ◌<◌, ℕ, None, false, OnOk, IfErr};
ghost use Rattle.rows.specs.Counts.{AllFit};
ghost use Rattle.rows.specs.FlatRows.{arity_of};
ghost use Rattle.semantics.specs.Kinds.{Kind, in_ports, out_ports};
ghost use Rattle.semantics.specs.Shard.{Absorbed};
ghost use Rattle.vertices.specs.Outs.{SendsFor, WouldSendOver, sent};
ghost use Rattle.vertices.specs.Stateless.{StatelessTakes, stateless_kind};
ghost use Rattle.rows.specs.declared.fault.WorkFault.TheVariants.{Count, NoMemory};
ghost use Rattle.vertices.specs.declared.stateless.Stateless.TheVariants as variant;

use crate::out::Out;
use loop_context::Time;
use operators::{Select, Where};
use rows::{Batch, WorkFault};
use std::alloc::Global;

/// A vertex without a state. A gate and a hold have the number of turns of their loop.
#[derive(Drop)]
pub enum Stateless {
    Select(Select),
    Where(Where),
    Concat,
    Ingress,
    Egress,
    Feedback,
    Gate(u64),
    Hold(u64),
}

impl Stateless {
    /// Sends what the vertex makes of a batch that comes to an in port. `Count` exactly where a record would be sent too often.
    #[inline(always)]
    pub(crate) fn on_records(
        &self,
        alloc: Global,
        port: u32,
        time: &Time,
        batch: Batch,
        out: &mut Out,
    ) -> Result<(), WorkFault>
        requires port { port < in_ports (stateless_kind self.now) }
        requires arity { StatelessTakes self.now (arity_of batch) }
        requires out { out.old ≡ record { first = None; second = None; asked = false } }
        ensures sends { OnOk result ((a : Absorbed) → SendsFor (stateless_kind self.now) time.now a port batch out.new) }
        ensures fits_sent { OnOk result ((q : ℕ) → AllFit (sent (out_ports (stateless_kind self.now)) out.new q)) }
        ensures over { IfErr result (λ e. e ≡ Count → (a : Absorbed) → WouldSendOver (stateless_kind self.now) time.now a port batch) }
        ensures asked { out.new.asked ≡ out.old.asked }
    {
        match self {
            Stateless::Select(operator) => select(operator, alloc, time, &batch, out),
            Stateless::Where(operator) => filter(operator, alloc, time, &batch, out),
            Stateless::Concat => {
                forward(time, port, batch, out);
                Ok(())
            }
            Stateless::Ingress => {
                forward(time, port, batch, out);
                Ok(())
            }
            Stateless::Egress => {
                forward(time, port, batch, out);
                Ok(())
            }
            Stateless::Feedback => {
                forward(time, port, batch, out);
                Ok(())
            }
            Stateless::Gate(turns) => {
                gate(*turns, time, batch, out);
                Ok(())
            }
            Stateless::Hold(turns) => hold(*turns, time, batch, out),
        }
    }
}

/// Sends the records of the scalars' values. `Count` exactly where one of them would be sent too often.
#[inline(always)]
#[tactic(auto, using(crate::proofs::Sending::select_sends))]
fn select(
    operator: &Select,
    alloc: Global,
    time: &Time,
    batch: &Batch,
    out: &mut Out,
) -> Result<(), WorkFault>
    requires { arity_of batch.now ≡ operator.now.arity }
    ensures sends { OnOk result ((a : Absorbed) → SendsFor (stateless_kind (variant.Select operator.now)) time.now a 0 batch.now out.new) }
    ensures fits_sent { OnOk result ((q : ℕ) → AllFit (sent 1 out.new q)) }
    ensures over { IfErr result (λ e. e ≡ Count → (a : Absorbed) → WouldSendOver (stateless_kind (variant.Select operator.now)) time.now a 0 batch.now) }
    ensures asked { out.new.asked ≡ out.old.asked }
{
    out.first = operator.apply(alloc, batch)?;
    Ok(())
}

/// Sends the records at which the condition holds.
#[inline(always)]
#[tactic(auto, using(crate::proofs::Sending::filter_sends))]
fn filter(
    operator: &Where,
    alloc: Global,
    time: &Time,
    batch: &Batch,
    out: &mut Out,
) -> Result<(), WorkFault>
    requires { arity_of batch.now ≡ operator.now.arity }
    ensures sends { OnOk result ((a : Absorbed) → SendsFor (stateless_kind (variant.Where operator.now)) time.now a 0 batch.now out.new) }
    ensures fits_sent { OnOk result ((q : ℕ) → AllFit (sent 1 out.new q)) }
    ensures never { IfErr result (λ e. e ≡ NoMemory) }
    ensures asked { out.new.asked ≡ out.old.asked }
{
    let rows = operator.apply(alloc, batch)?;
    out.send(alloc, rows)?;
    Ok(())
}

/// Sends the same batch on.
#[inline(always)]
#[tactic(auto, using(crate::proofs::Sending::same_sends))]
fn forward(time: &Time, port: u32, batch: Batch, out: &mut Out)
    requires { port < 2 }
    ensures fits_sent { (q : ℕ) → AllFit (sent 1 out.new q) }
    ensures concat { (a : Absorbed) → SendsFor Kind.concat time.now a port batch out.new }
    ensures ingress { port < 1 → (a : Absorbed) → SendsFor Kind.ingress time.now a port batch out.new }
    ensures egress { port < 1 → (a : Absorbed) → SendsFor Kind.egress time.now a port batch out.new }
    ensures feedback { port < 1 → (a : Absorbed) → SendsFor Kind.feedback time.now a port batch out.new }
    ensures asked { out.new.asked ≡ out.old.asked }
{
    let _count = batch.len();
    out.first = Some(batch);
}

/// Sends the same batch around the loop before the turn of that number, and out of the loop at it.
#[inline(always)]
#[tactic(auto, using(crate::proofs::Sending::gate_sends))]
fn gate(turns: u64, time: &Time, batch: Batch, out: &mut Out)
    requires { out.old ≡ record { first = None; second = None; asked = false } }
    ensures sends { (a : Absorbed) → SendsFor (Kind.gate turns) time.now a 0 batch out.new }
    ensures fits_sent { (q : ℕ) → AllFit (sent 2 out.new q) }
    ensures asked { out.new.asked ≡ out.old.asked }
{
    let _count = batch.len();
    let turn = time.last_counter() as u64;
    if turn < turns {
        out.first = Some(batch);
    } else if turn == turns {
        out.second = Some(batch);
    }
}

/// Sends the same batch to the body before the turn of that number, and to the next turn before the last.
#[tactic(auto, using(crate::proofs::Sending::hold_sends))]
fn hold(turns: u64, time: &Time, batch: Batch, out: &mut Out) -> Result<(), WorkFault>
    requires { out.old ≡ record { first = None; second = None; asked = false } }
    ensures sends { OnOk result ((a : Absorbed) → SendsFor (Kind.hold turns) time.now a 0 batch out.new) }
    ensures fits_sent { OnOk result ((q : ℕ) → AllFit (sent 2 out.new q)) }
    ensures never { IfErr result (λ e. e ≡ NoMemory) }
    ensures asked { out.new.asked ≡ out.old.asked }
{
    let _count = batch.len();
    let turn = time.last_counter() as u64;
    if turn < turns {
        if turn + 1 < turns {
            out.second = Some(batch.share()?);
        }
        out.first = Some(batch);
    }
    Ok(())
}
