//! Vertices with a state that send once they are notified that nothing more comes at a time.

ghost use Rattle.std.specs.Prelude.{◌≡◌, ◌<◌, ◌++◌, ℕ, None, false, IfErr, OnOk, OnSome};
ghost use Rattle.rows.specs.Counts.{AllFit, IsOver};
ghost use Rattle.rows.specs.FlatRows.{arity_of};
ghost use Rattle.semantics.specs.Kinds.{Kind, Role, in_ports, looks_back, out_ports};
ghost use Rattle.semantics.specs.Shard.{Absorbed, asks, with_records};
ghost use Rattle.vertices.specs.ByTime.{Forgets};
ghost use Rattle.vertices.specs.Kept.{by_port};
ghost use Rattle.vertices.specs.Notified.{NotifiedShows, NotifiedTakes, notified_kind};
ghost use Rattle.vertices.specs.Outs.{SendsFor, SendsForNotification, WouldNotifyOver, asks_at, sent};
ghost use Rattle.rows.specs.declared.fault.WorkFault.TheVariants.{Count, NoMemory};
ghost use Rattle.vertices.specs.declared.notified.Notified.TheVariants.{Except, Group, Lookup, Unseen};

use crate::except::ExceptShard;
use crate::group::GroupShard;
use crate::lookup::LookupShard;
use crate::out::Out;
use crate::unseen::UnseenShard;
use loop_context::Time;
use rows::{Batch, CountedRows, WorkFault};
use std::alloc::Global;

/// The state of a vertex that is notified.
#[derive(Drop)]
pub enum Notified {
    Group(GroupShard),
    Except(ExceptShard),
    Unseen(UnseenShard),
    Lookup(LookupShard),
}

impl Notified {
    /// Takes a batch that comes to an in port into the state of its time. It sends nothing, and asks for a notification at the first batch
    /// of a time. `Count` exactly where a record would then have come to the port too often.
    #[inline(always)]
    pub(crate) fn on_records(
        &mut self,
        alloc: Global,
        port: u32,
        time: &Time,
        batch: &Batch,
        out: &mut Out,
    ) -> Result<(), WorkFault>
        requires port { port < in_ports (notified_kind self.old) }
        requires arity { NotifiedTakes self.old port (arity_of batch.now) }
        requires whole { (a : Absorbed) × NotifiedShows self.old a }
        requires out { out.old ≡ record { first = None; second = None; asked = false } }
        ensures kind { OnOk result (notified_kind self.new ≡ notified_kind self.old) }
        ensures arity { OnOk result ((p n : ℕ) → NotifiedTakes self.old p n → NotifiedTakes self.new p n) }
        ensures absorbed { OnOk result ((a : Absorbed) → NotifiedShows self.old a → NotifiedShows self.new (with_records a port time.now batch.now)) }
        ensures sends { OnOk result ((a : Absorbed) → SendsFor (notified_kind self.old) time.now a port batch.now out.new) }
        ensures asked { OnOk result ((a : Absorbed) → NotifiedShows self.old a → out.new.asked ≡ asks_at (notified_kind self.old) time.now a) }
        ensures fits { OnOk result ((a : Absorbed) → NotifiedShows self.old a → AllFit (a port time.now ++ batch.now)) }
        ensures fits_sent { OnOk result ((q : ℕ) → AllFit (sent (out_ports (notified_kind self.old)) out.new q)) }
        ensures over { IfErr result (λ e. e ≡ Count → (a : Absorbed) → NotifiedShows self.old a → IsOver (a port time.now ++ batch.now)) }
    {
        match self {
            Notified::Group(shard) => {
                group(shard, time, batch, out)?;
                Ok(())
            }
            Notified::Except(shard) => {
                except(shard, port, time, batch, out)?;
                Ok(())
            }
            Notified::Unseen(shard) => {
                unseen(shard, alloc, time, batch, out)?;
                Ok(())
            }
            Notified::Lookup(shard) => {
                lookup(shard, alloc, port, time, batch, out)?;
                Ok(())
            }
        }
    }

    /// Sends what is due at the notification of a time. `Count` exactly where a record would be sent too often.
    #[inline(always)]
    pub(crate) fn on_notify(
        &self,
        alloc: Global,
        time: &Time,
        out: &mut Out,
    ) -> Result<(), WorkFault>
        requires { (a : Absorbed) × NotifiedShows self.now a }
        ensures sends { OnOk result ((a : Absorbed) → NotifiedShows self.now a → SendsForNotification (notified_kind self.now) time.now a out.new) }
        ensures fits_sent { OnOk result ((q : ℕ) → AllFit (sent (out_ports (notified_kind self.now)) out.new q)) }
        ensures over { IfErr result (λ e. e ≡ Count → (a : Absorbed) → NotifiedShows self.now a → WouldNotifyOver (notified_kind self.now) time.now a) }
        ensures asked { out.new.asked ≡ out.old.asked }
    {
        match self {
            Notified::Group(shard) => {
                group_notified(shard, alloc, time, out)?;
                Ok(())
            }
            Notified::Except(shard) => {
                except_notified(shard, alloc, time, out)?;
                Ok(())
            }
            Notified::Unseen(shard) => {
                unseen_notified(shard, alloc, time, out)?;
                Ok(())
            }
            Notified::Lookup(shard) => {
                lookup_notified(shard, alloc, time, out)?;
                Ok(())
            }
        }
    }

    /// A time of which it keeps something, and that may have passed when something comes at `now`; `None` also if its notifications read
    /// what came at other times.
    pub(crate) fn earlier(&self, now: &Time) -> Option<Time>
        ensures { OnSome result (looks_back (notified_kind self.now) ≡ false) }
    {
        match self {
            Notified::Group(shard) => shard.earlier(now),
            Notified::Except(shard) => shard.earlier(now),
            Notified::Unseen(_) => None,
            Notified::Lookup(_) => None,
        }
    }

    /// Lets go of what it keeps of a time, unless its notifications read what came at other times.
    pub(crate) fn forget(&mut self, time: &Time)
        ensures kind { notified_kind self.new ≡ notified_kind self.old }
        ensures arity { (p n : ℕ) → NotifiedTakes self.old p n → NotifiedTakes self.new p n }
        ensures forgets { Forgets (NotifiedShows self.old) (NotifiedShows self.new) time.now }
    {
        match self {
            Notified::Group(shard) => shard.forget(time),
            Notified::Except(shard) => shard.forget(time),
            Notified::Unseen(_) => {}
            Notified::Lookup(_) => {}
        }
    }
}

/// Sends nothing, and asks for a notification at the first batch of a time.
#[inline(always)]
fn group(shard: &mut GroupShard, time: &Time, batch: &Batch, out: &mut Out) -> Result<(), WorkFault>
    requires arity { arity_of batch.now ≡ shard.old.arity }
    requires whole { (a : Absorbed) × NotifiedShows (Group shard.old) a }
    requires out { out.old ≡ record { first = None; second = None; asked = false } }
    ensures operator { OnOk result (shard.new.operator ≡ shard.old.operator) }
    ensures arity { OnOk result (shard.new.arity ≡ shard.old.arity) }
    ensures absorbed { OnOk result ((a : Absorbed) → NotifiedShows (Group shard.old) a → NotifiedShows (Group shard.new) (with_records a 0 time.now batch.now)) }
    ensures sends { OnOk result ((a : Absorbed) → SendsFor (notified_kind (Group shard.old)) time.now a 0 batch.now out.new) }
    ensures fits { OnOk result ((a : Absorbed) → NotifiedShows (Group shard.old) a → AllFit (a 0 time.now ++ batch.now)) }
    ensures fits_sent { OnOk result ((q : ℕ) → AllFit (sent 1 out.new q)) }
    ensures over { IfErr result (λ e. e ≡ Count → (a : Absorbed) → NotifiedShows (Group shard.old) a → IsOver (a 0 time.now ++ batch.now)) }
    ensures asked { OnOk result ((a : Absorbed) → NotifiedShows (Group shard.old) a → out.new.asked ≡ asks Role.notified (a 0 time.now)) }
{
    match shard.on_records(time, batch) {
        Ok(asked) => out.asked = asked,
        Err(error) => return Err(error),
    }
    Ok(())
}

/// Sends a record for each group of a time.
#[inline(always)]
fn group_notified(
    shard: &GroupShard,
    alloc: Global,
    time: &Time,
    out: &mut Out,
) -> Result<(), WorkFault>
    ensures sends { OnOk result ((a : Absorbed) → NotifiedShows (Group shard.now) a → SendsForNotification (notified_kind (Group shard.now)) time.now a out.new) }
    ensures fits_sent { OnOk result ((q : ℕ) → AllFit (sent 1 out.new q)) }
    ensures never { IfErr result (λ e. e ≡ NoMemory) }
    ensures asked { out.new.asked ≡ out.old.asked }
{
    let rows = match shard.on_notify(alloc, time) {
        Ok(rows) => rows,
        Err(error) => return Err(error),
    };
    if let Err(error) = out.send(alloc, CountedRows::once(alloc, rows)) {
        return Err(error);
    }
    Ok(())
}

/// Sends nothing, and asks for a notification at the first batch of a time, at whichever port it comes. `Count` exactly where a record
/// would then have come to the port too often.
fn except(
    shard: &mut ExceptShard,
    port: u32,
    time: &Time,
    batch: &Batch,
    out: &mut Out,
) -> Result<(), WorkFault>
    requires port { port < 2 }
    requires arity { arity_of batch.now ≡ shard.old.arity }
    requires whole { (a : Absorbed) × NotifiedShows (Except shard.old) a }
    requires out { out.old ≡ record { first = None; second = None; asked = false } }
    ensures arity { OnOk result (shard.new.arity ≡ shard.old.arity) }
    ensures absorbed { OnOk result ((a : Absorbed) → NotifiedShows (Except shard.old) a → NotifiedShows (Except shard.new) (with_records a port time.now batch.now)) }
    ensures sends { OnOk result ((a : Absorbed) → SendsFor Kind.except time.now a port batch.now out.new) }
    ensures fits { OnOk result ((a : Absorbed) → NotifiedShows (Except shard.old) a → AllFit (a port time.now ++ batch.now)) }
    ensures fits_sent { OnOk result ((q : ℕ) → AllFit (sent 1 out.new q)) }
    ensures over { IfErr result (λ e. e ≡ Count → (a : Absorbed) → NotifiedShows (Except shard.old) a → IsOver (a port time.now ++ batch.now)) }
    ensures asked { OnOk result ((a : Absorbed) → NotifiedShows (Except shard.old) a → out.new.asked ≡ asks Role.notified (a 0 time.now ++ a 1 time.now)) }
{
    out.asked = shard.on_records(port, time, batch)?;
    Ok(())
}

/// Sends the records of port 0 that never came to port 1 at the time.
fn except_notified(
    shard: &ExceptShard,
    alloc: Global,
    time: &Time,
    out: &mut Out,
) -> Result<(), WorkFault>
    ensures sends { OnOk result ((a : Absorbed) → NotifiedShows (Except shard.now) a → SendsForNotification Kind.except time.now a out.new) }
    ensures fits_sent { OnOk result ((q : ℕ) → AllFit (sent 1 out.new q)) }
    ensures never { IfErr result (λ e. e ≡ NoMemory) }
    ensures asked { out.new.asked ≡ out.old.asked }
{
    let rows = shard.on_notify(alloc, time)?;
    out.send(alloc, CountedRows::once(alloc, rows))?;
    Ok(())
}

/// Sends nothing, and asks for a notification at the first batch of a time. `Count` exactly where a record would then have come too
/// often.
#[inline(always)]
fn unseen(
    shard: &mut UnseenShard,
    alloc: Global,
    time: &Time,
    batch: &Batch,
    out: &mut Out,
) -> Result<(), WorkFault>
    requires arity { arity_of batch.now ≡ shard.old.came.arity }
    requires whole { (a : Absorbed) × NotifiedShows (Unseen shard.old) a }
    requires out { out.old ≡ record { first = None; second = None; asked = false } }
    ensures turns { shard.new.turns ≡ shard.old.turns }
    ensures arity { OnOk result (shard.new.came.arity ≡ shard.old.came.arity) }
    ensures absorbed { OnOk result ((a : Absorbed) → NotifiedShows (Unseen shard.old) a → NotifiedShows (Unseen shard.new) (with_records a 0 time.now batch.now)) }
    ensures sends { OnOk result ((a : Absorbed) → SendsFor (notified_kind (Unseen shard.old)) time.now a 0 batch.now out.new) }
    ensures fits { OnOk result ((a : Absorbed) → NotifiedShows (Unseen shard.old) a → AllFit (a 0 time.now ++ batch.now)) }
    ensures fits_sent { OnOk result ((q : ℕ) → AllFit (sent 2 out.new q)) }
    ensures over { IfErr result (λ e. e ≡ Count → (a : Absorbed) → NotifiedShows (Unseen shard.old) a → IsOver (a 0 time.now ++ batch.now)) }
    ensures asked { OnOk result ((a : Absorbed) → NotifiedShows (Unseen shard.old) a → out.new.asked ≡ asks Role.notified (a 0 time.now)) }
{
    out.asked = shard.on_records(alloc, time, batch)?;
    Ok(())
}

/// Sends the records that came at no earlier turn: out of the loop, and into the body before the turn of that number.
#[inline(always)]
fn unseen_notified(
    shard: &UnseenShard,
    alloc: Global,
    time: &Time,
    out: &mut Out,
) -> Result<(), WorkFault>
    requires whole { (a : Absorbed) × NotifiedShows (Unseen shard.now) a }
    ensures sends { OnOk result ((a : Absorbed) → NotifiedShows (Unseen shard.now) a → SendsForNotification (notified_kind (Unseen shard.now)) time.now a out.new) }
    ensures fits_sent { OnOk result ((q : ℕ) → AllFit (sent 2 out.new q)) }
    ensures never { IfErr result (λ e. e ≡ NoMemory) }
    ensures asked { out.new.asked ≡ out.old.asked }
{
    let rows = shard.on_notify(alloc, time)?;
    let turn = time.last_counter() as u64;
    out.send_new(alloc, CountedRows::once(alloc, rows), turn < shard.turns)?;
    Ok(())
}

/// Sends nothing, and asks for a notification at the first batch of a time, at whichever port it comes. `Count` exactly where a record
/// would then have come to the port too often.
#[inline(always)]
fn lookup(
    shard: &mut LookupShard,
    alloc: Global,
    port: u32,
    time: &Time,
    batch: &Batch,
    out: &mut Out,
) -> Result<(), WorkFault>
    requires port { port < 2 }
    requires arity { arity_of batch.now ≡ by_port shard.old.plan.left_arity shard.old.plan.right_arity port }
    requires whole { (a : Absorbed) × NotifiedShows (Lookup shard.old) a }
    requires out { out.old ≡ record { first = None; second = None; asked = false } }
    ensures plan { shard.new.plan ≡ shard.old.plan }
    ensures absorbed { OnOk result ((a : Absorbed) → NotifiedShows (Lookup shard.old) a → NotifiedShows (Lookup shard.new) (with_records a port time.now batch.now)) }
    ensures sends { OnOk result ((a : Absorbed) → SendsFor (notified_kind (Lookup shard.old)) time.now a port batch.now out.new) }
    ensures fits { OnOk result ((a : Absorbed) → NotifiedShows (Lookup shard.old) a → AllFit (a port time.now ++ batch.now)) }
    ensures fits_sent { OnOk result ((q : ℕ) → AllFit (sent 1 out.new q)) }
    ensures over { IfErr result (λ e. e ≡ Count → (a : Absorbed) → NotifiedShows (Lookup shard.old) a → IsOver (a port time.now ++ batch.now)) }
    ensures asked { OnOk result ((a : Absorbed) → NotifiedShows (Lookup shard.old) a → out.new.asked ≡ asks Role.notified (a 0 time.now ++ a 1 time.now)) }
{
    out.asked = shard.on_records(alloc, port, time, batch)?;
    Ok(())
}

/// Sends the records of port 0 at the time, joined with those that came to port 1 then and at earlier turns.
#[inline(always)]
fn lookup_notified(
    shard: &LookupShard,
    alloc: Global,
    time: &Time,
    out: &mut Out,
) -> Result<(), WorkFault>
    requires whole { (a : Absorbed) × NotifiedShows (Lookup shard.now) a }
    ensures sends { OnOk result ((a : Absorbed) → NotifiedShows (Lookup shard.now) a → SendsForNotification (notified_kind (Lookup shard.now)) time.now a out.new) }
    ensures fits_sent { OnOk result ((q : ℕ) → AllFit (sent 1 out.new q)) }
    ensures over { IfErr result (λ e. e ≡ Count → (a : Absorbed) → NotifiedShows (Lookup shard.now) a → WouldNotifyOver (notified_kind (Lookup shard.now)) time.now a) }
    ensures asked { out.new.asked ≡ out.old.asked }
{
    out.first = shard.on_notify(alloc, time)?;
    Ok(())
}
