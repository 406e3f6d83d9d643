//! A batch that is fed, cut into messages before the board sees it.

ghost use Rattle.std.specs.Prelude.{◌≡◌, ◌≤◌, ◌<◌, length, map, IfOk};
ghost use Rattle.semantics.specs.Graph.{vertex as vertex_in};
ghost use Rattle.semantics.specs.Kinds.{Kind as Equation};
ghost use Rattle.semantics.specs.Time.{at_epoch};
ghost use Rattle.events.specs.Cuts.{at_time, cut_letters};
ghost use Rattle.events.specs.Letters.{AreParcels, most_letters};
ghost use Rattle.events.specs.Wired.{graph_in, network_of};

use crate::letter::Letter;
use crate::sending::send;
use crate::wiring::Wiring;
use exchange::Cuts;
use loop_context::Time;
use record_core::NoMemory;
use rows::Batch;
use std::alloc::Global;
use std::marker::Model;
use std::sync::Arc;

/// A batch for an input, with the messages that feeding it at an epoch makes. Once the epoch is known at which it is fed, setting it is all that is
/// left to do.
#[derive(Drop)]
pub struct CutBatch {
    wiring: Arc<Wiring, Global>,
    input: u32,
    epoch: u32,
    batch: Batch,
    letters: Vec<Letter>,
}

impl Model for CutBatch {
    ghost use Rattle.std.specs.Coded.{codes};
    ghost use Rattle.std.specs.contracts.alloc.Global as heap;
    ghost use Rattle.std.specs.contracts.impls.GlobalAllocator.TheImpl as allocates;
    ghost use Rattle.expr_tree.specs.contracts.scalar.Scalar as scalar;
    ghost use Rattle.expr_tree.specs.contracts.condition.Cond as condition;
    ghost use Rattle.events.specs.Cuts.{Cut, IsCut};

    ghost Value = { Cut };

    ghost coded = { Prim.hlevel (codes, (scalar.the_row heap.the_row allocates.ghosts).coded, (condition.the_row heap.the_row allocates.ghosts).coded) };

    ghost view = { λ c. record { wired = c.wiring.value; input = c.input; epoch = c.epoch; batch = c.batch } };

    ghost invariant = { λ c. IsCut (record { wired = c.wiring.value; input = c.input; epoch = c.epoch; batch = c.batch }) c.letters.items };
}

impl CutBatch {
    /// Cuts a batch for an input, at first for epoch 0.
    #[inline(always)]
    pub fn of(
        alloc: Global,
        wiring: &Arc<Wiring, Global>,
        input: u32,
        batch: Batch,
    ) -> Result<CutBatch, NoMemory>
        requires there { input < length (graph_in wiring.now.value) }
        requires input { (vertex_in (graph_in wiring.now.value) input).kind ≡ Equation.input }
        ensures { IfOk result (λ c. c ≡ record { wired = wiring.now.value; input = input; epoch = 0; batch = batch }) }
    {
        wiring.law_of_size();
        let outs = (Some(batch.share()?), None);
        let start = Time::at_epoch(0);
        let letters = send(
            alloc,
            wiring,
            &mut Cuts::new(alloc),
            0,
            input,
            &start,
            &outs,
        )?;
        let wiring = Arc::try_clone(wiring)?;
        Ok(CutBatch {
            wiring,
            input,
            epoch: 0,
            batch,
            letters,
        })
    }

    pub fn input(&self) -> u32
        ensures { result ≡ self.now.input }
    {
        self.input
    }

    pub fn batch(&self) -> &Batch
        ensures { result.now ≡ self.now.batch }
    {
        &self.batch
    }

    /// Sets the epoch at which the batch is to be fed.
    pub fn set_epoch(&mut self, epoch: u32)
        ensures { self.new ≡ record self.old { epoch = epoch } }
    {
        set_times(&mut self.letters, epoch);
        self.epoch = epoch;
    }

    /// Its messages.
    #[inline(always)]
    pub fn letters(&self) -> &[Letter]
        ensures { result.now ≡ cut_letters self.now }
    {
        &self.letters
    }

    /// Gives the messages away, to be sent.
    #[inline(always)]
    pub fn into_letters(self) -> Vec<Letter>
        ensures same { result.items ≡ cut_letters self }
    {
        let CutBatch {
            wiring: _,
            input: _,
            epoch: _,
            batch: _,
            letters,
        } = self;
        letters
    }

    /// The messages are those of the batch, fed at its epoch, and there is at most one for each edge and worker. Nothing is done.
    pub fn law_of_letters(&self)
        ensures parcels { AreParcels (network_of self.now.wired) 0 self.now.input (at_epoch self.now.epoch) (λ q. self.now.batch) (cut_letters self.now) }
        ensures few { length (cut_letters self.now) ≤ most_letters }
    {
        self.wiring.law_of_graph();
        self.wiring.law_of_size();
    }
}

/// Sets the time of each message.
#[inline(always)]
fn set_times(letters: &mut [Letter], epoch: u32)
    ensures { letters.new ≡ map (at_time (at_epoch epoch)) letters.old }
{
    for letter in letters.iter_mut() {
        set_time(letter, epoch);
    }
}

/// Sets the time of a message.
#[inline(always)]
fn set_time(letter: &mut Letter, epoch: u32)
    ensures { letter.new ≡ at_time (at_epoch epoch) letter.old }
{
    letter.message.set_time(Time::at_epoch(epoch));
}
