//! A snapshot of an epoch, to be kept while the board goes on.

ghost use Rattle.std.specs.Prelude.{◌≡◌, [], map, slice_index_or, IfOk};
ghost use Rattle.board.specs.Looks.{IsPromised, fed_by, output_in};

use crate::epochs::Batches;
use crate::inputs::Input;
use events::Wiring;
use record_core::NoMemory;
use rows::Batch;
use std::alloc::Global;
use std::marker::Model;
use std::sync::Arc;

/// What was emitted at an output for an epoch, and whether the epoch had passed there.
#[derive(Drop)]
pub struct OutputLook {
    pub(crate) emitted: Batches,
    pub(crate) passed: bool,
}

/// What was fed for an epoch, and what each output shows. The batches and the graph are shared with the board.
#[derive(Drop)]
pub struct Look {
    wiring: Arc<Wiring, Global>,
    epoch: u32,
    fed: Vec<Batches>,
    outputs: Vec<OutputLook>,
}

impl Model for Look {
    ghost use Rattle.std.specs.Coded.{codes};
    ghost use Rattle.std.specs.contracts.alloc.Global as heap;
    ghost use Rattle.std.specs.contracts.impls.GlobalAllocator.TheImpl as allocates;
    ghost use Rattle.expr_tree.specs.contracts.scalar.Scalar as scalar;
    ghost use Rattle.expr_tree.specs.contracts.condition.Cond as condition;
    ghost use Rattle.board.specs.Looks.{IsPromised, LookShown};

    ghost Value = { LookShown };

    ghost coded = { Prim.hlevel (codes, (scalar.the_row heap.the_row allocates.ghosts).coded, (condition.the_row heap.the_row allocates.ghosts).coded) };

    ghost view = { λ l. record { graph = l.wiring.value.graph; epoch = l.epoch; fed = l.fed.items; outputs = l.outputs.items } };

    ghost invariant = { λ l. IsPromised (record { graph = l.wiring.value.graph; epoch = l.epoch; fed = l.fed.items; outputs = l.outputs.items }) };
}

impl Look {
    /// A look at these parts, which must keep the promise.
    pub(crate) fn of(
        wiring: Arc<Wiring, Global>,
        epoch: u32,
        fed: Vec<Batches>,
        outputs: Vec<OutputLook>,
    ) -> Look
        requires { IsPromised (record { graph = wiring.value.graph; epoch = epoch; fed = fed.items; outputs = outputs.items }) }
        ensures { result ≡ record { graph = wiring.value.graph; epoch = epoch; fed = fed.items; outputs = outputs.items } }
    {
        Look {
            wiring,
            epoch,
            fed,
            outputs,
        }
    }

    /// The epoch that was looked at.
    pub fn epoch(&self) -> u32
        ensures { result ≡ self.now.epoch }
    {
        self.epoch
    }

    /// The batches that were fed to an input, in order; none if there is no such input.
    pub fn fed(&self, input: u32) -> &[Batch]
        ensures { result.now ≡ fed_by self.now input }
    {
        match self.fed.get(input as usize) {
            Some(batches) => batches.as_slice(),
            None => &[],
        }
    }

    /// The batches that were emitted at an output, in order; none if there is no such output.
    pub fn emitted(&self, output: u32) -> &[Batch]
        ensures { result.now ≡ (output_in self.now output).emitted }
    {
        match self.outputs.get(output as usize) {
            Some(look) => look.emitted.as_slice(),
            None => &[],
        }
    }

    /// Whether the epoch had passed at an output; false if there is no such output.
    pub fn passed(&self, output: u32) -> bool
        ensures { result ≡ (output_in self.now output).passed }
    {
        match self.outputs.get(output as usize) {
            Some(look) => look.passed,
            None => false,
        }
    }

    /// The promise holds at each output, whatever program the board ran. Nothing is done.
    pub fn law_headline(&self)
        ensures { IsPromised self.now }
    {
        let _ = &self.wiring;
    }
}

/// The same batches, shared.
pub fn share_batches(alloc: Global, batches: &[Batch]) -> Result<Batches, NoMemory>
    ensures { IfOk result (λ copy. copy ≡ batches.now) }
{
    let mut copy = Batches::new(alloc);
    for batch in batches {
        let Ok(shared) = batch.share() else {
            return Err(NoMemory);
        };
        if copy.push(alloc, shared).is_err() {
            return Err(NoMemory);
        }
    }
    Ok(copy)
}

/// What was fed to each input for an epoch, shared.
pub fn share_fed(alloc: Global, inputs: &[Input], epoch: u32) -> Result<Vec<Batches>, NoMemory>
    ensures { IfOk result (λ fed. fed.items ≡ map (λ i. slice_index_or i.fed epoch []) inputs.now) }
{
    let mut fed = Vec::with_capacity(alloc, inputs.len())?;
    for input in inputs {
        fed.push(share_batches(alloc, input.fed().at(epoch))?)?;
    }
    Ok(fed)
}
