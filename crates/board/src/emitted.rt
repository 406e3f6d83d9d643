//! What each vertex has emitted, by epoch.

ghost use Rattle.std.specs.Prelude.{◌≡◌, ◌<◌, ℕ, [], length, slice_index_or, IfOk, IfErr, OnOk, OnErr};
ghost use Rattle.board.specs.Shown.{emitted_by};
ghost use Rattle.board.specs.Steps.{with_emitted};

use crate::epochs::Epochs;
use record_core::NoMemory;
use rows::Batch;
use std::alloc::Global;
use std::marker::Model;

/// Batches by vertex and epoch. Only output vertices have any.
#[derive(Drop)]
pub struct Emitted {
    lists: Vec<Epochs>,
}

impl Model for Emitted {
    ghost use Rattle.std.specs.Prelude.{List, ℤ};

    ghost Value = { List (List (List (List (List ℤ)))) };

    ghost view = { λ e. e.lists.items };
}

impl Emitted {
    /// No batches yet, for that many vertices.
    pub fn new(alloc: Global, vertices: usize) -> Result<Emitted, NoMemory>
        ensures count { IfOk result (λ e. length e ≡ vertices) }
        ensures none { IfOk result (λ e. (v : ℕ) → emitted_by e v ≡ []) }
    {
        let mut lists = Vec::with_capacity(alloc, vertices)?;
        for made in 0..vertices {
            let _ = made;
            lists.push(Epochs::new(alloc))?;
        }
        Ok(Emitted { lists })
    }

    /// The batches of a vertex for an epoch, perhaps none.
    #[inline(always)]
    pub fn at(&self, vertex: usize, epoch: u32) -> &[Batch]
        ensures { result.now ≡ slice_index_or (emitted_by self.now vertex) epoch [] }
    {
        match self.lists.get(vertex) {
            Some(epochs) => epochs.at(epoch),
            None => &[],
        }
    }

    /// Adds a batch of a vertex to an epoch, if there is a batch. If memory runs out, nothing changes, and the batch comes back.
    #[inline(always)]
    pub fn add_some(
        &mut self,
        vertex: usize,
        epoch: u32,
        batch: Option<Batch>,
    ) -> Result<(), Option<Batch>>
        requires { vertex < length self.old }
        ensures ok { OnOk result (self.new ≡ with_emitted vertex epoch batch self.old) }
        ensures err { OnErr result (self.new ≡ self.old) }
        ensures back { IfErr result (λ back. back ≡ batch) }
    {
        match batch {
            None => Ok(()),
            Some(batch) => match self.lists[vertex].add(epoch, batch) {
                Ok(()) => Ok(()),
                Err(batch) => Err(Some(batch)),
            },
        }
    }
}
