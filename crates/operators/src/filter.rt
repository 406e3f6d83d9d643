//! Records at which a condition holds.

ghost use Rattle.std.specs.Prelude.{◌≡◌, ◌<◌, ◌++◌, length, slice_index_or, IfOk, OnOk};
ghost use Rattle.expr_tree.specs.Plain.{plain_cond};
ghost use Rattle.expr_tree.specs.Views.{cond_tree};
ghost use Rattle.rows.specs.FlatRows.{arity_of};
ghost use Rattle.rows.specs.Indexes.{AreDifferent};
ghost use Rattle.rows.specs.Counts.{expanded, no_run, rows_of, runs};
ghost use Rattle.semantics.specs.Meaning.{kept};
ghost use Rattle.semantics.specs.Typing.{CondFits};
ghost use Rattle.operators.specs.Fits.{CondFits-prop};
ghost use Rattle.operators.specs.Outcomes.{kept_run};

use expr_tree::{Cond, holds};
use record_core::NoMemory;
use rows::{Batch, CountedRows};
use std::alloc::Global;

/// The records at which the condition holds. Each of its columns is below `arity`.
#[derive(Drop)]
pub struct Where {
    pub arity: usize,
    pub condition: Cond<Global>,
    pub ghost fits: { CondFits arity (plain_cond (cond_tree condition)) } by { CondFits-prop arity (plain_cond (cond_tree condition)) },
}

impl Where {
    /// The records of the batch at which the condition holds, in order.
    #[tactic(auto, using(crate::proofs::Steps::kept_more))]
    pub fn apply(&self, alloc: Global, batch: &Batch) -> Result<CountedRows, NoMemory>
        requires { arity_of batch.now ≡ self.now.arity }
        ensures records { IfOk result (λ rows. expanded rows.runs ≡ kept (plain_cond (cond_tree self.now.condition)) batch.now) }
        ensures different { IfOk result (λ rows. AreDifferent (rows_of rows.runs)) }
    {
        let mut rows = CountedRows::new(alloc, batch.arity());
        for place in 0..batch.len() {
            self.offer(batch, place, &mut rows)?;
        }
        Ok(rows)
    }

    /// Adds one record, if the condition holds.
    fn offer(&self, batch: &Batch, place: usize, rows: &mut CountedRows) -> Result<(), NoMemory>
        requires columns { arity_of batch.now ≡ self.now.arity }
        requires place { place < length (runs batch.now) }
        requires arity { rows.old.arity ≡ arity_of batch.now }
        ensures rows { OnOk result (rows.new.runs ≡ rows.old.runs
            ++ kept_run (plain_cond (cond_tree self.now.condition)) (slice_index_or (runs batch.now) place no_run)) }
        ensures arity { rows.new.arity ≡ rows.old.arity }
    {
        let row = batch.row(place);
        if holds(&self.condition, row) {
            rows.push(row, batch.count(place))?;
        }
        Ok(())
    }
}
