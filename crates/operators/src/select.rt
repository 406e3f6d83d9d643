//! Records that are computed from others.

ghost use Rattle.std.specs.Prelude.{◌≡◌, ◌≤◌, ◌<◌, ◌+◌, ◌++◌, ◌∷◌, [], length, map, slice_index_or, IfOk, IfErr, OnOk};
ghost use Rattle.arrayvec.specs.ArrayVec.{array_vec_len};
ghost use Rattle.std.specs.List.{AllByRecursion};
ghost use Rattle.expr_tree.specs.Plain.{plain_scalar};
ghost use Rattle.expr_tree.specs.PlainLists.{plain_scalars};
ghost use Rattle.expr_tree.specs.Views.{scalar_tree};
ghost use Rattle.rows.specs.FlatRows.{arity_of};
ghost use Rattle.rows.specs.Counts.{AllFit, AreRuns, IsOver, expanded, no_run, records_in, runs};
ghost use Rattle.rows.specs.declared.fault.WorkFault.TheVariants.{Count};
ghost use Rattle.semantics.specs.Multiset.{◌≈◌};
ghost use Rattle.semantics.specs.Meaning.{selected, value};
ghost use Rattle.semantics.specs.Typing.{ScalarFits};
ghost use Rattle.operators.specs.Columns.{IsInRange, AllDetermined};
ghost use Rattle.operators.specs.Fits.{all_fit-prop};
ghost use Rattle.operators.specs.Outcomes.{selected_run};
ghost use Rattle.semantics.specs.Limits.{max_fields};

use crate::determined::all_determined;
use arrayvec::ArrayVec;
use expr_tree::{Scalar, eval_scalar};
use record_core::NoMemory;
use rows::{Batch, CountedRows, WorkFault};
use std::alloc::Global;

/// For each record, the record of the scalars' values, 1 to 16 of them. Each of their columns is below `arity`.
#[derive(Drop)]
pub struct Select {
    pub arity: usize,
    pub scalars: Vec<Scalar<Global>>,
    pub ghost fits: { AllByRecursion (ScalarFits arity) (plain_scalars scalars.items) } by { all_fit-prop arity (plain_scalars scalars.items) },
    pub ghost some: { 1 ≤ length scalars.items },
    pub ghost few: { length scalars.items ≤ max_fields },
}

impl Select {
    /// For each record of the batch, the record of the scalars' values. Never `None`, since a batch isn't empty. `Count` exactly if the count of a
    /// result would be too large. If each column is determined, different records have different results, so equal results aren't searched for.
    #[tactic(auto, using(rows::proofs::Runs::all_fit))]
    pub fn apply(&self, alloc: Global, batch: &Batch) -> Result<Option<Batch>, WorkFault>
        requires { arity_of batch.now ≡ self.now.arity }
        ensures records { IfOk result (λ made. records_in made ≈ selected (plain_scalars self.now.scalars.items) batch.now) }
        ensures fits { IfOk result (λ made. AllFit (selected (plain_scalars self.now.scalars.items) batch.now)) }
        ensures over { IfErr result (λ e. e ≡ Count → IsOver (selected (plain_scalars self.now.scalars.items) batch.now)) }
    {
        let made = select_all(alloc, &self.scalars, batch)?;
        if all_determined(&self.scalars, self.arity) {
            let kept = Batch::from_counted(alloc, made)?;
            return Ok(kept);
        }
        Batch::merged(alloc, made)
    }
}

/// For each record the record of the scalars' values, in order.
fn select_all(
    alloc: Global,
    scalars: &[Scalar<Global>],
    batch: &Batch,
) -> Result<CountedRows, NoMemory>
    requires columns { AllByRecursion (ScalarFits (arity_of batch.now)) (plain_scalars scalars.now) }
    requires some { 1 ≤ length scalars.now }
    requires few { length scalars.now ≤ max_fields }
    ensures records { IfOk result (λ made. expanded made.runs ≡ selected (plain_scalars scalars.now) batch.now) }
    ensures runs { IfOk result (λ made. AllDetermined (arity_of batch.now) (plain_scalars scalars.now) → AreRuns made.runs) }
{
    let _ = batch.arity();
    let mut made = CountedRows::new(alloc, scalars.len());
    for place in 0..batch.len() {
        push_selected(scalars, batch, place, &mut made)?;
    }
    Ok(made)
}

/// Appends the record of the scalars' values for one record.
#[tactic(auto, using(crate::proofs::Steps::length_of_map))]
fn push_selected(
    scalars: &[Scalar<Global>],
    batch: &Batch,
    place: usize,
    made: &mut CountedRows,
) -> Result<(), NoMemory>
    requires columns { AllByRecursion (ScalarFits (arity_of batch.now)) (plain_scalars scalars.now) }
    requires few { length scalars.now ≤ max_fields }
    requires place { place < length (runs batch.now) }
    requires arity { made.old.arity ≡ length scalars.now }
    ensures rows { OnOk result (made.new.runs ≡ made.old.runs ++ selected_run (plain_scalars scalars.now) (slice_index_or (runs batch.now) place no_run) ∷ []) }
    ensures arity { made.new.arity ≡ made.old.arity }
    ensures range { OnOk result (IsInRange (slice_index_or (runs batch.now) place no_run).row) }
{
    let row = batch.row(place);
    read_fields(row);
    let mut fields: ArrayVec<i64, 16> = ArrayVec::new();
    push_values(&mut fields, scalars, row);
    made.push(fields.as_slice(), batch.count(place))
}

/// Reads each field, which shows that it is in the range of 64 bits.
fn read_fields(item: &[i64])
    ensures { IsInRange item.now }
{
    for column in 0..item.len() {
        let _field = item[column];
    }
}

/// Appends the scalars' values for a record.
fn push_values(fields: &mut ArrayVec<i64, 16>, scalars: &[Scalar<Global>], item: &[i64])
    requires columns { AllByRecursion (ScalarFits (length item.now)) (plain_scalars scalars.now) }
    requires room { array_vec_len fields.old + length scalars.now ≤ max_fields }
    ensures values { fields.new.items ≡ fields.old.items ++ map (λ s. value s item.now) (plain_scalars scalars.now) }
{
    if let [scalar, rest @ ..] = scalars {
        fields.push(scalar_value(scalar, item));
        push_values(fields, rest, item);
    }
}

/// The scalar's value for a record; for a column, the field.
fn scalar_value(scalar: &Scalar<Global>, item: &[i64]) -> i64
    requires { ScalarFits (length item.now) (plain_scalar (scalar_tree scalar.now)) }
    ensures { result ≡ value (plain_scalar (scalar_tree scalar.now)) item.now }
{
    match scalar {
        Scalar::Column(_, column) => item[*column as usize],
        _ => eval_scalar(scalar, item),
    }
}
