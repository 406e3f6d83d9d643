//! Whether scalars together use each column at most once, so that no scalar that replaces a column is copied.

ghost use Rattle.std.specs.Prelude.{◌<◌, [], ◌∷◌, IsTrue, IsFalse};
ghost use Rattle.std.specs.List.{AllByRecursion};
ghost use Rattle.semantics.specs.Limits.{max_fields};
ghost use Rattle.semantics.specs.Normal.{UsesOnce, uses, uses_all};
ghost use Rattle.expr_tree.specs.Plain.{plain_scalar};
ghost use Rattle.expr_tree.specs.PlainLists.{plain_scalars};
ghost use Rattle.expr_tree.specs.Views.{scalar_tree};
ghost use Rattle.normalise.specs.Marks.{Marks, Repeats};

use expr_tree::Scalar;
use record_core::MAX_FIELDS;
use std::alloc::Allocator;

/// Marks a column. False where it has no place or was marked already.
fn mark_column(column: u64, seen: &mut [bool]) -> bool
    ensures marked { IsTrue result → Marks (column ∷ []) seen.new seen.old }
    ensures repeated { IsFalse result → Repeats (column ∷ []) seen.old }
{
    let column = column as usize;
    if column >= seen.len() || seen[column] {
        return false;
    }
    seen[column] = true;
    true
}

/// Marks the columns of a scalar. False where one has no place or is there twice or was marked already.
fn mark_columns<A: Allocator>(scalar: &Scalar<A>, seen: &mut [bool]) -> bool
    ensures marked { IsTrue result → Marks (uses (plain_scalar (scalar_tree scalar.now))) seen.new seen.old }
    ensures repeated { IsFalse result → Repeats (uses (plain_scalar (scalar_tree scalar.now))) seen.old }
{
    match scalar {
        Scalar::Literal(_, _) => true,
        Scalar::Column(_, column) => mark_column(*column, seen),
        Scalar::Binary(_, _, left, right) => mark_columns(left, seen) && mark_columns(right, seen),
        Scalar::Negate(_, inner) => mark_columns(inner, seen),
    }
}

/// The same of scalars together.
fn mark_all<A: Allocator>(scalars: &[Scalar<A>], seen: &mut [bool]) -> bool
    ensures marked { IsTrue result → Marks (uses_all (plain_scalars scalars.now)) seen.new seen.old }
    ensures repeated { IsFalse result → Repeats (uses_all (plain_scalars scalars.now)) seen.old }
{
    match scalars {
        [] => true,
        [scalar, rest @ ..] => mark_columns(scalar, seen) && mark_all(rest, seen),
    }
}

/// Whether the scalars together use each column at most once. They are over a relation, whose records have at most 16 columns;
/// of scalars with a column beyond, the answer is no.
pub(crate) fn use_once<A: Allocator>(scalars: &[Scalar<A>]) -> bool
    ensures once { IsTrue result → UsesOnce (plain_scalars scalars.now) }
    ensures again { IsFalse result → AllByRecursion (λ c. c < max_fields) (uses_all (plain_scalars scalars.now)) → UsesOnce (plain_scalars scalars.now) → ⊥ }
{
    let mut seen = [false; MAX_FIELDS];
    mark_all(scalars, &mut seen)
}
