//! Columns replaced by the scalars that they name. The scalars are moved, so each column may be used at one place only; what is made is
//! folded on the way, and what was folded before isn't looked at again.

ghost use Rattle.std.specs.Prelude.{◌∷◌, [], map};
ghost use Rattle.std.specs.List.{AllByRecursion, AllZip};
ghost use Rattle.semantics.specs.Normal as normal;
ghost use Rattle.semantics.specs.Normal.{NormalScalar, uses, uses_all};
ghost use Rattle.expr_tree.specs.Plain.{plain_scalar};
ghost use Rattle.expr_tree.specs.PlainLists.{plain_scalars};
ghost use Rattle.expr_tree.specs.Views.{scalar_tree};
ghost use Rattle.normalise.specs.Replaced.{MovesOut, Once, named_by};
ghost use Rattle.normalise.specs.Rewritten.{IsFolded};

use crate::scalars::{negation, operation};
use expr_tree::{Scalar, ScalarParts};
use record_core::Span;
use std::alloc::Allocator;

/// The scalar that a column names, moved out of its place; 0 where there is none, which no typed query asks.
fn moved_out<A: Allocator>(span: Span, column: u64, by: &mut [Scalar<A>]) -> Scalar<A>
    ensures folded { AllByRecursion NormalScalar (plain_scalars by.old) →
        IsFolded (plain_scalar (scalar_tree result)) (named_by (plain_scalars by.old) column) }
    ensures moved { MovesOut (column ∷ []) (plain_scalars by.new) (plain_scalars by.old) }
{
    let index = column as usize;
    if index < by.len() {
        by[index].take()
    } else {
        Scalar::Literal(span, 0)
    }
}

/// The scalar with each column replaced by the scalar that it names, folded.
#[cycle(replace)]
fn replaced<A: Allocator>(scalar: Scalar<A>, by: &mut [Scalar<A>]) -> Scalar<A>
    ensures folded { AllByRecursion NormalScalar (plain_scalars by.old) → Once (uses (plain_scalar (scalar_tree scalar))) →
        IsFolded (plain_scalar (scalar_tree result)) (normal.replaced (plain_scalars by.old) (plain_scalar (scalar_tree scalar))) }
    ensures moved { MovesOut (uses (plain_scalar (scalar_tree scalar))) (plain_scalars by.new) (plain_scalars by.old) }
{
    match scalar.into_parts() {
        ScalarParts::Literal(span, number) => Scalar::Literal(span, number),
        ScalarParts::Column(span, column) => moved_out(span, column, by),
        ScalarParts::Binary(span, operator, left, right) => {
            let left = replaced_in_box(left, by);
            let right = replaced_in_box(right, by);
            operation(span, operator, left, right)
        }
        ScalarParts::Negate(span, inner) => {
            let inner = replaced_in_box(inner, by);
            negation(span, inner)
        }
    }
}

/// The scalar in its box.
#[cycle(replace)]
fn replaced_in_box<A: Allocator>(
    mut place: Box<Scalar<A>, A>,
    by: &mut [Scalar<A>],
) -> Box<Scalar<A>, A>
    ensures folded { AllByRecursion NormalScalar (plain_scalars by.old) → Once (uses (plain_scalar (scalar_tree place.value))) →
        IsFolded (plain_scalar (scalar_tree result.value)) (normal.replaced (plain_scalars by.old) (plain_scalar (scalar_tree place.value))) }
    ensures moved { MovesOut (uses (plain_scalar (scalar_tree place.value))) (plain_scalars by.new) (plain_scalars by.old) }
{
    let scalar = place.take();
    *place = replaced(scalar, by);
    place
}

/// Replaces the columns of each of the scalars.
pub(crate) fn replace_all<A: Allocator>(scalars: &mut Vec<Scalar<A>, A>, by: &mut [Scalar<A>])
    ensures { AllByRecursion NormalScalar (plain_scalars by.old) → Once (uses_all (plain_scalars scalars.old.items)) →
        AllZip IsFolded (plain_scalars scalars.new.items) (map (normal.replaced (plain_scalars by.old)) (plain_scalars scalars.old.items)) }
{
    for scalar in scalars.iter_mut() {
        let before = scalar.take();
        *scalar = replaced(before, by);
    }
}
