//! Scalars and conditions, with literals folded. No memory is taken: a node that stays keeps its box.

ghost use Rattle.std.specs.Prelude.{◌≡◌, MatchOption};
ghost use Rattle.std.specs.List.{AllZip};
ghost use Rattle.semantics.specs.Query as query;
ghost use Rattle.semantics.specs.Normal.{IsLiteral, NormalScalar};
ghost use Rattle.expr_tree.specs.Plain.{plain_cond, plain_operator, plain_scalar};
ghost use Rattle.expr_tree.specs.PlainLists.{plain_scalars};
ghost use Rattle.expr_tree.specs.Views.{cond_tree, scalar_tree};
ghost use Rattle.normalise.specs.Rewritten.{IsFolded, IsFoldedCond};

use expr_tree::{Cond, CondParts, Operator, Scalar, ScalarParts, negated, operate};
use record_core::Span;
use std::alloc::Allocator;

/// The number that a literal is.
fn number<A: Allocator>(scalar: &Scalar<A>) -> Option<i64>
    ensures { MatchOption result (IsLiteral (plain_scalar (scalar_tree scalar.now)) → ⊥) (λ z. plain_scalar (scalar_tree scalar.now) ≡ query.Scalar.literal z) }
{
    match scalar {
        Scalar::Literal(_, number) => Some(*number),
        _ => None,
    }
}

/// The operator between two folded scalars, folded.
pub(crate) fn operation<A: Allocator>(
    span: Span,
    operator: Operator,
    left: Box<Scalar<A>, A>,
    right: Box<Scalar<A>, A>,
) -> Scalar<A>
    ensures { NormalScalar (plain_scalar (scalar_tree left.value)) → NormalScalar (plain_scalar (scalar_tree right.value)) →
        IsFolded (plain_scalar (scalar_tree result))
        (plain_operator operator (plain_scalar (scalar_tree left.value)) (plain_scalar (scalar_tree right.value))) }
{
    match (number(&*left), number(&*right)) {
        (Some(x), Some(y)) => Scalar::Literal(span, operate(operator, x, y)),
        _ => Scalar::Binary(span, operator, left, right),
    }
}

/// The negation of a folded scalar, folded.
pub(crate) fn negation<A: Allocator>(span: Span, inner: Box<Scalar<A>, A>) -> Scalar<A>
    ensures { NormalScalar (plain_scalar (scalar_tree inner.value)) →
        IsFolded (plain_scalar (scalar_tree result)) (query.Scalar.negation (plain_scalar (scalar_tree inner.value))) }
{
    match number(&*inner) {
        Some(x) => Scalar::Literal(span, negated(x)),
        None => Scalar::Negate(span, inner),
    }
}

/// The scalar with its literals folded.
#[cycle(fold)]
pub(crate) fn folded<A: Allocator>(scalar: Scalar<A>) -> Scalar<A>
    ensures { IsFolded (plain_scalar (scalar_tree result)) (plain_scalar (scalar_tree scalar)) }
{
    match scalar.into_parts() {
        ScalarParts::Literal(span, number) => Scalar::Literal(span, number),
        ScalarParts::Column(span, column) => Scalar::Column(span, column),
        ScalarParts::Binary(span, operator, left, right) => {
            let left = folded_in_box(left);
            let right = folded_in_box(right);
            operation(span, operator, left, right)
        }
        ScalarParts::Negate(span, inner) => {
            let inner = folded_in_box(inner);
            negation(span, inner)
        }
    }
}

/// The scalar in its box.
#[cycle(fold)]
fn folded_in_box<A: Allocator>(mut place: Box<Scalar<A>, A>) -> Box<Scalar<A>, A>
    ensures { IsFolded (plain_scalar (scalar_tree result.value)) (plain_scalar (scalar_tree place.value)) }
{
    let scalar = place.take();
    *place = folded(scalar);
    place
}

/// Folds each of the scalars.
pub(crate) fn fold_all<A: Allocator>(scalars: &mut Vec<Scalar<A>, A>)
    ensures { AllZip IsFolded (plain_scalars scalars.new.items) (plain_scalars scalars.old.items) }
{
    for scalar in scalars.iter_mut() {
        let before = scalar.take();
        *scalar = folded(before);
    }
}

/// The condition with the literals of its scalars folded.
#[cycle(fold_cond)]
pub(crate) fn folded_cond<A: Allocator>(condition: Cond<A>) -> Cond<A>
    ensures { IsFoldedCond (plain_cond (cond_tree result)) (plain_cond (cond_tree condition)) }
{
    match condition.into_parts() {
        CondParts::Compare(span, comparison, left, right) => {
            Cond::Compare(span, comparison, folded(left), folded(right))
        }
        CondParts::Logical(span, connective, left, right) => {
            let left = folded_cond_in_box(left);
            let right = folded_cond_in_box(right);
            Cond::Logical(span, connective, left, right)
        }
        CondParts::Not(span, inner) => {
            let inner = folded_cond_in_box(inner);
            Cond::Not(span, inner)
        }
    }
}

/// The condition in its box.
#[cycle(fold_cond)]
fn folded_cond_in_box<A: Allocator>(mut place: Box<Cond<A>, A>) -> Box<Cond<A>, A>
    ensures { IsFoldedCond (plain_cond (cond_tree result.value)) (plain_cond (cond_tree place.value)) }
{
    let condition = place.take();
    *place = folded_cond(condition);
    place
}
