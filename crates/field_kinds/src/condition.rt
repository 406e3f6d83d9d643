//! What conditions compare.

ghost use Rattle.std.specs.Prelude.{◌≡◌, Some};
ghost use Rattle.expr_tree.specs.Views.{cond_tree, scalar_tree};
ghost use Rattle.expr_tree.specs.Plain.{plain_comparison, plain_cond, plain_scalar};
ghost use Rattle.kinds.specs.Kinds as spec;
ghost use Rattle.field_kinds.specs.Found.{Tests};

use crate::codes::{COMPARED, refusal_at};
use crate::quantity::common;
use crate::scalar::scalar_kind;
use expr_tree::{Comparison, Cond, Scalar};
use kinds::Kind;
use record_core::Refusal;
use std::alloc::Allocator;

/// Whether only equality is asked for.
fn asks_equality(comparison: Comparison) -> bool
    ensures { result ≡ spec.asks_equality (plain_comparison comparison) }
{
    match comparison {
        Comparison::Equal | Comparison::NotEqual => true,
        Comparison::Less | Comparison::AtMost | Comparison::Greater | Comparison::AtLeast => false,
    }
}

/// Whether the number is one of those that stand for a text with a name.
fn is_named(named: &[i64], number: i64) -> bool
    ensures { result ≡ spec.is_named named.now number }
{
    for name in named {
        if *name == number {
            return true;
        }
    }
    false
}

/// Whether the scalar is a number that stands for a text with a name.
fn is_named_text<A: Allocator>(named: &[i64], scalar: &Scalar<A>) -> bool
    ensures { result ≡ spec.is_named_text named.now (plain_scalar (scalar_tree scalar.now)) }
{
    match scalar {
        Scalar::Literal(_, number) => is_named(named, *number),
        Scalar::Column(_, _) | Scalar::Binary(_, _, _, _) | Scalar::Negate(_, _) => false,
    }
}

/// Whether a comparison of these scalars, which have these kinds, makes sense.
fn may_compare<A: Allocator>(
    named: &[i64],
    comparison: Comparison,
    left: &Scalar<A>,
    right: &Scalar<A>,
    kinds: (Kind, Kind),
) -> bool
    ensures { result ≡ spec.may_compare named.now (plain_comparison comparison) (plain_scalar (scalar_tree left.now)) (plain_scalar (scalar_tree right.now)) (Some kinds.0) (Some kinds.1) }
{
    match kinds {
        (Kind::Text, Kind::Text) => asks_equality(comparison),
        (Kind::Text, Kind::Number(_)) => asks_equality(comparison) && is_named_text(named, right),
        (Kind::Number(_), Kind::Text) => asks_equality(comparison) && is_named_text(named, left),
        (Kind::Number(a), Kind::Number(b)) => common(a, b).is_some(),
    }
}

/// Refused where the condition compares what may not be compared.
pub fn may_ask<A: Allocator>(
    named: &[i64],
    kinds: &[Kind],
    condition: &Cond<A>,
) -> Result<(), Refusal>
    ensures { Tests result (spec.may_ask named.now kinds.now (plain_cond (cond_tree condition.now))) }
{
    match condition {
        Cond::Compare(span, comparison, left, right) => {
            let first = scalar_kind(kinds, left)?;
            let second = scalar_kind(kinds, right)?;
            if may_compare(named, *comparison, left, right, (first, second)) {
                Ok(())
            } else {
                Err(refusal_at(COMPARED, *span))
            }
        }
        Cond::Logical(_, _, left, right) => {
            may_ask(named, kinds, left)?;
            may_ask(named, kinds, right)
        }
        Cond::Not(_, inner) => may_ask(named, kinds, inner),
    }
}
