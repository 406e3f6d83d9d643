//! Kinds of scalars.

ghost use Rattle.std.specs.Prelude.{◌≡◌, Some, slice_get};
ghost use Rattle.expr_tree.specs.Views.{scalar_tree};
ghost use Rattle.expr_tree.specs.Plain.{plain_scalar};
ghost use Rattle.kinds.specs.Kinds as spec;
ghost use Rattle.field_kinds.specs.Found.{Finds};
ghost use Rattle.field_kinds.specs.Operators.{of_operator};

use crate::codes::{COMPUTED, refusal_at};
use crate::quantity::{opposite, under};
use expr_tree::{Operator, Scalar};
use kinds::{Kind, Quantity};
use record_core::{Refusal, Span};
use std::alloc::Allocator;

/// The kind of a column.
pub(crate) fn column_kind(kinds: &[Kind], index: u64, code: u8, span: Span) -> Result<Kind, Refusal>
    ensures { Finds (λ k. k) result (slice_get kinds.now index) }
{
    match kinds.get(index as usize) {
        Some(kind) => Ok(*kind),
        None => Err(refusal_at(code, span)),
    }
}

/// Of two kinds under an operator.
fn computed(operator: Operator, left: Kind, right: Kind, span: Span) -> Result<Kind, Refusal>
    ensures { Finds (λ k. k) result (spec.computed (of_operator operator) (Some left) (Some right)) }
{
    if let (Kind::Number(a), Kind::Number(b)) = (left, right) {
        if let Some(quantity) = under(operator, a, b) {
            return Ok(Kind::Number(quantity));
        }
    }
    Err(refusal_at(COMPUTED, span))
}

/// Of a kind with the other sign.
fn negated(kind: Kind, span: Span) -> Result<Kind, Refusal>
    ensures { Finds (λ k. k) result (spec.negated (Some kind)) }
{
    if let Kind::Number(a) = kind {
        if let Some(quantity) = opposite(a) {
            return Ok(Kind::Number(quantity));
        }
    }
    Err(refusal_at(COMPUTED, span))
}

/// The kind of a scalar over records of these kinds.
pub(crate) fn scalar_kind<A: Allocator>(kinds: &[Kind], scalar: &Scalar<A>) -> Result<Kind, Refusal>
    ensures { Finds (λ k. k) result (spec.scalar_kind kinds.now (plain_scalar (scalar_tree scalar.now))) }
{
    match scalar {
        Scalar::Literal(_, _) => Ok(Kind::Number(Quantity::Bare)),
        Scalar::Column(span, index) => column_kind(kinds, *index, COMPUTED, *span),
        Scalar::Binary(span, operator, left, right) => {
            let left = scalar_kind(kinds, left)?;
            let right = scalar_kind(kinds, right)?;
            computed(*operator, left, right, *span)
        }
        Scalar::Negate(span, inner) => {
            let inner = scalar_kind(kinds, inner)?;
            negated(inner, *span)
        }
    }
}
