//! Columns that scalars determine: they can be read back from the scalars' values.

ghost use Rattle.std.specs.Prelude.{◌≡◌, ◌*ℤ◌, map, pos, IfSome, IsTrue};
ghost use Rattle.std.specs.Int.{int_wrap, w64};
ghost use Rattle.expr_tree.specs.Plain.{plain_scalar};
ghost use Rattle.expr_tree.specs.Views.{scalar_tree};
ghost use Rattle.operators.specs.Columns.{IsDetermined, IsInvertible, Determines, AllDetermined};

use expr_tree::{Operator, Scalar};
use std::alloc::Global;

/// Whether each column below `arity` is determined by one of the scalars. A sufficient test: false doesn't mean that one isn't. Takes no memory.
pub(crate) fn all_determined(scalars: &[Scalar<Global>], arity: usize) -> bool
    ensures { IsTrue result → AllDetermined arity (map plain_scalar (map scalar_tree scalars.now)) }
{
    for column in 0..arity {
        if !is_determined(scalars, column as u64) {
            return false;
        }
    }
    true
}

/// Whether one of the scalars determines this column.
fn is_determined(scalars: &[Scalar<Global>], column: u64) -> bool
    ensures { IsTrue result → IsDetermined column (map plain_scalar (map scalar_tree scalars.now)) }
{
    if let [scalar, rest @ ..] = scalars {
        return determined_column(scalar) == Some(column) || is_determined(rest, column);
    }
    false
}

/// The column that the scalar determines, if one is found. Negations, and operators with a literal on one side, are undone.
fn determined_column(scalar: &Scalar<Global>) -> Option<u64>
    ensures { IfSome result (λ c. Determines c (plain_scalar (scalar_tree scalar.now))) }
{
    match scalar {
        Scalar::Literal(_, _) => None,
        Scalar::Column(_, column) => Some(*column),
        Scalar::Binary(_, operator, left, right) => {
            if is_invertible(*operator, right) {
                return determined_column(left);
            }
            if is_invertible(*operator, left) {
                return determined_column(right);
            }
            None
        }
        Scalar::Negate(_, inner) => determined_column(inner),
    }
}

/// Whether the operator between this scalar and another can be undone, so that the whole determines what the other determines.
fn is_invertible(operator: Operator, scalar: &Scalar<Global>) -> bool
    ensures { IsTrue result → IsInvertible operator (plain_scalar (scalar_tree scalar.now)) }
{
    match (operator, scalar) {
        (Operator::Add, Scalar::Literal(_, _)) => true,
        (Operator::Subtract, Scalar::Literal(_, _)) => true,
        (Operator::Multiply, Scalar::Literal(_, number)) => inverse(*number).is_some(),
        _ => false,
    }
}

/// The number whose product with this one wraps to 1; there is one if this number is odd.
fn inverse(number: i64) -> Option<i64>
    ensures { IfSome result (λ x. int_wrap w64 (number *ℤ x) ≡ pos 1) }
{
    let mut near = number;
    // At first the lowest three bits of the product are those of 1; each turn doubles the number of such bits.
    for _ in 0..5 {
        near = near.wrapping_mul(2i64.wrapping_sub(number.wrapping_mul(near)));
    }
    if are_inverse(number, near) {
        return Some(near);
    }
    None
}

/// Whether the product of the numbers wraps to 1.
fn are_inverse(left: i64, right: i64) -> bool
    ensures { IsTrue result → int_wrap w64 (left *ℤ right) ≡ pos 1 }
{
    left.wrapping_mul(right) == 1
}
