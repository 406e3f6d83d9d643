//! What scalars and conditions come to on a record.

ghost use Rattle.std.specs.Prelude.{◌≡◌, ℤ, List, length};
ghost use Rattle.semantics.specs.Meaning as meaning;
ghost use Rattle.semantics.specs.Query as query;
ghost use Rattle.semantics.specs.Typing.{CondFits, ScalarFits};
ghost use Rattle.expr_tree.specs.Plain.{plain_comparison, plain_cond, plain_operator, plain_scalar};
ghost use Rattle.expr_tree.specs.Views.{cond_tree, scalar_tree};

use crate::condition::{Comparison, Cond, Connective};
use crate::scalar::{Operator, Scalar};
use std::alloc::Allocator;

/// The operator applied to two numbers, wrapped at 64 bits: the value of the operator between their literals.
pub fn operate(operator: Operator, left: i64, right: i64) -> i64
    ensures { (r : List ℤ) → result ≡ meaning.value (plain_operator operator (query.Scalar.literal left) (query.Scalar.literal right)) r }
{
    match operator {
        Operator::Add => left.wrapping_add(right),
        Operator::Subtract => left.wrapping_sub(right),
        Operator::Multiply => left.wrapping_mul(right),
    }
}

/// The number negated, wrapped at 64 bits: the value of the negation of its literal.
pub fn negated(number: i64) -> i64
    ensures { (r : List ℤ) → result ≡ meaning.value (query.Scalar.negation (query.Scalar.literal number)) r }
{
    number.wrapping_neg()
}

/// The scalar's value on the record. Each column must be below the record's length. No memory is taken.
pub fn eval_scalar<A: Allocator>(scalar: &Scalar<A>, record: &[i64]) -> i64
    requires { ScalarFits (length «record».now) (plain_scalar (scalar_tree scalar.now)) }
    ensures { result ≡ meaning.value (plain_scalar (scalar_tree scalar.now)) «record».now }
{
    match scalar {
        Scalar::Literal(_, number) => *number,
        Scalar::Column(_, column) => record[*column as usize],
        Scalar::Binary(_, operator, left, right) => {
            let x = eval_scalar(left, record);
            let y = eval_scalar(right, record);
            operate(*operator, x, y)
        }
        Scalar::Negate(_, inner) => negated(eval_scalar(inner, record)),
    }
}

/// How the comparison of two numbers comes out.
fn compare(comparison: Comparison, left: i64, right: i64) -> bool
    ensures { result ≡ meaning.compares (plain_comparison comparison) left right }
{
    match comparison {
        Comparison::Equal => left == right,
        Comparison::NotEqual => left != right,
        Comparison::Less => left < right,
        Comparison::AtMost => left <= right,
        Comparison::Greater => left > right,
        Comparison::AtLeast => left >= right,
    }
}

/// Whether the condition is true of the record. Each column must be below the record's length. No memory is taken.
pub fn holds<A: Allocator>(condition: &Cond<A>, record: &[i64]) -> bool
    requires { CondFits (length «record».now) (plain_cond (cond_tree condition.now)) }
    ensures { result ≡ meaning.holds (plain_cond (cond_tree condition.now)) «record».now }
{
    match condition {
        Cond::Compare(_, comparison, left, right) => {
            let x = eval_scalar(left, record);
            let y = eval_scalar(right, record);
            compare(*comparison, x, y)
        }
        Cond::Logical(_, Connective::And, left, right) => {
            holds(left, record) && holds(right, record)
        }
        Cond::Logical(_, Connective::Or, left, right) => {
            holds(left, record) || holds(right, record)
        }
        Cond::Not(_, inner) => !holds(inner, record),
    }
}
