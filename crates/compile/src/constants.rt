//! Conditions that come out alike for each record, and columns that are one number in each.

ghost use Rattle.std.specs.Prelude.{◌≡◌, IfSome, true};
ghost use Rattle.semantics.specs.Query as query;
ghost use Rattle.semantics.specs.Typing.{ScalarFits};
ghost use Rattle.expr_tree.specs.Plain.{plain_comparison, plain_cond, plain_scalar};
ghost use Rattle.expr_tree.specs.Views.{cond_tree, scalar_tree};
ghost use Rattle.compile.specs.SameForAll.{IsAlways};

use expr_tree::{Comparison, Cond, Connective, Rel, Scalar, eval_scalar, holds, same_scalar};
use std::alloc::Allocator;

/// Whether a scalar has no column.
fn is_plain<A: Allocator>(scalar: &Scalar<A>) -> bool
    ensures { result ≡ true → ScalarFits 0 (plain_scalar (scalar_tree scalar.now)) }
{
    match scalar {
        Scalar::Literal(_, _) => true,
        Scalar::Column(_, _) => false,
        Scalar::Binary(_, _, left, right) => is_plain(left) && is_plain(right),
        Scalar::Negate(_, inner) => is_plain(inner),
    }
}

/// How a comparison comes out for each record, where that is known: of scalars without columns, and of a scalar with itself.
fn compared<A: Allocator>(
    condition: &Cond<A>,
    comparison: Comparison,
    left: &Scalar<A>,
    right: &Scalar<A>,
) -> Option<bool>
    requires { plain_cond (cond_tree condition.now) ≡ query.Cond.compare (plain_comparison comparison) (plain_scalar (scalar_tree left.now)) (plain_scalar (scalar_tree right.now)) }
    ensures { IfSome result (IsAlways (plain_cond (cond_tree condition.now))) }
{
    if is_plain(left) && is_plain(right) {
        return Some(holds(condition, &[]));
    }
    if same_scalar(left, right) {
        return Some(matches!(
            comparison,
            Comparison::Equal | Comparison::AtMost | Comparison::AtLeast
        ));
    }
    None
}

/// How a condition comes out for each record, where that is known.
pub(crate) fn truth_of<A: Allocator>(condition: &Cond<A>) -> Option<bool>
    ensures { IfSome result (IsAlways (plain_cond (cond_tree condition.now))) }
{
    match condition {
        Cond::Compare(_, comparison, left, right) => compared(condition, *comparison, left, right),
        Cond::Logical(_, Connective::And, left, right) => match (truth_of(left), truth_of(right)) {
            (Some(false), _) | (_, Some(false)) => Some(false),
            (Some(true), Some(true)) => Some(true),
            _ => None,
        },
        Cond::Logical(_, Connective::Or, left, right) => match (truth_of(left), truth_of(right)) {
            (Some(true), _) | (_, Some(true)) => Some(true),
            (Some(false), Some(false)) => Some(false),
            _ => None,
        },
        Cond::Not(_, inner) => match truth_of(inner) {
            Some(truth) => Some(!truth),
            None => None,
        },
    }
}

/// The number that a column of a relation is in each record, where one is known.
pub(crate) fn number_in<A: Allocator>(relation: &Rel<A>, column: u64) -> Option<i64> {
    match relation {
        Rel::Select(_, of, scalars) => match scalars.get(column as usize)? {
            Scalar::Column(_, inner) => number_in(of, *inner),
            scalar => {
                if is_plain(scalar) {
                    Some(eval_scalar(scalar, &[]))
                } else {
                    None
                }
            }
        },
        Rel::Where(_, of, _) | Rel::Distinct(_, of) => number_in(of, column),
        _ => None,
    }
}
