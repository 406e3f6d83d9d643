//! Sizes: the number of relation, condition, scalar and aggregate nodes, and one for each let.
//!
//! An output, a group's keys, a join's pairs and an aggregate's column are no nodes.

ghost use Rattle.std.specs.Prelude.{◌≡◌, ◌-◌, ◌^◌, map, min};
ghost use Rattle.semantics.specs.Size as semantics;
ghost use Rattle.expr_tree.specs.Plain.{plain_cond, plain_rel, plain_scalar};
ghost use Rattle.expr_tree.specs.Views.{cond_tree, rel_tree, scalar_tree};

use crate::condition::Cond;
use crate::relation::Rel;
use crate::scalar::Scalar;
use std::alloc::Allocator;

/// The size of a relation, counted as a program's is.
pub fn rel_size<A: Allocator>(relation: &Rel<A>) -> u64
    ensures { result ≡ min (semantics.rel_size (plain_rel (rel_tree relation.now))) (2 ^ 64 - 1) }
{
    match relation {
        Rel::Named(_, _) => 1,
        Rel::Select(_, of, scalars) => rel_size(of)
            .saturating_add(scalars_size(scalars))
            .saturating_add(1),
        Rel::Where(_, of, condition) => rel_size(of)
            .saturating_add(cond_size(condition))
            .saturating_add(1),
        Rel::SetOperation(_, _, left, right) => rel_size(left)
            .saturating_add(rel_size(right))
            .saturating_add(1),
        Rel::Join(_, left, right, _) => rel_size(left)
            .saturating_add(rel_size(right))
            .saturating_add(1),
        Rel::Group(_, of, _, aggregates) => rel_size(of)
            .saturating_add(aggregates.len() as u64)
            .saturating_add(1),
        Rel::Distinct(_, of) => rel_size(of).saturating_add(1),
        Rel::Loop { start, body, .. } => rel_size(start)
            .saturating_add(rel_size(body))
            .saturating_add(1),
    }
}

/// The size of a condition, counted as a program's is.
pub fn cond_size<A: Allocator>(condition: &Cond<A>) -> u64
    ensures { result ≡ min (semantics.cond_size (plain_cond (cond_tree condition.now))) (2 ^ 64 - 1) }
{
    match condition {
        Cond::Compare(_, _, left, right) => scalar_size(left)
            .saturating_add(scalar_size(right))
            .saturating_add(1),
        Cond::Logical(_, _, left, right) => cond_size(left)
            .saturating_add(cond_size(right))
            .saturating_add(1),
        Cond::Not(_, inner) => cond_size(inner).saturating_add(1),
    }
}

/// The size of a scalar, counted as a program's is.
pub fn scalar_size<A: Allocator>(scalar: &Scalar<A>) -> u64
    ensures { result ≡ min (semantics.scalar_size (plain_scalar (scalar_tree scalar.now))) (2 ^ 64 - 1) }
{
    match scalar {
        Scalar::Literal(_, _) => 1,
        Scalar::Column(_, _) => 1,
        Scalar::Binary(_, _, left, right) => scalar_size(left)
            .saturating_add(scalar_size(right))
            .saturating_add(1),
        Scalar::Negate(_, inner) => scalar_size(inner).saturating_add(1),
    }
}

/// The sum of the scalars' sizes.
fn scalars_size<A: Allocator>(scalars: &Vec<Scalar<A>, A>) -> u64
    ensures { result ≡ min (semantics.scalars_size (map plain_scalar (map scalar_tree scalars.now.items))) (2 ^ 64 - 1) }
{
    let mut size = 0u64;
    for scalar in scalars {
        size = size.saturating_add(scalar_size(scalar));
    }
    size
}
