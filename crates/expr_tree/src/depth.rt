//! Depths: the greatest number of relation, condition, scalar and aggregate nodes on one way down, each a child of the one
//! before. A node alone has the depth 1.

ghost use Rattle.std.specs.Prelude.{◌≡◌, ◌-◌, ◌^◌, map, min};
ghost use Rattle.semantics.specs.Size as semantics;
ghost use Rattle.expr_tree.specs.Plain.{plain_cond, plain_rel, plain_scalar};
ghost use Rattle.expr_tree.specs.Views.{cond_tree, rel_tree, scalar_tree};

use crate::condition::Cond;
use crate::relation::Rel;
use crate::scalar::Scalar;
use std::alloc::Allocator;

/// The depth of a relation.
pub fn rel_depth<A: Allocator>(relation: &Rel<A>) -> u64
    ensures { result ≡ min (semantics.rel_depth (plain_rel (rel_tree relation.now))) (2 ^ 64 - 1) }
{
    match relation {
        Rel::Named(_, _) => 1,
        Rel::Select(_, of, scalars) => rel_depth(of).max(scalars_depth(scalars)).saturating_add(1),
        Rel::Where(_, of, condition) => rel_depth(of).max(cond_depth(condition)).saturating_add(1),
        Rel::SetOperation(_, _, left, right) => {
            rel_depth(left).max(rel_depth(right)).saturating_add(1)
        }
        Rel::Join(_, left, right, _) => rel_depth(left).max(rel_depth(right)).saturating_add(1),
        // An aggregate is no deeper than the relation beside it.
        Rel::Group(_, of, _, _) => rel_depth(of).saturating_add(1),
        Rel::Distinct(_, of) => rel_depth(of).saturating_add(1),
        Rel::Loop { start, body, .. } => rel_depth(start).max(rel_depth(body)).saturating_add(1),
    }
}

/// The depth of a condition.
pub fn cond_depth<A: Allocator>(condition: &Cond<A>) -> u64
    ensures { result ≡ min (semantics.cond_depth (plain_cond (cond_tree condition.now))) (2 ^ 64 - 1) }
{
    match condition {
        Cond::Compare(_, _, left, right) => scalar_depth(left)
            .max(scalar_depth(right))
            .saturating_add(1),
        Cond::Logical(_, _, left, right) => cond_depth(left)
            .max(cond_depth(right))
            .saturating_add(1),
        Cond::Not(_, inner) => cond_depth(inner).saturating_add(1),
    }
}

/// The depth of a scalar.
pub fn scalar_depth<A: Allocator>(scalar: &Scalar<A>) -> u64
    ensures { result ≡ min (semantics.scalar_depth (plain_scalar (scalar_tree scalar.now))) (2 ^ 64 - 1) }
{
    match scalar {
        Scalar::Literal(_, _) => 1,
        Scalar::Column(_, _) => 1,
        Scalar::Binary(_, _, left, right) => scalar_depth(left)
            .max(scalar_depth(right))
            .saturating_add(1),
        Scalar::Negate(_, inner) => scalar_depth(inner).saturating_add(1),
    }
}

/// The greatest of the scalars' depths, 0 where there is none.
fn scalars_depth<A: Allocator>(scalars: &Vec<Scalar<A>, A>) -> u64
    ensures { result ≡ min (semantics.scalars_depth (map plain_scalar (map scalar_tree scalars.now.items))) (2 ^ 64 - 1) }
{
    let mut deepest = 0u64;
    for scalar in scalars {
        deepest = deepest.max(scalar_depth(scalar));
    }
    deepest
}
