//! The first column that a relation hasn't, from left to right.
#![tactic(auto, using(crate::proofs::ColumnsBeyond::columns))]

ghost use Rattle.std.specs.Prelude.{◌≡◌, map, flat_map, cond, nat_lt, Some, None};
ghost use Rattle.expr_tree.specs.Views.{scalar_tree, cond_tree};
ghost use Rattle.typing.specs.Columns.{scalar_columns, cond_columns, pair_columns, key_columns, agg_columns, first_beyond};

use expr_tree::{Agg, Column, Cond, Pair, Scalar};
use record_core::Span;
use std::alloc::Allocator;

/// A column's place, where records of this arity haven't it.
fn beyond(span: Span, index: u64, arity: u64) -> Option<Span>
    ensures { result ≡ cond (nat_lt index arity) None (Some span) }
{
    if index < arity { None } else { Some(span) }
}

/// In a scalar over records of this arity.
fn in_scalar<A: Allocator>(scalar: &Scalar<A>, arity: u64) -> Option<Span>
    ensures { result ≡ first_beyond (scalar_columns arity (scalar_tree scalar.now)) }
{
    match scalar {
        Scalar::Literal(_, _) => None,
        Scalar::Column(span, index) => beyond(*span, *index, arity),
        Scalar::Binary(_, _, left, right) => match in_scalar(left, arity) {
            Some(span) => Some(span),
            None => in_scalar(right, arity),
        },
        Scalar::Negate(_, scalar) => in_scalar(scalar, arity),
    }
}

/// In scalars over records of this arity.
pub(crate) fn in_scalars<A: Allocator>(scalars: &[Scalar<A>], arity: u64) -> Option<Span>
    ensures { result ≡ first_beyond (flat_map (scalar_columns arity) (map scalar_tree scalars.now)) }
{
    for scalar in scalars {
        if let Some(span) = in_scalar(scalar, arity) {
            return Some(span);
        }
    }
    None
}

/// In a condition on records of this arity.
pub(crate) fn in_cond<A: Allocator>(condition: &Cond<A>, arity: u64) -> Option<Span>
    ensures { result ≡ first_beyond (cond_columns arity (cond_tree condition.now)) }
{
    match condition {
        Cond::Compare(_, _, left, right) => match in_scalar(left, arity) {
            Some(span) => Some(span),
            None => in_scalar(right, arity),
        },
        Cond::Logical(_, _, left, right) => match in_cond(left, arity) {
            Some(span) => Some(span),
            None => in_cond(right, arity),
        },
        Cond::Not(_, condition) => in_cond(condition, arity),
    }
}

/// In a pair of columns of a left and a right relation.
fn in_pair(pair: &Pair, left: u64, right: u64) -> Option<Span>
    ensures { result ≡ first_beyond (pair_columns left right pair.now) }
{
    match beyond(pair.left.span, pair.left.index, left) {
        Some(span) => Some(span),
        None => beyond(pair.right.span, pair.right.index, right),
    }
}

/// In pairs of columns of a left and a right relation.
pub(crate) fn in_pairs(pairs: &[Pair], left: u64, right: u64) -> Option<Span>
    ensures { result ≡ first_beyond (flat_map (pair_columns left right) pairs.now) }
{
    for pair in pairs {
        if let Some(span) = in_pair(pair, left, right) {
            return Some(span);
        }
    }
    None
}

/// In a group's keys.
pub(crate) fn in_keys(keys: &[Column], arity: u64) -> Option<Span>
    ensures { result ≡ first_beyond (flat_map (key_columns arity) keys.now) }
{
    for key in keys {
        if let Some(span) = beyond(key.span, key.index, arity) {
            return Some(span);
        }
    }
    None
}

/// In an aggregate.
fn in_agg(agg: &Agg, arity: u64) -> Option<Span>
    ensures { result ≡ first_beyond (agg_columns arity agg.now) }
{
    match agg {
        Agg::Count(_) => None,
        Agg::Sum(_, column) | Agg::Min(_, column) | Agg::Max(_, column) => beyond(
            column.span,
            column.index,
            arity,
        ),
    }
}

/// In aggregates.
pub(crate) fn in_aggs(aggs: &[Agg], arity: u64) -> Option<Span>
    ensures { result ≡ first_beyond (flat_map (agg_columns arity) aggs.now) }
{
    for agg in aggs {
        if let Some(span) = in_agg(agg, arity) {
            return Some(span);
        }
    }
    None
}
