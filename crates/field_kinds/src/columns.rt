//! Kinds of the columns of joins and groups, and of lists of fields.

ghost use Rattle.std.specs.Prelude.{◌≡◌, ◌++◌, Some, map, slice_get};
ghost use Rattle.expr_tree.specs.Views.{scalar_tree};
ghost use Rattle.expr_tree.specs.Plain.{plain_agg, plain_pair, plain_scalar};
ghost use Rattle.kinds.specs.Kinds as spec;
ghost use Rattle.kinds.specs.Relations as relations;
ghost use Rattle.field_kinds.specs.Found.{Adds, Finds, Tests};

use crate::codes::{COMPUTED, JOINED, PUT_TOGETHER, refusal_at};
use crate::quantity::{merged_kind, opposite, same_kind};
use crate::scalar::{column_kind, scalar_kind};
use expr_tree::{Agg, Column, Pair, Scalar};
use kinds::{Kind, Quantity};
use record_core::{Refusal, Span};
use std::alloc::{Allocator, Global};

/// The kinds of the fields of a `select`.
pub fn select_kinds<A: Allocator>(
    alloc: Global,
    kinds: &[Kind],
    scalars: &[Scalar<A>],
) -> Result<Vec<Kind>, Refusal>
    ensures { Finds (λ v. v.items) result (relations.all_of (map (spec.scalar_kind kinds.now) (map plain_scalar (map scalar_tree scalars.now)))) }
{
    let mut fields = Vec::new(alloc);
    for scalar in scalars {
        fields.push(scalar_kind(kinds, scalar)?)?;
    }
    Ok(fields)
}

/// Adds the kinds of a group's keys.
fn push_keys(fields: &mut Vec<Kind>, kinds: &[Kind], keys: &[Column]) -> Result<(), Refusal>
    ensures { Adds result fields.old.items fields.new.items (relations.all_of (map (slice_get kinds.now) (map (λ k. k.index) keys.now))) }
{
    for key in keys {
        fields.push(column_kind(kinds, key.index, COMPUTED, key.span)?)?;
    }
    Ok(())
}

/// The kind of a sum.
fn summed(kind: Kind, span: Span) -> Result<Kind, Refusal>
    ensures { Finds (λ k. k) result (spec.summed (Some kind)) }
{
    if let Kind::Number(a) = kind {
        if let Some(quantity) = opposite(a) {
            return Ok(Kind::Number(quantity));
        }
    }
    Err(refusal_at(COMPUTED, span))
}

/// The kind of a least or greatest.
fn ordered(kind: Kind, span: Span) -> Result<Kind, Refusal>
    ensures { Finds (λ k. k) result (spec.ordered (Some kind)) }
{
    match kind {
        Kind::Number(_) => Ok(kind),
        Kind::Text => Err(refusal_at(COMPUTED, span)),
    }
}

/// The kind of an aggregate.
fn agg_kind(kinds: &[Kind], aggregate: &Agg) -> Result<Kind, Refusal>
    ensures { Finds (λ k. k) result (spec.agg_kind kinds.now (plain_agg aggregate.now)) }
{
    match aggregate {
        Agg::Count(_) => Ok(Kind::Number(Quantity::Whole)),
        Agg::Sum(span, column) => {
            let kind = column_kind(kinds, column.index, COMPUTED, column.span)?;
            summed(kind, *span)
        }
        Agg::Min(span, column) | Agg::Max(span, column) => {
            let kind = column_kind(kinds, column.index, COMPUTED, column.span)?;
            ordered(kind, *span)
        }
    }
}

/// Adds the kinds of aggregates.
fn push_aggs(fields: &mut Vec<Kind>, kinds: &[Kind], aggregates: &[Agg]) -> Result<(), Refusal>
    ensures { Adds result fields.old.items fields.new.items (relations.all_of (map (spec.agg_kind kinds.now) (map plain_agg aggregates.now))) }
{
    for aggregate in aggregates {
        fields.push(agg_kind(kinds, aggregate)?)?;
    }
    Ok(())
}

/// The kinds of the fields of a `group` over records of these kinds.
pub fn group_kinds(
    alloc: Global,
    kinds: &[Kind],
    keys: &[Column],
    aggregates: &[Agg],
) -> Result<Vec<Kind>, Refusal>
    ensures { Finds (λ v. v.items) result (relations.all_of (map (slice_get kinds.now) (map (λ k. k.index) keys.now) ++ map (spec.agg_kind kinds.now) (map plain_agg aggregates.now))) }
{
    let mut fields = Vec::new(alloc);
    push_keys(&mut fields, kinds, keys)?;
    push_aggs(&mut fields, kinds, aggregates)?;
    Ok(fields)
}

/// Refused where the columns of a pair have nothing in common.
fn may_meet(left: &[Kind], right: &[Kind], pair: &Pair) -> Result<(), Refusal>
    ensures { Tests result (relations.may_meet (slice_get left.now pair.now.left.index) (slice_get right.now pair.now.right.index)) }
{
    let first = column_kind(left, pair.left.index, JOINED, pair.left.span)?;
    let second = column_kind(right, pair.right.index, JOINED, pair.right.span)?;
    if merged_kind(first, second).is_some() {
        Ok(())
    } else {
        Err(refusal_at(JOINED, pair.left.span))
    }
}

/// Refused at the first pair of a join whose columns have nothing in common.
pub fn may_join(left: &[Kind], right: &[Kind], pairs: &[Pair]) -> Result<(), Refusal>
    ensures { Tests result (relations.may_join left.now right.now (map plain_pair pairs.now)) }
{
    for pair in pairs {
        may_meet(left, right, pair)?;
    }
    Ok(())
}

/// Adds what the fields have in common, one by one.
fn push_merged(
    fields: &mut Vec<Kind>,
    left: &[Kind],
    right: &[Kind],
    span: Span,
) -> Result<(), Refusal>
    ensures { Adds result fields.old.items fields.new.items (relations.merged left.now right.now) }
{
    match left {
        [] => match right {
            [] => Ok(()),
            [_, ..] => Err(refusal_at(PUT_TOGETHER, span)),
        },
        [first, left @ ..] => match right {
            [] => Err(refusal_at(PUT_TOGETHER, span)),
            [second, right @ ..] => {
                let Some(kind) = merged_kind(*first, *second) else {
                    return Err(refusal_at(PUT_TOGETHER, span));
                };
                fields.push(kind)?;
                push_merged(fields, left, right, span)
            }
        },
    }
}

/// What the fields of two relations have in common.
pub fn merged(
    alloc: Global,
    left: &[Kind],
    right: &[Kind],
    span: Span,
) -> Result<Vec<Kind>, Refusal>
    ensures { Finds (λ v. v.items) result (relations.merged left.now right.now) }
{
    let mut fields = Vec::new(alloc);
    push_merged(&mut fields, left, right, span)?;
    Ok(fields)
}

/// Whether the fields have the same kinds.
pub fn same_kinds(left: &[Kind], right: &[Kind]) -> bool
    ensures { result ≡ relations.same_kinds left.now right.now }
{
    match left {
        [] => right.is_empty(),
        [first, left @ ..] => match right {
            [] => false,
            [second, right @ ..] => same_kind(*first, *second) && same_kinds(left, right),
        },
    }
}

/// The same kinds in a list of its own.
pub fn copied(alloc: Global, kinds: &[Kind]) -> Result<Vec<Kind>, Refusal>
    ensures { Finds (λ v. v.items) result (Some kinds.now) }
{
    let mut fields = Vec::with_capacity(alloc, kinds.len())?;
    for kind in kinds {
        fields.push(*kind)?;
    }
    Ok(fields)
}

/// The kinds of both, one after the other.
pub fn joined(mut left: Vec<Kind>, right: &[Kind]) -> Result<Vec<Kind>, Refusal>
    ensures { Finds (λ v. v.items) result (Some (left.items ++ right.now)) }
{
    for kind in right {
        left.push(*kind)?;
    }
    Ok(left)
}
