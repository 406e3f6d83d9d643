//! Origins of lists of fields.

ghost use Rattle.std.specs.Prelude.{◌≡◌, ◌++◌, IfOk, OnOk, map};
ghost use Rattle.expr_tree.specs.Plain.{plain_agg, plain_scalar};
ghost use Rattle.expr_tree.specs.Views.{scalar_tree};
ghost use Rattle.field_origins.specs.Shown.{origin, origins};
ghost use Rattle.field_origins.specs.Sources as spec;

use crate::source::{Origin, Source};
use crate::sources::{copied, either, taken_from};
use expr_tree::{Agg, Column, Scalar};
use std::alloc::{AllocError, Allocator, Global};

/// The origin of a field by its number.
pub(crate) fn origin_at(alloc: Global, fields: &[Origin], column: u64) -> Result<Origin, AllocError>
    ensures { IfOk result (λ o. origin o ≡ spec.origin_at (origins fields.now) column) }
{
    match fields.get(column as usize) {
        Some(from) => copied(alloc, from),
        None => Ok(Origin::Computed),
    }
}

/// The origin of a scalar over records of these fields.
fn scalar_origin<A: Allocator>(
    alloc: Global,
    fields: &[Origin],
    scalar: &Scalar<A>,
) -> Result<Origin, AllocError>
    ensures { IfOk result (λ o. origin o ≡ spec.scalar_origin (origins fields.now) (plain_scalar (scalar_tree scalar.now))) }
{
    match scalar {
        Scalar::Column(_, column) => origin_at(alloc, fields, *column),
        Scalar::Literal(_, _) | Scalar::Binary(_, _, _, _) | Scalar::Negate(_, _) => {
            Ok(Origin::Computed)
        }
    }
}

/// The origins of the fields of a `select`.
pub fn select_origins<A: Allocator>(
    alloc: Global,
    fields: &[Origin],
    scalars: &[Scalar<A>],
) -> Result<Vec<Origin>, AllocError>
    ensures { IfOk result (λ v. origins v.items ≡ map (spec.scalar_origin (origins fields.now)) (map plain_scalar (map scalar_tree scalars.now))) }
{
    let mut selected = Vec::new(alloc);
    for scalar in scalars {
        selected.push(scalar_origin(alloc, fields, scalar)?)?;
    }
    Ok(selected)
}

/// The origin of an aggregate.
fn agg_origin(alloc: Global, fields: &[Origin], aggregate: &Agg) -> Result<Origin, AllocError>
    ensures { IfOk result (λ o. origin o ≡ spec.agg_origin (origins fields.now) (plain_agg aggregate.now)) }
{
    match aggregate {
        Agg::Count(_) | Agg::Sum(_, _) => Ok(Origin::Computed),
        Agg::Min(_, column) | Agg::Max(_, column) => origin_at(alloc, fields, column.index),
    }
}

/// Adds the origins of a group's keys.
fn push_keys(
    alloc: Global,
    grouped: &mut Vec<Origin>,
    fields: &[Origin],
    keys: &[Column],
) -> Result<(), AllocError>
    ensures { OnOk result (origins grouped.new.items ≡ origins grouped.old.items ++ map (spec.origin_at (origins fields.now)) (map (λ k. k.index) keys.now)) }
{
    for key in keys {
        grouped.push(origin_at(alloc, fields, key.index)?)?;
    }
    Ok(())
}

/// Adds the origins of aggregates.
fn push_aggregates(
    alloc: Global,
    grouped: &mut Vec<Origin>,
    fields: &[Origin],
    aggregates: &[Agg],
) -> Result<(), AllocError>
    ensures { OnOk result (origins grouped.new.items ≡ origins grouped.old.items ++ map (spec.agg_origin (origins fields.now)) (map plain_agg aggregates.now)) }
{
    for aggregate in aggregates {
        grouped.push(agg_origin(alloc, fields, aggregate)?)?;
    }
    Ok(())
}

/// The origins of the fields of a `group`: the keys', then the aggregates'.
pub fn group_origins(
    alloc: Global,
    fields: &[Origin],
    keys: &[Column],
    aggregates: &[Agg],
) -> Result<Vec<Origin>, AllocError>
    ensures { IfOk result (λ v. origins v.items ≡ map (spec.origin_at (origins fields.now)) (map (λ k. k.index) keys.now) ++ map (spec.agg_origin (origins fields.now)) (map plain_agg aggregates.now)) }
{
    let mut grouped = Vec::new(alloc);
    push_keys(alloc, &mut grouped, fields, keys)?;
    push_aggregates(alloc, &mut grouped, fields, aggregates)?;
    Ok(grouped)
}

/// Adds the origins of fields.
fn push_origins(
    alloc: Global,
    fields: &mut Vec<Origin>,
    others: &[Origin],
) -> Result<(), AllocError>
    ensures { OnOk result (origins fields.new.items ≡ origins fields.old.items ++ origins others.now) }
{
    for other in others {
        fields.push(copied(alloc, other)?)?;
    }
    Ok(())
}

/// The same origins in a list of its own.
pub fn copied_fields(alloc: Global, fields: &[Origin]) -> Result<Vec<Origin>, AllocError>
    ensures { IfOk result (λ v. origins v.items ≡ origins fields.now) }
{
    let mut copy = Vec::new(alloc);
    push_origins(alloc, &mut copy, fields)?;
    Ok(copy)
}

/// The origins of both, one after the other.
pub fn joined(
    alloc: Global,
    mut left: Vec<Origin>,
    right: &[Origin],
) -> Result<Vec<Origin>, AllocError>
    ensures { IfOk result (λ v. origins v.items ≡ origins left.items ++ origins right.now) }
{
    push_origins(alloc, &mut left, right)?;
    Ok(left)
}

/// Adds the origins of fields of which each comes from one of two, field by field.
fn push_merged(
    alloc: Global,
    fields: &mut Vec<Origin>,
    left: &[Origin],
    right: &[Origin],
) -> Result<(), AllocError>
    ensures { OnOk result (origins fields.new.items ≡ origins fields.old.items ++ spec.merged (origins left.now) (origins right.now)) }
{
    if let (Some((first, left)), Some((second, right))) = (
        left.split_first(),
        right.split_first(),
    ) {
        fields.push(either(alloc, first, second)?)?;
        push_merged(alloc, fields, left, right)?;
    }
    Ok(())
}

/// The origins of fields of which each comes from one of two, field by field.
pub fn merged(alloc: Global, left: &[Origin], right: &[Origin]) -> Result<Vec<Origin>, AllocError>
    ensures { IfOk result (λ v. origins v.items ≡ spec.merged (origins left.now) (origins right.now)) }
{
    let mut fields = Vec::new(alloc);
    push_merged(alloc, &mut fields, left, right)?;
    Ok(fields)
}

/// Each column of an input, from itself.
pub fn columns(alloc: Global, input: u64, arity: u64) -> Result<Vec<Origin>, AllocError>
    ensures { IfOk result (λ v. origins v.items ≡ spec.columns_from input 0 arity) }
{
    let mut fields = Vec::new(alloc);
    for column in 0..arity {
        fields.push(taken_from(alloc, Source { input, column })?)?;
    }
    Ok(fields)
}
