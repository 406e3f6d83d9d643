//! Trees that are far deeper than any text's.

use crate::held::{boxed, put};
use crate::texts::{refused, word};
use expr_tree::{Comparison, Cond, Connective, Operator, Rel, Scalar, SetOperator};
use record_core::{Name, NoMemory, Refusal, Span};
use std::alloc::{AllocError, Global};

/// No text has these trees, so their nodes have no places.
const HERE: Span = Span { start: 0, end: 0 };

fn one() -> Scalar<Global> {
    Scalar::Literal(HERE, 1)
}

fn is_one() -> Cond<Global> {
    Cond::Compare(HERE, Comparison::Equal, one(), one())
}

fn named() -> Result<Rel<Global>, NoMemory> {
    match Name::new(b"e") {
        Some(name) => Ok(Rel::Named(HERE, name)),
        None => Err(NoMemory),
    }
}

/// A sum of the negation of a scalar, in its place.
fn grow_scalar(alloc: Global, scalar: &mut Scalar<Global>) -> Result<(), NoMemory> {
    let negated = Scalar::negate(alloc, HERE, scalar.take())?;
    put(
        scalar,
        Scalar::binary(alloc, HERE, Operator::Add, negated, one())?,
    );
    Ok(())
}

/// `and` of `not` of a condition, in its place.
fn grow_condition(alloc: Global, condition: &mut Cond<Global>) -> Result<(), NoMemory> {
    let negated = Cond::negate(alloc, HERE, condition.take())?;
    put(
        condition,
        Cond::logical(alloc, HERE, Connective::And, negated, is_one())?,
    );
    Ok(())
}

/// `concat` of `distinct` of a relation, in its place.
fn grow_relation(alloc: Global, relation: &mut Rel<Global>) -> Result<(), NoMemory> {
    let mut right = boxed(alloc, named())?;
    let distinct = Rel::distinct(alloc, HERE, relation.take())?;
    put(
        relation,
        Rel::set_operation(alloc, HERE, SetOperator::Concat, distinct, right.take())?,
    );
    Ok(())
}

/// Negations and sums in turn, one in another, on the left.
fn scalars(alloc: Global, depth: u32) -> Result<(), NoMemory> {
    let mut scalar = Box::new(alloc, one())?;
    for _level in 0..depth / 2 {
        grow_scalar(alloc, &mut scalar)?;
    }
    Ok(())
}

/// The same of `not` and `and`.
fn conditions(alloc: Global, depth: u32) -> Result<(), NoMemory> {
    let mut condition = Box::new(alloc, is_one())?;
    for _level in 0..depth / 2 {
        grow_condition(alloc, &mut condition)?;
    }
    Ok(())
}

/// The same of `distinct` and `concat`.
fn relations(alloc: Global, depth: u32) -> Result<(), NoMemory> {
    let mut relation = boxed(alloc, named())?;
    for _level in 0..depth / 2 {
        grow_relation(alloc, &mut relation)?;
    }
    Ok(())
}

/// Makes a tree of a form and lets it go.
fn made(alloc: Global, form: &str, depth: u32) -> Result<bool, NoMemory> {
    match form {
        "scalars" => scalars(alloc, depth)?,
        "conditions" => conditions(alloc, depth)?,
        "relations" => relations(alloc, depth)?,
        _ => return Ok(false),
    }
    Ok(true)
}

/// What becomes of a tree of so many nodes one in another, as `200000 scalars`.
pub fn let_go(alloc: Global, text: &str) -> Result<String, AllocError> {
    let (depth, form) = text.split_once(' ').unwrap_or((text, ""));
    match made(alloc, form, depth.parse().unwrap_or(0)) {
        Ok(true) => word(alloc, "gone"),
        Ok(false) => word(alloc, "no such tree"),
        Err(no_memory) => refused(alloc, Refusal::from(no_memory)),
    }
}
