//! Copies of trees under another allocator: the same tree with the same spans.

ghost use Rattle.std.specs.Prelude.{◌≡◌, IfOk, map};
ghost use Rattle.expr_tree.specs.Trees.{RelTree};
ghost use Rattle.expr_tree.specs.Views.{cond_tree, let_tree, output_tree, rel_tree, scalar_tree};

use crate::condition::Cond;
use crate::program::{Input, Let, Output};
use crate::relation::{Agg, Column, Pair, Rel, SetOperator};
use crate::scalar::Scalar;
use record_core::{NoMemory, Span};
use std::alloc::Allocator;

/// The same scalar, with the same spans, under the allocator `alloc`, which alone gives the memory.
pub fn copy_scalar<A: Allocator, B: Allocator + Copy>(
    alloc: B,
    scalar: &Scalar<A>,
) -> Result<Scalar<B>, NoMemory>
    ensures { IfOk result (λ copy. scalar_tree copy ≡ scalar_tree scalar.now) }
{
    match scalar {
        Scalar::Literal(span, number) => Ok(Scalar::Literal(*span, *number)),
        Scalar::Column(span, column) => Ok(Scalar::Column(*span, *column)),
        Scalar::Binary(span, operator, left, right) => {
            let left = copy_scalar(alloc, left)?;
            let right = copy_scalar(alloc, right)?;
            Scalar::binary(alloc, *span, *operator, left, right)
        }
        Scalar::Negate(span, inner) => {
            let inner = copy_scalar(alloc, inner)?;
            Scalar::negate(alloc, *span, inner)
        }
    }
}

/// The same condition, with the same spans, under the allocator `alloc`, which alone gives the memory.
pub fn copy_cond<A: Allocator, B: Allocator + Copy>(
    alloc: B,
    condition: &Cond<A>,
) -> Result<Cond<B>, NoMemory>
    ensures { IfOk result (λ copy. cond_tree copy ≡ cond_tree condition.now) }
{
    match condition {
        Cond::Compare(span, comparison, left, right) => {
            let left = copy_scalar(alloc, left)?;
            let right = copy_scalar(alloc, right)?;
            Ok(Cond::Compare(*span, *comparison, left, right))
        }
        Cond::Logical(span, connective, left, right) => {
            let left = copy_cond(alloc, left)?;
            let right = copy_cond(alloc, right)?;
            Cond::logical(alloc, *span, *connective, left, right)
        }
        Cond::Not(span, inner) => {
            let inner = copy_cond(alloc, inner)?;
            Cond::negate(alloc, *span, inner)
        }
    }
}

/// The same relation, with the same spans, under the allocator `alloc`, which alone gives the memory.
#[cycle(copy)]
pub fn copy_rel<A: Allocator, B: Allocator + Copy>(
    alloc: B,
    relation: &Rel<A>,
) -> Result<Rel<B>, NoMemory>
    ensures { IfOk result (λ copy. rel_tree copy ≡ rel_tree relation.now) }
{
    match relation {
        Rel::Named(span, name) => Ok(Rel::Named(*span, name.copied())),
        Rel::Select(span, of, scalars) => copy_select(alloc, *span, of, scalars),
        Rel::Where(span, of, condition) => copy_where(alloc, *span, of, condition),
        Rel::SetOperation(span, operator, left, right) => {
            copy_set_operation(alloc, *span, *operator, left, right)
        }
        Rel::Join(span, left, right, pairs) => copy_join(alloc, *span, left, right, pairs),
        Rel::Group(span, of, keys, aggregates) => copy_group(alloc, *span, of, keys, aggregates),
        Rel::Distinct(span, of) => Ok(Rel::Distinct(*span, copy_boxed(alloc, of)?)),
        Rel::Loop {
            span,
            form,
            turns_span,
            turns,
            name_span,
            name,
            start,
            body,
        } => {
            let start = copy_boxed(alloc, start)?;
            let body = copy_boxed(alloc, body)?;
            Ok(Rel::Loop {
                span: *span,
                form: *form,
                turns_span: *turns_span,
                turns: *turns,
                name_span: *name_span,
                name: name.copied(),
                start,
                body,
            })
        }
    }
}

/// The same `select`.
#[cycle(copy)]
fn copy_select<A: Allocator, B: Allocator + Copy>(
    alloc: B,
    span: Span,
    of: &Rel<A>,
    scalars: &Vec<Scalar<A>, A>,
) -> Result<Rel<B>, NoMemory>
    ensures { IfOk result (λ copy. rel_tree copy ≡ RelTree.select span (rel_tree of.now) (map scalar_tree scalars.now.items)) }
{
    let of = copy_boxed(alloc, of)?;
    let scalars = copy_scalars(alloc, scalars)?;
    Ok(Rel::Select(span, of, scalars))
}

/// The same `where`.
#[cycle(copy)]
fn copy_where<A: Allocator, B: Allocator + Copy>(
    alloc: B,
    span: Span,
    of: &Rel<A>,
    condition: &Cond<A>,
) -> Result<Rel<B>, NoMemory>
    ensures { IfOk result (λ copy. rel_tree copy ≡ RelTree.filter span (rel_tree of.now) (cond_tree condition.now)) }
{
    let of = copy_boxed(alloc, of)?;
    let condition = copy_cond(alloc, condition)?;
    Ok(Rel::Where(span, of, condition))
}

/// The same set operation.
#[cycle(copy)]
fn copy_set_operation<A: Allocator, B: Allocator + Copy>(
    alloc: B,
    span: Span,
    operator: SetOperator,
    left: &Rel<A>,
    right: &Rel<A>,
) -> Result<Rel<B>, NoMemory>
    ensures { IfOk result (λ copy. rel_tree copy ≡ RelTree.set_operation span operator (rel_tree left.now) (rel_tree right.now)) }
{
    let left = copy_boxed(alloc, left)?;
    let right = copy_boxed(alloc, right)?;
    Ok(Rel::SetOperation(span, operator, left, right))
}

/// The same `join`.
#[cycle(copy)]
fn copy_join<A: Allocator, B: Allocator + Copy>(
    alloc: B,
    span: Span,
    left: &Rel<A>,
    right: &Rel<A>,
    pairs: &Vec<Pair, A>,
) -> Result<Rel<B>, NoMemory>
    ensures { IfOk result (λ copy. rel_tree copy ≡ RelTree.join span (rel_tree left.now) (rel_tree right.now) pairs.now.items) }
{
    let left = copy_boxed(alloc, left)?;
    let right = copy_boxed(alloc, right)?;
    let pairs = copy_values(alloc, pairs)?;
    Ok(Rel::Join(span, left, right, pairs))
}

/// The same `group`.
#[cycle(copy)]
fn copy_group<A: Allocator, B: Allocator + Copy>(
    alloc: B,
    span: Span,
    of: &Rel<A>,
    keys: &Vec<Column, A>,
    aggregates: &Vec<Agg, A>,
) -> Result<Rel<B>, NoMemory>
    ensures { IfOk result (λ copy. rel_tree copy ≡ RelTree.group span (rel_tree of.now) keys.now.items aggregates.now.items) }
{
    let of = copy_boxed(alloc, of)?;
    let keys = copy_values(alloc, keys)?;
    let aggregates = copy_values(alloc, aggregates)?;
    Ok(Rel::Group(span, of, keys, aggregates))
}

/// The same relation in a box, with the same spans.
#[cycle(copy)]
fn copy_boxed<A: Allocator, B: Allocator + Copy>(
    alloc: B,
    relation: &Rel<A>,
) -> Result<Box<Rel<B>, B>, NoMemory>
    ensures { IfOk result (λ copy. rel_tree copy.value ≡ rel_tree relation.now) }
{
    let copy = copy_rel(alloc, relation)?;
    Ok(Box::new(alloc, copy)?)
}

/// The same values, in order, under the allocator `alloc`.
pub fn copy_values<T: Copy, A: Allocator, B: Allocator + Copy>(
    alloc: B,
    values: &Vec<T, A>,
) -> Result<Vec<T, B>, NoMemory>
    ensures { IfOk result (λ copy. copy.items ≡ values.now.items) }
{
    let mut copy = Vec::new(alloc);
    for value in values {
        copy.push(*value)?;
    }
    Ok(copy)
}

/// The same scalars, in order, with the same spans, under the allocator `alloc`.
pub fn copy_scalars<A: Allocator, B: Allocator + Copy>(
    alloc: B,
    scalars: &Vec<Scalar<A>, A>,
) -> Result<Vec<Scalar<B>, B>, NoMemory>
    ensures { IfOk result (λ copy. map scalar_tree copy.items ≡ map scalar_tree scalars.now.items) }
{
    let mut copy = Vec::new(alloc);
    for scalar in scalars {
        copy.push(copy_scalar(alloc, scalar)?)?;
    }
    Ok(copy)
}

/// The same inputs, in order.
pub(crate) fn copy_inputs<A: Allocator, B: Allocator + Copy>(
    alloc: B,
    inputs: &Vec<Input, A>,
) -> Result<Vec<Input, B>, NoMemory>
    ensures { IfOk result (λ copy. copy.items ≡ inputs.now.items) }
{
    let mut copy = Vec::new(alloc);
    for input in inputs {
        copy.push(Input {
            name_span: input.name_span,
            name: input.name.copied(),
            arity_span: input.arity_span,
            arity: input.arity,
        })?;
    }
    Ok(copy)
}

/// The same named relations, in order.
pub(crate) fn copy_lets<A: Allocator, B: Allocator + Copy>(
    alloc: B,
    lets: &Vec<Let<A>, A>,
) -> Result<Vec<Let<B>, B>, NoMemory>
    ensures { IfOk result (λ copy. map let_tree copy.items ≡ map let_tree lets.now.items) }
{
    let mut copy = Vec::new(alloc);
    for item in lets {
        let relation = Box::new(alloc, copy_rel(alloc, &item.relation)?)?;
        copy.push(Let {
            name_span: item.name_span,
            name: item.name.copied(),
            relation,
        })?;
    }
    Ok(copy)
}

/// The same outputs, in order.
pub(crate) fn copy_outputs<A: Allocator, B: Allocator + Copy>(
    alloc: B,
    outputs: &Vec<Output<A>, A>,
) -> Result<Vec<Output<B>, B>, NoMemory>
    ensures { IfOk result (λ copy. map output_tree copy.items ≡ map output_tree outputs.now.items) }
{
    let mut copy = Vec::new(alloc);
    for output in outputs {
        let relation = Box::new(alloc, copy_rel(alloc, &output.relation)?)?;
        copy.push(Output {
            keyword_span: output.keyword_span,
            name_span: output.name_span,
            name: output.name.copied(),
            relation,
        })?;
    }
    Ok(copy)
}
