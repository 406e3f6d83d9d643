//! Relations rewritten: the parts first, then the rules at each node, which find the parts done.

ghost use Rattle.std.specs.Prelude.{◌≡◌, ◌↔◌, IfOk, IsFalse, IsTrue};
ghost use Rattle.std.specs.List.{AllByRecursion};
ghost use Rattle.semantics.specs.Query as query;
ghost use Rattle.semantics.specs.Normal.{IsSet, NormalCond, NormalScalar};
ghost use Rattle.expr_tree.specs.Plain.{plain_cond, plain_form, plain_rel};
ghost use Rattle.expr_tree.specs.PlainLists.{plain_scalars};
ghost use Rattle.expr_tree.specs.Views.{cond_tree, rel_tree};
ghost use Rattle.normalise.specs.Rewritten.{IsRewritten, Reduced};

use crate::columns::use_once;
use crate::replacement::replace_all;
use crate::scalars::{fold_all, folded_cond};
use expr_tree::{Cond, Connective, LoopForm, Rel, RelParts, Scalar, SetOperator};
use record_core::{Name, NoMemory, Span};
use std::alloc::Allocator;

/// A `select` of a rewritten relation. Of a `select` it becomes one, where no scalar is copied, and is tried again on what that was of.
fn select_of<A: Allocator>(
    span: Span,
    mut of: Box<Rel<A>, A>,
    mut scalars: Vec<Scalar<A>, A>,
) -> Rel<A>
    ensures { Reduced (plain_rel (rel_tree of.value)) → AllByRecursion NormalScalar (plain_scalars scalars.items) →
        IsRewritten (plain_rel (rel_tree result)) (query.Rel.select (plain_rel (rel_tree of.value)) (plain_scalars scalars.items)) }
{
    match of.take().into_parts() {
        RelParts::Select(inner_span, inner, mut named) => {
            if use_once(&scalars) {
                replace_all(&mut scalars, &mut named);
                select_of(span, inner, scalars)
            } else {
                *of = Rel::Select(inner_span, inner, named);
                Rel::Select(span, of, scalars)
            }
        }
        other => {
            *of = other.whole();
            Rel::Select(span, of, scalars)
        }
    }
}

/// A `where` of a rewritten relation. Of a `where` it becomes one, with the inner condition first.
fn where_of<A: Allocator + Copy>(
    alloc: A,
    span: Span,
    mut of: Box<Rel<A>, A>,
    condition: Cond<A>,
) -> Result<Rel<A>, NoMemory>
    requires reduced { Reduced (plain_rel (rel_tree of.value)) }
    requires normal { NormalCond (plain_cond (cond_tree condition)) }
    ensures { IfOk result (λ made. IsRewritten (plain_rel (rel_tree made))
        (query.Rel.filter (plain_rel (rel_tree of.value)) (plain_cond (cond_tree condition)))) }
{
    match of.take().into_parts() {
        RelParts::Where(_, inner, first) => {
            let both = Cond::logical(alloc, span, Connective::And, first, condition)?;
            Ok(Rel::Where(span, inner, both))
        }
        other => {
            *of = other.whole();
            Ok(Rel::Where(span, of, condition))
        }
    }
}

/// Whether a relation is a set by its form: a `distinct`, an `except` or an `intersect`.
fn is_set<A: Allocator>(relation: &Rel<A>) -> bool
    ensures yes { IsTrue result → IsSet (plain_rel (rel_tree relation.now)) }
    ensures no { IsFalse result → IsSet (plain_rel (rel_tree relation.now)) → ⊥ }
{
    match relation {
        Rel::Distinct(_, _) => true,
        Rel::SetOperation(_, operator, _, _) => match operator {
            SetOperator::Concat => false,
            SetOperator::Except | SetOperator::Intersect => true,
        },
        _ => false,
    }
}

/// A `distinct` of a rewritten relation; of a set by its form it is that.
fn distinct_of<A: Allocator>(span: Span, of: Box<Rel<A>, A>) -> Rel<A>
    requires { Reduced (plain_rel (rel_tree of.value)) }
    ensures { IsRewritten (plain_rel (rel_tree result)) (query.Rel.distinct (plain_rel (rel_tree of.value))) }
{
    if is_set(&*of) {
        Box::into_inner(of)
    } else {
        Rel::Distinct(span, of)
    }
}

/// The relation rewritten until no rule applies.
#[cycle(rewrite)]
pub(crate) fn rewritten<A: Allocator + Copy>(alloc: A, relation: Rel<A>) -> Result<Rel<A>, NoMemory>
    ensures { IfOk result (λ made. IsRewritten (plain_rel (rel_tree made)) (plain_rel (rel_tree relation))) }
{
    match relation.into_parts() {
        RelParts::Named(span, name) => Ok(Rel::Named(span, name)),
        RelParts::Select(span, of, mut scalars) => {
            let of = rewritten_in_box(alloc, of)?;
            fold_all(&mut scalars);
            Ok(select_of(span, of, scalars))
        }
        RelParts::Where(span, of, condition) => {
            let of = rewritten_in_box(alloc, of)?;
            let condition = folded_cond(condition);
            where_of(alloc, span, of, condition)
        }
        RelParts::SetOperation(span, operator, left, right) => {
            let left = rewritten_in_box(alloc, left)?;
            let right = rewritten_in_box(alloc, right)?;
            Ok(Rel::SetOperation(span, operator, left, right))
        }
        RelParts::Join(span, left, right, pairs) => {
            let left = rewritten_in_box(alloc, left)?;
            let right = rewritten_in_box(alloc, right)?;
            Ok(Rel::Join(span, left, right, pairs))
        }
        RelParts::Group(span, of, keys, aggregates) => {
            let of = rewritten_in_box(alloc, of)?;
            Ok(Rel::Group(span, of, keys, aggregates))
        }
        RelParts::Distinct(span, of) => Ok(distinct_of(span, rewritten_in_box(alloc, of)?)),
        RelParts::Loop {
            span,
            form,
            turns_span,
            turns,
            name_span,
            name,
            start,
            body,
        } => {
            let head = LoopHead {
                span,
                form,
                turns_span,
                turns,
                name_span,
                name,
            };
            rewritten_loop(alloc, head, start, body)
        }
    }
}

/// Whether a loop is its start: a closure without turns isn't, since it has no record twice.
fn is_start(form: LoopForm, turns: u64) -> bool
    ensures { IsTrue result ↔ ((plain_form form ≡ query.Loop.iterate) × (turns ≡ 0)) }
{
    match form {
        LoopForm::Iterate => turns == 0,
        LoopForm::Closure => false,
    }
}

/// What stands at the head of a loop, and where.
#[derive(Drop)]
struct LoopHead {
    span: Span,
    form: LoopForm,
    turns_span: Span,
    turns: u64,
    name_span: Span,
    name: Name,
}

/// The loop rewritten: its start if it has no turns and is no closure, and else its start and its body.
#[cycle(rewrite)]
fn rewritten_loop<A: Allocator + Copy>(
    alloc: A,
    head: LoopHead,
    start: Box<Rel<A>, A>,
    body: Box<Rel<A>, A>,
) -> Result<Rel<A>, NoMemory>
    ensures { IfOk result (λ made. IsRewritten (plain_rel (rel_tree made))
        (query.Rel.loop (plain_form head.form) head.turns head.name (plain_rel (rel_tree start.value)) (plain_rel (rel_tree body.value)))) }
{
    let start = rewritten_in_box(alloc, start)?;
    if is_start(head.form, head.turns) {
        return Ok(Box::into_inner(start));
    }
    let body = rewritten_in_box(alloc, body)?;
    let LoopHead {
        span,
        form,
        turns_span,
        turns,
        name_span,
        name,
    } = head;
    Ok(Rel::Loop {
        span,
        form,
        turns_span,
        turns,
        name_span,
        name,
        start,
        body,
    })
}

/// The relation in its box.
#[cycle(rewrite)]
pub(crate) fn rewritten_in_box<A: Allocator + Copy>(
    alloc: A,
    mut place: Box<Rel<A>, A>,
) -> Result<Box<Rel<A>, A>, NoMemory>
    ensures { IfOk result (λ made. IsRewritten (plain_rel (rel_tree made.value)) (plain_rel (rel_tree place.value))) }
{
    let relation = place.take();
    *place = rewritten(alloc, relation)?;
    Ok(place)
}
