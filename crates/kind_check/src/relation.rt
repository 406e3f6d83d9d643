//! Kinds of the fields of relations.

ghost use Rattle.std.specs.Prelude.{◌≡◌, cond, option_and_then, OnOk, Some};
ghost use Rattle.expr_tree.specs.Views.{rel_tree};
ghost use Rattle.expr_tree.specs.Plain.{plain_rel};
ghost use Rattle.kinds.specs.Relations as relations;
ghost use Rattle.kind_check.specs.Steps.{turn_kinds};
ghost use Rattle.field_kinds.specs.Found.{Finds};
ghost use Rattle.kind_check.specs.Scopes.{scope_of};

use crate::scope::Scope;
use expr_tree::Rel;
use field_kinds::{
    PUT_TOGETHER, copied, group_kinds, joined, may_ask, may_join, merged, refusal_at, same_kinds,
    select_kinds,
};
use kinds::Kind;
use record_core::{Name, Refusal, Span};
use std::alloc::{Allocator, Global};

/// The kinds of a relation's fields.
#[cycle(kinds)]
pub(crate) fn kinds_of<A: Allocator>(
    alloc: Global,
    named: &[i64],
    scope: &mut Scope,
    relation: &Rel<A>,
) -> Result<Vec<Kind>, Refusal>
    ensures kinds { Finds (λ v. v.items) result (relations.rel_kinds named.now (plain_rel (rel_tree relation.now)) (scope_of scope.old)) }
    ensures scope { OnOk result (scope_of scope.new ≡ scope_of scope.old) }
{
    match relation {
        Rel::Named(span, name) => scope.kinds(alloc, name, *span),
        Rel::Select(_, of, scalars) => {
            let kinds = kinds_of(alloc, named, scope, of)?;
            select_kinds(alloc, &kinds, scalars)
        }
        Rel::Where(_, of, condition) => {
            let kinds = kinds_of(alloc, named, scope, of)?;
            may_ask(named, &kinds, condition)?;
            Ok(kinds)
        }
        Rel::SetOperation(span, _, left, right) => {
            let first = kinds_of(alloc, named, scope, left)?;
            let second = kinds_of(alloc, named, scope, right)?;
            merged(alloc, &first, &second, *span)
        }
        Rel::Join(_, left, right, pairs) => {
            let first = kinds_of(alloc, named, scope, left)?;
            let second = kinds_of(alloc, named, scope, right)?;
            may_join(&first, &second, pairs)?;
            joined(first, &second)
        }
        Rel::Group(_, of, keys, aggregates) => {
            let kinds = kinds_of(alloc, named, scope, of)?;
            group_kinds(alloc, &kinds, keys, aggregates)
        }
        Rel::Distinct(_, of) => kinds_of(alloc, named, scope, of),
        Rel::Loop {
            span,
            name,
            start,
            body,
            ..
        } => {
            let kinds = kinds_of(alloc, named, scope, start)?;
            settled(alloc, named, scope, kinds, *span, name, body)
        }
    }
}

/// The kinds that a turn of a loop makes of these.
#[cycle(kinds)]
fn turned<A: Allocator>(
    alloc: Global,
    named: &[i64],
    scope: &mut Scope,
    kinds: &[Kind],
    name: &Name,
    body: &Rel<A>,
) -> Result<Vec<Kind>, Refusal>
    ensures kinds { Finds (λ v. v.items) result (turn_kinds named.now (plain_rel (rel_tree body.now)) name.now (scope_of scope.old) kinds.now) }
    ensures scope { OnOk result (scope_of scope.new ≡ scope_of scope.old) }
{
    let kinds = copied(alloc, kinds)?;
    scope.declare(name, kinds)?;
    let turned = kinds_of(alloc, named, scope, body)?;
    scope.forget();
    Ok(turned)
}

/// These kinds, if what a turn makes of them adds nothing.
fn kept(alloc: Global, kinds: Vec<Kind>, next: &[Kind], span: Span) -> Result<Vec<Kind>, Refusal>
    ensures { Finds (λ v. v.items) result (option_and_then (λ os. cond (relations.same_kinds os kinds.items) (Some kinds.items) None) (relations.merged kinds.items next.now)) }
{
    let last = merged(alloc, &kinds, next, span)?;
    if same_kinds(&last, &kinds) {
        Ok(kinds)
    } else {
        Err(refusal_at(PUT_TOGETHER, span))
    }
}

/// The kinds of a loop's variable that starts with these. Where the first turn keeps them, there is no need for another.
#[cycle(kinds)]
#[tactic(auto, using(crate::proofs::Loops::kept_at_once))]
fn settled<A: Allocator>(
    alloc: Global,
    named: &[i64],
    scope: &mut Scope,
    start: Vec<Kind>,
    span: Span,
    name: &Name,
    body: &Rel<A>,
) -> Result<Vec<Kind>, Refusal>
    ensures kinds { Finds (λ v. v.items) result (relations.settled start.items (turn_kinds named.now (plain_rel (rel_tree body.now)) name.now (scope_of scope.old))) }
    ensures scope { OnOk result (scope_of scope.new ≡ scope_of scope.old) }
{
    let first = turned(alloc, named, scope, &start, name, body)?;
    let kinds = merged(alloc, &start, &first, span)?;
    if same_kinds(&kinds, &start) {
        return Ok(kinds);
    }
    let next = turned(alloc, named, scope, &kinds, name, body)?;
    kept(alloc, kinds, &next, span)
}
