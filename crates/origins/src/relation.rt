//! Origins of the fields of relations.

ghost use Rattle.std.specs.Prelude.{◌≡◌, IfOk, OnOk};
ghost use Rattle.expr_tree.specs.Views.{rel_tree};
ghost use Rattle.expr_tree.specs.Plain.{plain_rel};
ghost use Rattle.origins.specs.Relations as relations;
ghost use Rattle.field_origins.specs.Shown.{origins};
ghost use Rattle.origins.specs.Scopes.{scope_of};
ghost use Rattle.origins.specs.Steps.{turn_origins};

use crate::scope::Scope;
use expr_tree::{Rel, SetOperator};
use field_origins::{Origin, columns, group_origins, joined, merged, select_origins, settled};
use record_core::Name;
use std::alloc::{AllocError, Allocator, Global};

/// The origins of a relation's fields, where no input has the number `next` or a later one.
#[cycle(origins)]
pub(crate) fn origins_of<A: Allocator>(
    alloc: Global,
    scope: &mut Scope,
    next: u64,
    relation: &Rel<A>,
) -> Result<Vec<Origin>, AllocError>
    ensures origins { IfOk result (λ v. origins v.items ≡ relations.rel_origins (plain_rel (rel_tree relation.now)) (scope_of scope.old) next) }
    ensures scope { OnOk result (scope_of scope.new ≡ scope_of scope.old) }
{
    match relation {
        Rel::Named(_, name) => scope.origins(alloc, name),
        Rel::Select(_, of, scalars) => {
            let fields = origins_of(alloc, scope, next, of)?;
            select_origins(alloc, &fields, scalars)
        }
        Rel::Where(_, of, _) | Rel::Distinct(_, of) => origins_of(alloc, scope, next, of),
        Rel::SetOperation(_, SetOperator::Concat, left, right) => {
            let first = origins_of(alloc, scope, next, left)?;
            let second = origins_of(alloc, scope, next, right)?;
            merged(alloc, &first, &second)
        }
        Rel::SetOperation(_, SetOperator::Except | SetOperator::Intersect, left, _) => {
            origins_of(alloc, scope, next, left)
        }
        Rel::Join(_, left, right, _) => {
            let first = origins_of(alloc, scope, next, left)?;
            let second = origins_of(alloc, scope, next, right)?;
            joined(alloc, first, &second)
        }
        Rel::Group(_, of, keys, aggregates) => {
            let fields = origins_of(alloc, scope, next, of)?;
            group_origins(alloc, &fields, keys, aggregates)
        }
        Rel::Loop {
            name,
            start,
            body,
            ..
        } => {
            let fields = origins_of(alloc, scope, next, start)?;
            looped(alloc, scope, next, fields, name, body)
        }
    }
}

/// The origins of a loop with that variable, whose columns are those of an input with the number `next` while its body is looked at.
#[cycle(origins)]
fn looped<A: Allocator>(
    alloc: Global,
    scope: &mut Scope,
    next: u64,
    start: Vec<Origin>,
    name: &Name,
    body: &Rel<A>,
) -> Result<Vec<Origin>, AllocError>
    ensures origins { IfOk result (λ v. origins v.items ≡ relations.looped next (turn_origins (plain_rel (rel_tree body.now)) name.now (scope_of scope.old) next) (origins start.items)) }
    ensures scope { OnOk result (scope_of scope.new ≡ scope_of scope.old) }
{
    let Some(after) = next.checked_add(1) else {
        return Err(AllocError);
    };
    let variable = columns(alloc, next, start.len() as u64)?;
    scope.declare(name, variable)?;
    let turn = origins_of(alloc, scope, after, body)?;
    scope.forget();
    settled(alloc, next, &turn, start)
}
