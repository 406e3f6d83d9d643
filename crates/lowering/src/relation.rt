//! Relations to vertices.

ghost use Rattle.std.specs.Prelude.{◌≡◌, ◌+◌, length, IfOk, IfErr, OnOk};
ghost use Rattle.expr_tree.specs.Plain.{plain_rel};
ghost use Rattle.expr_tree.specs.Views.{rel_tree};
ghost use Rattle.semantics.specs.Lower.{lower};
ghost use Rattle.semantics.proofs.FittingPrograms.{Nested};
ghost use Rattle.lowering.specs.Faults.{IsOver};
ghost use Rattle.lowering.specs.Loops.{plain_loop};
ghost use Rattle.lowering.specs.Scopes.{ports_of};
ghost use Rattle.lowering.specs.Steps.{IsLowered};
ghost use Rattle.graph.specs.Views.{graph_of, port_of};

use crate::fault::LowerFault;
use crate::form_vertices::{add_group, add_join, add_select, add_set_operation, add_where};
use crate::loops::{LoopHead, close_loop, open_loop};
use crate::names::is_lookup;
use crate::scope::Scope;
use crate::vertex::add_vertex;
use expr_tree::Rel;
use graph::{Kind, Port, Sources, Vertex};
use record_core::Name;
use std::alloc::{Allocator, Global};

/// Makes the vertices of a relation after those that are there, and gives the port that the relation gives. The names `once` come at the
/// first turn of the loop around.
#[cycle(lower)]
pub fn lower_rel<A: Allocator>(
    alloc: Global,
    relation: &Rel<A>,
    scope: &mut Scope,
    once: &[Name],
    depth: u32,
    made: &mut Vec<Vertex>,
) -> Result<Port, LowerFault>
    requires nested { Nested depth (plain_rel (rel_tree relation.now)) }
    ensures ok { IfOk result (λ p. IsLowered (graph_of made.old.items) (graph_of made.new.items) (port_of p)
        (lower (plain_rel (rel_tree relation.now)) (ports_of scope.old) once.now depth (length made.old.items))) }
    ensures scope { OnOk result (scope.new ≡ scope.old) }
    ensures many { IfErr result (λ e. IsOver e (length made.old.items
        + length (lower (plain_rel (rel_tree relation.now)) (ports_of scope.old) once.now depth (length made.old.items)).made)) }
{
    match relation {
        Rel::Named(_, name) => Ok(scope.find(name)),
        Rel::Select(_, of, scalars) => {
            let from = lower_rel(alloc, of, scope, once, depth, made)?;
            add_select(alloc, scalars, from, depth, made)
        }
        Rel::Where(_, of, condition) => {
            let from = lower_rel(alloc, of, scope, once, depth, made)?;
            add_where(alloc, condition, from, depth, made)
        }
        Rel::SetOperation(_, operator, left, right) => {
            let left = lower_rel(alloc, left, scope, once, depth, made)?;
            let right = lower_rel(alloc, right, scope, once, depth, made)?;
            add_set_operation(*operator, left, right, depth, made)
        }
        Rel::Join(_, left, right, pairs) => {
            let lookup = is_lookup(right, once);
            let left = lower_rel(alloc, left, scope, once, depth, made)?;
            let right = lower_rel(alloc, right, scope, once, depth, made)?;
            add_join(alloc, lookup, pairs, left, right, depth, made)
        }
        Rel::Group(_, of, keys, aggregates) => {
            let from = lower_rel(alloc, of, scope, once, depth, made)?;
            add_group(alloc, keys, aggregates, from, depth, made)
        }
        Rel::Distinct(_, of) => {
            let from = lower_rel(alloc, of, scope, once, depth, made)?;
            add_vertex(made, Kind::Distinct, depth, Sources::One(from))
        }
        Rel::Loop {
            form,
            turns,
            name,
            start,
            body,
            ..
        } => {
            let head = LoopHead {
                form: *form,
                turns: *turns,
                variable: name,
                once,
            };
            lower_loop(alloc, head, start, body, scope, depth, made)
        }
    }
}

/// Makes the vertices of a loop after those that are there, and gives the egress's out port.
#[cycle(lower)]
fn lower_loop<A: Allocator>(
    alloc: Global,
    head: LoopHead<'_>,
    start: &Rel<A>,
    body: &Rel<A>,
    scope: &mut Scope,
    depth: u32,
    made: &mut Vec<Vertex>,
) -> Result<Port, LowerFault>
    requires nested { Nested depth (plain_loop head.form head.turns head.variable.now start.now body.now) }
    ensures ok { IfOk result (λ p. IsLowered (graph_of made.old.items) (graph_of made.new.items) (port_of p)
        (lower (plain_loop head.entry.form head.entry.turns head.entry.variable.now start.now body.now) (ports_of scope.old) head.entry.once.now depth (length made.old.items))) }
    ensures scope { OnOk result (scope.new ≡ scope.old) }
    ensures many { IfErr result (λ e. IsOver e (length made.old.items
        + length (lower (plain_loop head.entry.form head.entry.turns head.entry.variable.now start.now body.now) (ports_of scope.old) head.entry.once.now depth (length made.old.items)).made)) }
{
    let outside = scope.len();
    let from = lower_rel(alloc, start, scope, head.once, depth, made)?;
    let opened = open_loop(alloc, head, body, from, scope, depth, made)?;
    let (gate, once) = opened;
    let last = lower_rel(alloc, body, scope, &once, depth + 1, made)?;
    scope.leave(outside);
    close_loop(made, gate, last, depth)
}
