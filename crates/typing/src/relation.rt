//! The arity of a relation, or its first fault.

ghost use Rattle.std.specs.Prelude.{◌≡◌, ◌≢◌, ℕ, ◌≤◌, ◌+◌, ◌∷◌, map, None, true, nat_le, nat_lt, IfErr, IfOk, OnOk, Result, Ok, Err, MatchOption};
ghost use Rattle.record_core.specs.declared.span.Refusal.TheVariants.{At};
ghost use Rattle.expr_tree.specs.Trees.{RelTree};
ghost use Rattle.expr_tree.specs.Views.{rel_tree, scalar_tree};
ghost use Rattle.semantics.specs.Limits.{max_fields, max_loops, max_turns};
ghost use Rattle.semantics.specs.Typing.{entry, lookup};
ghost use Rattle.typing.specs.Fault.{Fault, fault, span_of};
ghost use Rattle.typing.specs.declared.refusals.TheConstants.{NAME_TAKEN, NO_SUCH_COLUMN};
ghost use Rattle.typing.specs.Verdict.{Says, IsVerdict, sized, unless_taken, verdict, within_limits};

use crate::arities::Arities;
use crate::columns::{in_aggs, in_cond, in_keys, in_pairs, in_scalars};
use crate::limits::{MAX_LOOPS, MAX_TURNS};
use crate::names::Names;
use crate::refusals::{
    ARITIES_DIFFER, BAD_ARITY, BODY_DIFFERS, NAME_TAKEN, NO_SUCH_COLUMN, TOO_DEEP, TOO_MANY_TURNS,
    UNKNOWN_NAME, at,
};
use expr_tree::{Agg, Column, Pair, Rel, Scalar};
use record_core::{MAX_FIELDS, Name, Refusal, Span};
use std::alloc::Allocator;

/// Refused where a column is beyond the fields of a relation, which has that many.
fn within(names: &mut Names, beyond: Option<Span>, arity: u64) -> Result<(), Refusal>
    ensures verdict { MatchOption beyond (result ≡ Ok tt) (λ span. result ≡ Err (At NO_SUCH_COLUMN span)) }
    ensures names { names.new ≡ names.old }
{
    match beyond {
        None => Ok(()),
        Some(span) => {
            names.note(Arities::One(arity));
            Err(at(NO_SUCH_COLUMN, span))
        }
    }
}

/// The number of fields of the relation of a pair that hasn't the column at that place.
fn side_of(pairs: &[Pair], beyond: Option<Span>, left: u64, right: u64) -> u64 {
    if pairs.iter().any(|pair| beyond == Some(pair.left.span)) {
        left
    } else {
        right
    }
}

/// The arity of a form that has these two numbers of fields.
fn form_arity(names: &mut Names, span: Span, fields: usize, more: usize) -> Result<u64, Refusal>
    ensures verdict { IsVerdict result (sized span (fields + more)) }
    ensures small { IfOk result (λ n. n ≤ max_fields) }
    ensures names { names.new ≡ names.old }
{
    match fields.checked_add(more) {
        Some(arity) if 0 < arity && arity <= MAX_FIELDS => Ok(arity as u64),
        _ => {
            names.note(Arities::One((fields as u64).saturating_add(more as u64)));
            Err(at(BAD_ARITY, span))
        }
    }
}

/// Whether a loop may have that many turns.
fn may_turn(turns: u64) -> bool
    ensures { result ≡ nat_le turns max_turns }
{
    turns <= MAX_TURNS
}

/// The place of a relation.
fn place<A: Allocator>(relation: &Rel<A>) -> Span
    ensures { result ≡ span_of (rel_tree relation.now) }
{
    match relation {
        Rel::Named(span, _)
        | Rel::Select(span, _, _)
        | Rel::Where(span, _, _)
        | Rel::SetOperation(span, _, _, _)
        | Rel::Join(span, _, _, _)
        | Rel::Group(span, _, _, _)
        | Rel::Distinct(span, _) => *span,
        Rel::Loop { span, .. } => *span,
    }
}

/// The arity that two relations have in common, or a refusal at the span.
fn equal_arity(
    names: &mut Names,
    first: u64,
    second: u64,
    code: u8,
    span: Span,
) -> Result<u64, Refusal>
    ensures same { IfOk result (λ n. (n ≡ first) × (first ≡ second)) }
    ensures differ { IfErr result (λ e. (e ≡ At code span) × (first ≢ second)) }
    ensures names { names.new ≡ names.old }
{
    if first == second {
        Ok(first)
    } else {
        names.note(Arities::Two(first, second));
        Err(at(code, span))
    }
}

/// Declares a loop's variable, or refuses it where a name in scope is the same.
fn declare_variable(names: &mut Names, name: &Name, arity: u64, span: Span) -> Result<(), Refusal>
    requires { arity ≤ max_fields }
    ensures free { OnOk result (lookup names.old name.now ≡ None) }
    ensures declared { OnOk result (names.new ≡ entry name.now arity ∷ names.old) }
    ensures taken { IfErr result (λ e. (v : Result ℕ Fault) → Says e (unless_taken (lookup names.old name.now) (fault NAME_TAKEN span) v)) }
{
    if names.arity(name).is_some() {
        return Err(at(NAME_TAKEN, span));
    }
    names.declare(name, arity)?;
    Ok(())
}

/// Refused where a loop has too many turns, or is in the bodies of too many others.
fn loop_limits(turns: u64, turns_span: Span, depth: u32, span: Span) -> Result<(), Refusal>
    ensures ok { OnOk result ((nat_le turns max_turns ≡ true) × (nat_lt depth max_loops ≡ true)) }
    ensures err { IfErr result (λ e. (v : Result ℕ Fault) → Says e (within_limits turns turns_span depth span v)) }
{
    if !may_turn(turns) {
        return Err(at(TOO_MANY_TURNS, turns_span));
    }
    if depth >= MAX_LOOPS {
        return Err(at(TOO_DEEP, span));
    }
    Ok(())
}

/// The arity of a relation in the bodies of that many loops.
#[cycle(arity)]
pub(crate) fn arity_of<A: Allocator>(
    names: &mut Names,
    relation: &Rel<A>,
    depth: u32,
) -> Result<u64, Refusal>
    requires { depth ≤ max_loops }
    ensures verdict { IsVerdict result (verdict (rel_tree relation.now) names.old depth) }
    ensures small { IfOk result (λ n. n ≤ max_fields) }
    ensures names { OnOk result (names.new ≡ names.old) }
{
    match relation {
        Rel::Named(span, name) => names.arity(name).ok_or(at(UNKNOWN_NAME, *span)),
        Rel::Select(span, of, scalars) => select_arity(names, *span, of, scalars, depth),
        Rel::Where(_, of, condition) => {
            let arity = arity_of(names, of, depth)?;
            within(names, in_cond(condition, arity), arity)?;
            Ok(arity)
        }
        Rel::SetOperation(span, _, left, right) => {
            let first = arity_of(names, left, depth)?;
            let second = arity_of(names, right, depth)?;
            equal_arity(names, first, second, ARITIES_DIFFER, *span)
        }
        Rel::Join(span, left, right, pairs) => {
            let first = arity_of(names, left, depth)?;
            let second = arity_of(names, right, depth)?;
            let beyond = in_pairs(pairs, first, second);
            within(names, beyond, side_of(pairs, beyond, first, second))?;
            form_arity(names, *span, first as usize, second as usize)
        }
        Rel::Group(span, of, keys, aggs) => group_arity(names, *span, of, keys, aggs, depth),
        Rel::Distinct(_, of) => arity_of(names, of, depth),
        Rel::Loop {
            span,
            turns_span,
            turns,
            name_span,
            name,
            start,
            body,
            ..
        } => {
            loop_limits(*turns, *turns_span, depth, *span)?;
            let arity = arity_of(names, start, depth)?;
            declare_variable(names, name, arity, *name_span)?;
            let turned = arity_of(names, body, depth + 1)?;
            names.forget();
            equal_arity(names, arity, turned, BODY_DIFFERS, place(body))
        }
    }
}

/// The arity of a `select` in the bodies of that many loops.
#[cycle(arity)]
fn select_arity<A: Allocator>(
    names: &mut Names,
    span: Span,
    of: &Rel<A>,
    scalars: &[Scalar<A>],
    depth: u32,
) -> Result<u64, Refusal>
    requires { depth ≤ max_loops }
    ensures verdict { IsVerdict result (verdict (RelTree.select span (rel_tree of.now) (map scalar_tree scalars.now)) names.old depth) }
    ensures small { IfOk result (λ n. n ≤ max_fields) }
    ensures names { OnOk result (names.new ≡ names.old) }
{
    let arity = arity_of(names, of, depth)?;
    within(names, in_scalars(scalars, arity), arity)?;
    form_arity(names, span, scalars.len(), 0)
}

/// The arity of a `group` in the bodies of that many loops.
#[cycle(arity)]
fn group_arity<A: Allocator>(
    names: &mut Names,
    span: Span,
    of: &Rel<A>,
    keys: &[Column],
    aggs: &[Agg],
    depth: u32,
) -> Result<u64, Refusal>
    requires { depth ≤ max_loops }
    ensures verdict { IsVerdict result (verdict (RelTree.group span (rel_tree of.now) keys.now aggs.now) names.old depth) }
    ensures small { IfOk result (λ n. n ≤ max_fields) }
    ensures names { OnOk result (names.new ≡ names.old) }
{
    let arity = arity_of(names, of, depth)?;
    within(names, in_keys(keys, arity), arity)?;
    within(names, in_aggs(aggs, arity), arity)?;
    form_arity(names, span, keys.len(), aggs.len())
}
