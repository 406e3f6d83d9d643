//! The names that a loop's body takes from outside, and those of them that come once.

ghost use Rattle.std.specs.Prelude.{◌≡◌, ℕ, List, ◌∷◌, ◌++◌, [], cond, not, filter, IfOk, OnOk};
ghost use Rattle.expr_tree.specs.Plain.{plain_form, plain_rel};
ghost use Rattle.expr_tree.specs.Views.{rel_tree};
ghost use Rattle.semantics.specs.FreeNames.{carried, free, has, looked_up, needed, once_names};
ghost use Rattle.semantics.specs.Lower.{is_lookup};
ghost use Rattle.lowering.specs.Gathering.{gathered};

use expr_tree::{LoopForm, Rel};
use indexmap::IndexSet;
use record_core::{Name, NoMemory};
use std::alloc::{Allocator, Global};

/// The names that occur free in a loop's body, but for its variable, each once, by first occurrence.
#[tactic(auto, using(crate::proofs::Gathers::gathered_carried))]
pub fn carried_names<A: Allocator>(
    alloc: Global,
    variable: &Name,
    body: &Rel<A>,
) -> Result<Vec<Name>, NoMemory>
    ensures { IfOk result (λ names. names.items ≡ carried variable.now (plain_rel (rel_tree body.now))) }
{
    let mut bound: Vec<Name> = Vec::new(alloc);
    bound.push(variable.copied())?;
    let mut names = IndexSet::new(alloc);
    gather(body, &mut bound, &mut names)?;
    let names = names.into_iter().collect(alloc)?;
    Ok(names)
}

/// Of the names that a loop's body takes from outside, those that come once: of a closure those that its body only looks up.
pub fn names_once<A: Allocator>(
    alloc: Global,
    form: LoopForm,
    variable: &Name,
    body: &Rel<A>,
    names: &[Name],
) -> Result<Vec<Name>, NoMemory>
    requires { names.now ≡ carried variable.now (plain_rel (rel_tree body.now)) }
    ensures { IfOk result (λ once. once.items ≡ once_names (plain_form form) variable.now (plain_rel (rel_tree body.now))) }
{
    match form {
        LoopForm::Iterate => Ok(Vec::new(alloc)),
        LoopForm::Closure => not_needed(alloc, body, names),
    }
}

/// Those of the names that a relation doesn't need at each time, in order.
fn not_needed<A: Allocator>(
    alloc: Global,
    body: &Rel<A>,
    names: &[Name],
) -> Result<Vec<Name>, NoMemory>
    ensures { IfOk result (λ kept. kept.items ≡ filter (λ y. not (has y (needed (plain_rel (rel_tree body.now))))) names.now) }
{
    let needed = needed_names(alloc, body)?;
    let mut kept = Vec::new(alloc);
    for i in 0..names.len() {
        put_other(&needed, &names[i], &mut kept)?;
    }
    Ok(kept)
}

/// Puts a name after those that are there, unless it is needed.
fn put_other(needed: &[Name], name: &Name, kept: &mut Vec<Name>) -> Result<(), NoMemory>
    ensures { OnOk result (kept.new.items ≡ cond (has name.now needed.now) kept.old.items (kept.old.items ++ (name.now ∷ []))) }
{
    if !stands_in(needed, name) {
        kept.push(name.copied())?;
    }
    Ok(())
}

/// The names that a relation needs at each time, each once.
#[tactic(auto, using(crate::proofs::Gathers::has_gathered))]
fn needed_names<A: Allocator>(alloc: Global, relation: &Rel<A>) -> Result<Vec<Name>, NoMemory>
    ensures { IfOk result (λ names. (y : List ℕ) → has y names.items ≡ has y (needed (plain_rel (rel_tree relation.now)))) }
{
    let mut bound = Vec::new(alloc);
    let mut names = IndexSet::new(alloc);
    gather_needed(relation, &mut bound, &mut names)?;
    let names = names.into_iter().collect(alloc)?;
    Ok(names)
}

/// Whether a join whose right side this is looks it up; the names come once.
pub fn is_lookup<A: Allocator>(right: &Rel<A>, once: &[Name]) -> bool
    ensures { result ≡ is_lookup (plain_rel (rel_tree right.now)) once.now }
{
    match right {
        Rel::Named(_, name) => stands_in(once, name),
        Rel::Select(_, _, _) => false,
        Rel::Where(_, _, _) => false,
        Rel::SetOperation(_, _, _, _) => false,
        Rel::Join(_, _, _, _) => false,
        Rel::Group(_, _, _, _) => false,
        Rel::Distinct(_, _) => false,
        Rel::Loop { .. } => false,
    }
}

/// Puts the names that the relation needs at each time, and that are not bound, after those that are there, each once.
#[tactic(auto, using(crate::proofs::Gathers::gathered_append, crate::proofs::Gathers::gathered_bound, crate::proofs::SetOperations::set_needed))]
fn gather_needed<A: Allocator>(
    relation: &Rel<A>,
    bound: &mut Vec<Name>,
    names: &mut IndexSet<Name>,
) -> Result<(), NoMemory>
    ensures bound { OnOk result (bound.new.items ≡ bound.old.items) }
    ensures names { OnOk result (names.new.keys ≡ gathered bound.old.items names.old.keys (needed (plain_rel (rel_tree relation.now)))) }
{
    match relation {
        Rel::Named(_, name) => gather_name(name, bound, names),
        Rel::Select(_, of, _) => gather_needed(of, bound, names),
        Rel::Where(_, of, _) => gather_needed(of, bound, names),
        Rel::SetOperation(_, _, left, right) => {
            gather_needed(left, bound, names)?;
            gather_needed(right, bound, names)?;
            Ok(())
        }
        Rel::Join(_, left, right, _) => {
            gather_needed(left, bound, names)?;
            if !is_name(right) {
                gather_needed(right, bound, names)?;
            }
            Ok(())
        }
        Rel::Group(_, of, _, _) => gather_needed(of, bound, names),
        Rel::Distinct(_, of) => gather_needed(of, bound, names),
        Rel::Loop {
            name,
            start,
            body,
            ..
        } => {
            gather_needed(start, bound, names)?;
            bound.push(name.copied())?;
            gather(body, bound, names)?;
            let _ = bound.pop();
            Ok(())
        }
    }
}

/// Whether a relation is a name, which can be looked up.
fn is_name<A: Allocator>(relation: &Rel<A>) -> bool
    ensures { result ≡ looked_up (plain_rel (rel_tree relation.now)) }
{
    match relation {
        Rel::Named(_, _) => true,
        Rel::Select(_, _, _) => false,
        Rel::Where(_, _, _) => false,
        Rel::SetOperation(_, _, _, _) => false,
        Rel::Join(_, _, _, _) => false,
        Rel::Group(_, _, _, _) => false,
        Rel::Distinct(_, _) => false,
        Rel::Loop { .. } => false,
    }
}

/// Puts the names that occur free in the relation, and are not bound, after those that are there, each once. The bound names are
/// few: the variables of the loops around.
#[tactic(auto, using(crate::proofs::Gathers::gathered_append, crate::proofs::Gathers::gathered_bound, crate::proofs::SetOperations::set_free))]
fn gather<A: Allocator>(
    relation: &Rel<A>,
    bound: &mut Vec<Name>,
    names: &mut IndexSet<Name>,
) -> Result<(), NoMemory>
    ensures bound { OnOk result (bound.new.items ≡ bound.old.items) }
    ensures names { OnOk result (names.new.keys ≡ gathered bound.old.items names.old.keys (free (plain_rel (rel_tree relation.now)))) }
{
    match relation {
        Rel::Named(_, name) => gather_name(name, bound, names),
        Rel::Select(_, of, _) => gather(of, bound, names),
        Rel::Where(_, of, _) => gather(of, bound, names),
        Rel::SetOperation(_, _, left, right) => {
            gather(left, bound, names)?;
            gather(right, bound, names)?;
            Ok(())
        }
        Rel::Join(_, left, right, _) => {
            gather(left, bound, names)?;
            gather(right, bound, names)?;
            Ok(())
        }
        Rel::Group(_, of, _, _) => gather(of, bound, names),
        Rel::Distinct(_, of) => gather(of, bound, names),
        Rel::Loop {
            name,
            start,
            body,
            ..
        } => {
            gather(start, bound, names)?;
            bound.push(name.copied())?;
            gather(body, bound, names)?;
            let _ = bound.pop();
            Ok(())
        }
    }
}

/// Puts a name after those that are there, unless it is bound or there already.
#[tactic(auto, using(crate::proofs::Gathers::gathered_one))]
fn gather_name(name: &Name, bound: &[Name], names: &mut IndexSet<Name>) -> Result<(), NoMemory>
    ensures { OnOk result (names.new.keys ≡ gathered bound.now names.old.keys (name.now ∷ [])) }
{
    if !stands_in(bound, name) {
        names.insert(name.copied())?;
    }
    Ok(())
}

/// Whether the name is one of these.
pub fn stands_in(names: &[Name], name: &Name) -> bool
    ensures { result ≡ has name.now names.now }
{
    names.iter().any(|other| *other == *name)
}
