//! Which closures become one recursive table.

ghost use Rattle.std.specs.Prelude.{◌≡◌};
ghost use Rattle.expr_tree.specs.Plain.{plain_form, plain_rel};
ghost use Rattle.expr_tree.specs.Views.{rel_tree};
ghost use Rattle.semantics.specs.FreeNames.{free, has};
ghost use Rattle.sql_meaning.specs.Translation.{is_linear, is_recursion};

use expr_tree::{LoopForm, Rel};
use record_core::Name;
use std::alloc::Allocator;

/// The most turns of a loop.
const MAX_TURNS: u64 = 65535;

/// Whether a name is free in a relation.
pub fn is_free<A: Allocator>(name: &Name, relation: &Rel<A>) -> bool
    ensures { result ≡ has name.now (free (plain_rel (rel_tree relation.now))) }
{
    match relation {
        Rel::Named(_, other) => *other == *name,
        Rel::Select(_, of, _)
        | Rel::Where(_, of, _)
        | Rel::Group(_, of, _, _)
        | Rel::Distinct(_, of) => is_free(name, of),
        Rel::SetOperation(_, _, left, right) => is_free(name, left) || is_free(name, right),
        Rel::Join(_, left, right, _) => is_free(name, left) || is_free(name, right),
        Rel::Loop {
            name: bound,
            start,
            body,
            ..
        } => is_free(name, start) || (!(*bound == *name) && is_free(name, body)),
    }
}

/// Whether a relation takes a name once, through selects, wheres and joins alone.
pub fn is_linear<A: Allocator>(name: &Name, relation: &Rel<A>) -> bool
    ensures { result ≡ is_linear name.now (plain_rel (rel_tree relation.now)) }
{
    match relation {
        Rel::Named(_, other) => *name == *other,
        Rel::Select(_, of, _) | Rel::Where(_, of, _) => is_linear(name, of),
        Rel::Join(_, left, right, _) => {
            if is_linear(name, left) {
                !is_free(name, right)
            } else {
                !is_free(name, left) && is_linear(name, right)
            }
        }
        Rel::SetOperation(_, _, _, _)
        | Rel::Group(_, _, _, _)
        | Rel::Distinct(_, _)
        | Rel::Loop { .. } => false,
    }
}

/// Whether a loop becomes one recursive table.
pub fn is_recursion<A: Allocator>(
    recursive: bool,
    form: LoopForm,
    turns: u64,
    name: &Name,
    body: &Rel<A>,
) -> bool
    ensures { result ≡ is_recursion recursive (plain_form form) turns name.now (plain_rel (rel_tree body.now)) }
{
    match form {
        LoopForm::Iterate => false,
        LoopForm::Closure => recursive && turns == MAX_TURNS && is_linear(name, body),
    }
}
