//! The names that a relation takes from outside.

ghost use Rattle.std.specs.Prelude.{OnOk};
ghost use Rattle.std.specs.HashSet.{contains};
ghost use Rattle.semantics.specs.FreeNames.{free, free_in_outputs};
ghost use Rattle.semantics.specs.Meaning.{same_name};
ghost use Rattle.expr_tree.specs.Plain.{plain_rel};
ghost use Rattle.expr_tree.specs.PlainLists.{plain_outputs};
ghost use Rattle.expr_tree.specs.Views.{rel_tree};
ghost use Rattle.normalise.specs.Reached.{Adds};

use expr_tree::{Output, Rel};
use record_core::{Name, NoMemory};
use std::alloc::Allocator;
use std::collections::HashSet;
use std::hash::{BuildHasherDefault, FoldHasher};

/// A set of names in the allocator `A`.
pub type NameSet<A> = HashSet<Name, BuildHasherDefault<FoldHasher>, A>;

/// Adds the names that are free in the relation: a loop's variable isn't, in the loop's body. After a refusal some may have been added.
pub fn add_free<A: Allocator, B: Allocator + Copy>(
    names: &mut NameSet<B>,
    relation: &Rel<A>,
) -> Result<(), NoMemory>
    ensures { OnOk result (Adds (free (plain_rel (rel_tree relation.now))) (contains same_name names.new) (contains same_name names.old)) }
{
    match relation {
        Rel::Named(_, name) => {
            names.insert(name.copied())?;
            Ok(())
        }
        Rel::Select(_, of, _)
        | Rel::Where(_, of, _)
        | Rel::Group(_, of, _, _)
        | Rel::Distinct(_, of) => add_free(names, of),
        Rel::SetOperation(_, _, left, right) => {
            add_free(names, left)?;
            add_free(names, right)
        }
        Rel::Join(_, left, right, _) => {
            add_free(names, left)?;
            add_free(names, right)
        }
        Rel::Loop {
            name,
            start,
            body,
            ..
        } => {
            add_free(names, start)?;
            let outside = names.contains(name);
            add_free(names, body)?;
            if !outside {
                let _bound = names.remove(name);
            }
            Ok(())
        }
    }
}

/// Adds the names that are free in the outputs. After a refusal some may have been added.
pub fn add_free_in_outputs<A: Allocator, B: Allocator + Copy>(
    names: &mut NameSet<B>,
    outputs: &[Output<A>],
) -> Result<(), NoMemory>
    ensures { OnOk result (Adds (free_in_outputs (plain_outputs outputs.now)) (contains same_name names.new) (contains same_name names.old)) }
{
    match outputs {
        [] => Ok(()),
        [output, rest @ ..] => {
            add_free(names, &output.relation)?;
            add_free_in_outputs(names, rest)
        }
    }
}
