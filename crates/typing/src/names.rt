//! The names in scope, and what a fault is about.

ghost use Rattle.std.specs.Prelude.{◌≡◌, ◌≤◌, ◌∷◌, [], None, drop, length, IfSome, OnOk, OnErr};
ghost use Rattle.semantics.specs.Limits.{max_fields};
ghost use Rattle.semantics.specs.Typing.{lookup, entry};

use crate::arities::Arities;
use indexmap::IndexMap;
use record_core::Name;
use std::alloc::{AllocError, Global};
use std::marker::Model;

/// The names in scope with their arities, each found in constant time. The name declared last is the first forgotten. The check also
/// leaves here which numbers of fields its fault is about; no clause speaks of them.
#[derive(Drop)]
pub(crate) struct Names {
    table: IndexMap<Name, u64>,
    about: Option<Arities>,
}

impl Model for Names {
    ghost use Rattle.std.specs.Prelude.{◌≤◌, nat_eq};
    ghost use Rattle.std.specs.List.{AllByRecursion};
    ghost use Rattle.std.specs.Cmp.Lexicographic.{pointwise};
    ghost use Rattle.indexmap.specs.IndexMap.{IsUnique};
    ghost use Rattle.semantics.specs.Limits.{max_fields};
    ghost use Rattle.semantics.specs.Typing.{Scope};
    ghost use Rattle.typing.specs.Scope.{scope_of, scope_code};

    ghost Value = { Scope };

    ghost coded = { scope_code };

    ghost view = { λ n. scope_of n.table.entries };

    ghost invariant = { λ n. IsUnique (pointwise nat_eq) n.table × AllByRecursion (λ e. e.1 ≤ max_fields) n.table.entries };
}

impl Names {
    /// No name.
    pub(crate) fn new(alloc: Global) -> Names
        ensures { result ≡ [] }
    {
        Names {
            table: IndexMap::new(alloc),
            about: None,
        }
    }

    /// How many names are in scope.
    pub(crate) fn len(&self) -> usize
        ensures { result ≡ length self.now }
    {
        self.table.len()
    }

    /// The arity of a name in scope.
    pub(crate) fn arity(&self, name: &Name) -> Option<u64>
        ensures value { result ≡ lookup self.now name.now }
        ensures small { IfSome result (λ n. n ≤ max_fields) }
    {
        match self.table.get(name) {
            Some(arity) => Some(*arity),
            None => None,
        }
    }

    /// Declares a name that isn't in scope. An `Err` leaves the scope as it was.
    pub(crate) fn declare(&mut self, name: &Name, arity: u64) -> Result<(), AllocError>
        requires free { lookup self.old name.now ≡ None }
        requires small { arity ≤ max_fields }
        ensures ok { OnOk result (self.new ≡ entry name.now arity ∷ self.old) }
        ensures err { OnErr result (self.new ≡ self.old) }
    {
        self.table.insert(name.copied(), arity)?;
        Ok(())
    }

    /// Keeps the numbers of fields that the fault is about.
    pub(crate) fn note(&mut self, about: Arities)
        ensures { self.new ≡ self.old }
    {
        self.about = Some(about);
    }

    /// The numbers of fields that the fault is about.
    pub(crate) fn about(&self) -> Option<Arities> {
        self.about
    }

    /// Forgets the name declared last.
    pub(crate) fn forget(&mut self)
        ensures { self.new ≡ drop 1 self.old }
    {
        let _last = self.table.pop();
    }
}
