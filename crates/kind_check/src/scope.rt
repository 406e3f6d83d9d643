//! The names in scope, with the kinds of their fields.

ghost use Rattle.std.specs.Prelude.{◌≡◌, ◌∷◌, ◌++◌, [], drop, IfErr, OnOk};
ghost use Rattle.record_core.specs.declared.span.Refusal.TheVariants.{NoMemory};
ghost use Rattle.kinds.specs.Relations.{entry, lookup};
ghost use Rattle.field_kinds.specs.Found.{Finds};
ghost use Rattle.kind_check.specs.Scopes.{entry_of, scope_of};

use field_kinds::{COMPUTED, copied, refusal_at};
use kinds::Kind;
use record_core::{Name, Refusal, Span};
use std::alloc::Global;
use std::collections::VecDeque;

/// A name and the kinds of its fields.
#[derive(Drop)]
pub(crate) struct Known {
    pub(crate) name: Name,
    pub(crate) kinds: Vec<Kind>,
}

/// The names in scope, the latest first.
#[derive(Drop)]
pub(crate) struct Scope {
    names: VecDeque<Known>,
}

impl Known {
    /// The name with the kinds of its fields.
    fn new(name: &Name, kinds: Vec<Kind>) -> Known
        ensures { entry_of result ≡ entry name.now kinds.items }
    {
        Known {
            name: name.copied(),
            kinds,
        }
    }
}

impl Scope {
    /// No name.
    pub(crate) fn new(alloc: Global) -> Scope
        ensures { scope_of result ≡ [] }
    {
        Scope {
            names: VecDeque::new(alloc),
        }
    }

    /// The kinds of a name.
    pub(crate) fn kinds(&self, alloc: Global, name: &Name, span: Span) -> Result<Vec<Kind>, Refusal>
        ensures { Finds (λ v. v.items) result (lookup (scope_of self.now) name.now) }
    {
        for at in 0..self.names.len() {
            let Some(known) = self.names.get(at) else {
                unreachable!()
            };
            if known.name == *name {
                return copied(alloc, &known.kinds);
            }
        }
        Err(refusal_at(COMPUTED, span))
    }

    /// Declares a name, before all others.
    pub(crate) fn declare(&mut self, name: &Name, kinds: Vec<Kind>) -> Result<(), Refusal>
        ensures ok { OnOk result (scope_of self.new ≡ entry name.now kinds.items ∷ scope_of self.old) }
        ensures err { IfErr result (λ e. e ≡ NoMemory) }
    {
        let known = Known::new(name, kinds);
        self.names.push_front(known)?;
        Ok(())
    }

    /// Declares a name, behind all others.
    pub(crate) fn declare_last(&mut self, name: &Name, kinds: Vec<Kind>) -> Result<(), Refusal>
        ensures ok { OnOk result (scope_of self.new ≡ scope_of self.old ++ entry name.now kinds.items ∷ []) }
        ensures err { IfErr result (λ e. e ≡ NoMemory) }
    {
        self.names.push_back(Known::new(name, kinds))?;
        Ok(())
    }

    /// Forgets the name that was declared last.
    pub(crate) fn forget(&mut self)
        ensures { scope_of self.new ≡ drop 1 (scope_of self.old) }
    {
        let _last = self.names.pop_front();
    }
}
