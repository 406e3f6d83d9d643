//! The names in scope, with the origins of their fields.

ghost use Rattle.std.specs.Prelude.{◌≡◌, ◌∷◌, ◌++◌, [], drop, IfOk, OnOk};
ghost use Rattle.origins.specs.Relations.{entry, lookup};
ghost use Rattle.field_origins.specs.Shown.{origins};
ghost use Rattle.origins.specs.Scopes.{entry_of, scope_of};

use field_origins::{Origin, copied_fields};
use record_core::Name;
use std::alloc::{AllocError, Global};
use std::collections::VecDeque;

/// A name and the origins of its fields.
#[derive(Drop)]
pub(crate) struct Known {
    pub(crate) name: Name,
    pub(crate) origins: Vec<Origin>,
}

/// The names in scope, the latest first.
#[derive(Drop)]
pub(crate) struct Scope {
    names: VecDeque<Known>,
}

impl Known {
    /// The name with the origins of its fields.
    fn new(name: &Name, fields: Vec<Origin>) -> Known
        ensures { entry_of result ≡ entry name.now (origins fields.items) }
    {
        Known {
            name: name.copied(),
            origins: fields,
        }
    }
}

impl Scope {
    /// No name.
    pub(crate) fn new(alloc: Global) -> Scope
        ensures { scope_of result ≡ [] }
    {
        Scope {
            names: VecDeque::new(alloc),
        }
    }

    /// The origins of a name; none if it isn't there.
    pub(crate) fn origins(&self, alloc: Global, name: &Name) -> Result<Vec<Origin>, AllocError>
        ensures { IfOk result (λ v. origins v.items ≡ lookup (scope_of self.now) name.now) }
    {
        for at in 0..self.names.len() {
            let Some(known) = self.names.get(at) else {
                unreachable!()
            };
            if known.name == *name {
                return copied_fields(alloc, &known.origins);
            }
        }
        Ok(Vec::new(alloc))
    }

    /// Declares a name, before all others.
    pub(crate) fn declare(&mut self, name: &Name, fields: Vec<Origin>) -> Result<(), AllocError>
        ensures { OnOk result (scope_of self.new ≡ entry name.now (origins fields.items) ∷ scope_of self.old) }
    {
        let known = Known::new(name, fields);
        self.names.push_front(known)?;
        Ok(())
    }

    /// Declares a name, behind all others.
    pub(crate) fn declare_last(
        &mut self,
        name: &Name,
        fields: Vec<Origin>,
    ) -> Result<(), AllocError>
        ensures { OnOk result (scope_of self.new ≡ scope_of self.old ++ entry name.now (origins fields.items) ∷ []) }
    {
        self.names.push_back(Known::new(name, fields))?;
        Ok(())
    }

    /// Forgets the name that was declared last.
    pub(crate) fn forget(&mut self)
        ensures { scope_of self.new ≡ drop 1 (scope_of self.old) }
    {
        let _last = self.names.pop_front();
    }
}
