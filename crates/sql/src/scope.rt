//! The names in scope, and the tables that they stand for.

ghost use Rattle.std.specs.Prelude.{◌≡◌, [], OnOk};
ghost use Rattle.sql.specs.Shown.{Known, names_of, shown_table, with_entry};
ghost use Rattle.sql.specs.declared.scope.Entry.{Entry};

use crate::table::Table;
use record_core::{Name, NoMemory};
use std::alloc::Global;
use std::marker::Model;

/// A name and the table that it stands for.
#[derive(Drop)]
pub struct Entry {
    pub name: Name,
    pub table: Table,
}

/// The names in scope. A later entry hides an earlier one of the same name.
#[derive(Drop)]
pub struct Scope {
    entries: Vec<Entry>,
    inputs: u64,
}

impl Model for Scope {
    ghost use Rattle.sql.specs.Shown.{Known};

    ghost Value = { Known };

    ghost view = { λ s. record { entries = s.entries.items; inputs = s.inputs } };
}

impl Scope {
    /// No name, of a query with so many inputs.
    pub fn new(alloc: Global, inputs: u64) -> Scope
        ensures { result ≡ record { entries = []; inputs = inputs } }
    {
        Scope {
            entries: Vec::new(alloc),
            inputs,
        }
    }

    /// The table that a name stands for; one beyond the inputs where the name isn't in scope.
    pub fn find(&self, name: &Name) -> Table
        ensures { shown_table result ≡ names_of self.now name.now }
    {
        let mut left = self.entries.len();
        while left > 0 {
            left -= 1;
            let entry = &self.entries[left];
            if entry.name == *name {
                return entry.table;
            }
        }
        Table::Given(self.inputs)
    }

    /// From here on the name stands for the table.
    pub fn bind(&mut self, name: &Name, table: Table) -> Result<(), NoMemory>
        ensures { OnOk result (self.new ≡ with_entry self.old (record { name = name.now; table = table })) }
    {
        self.entries.push(Entry {
            name: name.copied(),
            table,
        })?;
        Ok(())
    }

    /// Forgets the last entry: its name stands again for what it stood for before.
    pub fn forget(&mut self)
        ensures { (known : Known) (entry : Entry) → self.old ≡ with_entry known entry → self.new ≡ known }
    {
        let _last = self.entries.pop();
    }
}
