//! The names in scope, and the ports that they stand for.

ghost use Rattle.std.specs.Prelude.{◌≡◌, ◌-◌, ◌++◌, ◌∷◌, [], length, take, OnOk, OnErr};
ghost use Rattle.lowering.specs.Scopes.{ports_of};
ghost use Rattle.graph.specs.Views.{port_of};

use graph::{Port, VertexId};
use indexmap::IndexMap;
use record_core::{Name, NoMemory};
use std::alloc::Global;
use std::marker::Model;

/// A name and the port that it stands for.
#[derive(Drop)]
pub struct Entry {
    pub name: Name,
    pub port: Port,
}

/// An entry, and the port that its name stood for before.
#[derive(Drop)]
pub struct Bound {
    pub entry: Entry,
    pub hidden: Port,
}

/// The names in scope, each found in constant time. A later entry hides an earlier one of the same name.
#[derive(Drop)]
pub struct Scope {
    bound: Vec<Bound>,
    table: IndexMap<Name, Port>,
}

impl Model for Scope {
    ghost use Rattle.std.specs.Prelude.{List};
    ghost use Rattle.lowering.specs.declared.scope.Entry.{Entry};
    ghost use Rattle.lowering.specs.Scopes.{IsTable, entries_of};

    ghost Value = { List Entry };

    ghost view = { λ s. entries_of s.bound.items };

    ghost invariant = { λ s. IsTable s.table.entries s.bound.items };
}

impl Scope {
    /// No name.
    pub fn new(alloc: Global) -> Scope
        ensures { result ≡ [] }
    {
        Scope {
            bound: Vec::new(alloc),
            table: IndexMap::new(alloc),
        }
    }

    /// The number of entries.
    pub fn len(&self) -> usize
        ensures { result ≡ length self.now }
    {
        self.bound.len()
    }

    /// The port that a name stands for; that of no vertex's number where the name isn't in scope.
    pub fn find(&self, name: &Name) -> Port
        ensures { port_of result ≡ ports_of self.now name.now }
    {
        match self.table.get(name) {
            Some(port) => *port,
            None => Port {
                vertex: VertexId(0),
                out: 0,
            },
        }
    }

    /// From here on the name stands for the port. After an `Err` the scope is as it was.
    pub fn bind(&mut self, name: &Name, port: Port) -> Result<(), NoMemory>
        ensures ok { OnOk result (self.new ≡ self.old ++ (record { name = name.now; port = port } ∷ [])) }
        ensures err { OnErr result (self.new ≡ self.old) }
    {
        let hidden = self.find(name);
        let entry = Entry {
            name: name.copied(),
            port,
        };
        self.bound.push(Bound { entry, hidden })?;
        match self.table.insert(name.copied(), port) {
            Ok(_) => Ok(()),
            Err(_) => {
                let _last = self.bound.pop();
                Err(NoMemory)
            }
        }
    }

    /// Forgets the last entry: its name stands again for what it stood for before.
    fn forget(&mut self)
        ensures { self.new ≡ take (length self.old - 1) self.old }
    {
        if let Some(last) = self.bound.pop() {
            let Bound { entry, hidden } = last;
            let Entry { name, port: _ } = entry;
            match self.table.insert(name, hidden) {
                Ok(_) => {}
                Err(_) => unreachable!(),
            }
        }
    }

    /// Forgets all but the first entries.
    pub fn leave(&mut self, outside: usize)
        ensures { self.new ≡ take outside self.old }
    {
        while self.len() > outside {
            self.forget();
        }
    }
}
