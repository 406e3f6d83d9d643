//! Bytes that only proofs read. They take no memory, and the methods do nothing at run time.
//!
//! Nothing ties them to memory: a trace says what was added to it. Only `Watched` and `Recorded` add to one, each what a call of its reader or
//! writer has just handed over or taken.

ghost use Rattle.std.specs.Prelude.{◌≡◌, ℕ, List, [], ◌++◌};
ghost use Rattle.std.specs.Borrow.{ftrue};

use std::marker::{Model, PhantomData};

/// Bytes that proofs read as `items`.
#[derive(Drop)]
pub struct Trace {
    marker: PhantomData<u8>,
    pub ghost items: { List ℕ },
}

impl Model for Trace {
    ghost also_owns = { λ _. ftrue };
}

impl Trace {
    pub(crate) fn new() -> Trace
        ensures { result.items ≡ [] }
    {
        Trace {
            marker: PhantomData,
        }
    }

    /// Adds the bytes.
    pub(crate) fn add(&mut self, _bytes: &[u8])
        ensures { self.new.items ≡ self.old.items ++ _bytes.now }
    {}
}
