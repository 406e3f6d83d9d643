//! The type of names.

ghost use Rattle.std.specs.Prelude.{⊤, ◌≡◌, ◌↔◌, IsTrue, Some, SomeIff, refl};
ghost use Rattle.std.specs.Cmp.{nat_eq_equiv, partial_equiv_from_equiv};
ghost use Rattle.std.specs.Cmp.Lexicographic.{lists_equiv, lists_per, nat_list_cmp_total, slice_cmp, texts_po, texts_ties};
ghost use Rattle.std.specs.Cmp.Rules.{hashing};
ghost use Rattle.std.specs.Hash.{slice, u8};
ghost use Rattle.std.specs.List.{list_all};
ghost use Rattle.std.specs.Ordering.{nat_cmp};
ghost use Rattle.std.specs.Str.{bytes_eq};
ghost use Rattle.std.proofs.Common.{rules};
ghost use Rattle.record_core.specs.Names.{IsName, begins_name, is_name_byte};

use crate::keyword::Keyword;
use arrayvec::ArrayVec;
use std::alloc::AllocError;
use std::cmp::Ordering;
use std::hash::{Hash, Hasher};
use std::marker::Model;

/// A name: a letter `a` to `z`, then letters, digits and `_`; 1 to 32 bytes in all, and not a keyword. It compares, orders and hashes like its list
/// of bytes.
#[derive(Drop)]
pub struct Name {
    bytes: ArrayVec<u8, 32>,
}

impl Model for Name {
    ghost use Rattle.std.specs.Prelude.{List, ℕ};
    ghost use Rattle.record_core.specs.Names.{IsName};

    ghost Value = { List ℕ };

    ghost view = { λ r. r.bytes.items };

    ghost inverse = { λ xs. record { bytes = record { items = xs } } };

    ghost invariant = { λ r. IsName r.bytes.items };
}

impl Name {
    /// The name with these bytes; `None` exactly if they aren't a name. Takes no memory.
    pub fn new(text: &[u8]) -> Option<Name>
        ensures { SomeIff result (IsName text.now) text.now }
    {
        if !begins(text) || !goes_on(text) || Keyword::of(text).is_some() {
            return None;
        }
        let mut bytes = ArrayVec::new();
        if bytes.try_extend_from_slice(text).is_err() {
            return None;
        }
        Some(Name { bytes })
    }

    /// The bytes: 1 to 32.
    pub fn bytes(&self) -> &[u8]
        ensures value { result.now ≡ self.now }
        ensures name { IsName self.now }
    {
        self.bytes.as_slice()
    }

    /// A name with the same bytes. Takes no memory.
    pub fn copied(&self) -> Name
        ensures { result ≡ self.now }
    {
        let mut bytes = ArrayVec::new();
        if bytes.try_extend_from_slice(self.bytes()).is_err() {
            unreachable!()
        }
        Name { bytes }
    }
}

/// A clone takes no memory and never fails.
impl Clone for Name {
    ghost is_clone = { λ m n. n ≡ m };

    ghost is_infallible = { λ _. ⊤ };

    fn clone(&self) -> Result<Self, AllocError> {
        Ok(self.copied())
    }
}

impl PartialEq for Name {
    ghost eq = { bytes_eq };

    ghost laws = { lists_per (partial_equiv_from_equiv nat_eq_equiv) };

    fn eq(&self, other: &Self) -> bool
        ensures value { result ≡ bytes_eq self.now other.now }
        ensures decides { IsTrue result ↔ (self.now ≡ other.now) }
    {
        self.bytes() == other.bytes()
    }
}

impl Eq for Name {
    ghost laws = { lists_equiv nat_eq_equiv };
}

impl PartialOrd for Name {
    ghost partial_cmp = { λ m n. Some (slice_cmp nat_cmp m n) };

    ghost laws = { texts_po };

    fn partial_cmp(&self, other: &Self) -> Option<Ordering> {
        Some(self.cmp(other))
    }
}

impl Ord for Name {
    ghost cmp = { slice_cmp nat_cmp };

    ghost total = { nat_list_cmp_total };

    ghost matches_partial_cmp = { λ m n. refl };

    ghost matches_eq = { texts_ties };

    fn cmp(&self, other: &Self) -> Ordering {
        self.bytes().cmp(&other.bytes())
    }
}

impl Hash for Name {
    ghost hash_input = { slice u8 };

    ghost respects_eq = { Prim.search (hashing, rules) };

    fn hash<H: Hasher>(&self, state: &mut H) {
        self.bytes().hash(state);
    }
}

/// Whether the first byte is a letter.
fn begins(bytes: &[u8]) -> bool
    ensures { result ≡ begins_name bytes.now }
{
    match bytes {
        [] => false,
        [b, ..] => b.is_ascii_lowercase(),
    }
}

/// Whether all bytes are letters, digits and `_`.
fn goes_on(bytes: &[u8]) -> bool
    ensures { result ≡ list_all is_name_byte bytes.now }
{
    bytes.iter().all(|b| b.is_ascii_lowercase() || b.is_ascii_digit() || *b == b'_')
}
