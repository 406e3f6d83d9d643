//! The type of records.

ghost use Rattle.std.specs.Prelude.{⊤, ◌≡◌, ◌≤◌, ◌↔◌, ◌^◌, length, IsTrue, Some, SomeIff, refl};
ghost use Rattle.std.specs.Cmp.{int_cmp_total, int_eq_equiv, partial_equiv_from_equiv, po};
ghost use Rattle.std.specs.Cmp.Lexicographic.{lists_equiv, lists_per, lists_ties, lists_total};
ghost use Rattle.std.specs.Cmp.Rules.{hashing};
ghost use Rattle.std.specs.Ordering.{int_cmp};
ghost use Rattle.std.proofs.Common.{rules};
ghost use Rattle.record_core.specs.Records.{IsRecord, fields_cmp, fields_eq, fields_hash};

use arrayvec::ArrayVec;
use std::alloc::AllocError;
use std::cmp::Ordering;
use std::hash::{Hash, Hasher};
use std::marker::Model;

/// The most fields of a record.
pub const MAX_FIELDS: usize = 16;

/// A record: 1 to 16 signed 64-bit fields. It compares, orders and hashes like its list of fields.
#[derive(Drop)]
pub struct Record {
    items: ArrayVec<i64, 16>,
}

impl Model for Record {
    ghost use Rattle.std.specs.Prelude.{List, ℤ};
    ghost use Rattle.record_core.specs.Records.{IsRecord};

    ghost Value = { List ℤ };

    ghost view = { λ r. r.items.items };

    ghost inverse = { λ xs. record { items = record { items = xs } } };

    ghost invariant = { λ r. IsRecord r.items.items };
}

impl Record {
    /// The record with these fields; `None` exactly for no fields and for more than 16. Takes no memory.
    pub fn new(fields: &[i64]) -> Option<Record>
        ensures { SomeIff result (IsRecord fields.now) fields.now }
    {
        if fields.is_empty() {
            return None;
        }
        let mut items = ArrayVec::new();
        if items.try_extend_from_slice(fields).is_err() {
            return None;
        }
        Some(Record { items })
    }

    /// The fields in order: 1 to 16.
    pub fn fields(&self) -> &[i64]
        ensures value { result.now ≡ self.now }
        ensures fits { IsRecord self.now }
    {
        self.items.as_slice()
    }

    /// A record with the same fields. Takes no memory.
    pub fn copied(&self) -> Record
        ensures { result ≡ self.now }
    {
        let mut items = ArrayVec::new();
        if items.try_extend_from_slice(self.fields()).is_err() {
            unreachable!()
        }
        Record { items }
    }
}

/// A clone takes no memory and never fails.
impl Clone for Record {
    ghost is_clone = { λ r s. s ≡ r };

    ghost is_infallible = { λ _. ⊤ };

    fn clone(&self) -> Result<Self, AllocError> {
        Ok(self.copied())
    }
}

impl PartialEq for Record {
    ghost eq = { fields_eq };

    ghost laws = { lists_per (partial_equiv_from_equiv int_eq_equiv) };

    fn eq(&self, other: &Self) -> bool
        ensures value { result ≡ fields_eq self.now other.now }
        ensures decides { IsTrue result ↔ (self.now ≡ other.now) }
    {
        self.fields() == other.fields()
    }
}

impl Eq for Record {
    ghost laws = { lists_equiv int_eq_equiv };
}

impl PartialOrd for Record {
    ghost partial_cmp = { λ r s. Some (fields_cmp r s) };

    ghost laws = { po (lists_total int_cmp_total) (lists_ties int_cmp (λ x y. refl)) };

    fn partial_cmp(&self, other: &Self) -> Option<Ordering> {
        Some(self.cmp(other))
    }
}

impl Ord for Record {
    ghost cmp = { fields_cmp };

    ghost total = { lists_total int_cmp_total };

    ghost matches_partial_cmp = { λ r s. refl };

    ghost matches_eq = { lists_ties int_cmp (λ x y. refl) };

    fn cmp(&self, other: &Self) -> Ordering {
        self.fields().cmp(&other.fields())
    }
}

impl Hash for Record {
    ghost hash_input = { fields_hash };

    ghost respects_eq = { Prim.search (hashing, rules) };

    fn hash<H: Hasher>(&self, state: &mut H) {
        self.fields().hash(state);
    }
}
