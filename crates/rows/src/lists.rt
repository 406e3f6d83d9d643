//! Lists of numbers of one length, end to end.

ghost use Rattle.std.specs.Prelude.{◌≡◌, ◌≤◌, ◌<◌, ◌+◌, ◌^◌, [], ◌∷◌, ◌++◌, length, take, drop, slice_index_or, slice_set, if◌then◌else◌, is_ok};

use record_core::NoMemory;
use std::alloc::Global;
use std::marker::Model;

/// Lists of numbers, each of the same length, which may be 0; in order, end to end in memory.
#[derive(Drop)]
pub struct Lists {
    arity: usize,
    len: usize,
    values: Vec<i64>,
}

impl Model for Lists {
    ghost use Rattle.std.specs.Prelude.{◌≡◌, ◌*◌, length};
    ghost use Rattle.rows.specs.FlatRows.{RowList, cut};

    ghost Value = { RowList };

    ghost view = { λ l. record { arity = l.arity; rows = cut l.arity l.len l.values.items } };

    ghost invariant = { λ l. length l.values.items ≡ l.len * l.arity };
}

impl Lists {
    /// No lists, of that length. No memory is taken.
    pub fn new(alloc: Global, arity: usize) -> Lists
        ensures { result ≡ record { arity = arity; rows = [] } }
    {
        Lists {
            arity,
            len: 0,
            values: Vec::new(alloc),
        }
    }

    /// How many lists there are.
    #[tactic(auto, using(crate::proofs::Cuts::length_cut))]
    pub fn len(&self) -> usize
        ensures { result ≡ length self.now.rows }
    {
        self.len
    }

    /// A list, by its place from 0.
    #[tactic(auto, using(crate::proofs::Cuts::cut_at, crate::proofs::Cuts::row_ends, crate::proofs::Cuts::length_cut))]
    pub fn list(&self, place: usize) -> &[i64]
        requires { place < length self.now.rows }
        ensures { result.now ≡ slice_index_or self.now.rows place [] }
    {
        let from = place * self.arity;
        &self.values[from..from + self.arity]
    }

    /// Puts a list at the end.
    #[tactic(auto, using(crate::proofs::Cuts::cut_push, crate::proofs::Cuts::length_cut))]
    pub fn push(&mut self, list: &[i64]) -> Result<(), NoMemory>
        requires arity { length list.now ≡ self.old.arity }
        requires few { length self.old.rows + 1 < 2 ^ 64 }
        ensures lists { self.new.rows ≡ (if is_ok result then self.old.rows ++ list.now ∷ [] else self.old.rows) }
        ensures arity { self.new.arity ≡ self.old.arity }
    {
        self.values.extend_from_slice(list)?;
        self.len += 1;
        Ok(())
    }

    /// Replaces a list, by its place from 0.
    #[tactic(auto, using(crate::proofs::Cuts::row_ends, crate::proofs::Cuts::length_cut))]
    pub fn set(&mut self, place: usize, list: &[i64])
        requires place { place < length self.old.rows }
        requires arity { length list.now ≡ self.old.arity }
        ensures lists { self.new.rows ≡ slice_set self.old.rows place list.now }
        ensures arity { self.new.arity ≡ self.old.arity }
    {
        let from = place * self.arity;
        replace(&mut self.values, from, list);
    }
}

/// Writes numbers over those from a place on.
fn replace(values: &mut [i64], from: usize, list: &[i64])
    requires { from + length list.now ≤ length values.old }
    ensures value { values.new ≡ take from values.old ++ list.now ++ drop (from + length list.now) values.old }
    ensures len { length values.new ≡ length values.old }
{
    let (_, rest) = values.split_at_mut(from);
    let (there, _) = rest.split_at_mut(list.len());
    there.copy_from_slice(list);
}
