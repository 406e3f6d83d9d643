//! The groups of counted records.

ghost use Rattle.std.specs.Prelude.{◌≡◌, ◌+◌, ◌<◌, ◌++◌, ◌∷◌, List, [], length, map, IfOk, OnOk, ◌≤◌};
ghost use Rattle.rows.specs.Counts.{expanded, most, repeated};
ghost use Rattle.rows.specs.Indexes.{AreDifferent};
ghost use Rattle.semantics.specs.Limits.{max_fields};
ghost use Rattle.semantics.specs.Multiset.{Record, ◌≈◌};
ghost use Rattle.vertices.specs.Groups.{AreGroupsOf, columns_of, group_record, group_records, key_arity, shown_key};

use expr_tree::Column;
use operators::{Group, Numbers};
use record_core::NoMemory;
use rows::{CountedRows, Lists, RowSet, Rows};
use std::alloc::Global;

/// The keys that are present, and for each, by its place, the aggregates of its records.
#[derive(Drop)]
pub struct Groups {
    pub(crate) keys: RowSet,
    pub(crate) values: Lists,
}

impl Groups {
    /// No group. `no_keys` is a set of keys without any.
    pub(crate) fn new(alloc: Global, operator: &Group, no_keys: &RowSet) -> Result<Groups, NoMemory>
        requires { no_keys.now.arity ≡ key_arity (columns_of operator.now) }
        ensures { IfOk result (λ g. AreGroupsOf operator.now g []) }
    {
        Ok(Groups {
            keys: no_keys.fresh()?,
            values: Lists::new(alloc, operator.aggregates.len()),
        })
    }

    /// Takes a record that occurs that many times into the group of its key. `key` and `values` are room to work in.
    fn count_in(
        &mut self,
        operator: &Group,
        row: &[i64],
        count: u64,
        key: &mut Numbers,
        values: &mut Numbers,
    ) -> Result<(), NoMemory>
        requires whole { (xs : List Record) × AreGroupsOf operator.now self.old xs }
        requires some { 1 ≤ count }
        requires fits { count ≤ most }
        ensures { OnOk result ((xs : List Record) → AreGroupsOf operator.now self.old xs → AreGroupsOf operator.now self.new (xs ++ repeated count row.now)) }
    {
        operator.key(row, key);
        let place = self.keys.place(key.as_slice())?;
        let _count = self.keys.len();
        if place < self.values.len() {
            operator.weigh(self.values.list(place), row, count, values);
            self.values.set(place, values.as_slice());
        } else {
            operator.begin(row, count, values);
            self.values.push(values.as_slice())?;
        }
        Ok(())
    }

    /// Takes counted records into the groups of their keys.
    pub(crate) fn absorb(&mut self, operator: &Group, rows: &CountedRows) -> Result<(), NoMemory>
        requires { (xs : List Record) × AreGroupsOf operator.now self.old xs }
        ensures { OnOk result ((xs : List Record) → AreGroupsOf operator.now self.old xs → AreGroupsOf operator.now self.new (xs ++ expanded rows.now.runs)) }
    {
        let mut key = Numbers::new();
        let mut values = Numbers::new();
        for place in 0..rows.len() {
            self.count_in(
                operator,
                rows.row(place),
                rows.count(place),
                &mut key,
                &mut values,
            )?;
        }
        Ok(())
    }

    /// A record for each group: its key, then its aggregates.
    pub(crate) fn finished(&self, alloc: Global, operator: &Group) -> Result<Rows, NoMemory>
        requires { (xs : List Record) × AreGroupsOf operator.now self.now xs }
        ensures grouped { IfOk result (λ rows. (xs : List Record) → AreGroupsOf operator.now self.now xs → rows.rows ≈ group_records operator.now xs) }
        ensures different { IfOk result (λ rows. AreDifferent rows.rows) }
    {
        let arity = operator.columns.len() + operator.aggregates.len();
        let mut rows = Rows::with_capacity(alloc, arity, self.keys.len())?;
        for place in 0..self.keys.len() {
            self.finish(operator, place, &mut rows)?;
        }
        Ok(rows)
    }

    /// The record of one group.
    fn finish(&self, operator: &Group, place: usize, rows: &mut Rows) -> Result<(), NoMemory>
        requires whole { (xs : List Record) × AreGroupsOf operator.now self.now xs }
        requires place { place < length self.now.keys.rows }
        requires arity { rows.old.arity ≡ length operator.now.columns.items + length operator.now.aggregates.items }
        ensures rows { OnOk result (rows.new.rows ≡ rows.old.rows ++ group_record operator.now self.now place ∷ []) }
        ensures arity { rows.new.arity ≡ rows.old.arity }
    {
        let key = self.keys.row(place);
        rows.push_joined(shown_key(&operator.columns, key), self.values.list(place))?;
        Ok(())
    }
}

/// How many numbers a stored key has: one at least.
pub(crate) fn key_arity(columns: &[Column]) -> usize
    requires { length columns.now ≤ max_fields }
    ensures value { result ≡ key_arity (map (λ k. k.index) columns.now) }
    ensures some { 1 ≤ result }
    ensures few { result ≤ max_fields }
{
    match columns {
        [] => 1,
        _ => columns.len(),
    }
}

/// What is shown of a stored key: nothing where there are no columns.
fn shown_key<'a>(columns: &[Column], key: &'a [i64]) -> &'a [i64]
    ensures { result.now ≡ shown_key (map (λ k. k.index) columns.now) key.now }
{
    match columns {
        [] => &[],
        _ => key,
    }
}
