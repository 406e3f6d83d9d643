//! Records grouped by key.

ghost use Rattle.std.specs.Prelude.{◌≡◌, ◌≤◌, ◌+◌, ◌++◌, ◌+ℤ◌, ◌*ℤ◌, ◌∷◌, [], length, map};
ghost use Rattle.std.specs.Int.{int_wrap, w64};
ghost use Rattle.expr_tree.specs.Plain.{plain_agg};
ghost use Rattle.operators.specs.Aggregates.{begun, stored_key, weighed, weighed_all};
ghost use Rattle.semantics.specs.Meaning.{project};
ghost use Rattle.semantics.specs.Limits.{max_fields};

use arrayvec::ArrayVec;
use expr_tree::{Agg, Column};
use rows::field;
use std::marker::Model;

/// A record for each key that is present: the key's columns, then the aggregates of the records with that key. Without columns all
/// records are one group. There are 1 to 16 columns and aggregates.
#[derive(Drop)]
pub struct Group {
    pub columns: Vec<Column>,
    pub aggregates: Vec<Agg>,
    pub ghost some: { 1 ≤ length columns.items + length aggregates.items },
    pub ghost few: { length columns.items + length aggregates.items ≤ max_fields },
}

/// At most 16 numbers, stored inline: a key, or a key's aggregates.
#[derive(Drop)]
pub struct Numbers {
    items: ArrayVec<i64, 16>,
}

impl Model for Numbers {
    ghost use Rattle.std.specs.Prelude.{List, ℤ, ◌≤◌, length};
    ghost use Rattle.semantics.specs.Limits.{max_fields};

    ghost Value = { List ℤ };

    ghost view = { λ n. n.items.items };

    ghost invariant = { λ n. length n.items.items ≤ max_fields };
}

impl Numbers {
    /// An empty list.
    pub fn new() -> Numbers
        ensures { result ≡ [] }
    {
        Numbers {
            items: ArrayVec::new(),
        }
    }

    pub fn as_slice(&self) -> &[i64]
        ensures { result.now ≡ self.now }
    {
        self.items.as_slice()
    }

    fn clear(&mut self)
        ensures { self.new ≡ [] }
    {
        self.items.clear();
    }

    fn push(&mut self, number: i64)
        requires { length self.old + 1 ≤ max_fields }
        ensures { self.new ≡ self.old ++ number ∷ [] }
    {
        self.items.push(number);
    }
}

impl Group {
    /// Sets `key` to what represents the key of a record: the key, or a 0 if the group has no columns.
    pub fn key(&self, row: &[i64], key: &mut Numbers)
        ensures { key.new ≡ stored_key (map (λ k. k.index) self.now.columns.items) row.now }
    {
        key.clear();
        put_key(key, &self.columns, row);
    }

    /// Sets `values` to the aggregates of one record with this count.
    pub fn begin(&self, row: &[i64], count: u64, values: &mut Numbers)
        requires { count ≤ 9223372036854775807 }
        ensures { values.new ≡ map (λ a. begun a row.now count) (map plain_agg self.now.aggregates.items) }
    {
        values.clear();
        push_begun(values, &self.aggregates, row, count);
    }

    /// Sets `weighed` to the aggregates with a record of this count added, in one step whatever the count.
    pub fn weigh(&self, values: &[i64], row: &[i64], count: u64, weighed: &mut Numbers)
        requires { count ≤ 9223372036854775807 }
        ensures { weighed.new ≡ weighed_all (map plain_agg self.now.aggregates.items) values.now row.now count }
    {
        weighed.clear();
        push_weighed(weighed, &self.aggregates, values, row, count);
    }
}

/// Appends what represents the key to an empty list.
fn put_key(key: &mut Numbers, columns: &[Column], row: &[i64])
    requires none { key.old ≡ [] }
    requires few { length columns.now ≤ max_fields }
    ensures { key.new ≡ stored_key (map (λ k. k.index) columns.now) row.now }
{
    if let [_, ..] = columns {
        push_columns(key, columns, row);
    } else {
        key.push(0);
    }
}

/// Appends the columns of a row.
fn push_columns(key: &mut Numbers, columns: &[Column], row: &[i64])
    requires { length key.old + length columns.now ≤ max_fields }
    ensures { key.new ≡ key.old ++ project (map (λ k. k.index) columns.now) row.now }
{
    if let [first, rest @ ..] = columns {
        key.push(field(row, first.index));
        push_columns(key, rest, row);
    }
}

/// Appends the aggregates of one record with this count.
fn push_begun(values: &mut Numbers, aggregates: &[Agg], row: &[i64], count: u64)
    requires room { length values.old + length aggregates.now ≤ max_fields }
    requires count { count ≤ 9223372036854775807 }
    ensures { values.new ≡ values.old ++ map (λ a. begun a row.now count) (map plain_agg aggregates.now) }
{
    if let [first, rest @ ..] = aggregates {
        values.push(begin(first, row, count));
        push_begun(values, rest, row, count);
    }
}

/// Appends the aggregates with a record of this count added.
fn push_weighed(made: &mut Numbers, aggregates: &[Agg], values: &[i64], row: &[i64], count: u64)
    requires room { length made.old + length aggregates.now ≤ max_fields }
    requires count { count ≤ 9223372036854775807 }
    ensures { made.new ≡ made.old ++ weighed_all (map plain_agg aggregates.now) values.now row.now count }
{
    if let [first, rest @ ..] = aggregates {
        if let [value, others @ ..] = values {
            made.push(weigh(first, *value, row, count));
            push_weighed(made, rest, others, row, count);
        }
    }
}

/// The sum, wrapped at 64 bits.
fn plus(left: i64, right: i64) -> i64
    ensures { result ≡ int_wrap w64 (left +ℤ right) }
{
    left.wrapping_add(right)
}

/// An aggregate of one record with this count.
fn begin(aggregate: &Agg, row: &[i64], count: u64) -> i64
    requires { count ≤ 9223372036854775807 }
    ensures { result ≡ begun (plain_agg aggregate.now) row.now count }
{
    match aggregate {
        Agg::Count(_) => plus(count as i64, 0),
        Agg::Sum(_, column) => times(count as i64, field(row, column.index)),
        Agg::Min(_, column) => field(row, column.index),
        Agg::Max(_, column) => field(row, column.index),
    }
}

/// An aggregate with a record of this count added.
fn weigh(aggregate: &Agg, value: i64, row: &[i64], count: u64) -> i64
    requires { count ≤ 9223372036854775807 }
    ensures { result ≡ weighed (plain_agg aggregate.now) value row.now count }
{
    let count = count as i64;
    match aggregate {
        Agg::Count(_) => plus(value, count),
        Agg::Sum(_, column) => plus(value, times(count, field(row, column.index))),
        Agg::Min(_, column) => field(row, column.index).min(value),
        Agg::Max(_, column) => field(row, column.index).max(value),
    }
}

/// The product, wrapped at 64 bits.
fn times(left: i64, right: i64) -> i64
    ensures { result ≡ int_wrap w64 (left *ℤ right) }
{
    left.wrapping_mul(right)
}
