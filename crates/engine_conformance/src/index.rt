//! Rows that are found by key columns, and counted beside.

ghost use Rattle.std.specs.Prelude.{◌≡◌};
ghost use Rattle.rows.specs.Counts.{rows_of};

use crate::texts::{
    columns_of, done, fields_in, no_such_call, number, records_of, said, shown, yes_or_no,
};
use pages::Subject;
use rows::{Batch, CountedRows, MAX_ARITY, RowIndex, Tally, WorkFault};
use std::alloc::{AllocError, Global};
use std::marker::Model;

/// An index, and the counts of its rows. After a refusal both may have other rows, and nothing is asked any more.
#[derive(Drop)]
pub struct CountedIndex {
    index: RowIndex,
    tally: Tally,
    is_whole: bool,
}

impl Model for CountedIndex {
    ghost use Rattle.std.specs.Prelude.{◌≡◌, ℕ, Bool, true};
    ghost use Rattle.rows.specs.Counts.{rows_of};

    ghost Value = { Bool };

    ghost view = { λ s. s.is_whole };

    ghost invariant = { λ s. (s.tally.arity ≡ s.index.arity) × (s.is_whole ≡ true → rows_of s.tally.runs ≡ s.index.rows) };
}

/// The index of a first line `index of 2 by #0`.
pub fn new_index(alloc: Global, text: &str) -> Result<Option<CountedIndex>, WorkFault> {
    let (fields, columns) = text.split_once(" by ").unwrap_or((text, ""));
    let fields: usize = fields.parse().unwrap_or(0);
    let Some(columns) = columns_of(alloc, columns)? else {
        return Ok(None);
    };
    if fields == 0 || fields > MAX_ARITY {
        return Ok(None);
    }
    let index = RowIndex::new(alloc, columns, fields)?;
    let tally = Tally::new(alloc, fields)?;
    Ok(Some(CountedIndex {
        index,
        tally,
        is_whole: true,
    }))
}

impl CountedIndex {
    /// Counts a row in, and puts it in the index where it is new: both keep the same rows in the same order.
    fn count_in(&mut self, row: &[i64], count: u64) -> Result<(), WorkFault> {
        if row.len() != self.index.arity()
            || count == 0
            || count > rows::MAX_COUNT
            || !self.is_whole
        {
            return Ok(());
        }
        self.is_whole = false;
        if self.tally.add(row, count)? {
            self.index.add(row)?;
        }
        self.is_whole = true;
        Ok(())
    }

    /// Counts rows in, one after the other.
    fn add(&mut self, alloc: Global, records: &str) -> Result<String, WorkFault> {
        let Some(rows) = records_of(alloc, self.index.arity(), records)? else {
            return no_such_call(alloc);
        };
        for place in 0..rows.len() {
            self.count_in(rows.row(place), rows.count(place))?;
        }
        done(alloc)
    }

    /// Takes rows at once, where there was none.
    fn begin(&mut self, alloc: Global, records: &str) -> Result<String, WorkFault> {
        let Some(rows) = records_of(alloc, self.index.arity(), records)? else {
            return no_such_call(alloc);
        };
        let Some(batch) = Batch::merged(alloc, rows)? else {
            return no_such_call(alloc);
        };
        if !self.is_whole
            || !self.tally.is_empty()
            || batch.len() == 0
            || batch.arity() != self.index.arity()
        {
            return no_such_call(alloc);
        }
        self.is_whole = false;
        self.tally.begin(batch.counted())?;
        self.index.extend(batch.counted())?;
        self.is_whole = true;
        done(alloc)
    }

    /// Lets go of all rows.
    fn renew(&mut self, alloc: Global) -> Result<String, WorkFault> {
        let index = self.index.fresh()?;
        let tally = self.tally.fresh()?;
        self.index = index;
        self.tally = tally;
        self.is_whole = true;
        done(alloc)
    }

    /// Puts the rows that agree with an item at the end of `out`, behind the item's own fields or before them.
    fn join(
        &self,
        columns: &[u64],
        item: &[i64],
        count: u64,
        before: bool,
        out: &mut CountedRows,
    ) -> Result<(), WorkFault> {
        if !self.is_whole
            || count == 0
            || item.len() > MAX_ARITY
            || out.arity() != item.len() + self.index.arity()
        {
            return Ok(());
        }
        if before {
            self.index
                .join_counted_before(columns, item, count, &self.tally, out)
        } else {
            self.index
                .join_counted(columns, item, count, &self.tally, out)
        }
    }

    /// What items are joined to, as `7 x 2, 8 by #0`.
    fn joined(&self, alloc: Global, text: &str, before: bool) -> Result<String, WorkFault> {
        let (items, columns) = text.split_once(" by ").unwrap_or((text, ""));
        let Some(columns) = columns_of(alloc, columns)? else {
            return no_such_call(alloc);
        };
        let Some(items) = records_of(alloc, fields_in(items), items)? else {
            return no_such_call(alloc);
        };
        if items.arity() > MAX_ARITY || items.arity() + self.index.arity() > MAX_ARITY {
            return no_such_call(alloc);
        }
        let mut out = CountedRows::new(alloc, items.arity() + self.index.arity());
        for place in 0..items.len() {
            let (item, count) = (items.row(place), items.count(place));
            self.join(columns.as_slice(), item, count, before, &mut out)?;
        }
        shown(alloc, &out)
    }

    fn settle(&mut self, alloc: Global) -> Result<String, WorkFault> {
        self.index.settle()?;
        done(alloc)
    }
}

/// What a call is answered.
fn reply(alloc: Global, subject: &mut CountedIndex, call: &str) -> Result<String, WorkFault> {
    let (verb, rest) = call.split_once(' ').unwrap_or((call, ""));
    match verb {
        "add" => subject.add(alloc, rest),
        "begin" => subject.begin(alloc, rest),
        "renew" => subject.renew(alloc),
        "settle" => subject.settle(alloc),
        "behind" => subject.joined(alloc, rest, false),
        "before" => subject.joined(alloc, rest, true),
        "arity" => number(alloc, subject.index.arity()),
        "length" => number(alloc, subject.index.len()),
        "empty" => yes_or_no(alloc, subject.tally.is_empty()),
        _ => no_such_call(alloc),
    }
}

impl Subject for CountedIndex {
    fn answer(&mut self, alloc: Global, call: &str) -> Result<String, AllocError> {
        said(alloc, reply(alloc, self, call))
    }
}
