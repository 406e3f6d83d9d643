//! Sets of rows.

ghost use Rattle.std.specs.Prelude.{◌≡◌};

use crate::texts::{no_such_call, number, records_of, said, shown_row, yes_or_no};
use pages::Subject;
use rows::{CountedRows, MAX_ARITY, RowSet, WorkFault};
use std::alloc::{AllocError, Global};

/// A set.
#[derive(Drop)]
pub struct PageSet {
    inner: RowSet,
}

/// The set of a first line `set of 2`.
pub fn new_set(alloc: Global, text: &str) -> Result<Option<PageSet>, WorkFault> {
    let fields: usize = text.parse().unwrap_or(0);
    if fields == 0 || fields > MAX_ARITY {
        return Ok(None);
    }
    Ok(Some(PageSet {
        inner: RowSet::new(alloc, fields)?,
    }))
}

/// Whether a row is new; no where it has another number of fields.
fn insert_one(set: &mut RowSet, row: &[i64]) -> Result<bool, WorkFault> {
    Ok(row.len() == set.arity() && set.insert_new(row)?)
}

/// How many of the rows are new; none where they have another number of fields.
fn new_rows(set: &mut RowSet, rows: &CountedRows) -> Result<Option<usize>, WorkFault> {
    if rows.arity() != set.arity() {
        return Ok(None);
    }
    let mut count = 0usize;
    for place in 0..rows.len() {
        if insert_one(set, rows.row(place))? {
            count = count.saturating_add(1);
        }
    }
    Ok(Some(count))
}

/// Inserts rows: how many are new.
fn insert(alloc: Global, set: &mut RowSet, records: &str) -> Result<String, WorkFault> {
    let Some(rows) = records_of(alloc, set.arity(), records)? else {
        return no_such_call(alloc);
    };
    match new_rows(set, &rows)? {
        Some(count) => Ok(format!(in alloc; "{count} new")?),
        None => no_such_call(alloc),
    }
}

/// Whether the set has the first of these rows.
fn contains(alloc: Global, set: &RowSet, records: &str) -> Result<String, WorkFault> {
    match records_of(alloc, set.arity(), records)? {
        Some(rows) if !rows.is_empty() => yes_or_no(alloc, set.contains(rows.row(0))),
        _ => no_such_call(alloc),
    }
}

/// The place of the first of these rows, which is put in if it isn't there.
fn place(alloc: Global, set: &mut RowSet, records: &str) -> Result<String, WorkFault> {
    let Some(rows) = records_of(alloc, set.arity(), records)? else {
        return no_such_call(alloc);
    };
    if rows.is_empty() || rows.arity() != set.arity() {
        return no_such_call(alloc);
    }
    let place = set.place(rows.row(0))?;
    number(alloc, place)
}

/// The row at a place.
fn row(alloc: Global, set: &RowSet, text: &str) -> Result<String, WorkFault> {
    match text.parse::<usize>() {
        Ok(place) if place < set.len() => shown_row(alloc, set.row(place)),
        _ => no_such_call(alloc),
    }
}

/// The numbers of rows and of fields of a fresh set.
fn fresh(alloc: Global, set: &RowSet) -> Result<String, WorkFault> {
    let fresh = set.fresh()?;
    let (rows, fields) = (fresh.len(), fresh.arity());
    Ok(format!(in alloc; "{rows} of {fields}")?)
}

/// What a call is answered.
fn reply(alloc: Global, subject: &mut RowSet, call: &str) -> Result<String, WorkFault> {
    let (verb, rest) = call.split_once(' ').unwrap_or((call, ""));
    match verb {
        "insert" => insert(alloc, subject, rest),
        "contains" => contains(alloc, subject, rest),
        "place" => place(alloc, subject, rest),
        "row" => row(alloc, subject, rest),
        "fresh" => fresh(alloc, subject),
        "arity" => number(alloc, subject.arity()),
        "length" => number(alloc, subject.len()),
        _ => no_such_call(alloc),
    }
}

impl Subject for PageSet {
    fn answer(&mut self, alloc: Global, call: &str) -> Result<String, AllocError> {
        said(alloc, reply(alloc, &mut self.inner, call))
    }
}
