//! Rows while they are built.

use crate::texts::{
    done, no_such_call, number, numbers_of, or_nothing, records_of, said, show, yes_or_no,
};
use pages::Subject;
use rows::{CountedRows, MAX_ARITY, Rows, WorkFault};
use std::alloc::{AllocError, Global};

/// Rows while they are built.
#[derive(Drop)]
pub struct PageRows {
    inner: Rows,
}

/// The rows of a first line `rows of 3` or `rows of 3 with room for 2`.
pub fn new_rows(alloc: Global, text: &str) -> Result<Option<PageRows>, WorkFault> {
    let (fields, room) = text.split_once(" with room for ").unwrap_or((text, ""));
    let fields: usize = fields.parse().unwrap_or(0);
    if fields == 0 || fields > MAX_ARITY {
        return Ok(None);
    }
    match room.parse::<usize>() {
        Ok(room) => Ok(Some(PageRows {
            inner: Rows::with_capacity(alloc, fields, room)?,
        })),
        Err(_) => Ok(Some(PageRows {
            inner: Rows::new(alloc, fields),
        })),
    }
}

/// The rows of a text `2: 3 4, 5 6`, each with 2 fields.
fn rows_of(alloc: Global, text: &str) -> Result<Option<Rows>, WorkFault> {
    let (fields, records) = text.split_once(": ").unwrap_or((text, "nothing"));
    let Some(records) = records_of(alloc, fields.parse().unwrap_or(0), records)? else {
        return Ok(None);
    };
    let mut rows = Rows::new(alloc, records.arity());
    push_all(&mut rows, &records)?;
    Ok(Some(rows))
}

/// Puts a row at the end, where it has as many fields.
fn push_one(rows: &mut Rows, row: &[i64]) -> Result<(), WorkFault> {
    if row.len() == rows.arity() {
        rows.push(row)?;
    }
    Ok(())
}

/// Puts records at the end, each once, where they have as many fields.
pub fn push_all(rows: &mut Rows, records: &CountedRows) -> Result<bool, WorkFault> {
    if records.arity() != rows.arity() {
        return Ok(false);
    }
    for place in 0..records.len() {
        push_one(rows, records.row(place))?;
    }
    Ok(true)
}

/// Puts rows at the end.
fn push(alloc: Global, rows: &mut Rows, records: &str) -> Result<String, WorkFault> {
    match records_of(alloc, rows.arity(), records)? {
        Some(records) if push_all(rows, &records)? => done(alloc),
        _ => no_such_call(alloc),
    }
}

/// Puts a row at the end that is made of two, as `4 and 5 6`.
fn push_joined(alloc: Global, rows: &mut Rows, text: &str) -> Result<String, WorkFault> {
    let (left, right) = text.split_once(" and ").unwrap_or((text, "nothing"));
    let (Some(left), Some(right)) = (numbers_of(alloc, left)?, numbers_of(alloc, right)?) else {
        return no_such_call(alloc);
    };
    if left.len() > MAX_ARITY
        || right.len() > MAX_ARITY
        || left.len() + right.len() != rows.arity()
    {
        return no_such_call(alloc);
    }
    rows.push_joined(left.as_slice(), right.as_slice())?;
    done(alloc)
}

/// The rows behind others of as many fields.
fn behind(alloc: Global, rows: &Rows, text: &str) -> Result<String, WorkFault> {
    match rows_of(alloc, text)? {
        Some(mut others) if others.arity() == rows.arity() => {
            others.extend(rows)?;
            all(alloc, &others)
        }
        _ => no_such_call(alloc),
    }
}

/// Whether others are the same.
fn same(alloc: Global, rows: &Rows, text: &str) -> Result<String, WorkFault> {
    match rows_of(alloc, text)? {
        Some(others) => yes_or_no(alloc, rows.same(&others)),
        None => no_such_call(alloc),
    }
}

fn reserve(alloc: Global, rows: &mut Rows, text: &str) -> Result<String, WorkFault> {
    match text.parse() {
        Ok(room) => {
            rows.reserve(room)?;
            done(alloc)
        }
        Err(_) => no_such_call(alloc),
    }
}

/// The rows, as a text.
fn all(alloc: Global, rows: &Rows) -> Result<String, WorkFault> {
    let mut text = String::new(alloc);
    for place in 0..rows.len() {
        show(alloc, &mut text, rows.row(place), 1)?;
    }
    or_nothing(text)
}

/// What a call is answered.
fn reply(alloc: Global, subject: &mut Rows, call: &str) -> Result<String, WorkFault> {
    let (verb, rest) = call.split_once(' ').unwrap_or((call, ""));
    match verb {
        "push" => push(alloc, subject, rest),
        "join" => push_joined(alloc, subject, rest),
        "reserve" => reserve(alloc, subject, rest),
        "behind" => behind(alloc, subject, rest),
        "same" => same(alloc, subject, rest),
        "all" => all(alloc, subject),
        "arity" => number(alloc, subject.arity()),
        "length" => number(alloc, subject.len()),
        "empty" => yes_or_no(alloc, subject.is_empty()),
        _ => no_such_call(alloc),
    }
}

impl Subject for PageRows {
    fn answer(&mut self, alloc: Global, call: &str) -> Result<String, AllocError> {
        said(alloc, reply(alloc, &mut self.inner, call))
    }
}
