//! Calls on records alone: batches, and fields by their columns.

ghost use Rattle.std.specs.Prelude.{◌≡◌, length};
ghost use Rattle.std.specs.List.{All};

use crate::built_rows::push_all;
use crate::texts::{fields_in, no_such_call, numbers_of, records_of, said, shown, yes_or_no};
use pages::Subject;
use record_core::Record;
use rows::{Batch, CountedRows, Rows, WorkFault, field};
use std::alloc::{AllocError, Global};

/// Calls that need nothing but what their line says.
#[derive(Drop)]
pub struct Records;

/// The records of a text, whose first one says how many fields they have.
fn counted_of(alloc: Global, text: &str) -> Result<Option<CountedRows>, WorkFault> {
    records_of(alloc, fields_in(text), text)
}

/// A batch: its records, and how many there are.
fn shown_batch(alloc: Global, batch: &Batch) -> Result<String, WorkFault> {
    let records = shown(alloc, batch.counted())?;
    let weight = batch.weight();
    Ok(format!(in alloc; "{records}; {weight} in all")?)
}

/// What a batch, if there is one, shows.
fn shown_if_some(alloc: Global, batch: Option<Batch>) -> Result<String, WorkFault> {
    match batch {
        Some(batch) => shown_batch(alloc, &batch),
        None => Ok(String::from_str(alloc, "no batch")?),
    }
}

/// The records of a text in one batch.
fn merged_of(alloc: Global, text: &str) -> Result<Option<Batch>, WorkFault> {
    match counted_of(alloc, text)? {
        Some(rows) => Ok(Batch::merged(alloc, rows)?),
        None => Ok(None),
    }
}

/// Records with counts, put into one batch.
fn merge(alloc: Global, text: &str) -> Result<String, WorkFault> {
    shown_if_some(alloc, merged_of(alloc, text)?)
}

/// Rows put into one batch, as `1: 7, 8`: rows of 1 field.
fn of_rows(alloc: Global, text: &str) -> Result<String, WorkFault> {
    let (fields, records) = text.split_once(": ").unwrap_or((text, ""));
    let Some(records) = records_of(alloc, fields.parse().unwrap_or(0), records)? else {
        return no_such_call(alloc);
    };
    let mut rows = Rows::new(alloc, records.arity());
    push_all(&mut rows, &records)?;
    shown_if_some(alloc, Batch::from_rows(alloc, rows)?)
}

/// Two batches put together, as `5 x 7 and 5`.
fn together(alloc: Global, text: &str) -> Result<String, WorkFault> {
    let (first, second) = text.split_once(" and ").unwrap_or((text, ""));
    let (Some(first), Some(second)) = (merged_of(alloc, first)?, merged_of(alloc, second)?) else {
        return no_such_call(alloc);
    };
    if second.arity() != first.arity() {
        return no_such_call(alloc);
    }
    let more = vec![in alloc; second]?;
    let batch = Batch::concat(alloc, &first, more.as_slice())?;
    shown_batch(alloc, &batch)
}

/// The batch of two records; nothing where there are not two.
fn of_two(alloc: Global, rows: &CountedRows) -> Result<Option<Batch>, WorkFault> {
    if rows.len() != 2 {
        return Ok(None);
    }
    let (Some(first), Some(second)) = (Record::new(rows.row(0)), Record::new(rows.row(1))) else {
        return Ok(None);
    };
    let records = Vec::from_array(alloc, [first, second])?;
    Ok(Some(Batch::from_records(alloc, records.as_slice())?))
}

/// A batch of two records: what it shows, and its number of different records and of fields.
fn batch(alloc: Global, text: &str) -> Result<String, WorkFault> {
    let Some(rows) = counted_of(alloc, text)? else {
        return no_such_call(alloc);
    };
    let Some(batch) = of_two(alloc, &rows)? else {
        return no_such_call(alloc);
    };
    let shown = shown_batch(alloc, &batch)?;
    let (different, fields) = (batch.len(), batch.arity());
    Ok(format!(in alloc; "{shown}; {different} of {fields}")?)
}

/// Whether the batches of two texts are the same, and whether the first is the same as one that shares it.
fn same(alloc: Global, text: &str) -> Result<String, WorkFault> {
    let (first, second) = text.split_once(" and ").unwrap_or((text, text));
    let (Some(first), Some(second)) = (merged_of(alloc, first)?, merged_of(alloc, second)?) else {
        return no_such_call(alloc);
    };
    let shared = first.share()?;
    yes_or_no(alloc, first.same(&shared) && shared.same(&second))
}

/// The record at a place of a batch, as `1 of 5 6, 5 -6`.
fn record(alloc: Global, text: &str) -> Result<String, WorkFault> {
    let (place, records) = text.split_once(" of ").unwrap_or(("", text));
    match (place.parse::<usize>(), merged_of(alloc, records)?) {
        (Ok(place), Some(batch)) if place < batch.len() => {
            let record = batch.record(place);
            crate::texts::shown_row(alloc, record.fields())
        }
        _ => no_such_call(alloc),
    }
}

/// The number in a column of a row, as `#1 of 3 -4`.
fn column(alloc: Global, text: &str) -> Result<String, WorkFault> {
    let (column, row) = text.split_once(" of ").unwrap_or((text, ""));
    match (column.parse::<u64>(), numbers_of(alloc, row)?) {
        (Ok(column), Some(row)) => {
            let number = field(row.as_slice(), column);
            Ok(format!(in alloc; "{number}")?)
        }
        _ => no_such_call(alloc),
    }
}

/// What a call is answered.
fn reply(alloc: Global, subject: &mut Records, call: &str) -> Result<String, WorkFault> {
    let (verb, rest) = call.split_once(' ').unwrap_or((call, ""));
    match verb {
        "merge" => merge(alloc, rest),
        "rows" => of_rows(alloc, rest),
        "together" => together(alloc, rest),
        "batch" => batch(alloc, rest),
        "same" => same(alloc, rest),
        "record" => record(alloc, rest),
        "column" => column(alloc, rest),
        _ => no_such_call(alloc),
    }
}

impl Subject for Records {
    fn answer(&mut self, alloc: Global, call: &str) -> Result<String, AllocError> {
        said(alloc, reply(alloc, self, call))
    }
}
