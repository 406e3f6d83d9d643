//! Numbers and records as texts.

use rows::{CountedRows, MAX_ARITY, MAX_COUNT, WorkFault};
use std::alloc::{AllocError, Global};

/// What a call is answered, or why it is refused.
pub fn said(alloc: Global, answer: Result<String, WorkFault>) -> Result<String, AllocError> {
    match answer {
        Ok(text) => Ok(text),
        Err(fault) => String::from_str(alloc, reason(fault)),
    }
}

fn reason(fault: WorkFault) -> &'static str {
    match fault {
        WorkFault::Count => "too often",
        WorkFault::NoMemory => "no memory",
    }
}

/// What a block is about, or why there is none.
pub fn named<S: Drop>(made: Result<Option<S>, WorkFault>) -> Result<S, &'static str> {
    match made {
        Ok(Some(subject)) => Ok(subject),
        Ok(None) => Err("no such subject"),
        Err(fault) => Err(reason(fault)),
    }
}

/// A text of a call's own.
pub fn text(alloc: Global, words: &str) -> Result<String, WorkFault> {
    Ok(String::from_str(alloc, words)?)
}

/// What is answered to a call that changes something.
pub fn done(alloc: Global) -> Result<String, WorkFault> {
    text(alloc, "")
}

/// What is answered to a call that can't be made.
pub fn no_such_call(alloc: Global) -> Result<String, WorkFault> {
    text(alloc, "no such call")
}

pub fn yes_or_no(alloc: Global, answer: bool) -> Result<String, WorkFault> {
    text(alloc, if answer { "yes" } else { "no" })
}

pub fn number(alloc: Global, number: usize) -> Result<String, WorkFault> {
    Ok(format!(in alloc; "{number}")?)
}

/// The numbers of a text `5 -7`; none of `nothing`. `None` where it isn't of numbers.
pub fn numbers_of(alloc: Global, text: &str) -> Result<Option<Vec<i64>>, AllocError> {
    let mut numbers = Vec::new(alloc);
    if text == "nothing" {
        return Ok(Some(numbers));
    }
    for word in text.split(' ') {
        match word.parse() {
            Ok(number) => numbers.push(number)?,
            Err(_) => return Ok(None),
        }
    }
    Ok(Some(numbers))
}

/// The columns of a text `#1 #0`; none of `nothing`.
pub fn columns_of(alloc: Global, text: &str) -> Result<Option<Vec<u64>>, AllocError> {
    let mut columns = Vec::new(alloc);
    if text == "nothing" {
        return Ok(Some(columns));
    }
    for word in text.split(' ') {
        match word.strip_prefix("#").map(|digits| digits.parse()) {
            Some(Ok(column)) => columns.push(column)?,
            _ => return Ok(None),
        }
    }
    Ok(Some(columns))
}

/// Puts a record of one field at the end; false where they don't have one field.
fn push_field(rows: &mut CountedRows, field: i64) -> Result<bool, WorkFault> {
    if rows.arity() != 1 {
        return Ok(false);
    }
    rows.push(&[field], 1)?;
    Ok(true)
}

/// Puts the records of one field of a text `1 to 70` at the end; false where there are none.
fn push_range(rows: &mut CountedRows, from: &str, to: &str) -> Result<bool, WorkFault> {
    let (Ok(from), Ok(to)) = (from.parse::<i64>(), to.parse::<i64>()) else {
        return Ok(false);
    };
    for field in from..to {
        if !push_field(rows, field)? {
            return Ok(false);
        }
    }
    push_field(rows, to)
}

/// Puts the record of a text `5 -7 x 2`, or the records of `1 to 70`, at the end; false where there are none of that many fields.
fn push(alloc: Global, rows: &mut CountedRows, text: &str) -> Result<bool, WorkFault> {
    if let Some((from, to)) = text.split_once(" to ") {
        return push_range(rows, from, to);
    }
    let (fields, times) = text.split_once(" x ").unwrap_or((text, "1"));
    let count: u64 = times.parse().unwrap_or(0);
    let Some(row) = numbers_of(alloc, fields)? else {
        return Ok(false);
    };
    if row.len() != rows.arity() || count == 0 || count > MAX_COUNT {
        return Ok(false);
    }
    rows.push(row.as_slice(), count)?;
    Ok(true)
}

/// The records of a text `5 -7 x 2, 6 7`; none of `nothing`. `None` where it isn't of records of that many fields.
pub fn records_of(
    alloc: Global,
    fields: usize,
    text: &str,
) -> Result<Option<CountedRows>, WorkFault> {
    if fields == 0 || fields > MAX_ARITY {
        return Ok(None);
    }
    let mut rows = CountedRows::new(alloc, fields);
    if text == "nothing" {
        return Ok(Some(rows));
    }
    for record in text.split(", ") {
        if !push(alloc, &mut rows, record)? {
            return Ok(None);
        }
    }
    Ok(Some(rows))
}

/// How many fields the first record of a text has.
pub fn fields_in(text: &str) -> usize {
    let (first, _) = text.split_once(", ").unwrap_or((text, ""));
    let (fields, _) = first.split_once(" x ").unwrap_or((first, ""));
    fields.split(' ').count()
}

/// Puts a row and its count behind a text.
pub fn show(alloc: Global, text: &mut String, row: &[i64], count: u64) -> Result<(), AllocError> {
    if !text.is_empty() {
        text.push_str(", ")?;
    }
    for (place, field) in row.iter().enumerate() {
        let space = if place == 0 { "" } else { " " };
        text.push_str(format!(in alloc; "{space}{field}")?.as_str())?;
    }
    if count != 1 {
        text.push_str(format!(in alloc; " x {count}")?.as_str())?;
    }
    Ok(())
}

/// The text, or `nothing` where it is empty.
pub fn or_nothing(mut text: String) -> Result<String, WorkFault> {
    if text.is_empty() {
        text.push_str("nothing")?;
    }
    Ok(text)
}

/// Rows with their counts, as a text.
pub fn shown(alloc: Global, rows: &CountedRows) -> Result<String, WorkFault> {
    let mut text = String::new(alloc);
    for place in 0..rows.len() {
        show(alloc, &mut text, rows.row(place), rows.count(place))?;
    }
    or_nothing(text)
}

/// One row as a text.
pub fn shown_row(alloc: Global, row: &[i64]) -> Result<String, WorkFault> {
    let mut text = String::new(alloc);
    show(alloc, &mut text, row, 1)?;
    Ok(text)
}
