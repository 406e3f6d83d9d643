//! Schedule texts: the steps of their lines, and the first line that is none.

use crate::texts::{add, word};
use schedule::{Fault, Line, ScheduleRefusal, ViewKind, read_schedule};
use std::alloc::{AllocError, Global};

fn with_one(alloc: Global, verb: &str, number: u32) -> Result<String, AllocError> {
    format!(in alloc; "{verb} {number}")
}

fn with_two(alloc: Global, verb: &str, first: u32, second: u32) -> Result<String, AllocError> {
    format!(in alloc; "{verb} {first} {second}")
}

fn feed(alloc: Global, fields: &[i64]) -> Result<String, AllocError> {
    let count = fields.len();
    format!(in alloc; "feed {count} fields")
}

/// A step as a text.
fn shown(alloc: Global, line: &Line<'_>) -> Result<String, AllocError> {
    match line {
        Line::Feed { fields, .. } => feed(alloc, fields.as_slice()),
        Line::Seal { .. } => word(alloc, "seal"),
        Line::Close { .. } => word(alloc, "close"),
        Line::Take { worker, choice } => with_two(alloc, "take", *worker, *choice),
        Line::Commit { worker } => with_one(alloc, "commit", *worker),
        Line::Deliver { worker, choice } => with_two(alloc, "deliver", *worker, *choice),
        Line::Print { epoch } => with_one(alloc, "print", *epoch),
        Line::Apply { worker, sender } => with_two(alloc, "apply", *worker, *sender),
    }
}

fn listed(alloc: Global, lines: &[Line<'_>]) -> Result<String, AllocError> {
    let mut list = String::new(alloc);
    for line in lines {
        add(&mut list, shown(alloc, line)?.as_str())?;
    }
    if list.is_empty() {
        return word(alloc, "nothing");
    }
    Ok(list)
}

/// The steps of a schedule text, or why it is refused.
pub fn steps(alloc: Global, kind: ViewKind, text: &[u8]) -> Result<String, AllocError> {
    match read_schedule(alloc, kind, text) {
        Ok(lines) => listed(alloc, lines.as_slice()),
        Err(refusal) => format!(in alloc; "{refusal}"),
    }
}

/// What is said of a fault.
pub fn message(alloc: Global, fault: &str) -> Result<String, AllocError> {
    let no_memory = ScheduleRefusal::NoMemory;
    match fault {
        "malformed" => format!(in alloc; "{}", Fault::Malformed),
        "bad number" => format!(in alloc; "{}", Fault::BadNumber),
        "no memory" => format!(in alloc; "{no_memory}"),
        _ => word(alloc, "no such fault"),
    }
}
