//! Calls on routes: the workers of keys and of records, and batches that are split among workers.

ghost use Rattle.std.specs.Prelude.{◌<◌, ◌≤◌, IfSome};
ghost use Rattle.semantics.specs.Limits.{max_workers};

use crate::texts::{columns_of, fields_in, no_such_call, numbers_of, records_of, said, shown};
use exchange::{MAX_WORKERS, Parcels, Routing, route, split};
use pages::Subject;
use rows::{Batch, WorkFault};
use std::alloc::{AllocError, Global};

/// Calls that need nothing but what their line says.
#[derive(Drop)]
pub struct Routes;

fn worker(alloc: Global, worker: u32) -> Result<String, WorkFault> {
    Ok(format!(in alloc; "{worker}")?)
}

/// The worker of a key, as `5 among 3`.
fn of_key(alloc: Global, text: &str) -> Result<String, WorkFault> {
    let (key, workers) = text.split_once(" among ").unwrap_or((text, ""));
    match (numbers_of(alloc, key)?, workers.parse::<u32>()) {
        (Some(key), Ok(workers)) if workers > 0 && workers <= MAX_WORKERS => {
            worker(alloc, route(key.as_slice(), workers))
        }
        _ => no_such_call(alloc),
    }
}

/// How records are routed: `#1` by a key, `record` by all fields; `nothing`: they stay.
fn routing_of(alloc: Global, text: &str) -> Result<Option<Routing>, AllocError> {
    match text {
        "record" => Ok(Some(Routing::ByRecord)),
        "nothing" => Ok(Some(Routing::Stay)),
        _ => Ok(columns_of(alloc, text)?.map(Routing::ByKey)),
    }
}

/// Some workers, and the one that sends.
#[derive(Clone, Copy)]
struct Workers {
    count: u32,
    sender: u32,
}

/// `3 from 2`
fn workers_of(text: &str) -> Option<Workers>
    ensures fits { IfSome result (λ w. w.count ≤ max_workers) }
    ensures sender { IfSome result (λ w. w.sender < w.count) }
{
    let (count, sender) = text.split_once(" from ")?;
    let (count, sender) = (count.parse::<u32>().ok()?, sender.parse::<u32>().ok()?);
    if sender < count && count <= MAX_WORKERS {
        Some(Workers { count, sender })
    } else {
        None
    }
}

/// The worker of a record, as `8 5 by #1 among 3 from 2`.
fn home(alloc: Global, text: &str) -> Result<String, WorkFault> {
    let (row, rest) = text.split_once(" by ").unwrap_or((text, ""));
    let (routing, workers) = rest.split_once(" among ").unwrap_or((rest, ""));
    match (
        numbers_of(alloc, row)?,
        routing_of(alloc, routing)?,
        workers_of(workers),
    ) {
        (Some(row), Some(routing), Some(workers)) => {
            worker(
                alloc,
                routing.home(workers.count, workers.sender, row.as_slice()),
            )
        }
        _ => no_such_call(alloc),
    }
}

/// The workers that get records, each with them.
fn shown_parcels(alloc: Global, parcels: &Parcels) -> Result<String, WorkFault> {
    let mut text = String::new(alloc);
    for parcel in parcels {
        let worker = parcel.worker;
        let records = shown(alloc, parcel.batch.counted())?;
        let between = if text.is_empty() { "" } else { "; " };
        text.push_str(format!(in alloc; "{between}{worker}: {records}")?.as_str())?;
    }
    Ok(text)
}

/// The parcels of records, as `3, 2, 1 by record among 2 from 0`.
fn parcels(alloc: Global, text: &str) -> Result<String, WorkFault> {
    let (records, rest) = text.split_once(" by ").unwrap_or((text, ""));
    let (routing, workers) = rest.split_once(" among ").unwrap_or((rest, ""));
    let Some(rows) = records_of(alloc, fields_in(records), records)? else {
        return no_such_call(alloc);
    };
    match (
        Batch::merged(alloc, rows)?,
        routing_of(alloc, routing)?,
        workers_of(workers),
    ) {
        (Some(batch), Some(routing), Some(workers)) => {
            let parcels = split(alloc, batch, &routing, workers.count, workers.sender)?;
            shown_parcels(alloc, &parcels)
        }
        _ => no_such_call(alloc),
    }
}

/// What a call is answered.
fn reply(alloc: Global, subject: &mut Routes, call: &str) -> Result<String, WorkFault> {
    let (verb, rest) = call.split_once(' ').unwrap_or((call, ""));
    match verb {
        "key" => of_key(alloc, rest),
        "home" => home(alloc, rest),
        "split" => parcels(alloc, rest),
        _ => no_such_call(alloc),
    }
}

impl Subject for Routes {
    fn answer(&mut self, alloc: Global, call: &str) -> Result<String, AllocError> {
        said(alloc, reply(alloc, self, call))
    }
}
