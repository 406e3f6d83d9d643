//! Times, places in a graph, and graphs of queries, as texts.

use graph::{EdgeId, Graph, Location, VertexId};
use loop_context::Time;
use lowering::lower;
use parser::parse;
use path_summary::Pointstamp;
use std::alloc::{AllocError, Global};
use typing::check;

/// The graph of a query.
pub fn graph_of(alloc: Global, query: &str) -> Option<Graph> {
    let program = parse(alloc, query.as_bytes()).ok()?;
    let typed = check(alloc, program).ok()?;
    lower(alloc, &typed).ok()
}

/// The time of a text `3.1`: epoch 3, and turn 1 of the loop.
pub fn time_of(alloc: Global, text: &str) -> Result<Option<Time>, AllocError> {
    let mut numbers: Vec<u32> = Vec::new(alloc);
    for word in text.split('.') {
        match word.parse() {
            Ok(number) => numbers.push(number)?,
            Err(_) => return Ok(None),
        }
    }
    match numbers.as_slice() {
        [epoch, counters @ ..] => Ok(Time::new(*epoch, counters)),
        [] => Ok(None),
    }
}

/// The text of a time.
pub fn shown_time(alloc: Global, time: &Time) -> Result<String, AllocError> {
    let epoch = time.epoch();
    let mut text = format!(in alloc; "{epoch}")?;
    for counter in time.counters() {
        text.push_str(format!(in alloc; ".{counter}")?.as_str())?;
    }
    Ok(text)
}

/// The vertex or the edge of a text `vertex 3` or `edge 3`.
fn location_of(text: &str) -> Option<Location> {
    let (form, number) = text.split_once(' ')?;
    let number = number.parse().ok()?;
    match form {
        "vertex" => Some(Location::Vertex(VertexId(number))),
        "edge" => Some(Location::Edge(EdgeId(number))),
        _ => None,
    }
}

/// The pointstamp of a text `vertex 3 at 0.1`.
pub fn pointstamp_of(alloc: Global, text: &str) -> Result<Option<Pointstamp>, AllocError> {
    let (location, time) = text.split_once(" at ").unwrap_or((text, ""));
    match (location_of(location), time_of(alloc, time)?) {
        (Some(location), Some(time)) => Ok(Some(Pointstamp::new(time, location))),
        _ => Ok(None),
    }
}
