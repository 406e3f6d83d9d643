//! A vertex of a query's graph, and its shard at work.

ghost use Rattle.std.specs.Prelude.{◌≡◌, ◌<◌, length, OnOk};
ghost use Rattle.std.specs.Bool.{OnTrue};
ghost use Rattle.graph.specs.Shown.{shown_graph};
ghost use Rattle.rows.specs.FlatRows.{arity_of};
ghost use Rattle.semantics.specs.Kinds.{in_ports};
ghost use Rattle.vertices.specs.Shards.{TakesArity, shard_kind};
ghost use Rattle.events.specs.Stations.{arity_in};
ghost use Rattle.engine_conformance.specs.Works.{WorksAt};

use crate::texts::{done, no_such_call, records_of, said, shown, text};
use crate::times::{graph_of, shown_time, time_of};
use events::{law_of_graph, shard_at};
use graph::{Graph, Role, RouteKey, VertexId};
use loop_context::Time;
use pages::Subject;
use rows::{Batch, WorkFault};
use std::alloc::{AllocError, Global};
use std::marker::Model;
use vertices::{Out, Shard};

/// A vertex of a graph, and its shard. Once an event is refused the shard is spoiled, and nothing is asked any more.
#[derive(Drop)]
pub struct Station {
    graph: Box<Graph>,
    id: VertexId,
    shard: Box<Shard>,
    is_whole: bool,
}

impl Model for Station {
    ghost use Rattle.std.specs.Prelude.{◌≡◌, ℕ, ◌<◌, length, true};
    ghost use Rattle.graph.specs.Shown.{shown_graph};
    ghost use Rattle.events.specs.Stations.{arity_in};
    ghost use Rattle.engine_conformance.specs.Works.{WorksAt};

    ghost Value = { ℕ };

    ghost view = { λ s. s.id.0 };

    ghost invariant = { λ s. (s.id.0 < length (shown_graph s.graph.value)) ×
        (s.is_whole ≡ true → WorksAt (shown_graph s.graph.value) (arity_in s.graph.value) s.id.0 s.shard.value) };
}

/// The station of a first line `shard 2 of QUERY`.
pub fn new_station(alloc: Global, text: &str) -> Result<Option<Station>, WorkFault> {
    let (number, query) = text.split_once(" of ").unwrap_or((text, ""));
    match (number.parse::<u32>(), graph_of(alloc, query)) {
        (Ok(number), Some(graph)) => station_of(alloc, Box::new(alloc, graph)?, VertexId(number)),
        _ => Ok(None),
    }
}

/// The new shard of a vertex of a graph, if it has that vertex.
fn station_of(
    alloc: Global,
    graph: Box<Graph>,
    id: VertexId,
) -> Result<Option<Station>, WorkFault> {
    if id.0 as usize >= graph.vertex_count() {
        return Ok(None);
    }
    let shard = Box::new(alloc, shard_at(alloc, &graph, id)?)?;
    Ok(Some(Station {
        graph,
        id,
        shard,
        is_whole: true,
    }))
}

/// Whether a vertex has that in port, and such records come to it.
#[tactic(auto, using(crate::proofs::StillWorks::port_of_shard, crate::proofs::StillWorks::takes_fields))]
fn takes(graph: &Graph, id: VertexId, shard: &Shard, port: u32, batch: &Batch) -> bool
    requires vertex { id.0 < length (shown_graph graph.now) }
    requires works { WorksAt (shown_graph graph.now) (arity_in graph.now) id.0 shard.now }
    ensures port { OnTrue result (port < in_ports (shard_kind shard.now)) }
    ensures arity { OnTrue result (TakesArity shard.now port (arity_of batch.now)) }
{
    law_of_graph(graph);
    if port >= graph.vertex(id).kind.in_ports() {
        return false;
    }
    let _ = shard;
    batch.arity() as u64 == graph.in_arity(id, port)
}

/// Gives a batch to an in port.
fn give(
    alloc: Global,
    graph: &Graph,
    id: VertexId,
    shard: &mut Shard,
    port: u32,
    time: &Time,
    batch: Batch,
) -> Result<Option<Out>, WorkFault>
    requires vertex { id.0 < length (shown_graph graph.now) }
    requires works { WorksAt (shown_graph graph.now) (arity_in graph.now) id.0 shard.old }
    ensures { OnOk result (WorksAt (shown_graph graph.now) (arity_in graph.now) id.0 shard.new) }
{
    if !takes(graph, id, shard, port, &batch) {
        return Ok(None);
    }
    let mut out = Out::new();
    shard.on_records(alloc, port, time, batch, &mut out)?;
    Ok(Some(out))
}

/// Lets go of what a shard keeps of a time.
#[tactic(auto, using(crate::proofs::StillWorks::works_without))]
fn forget(graph: &Graph, id: VertexId, shard: &mut Shard, time: &Time)
    requires { WorksAt (shown_graph graph.now) (arity_in graph.now) id.0 shard.old }
    ensures { WorksAt (shown_graph graph.now) (arity_in graph.now) id.0 shard.new }
{
    let _vertices = graph.vertex_count();
    shard.forget(time);
}

/// How many fields the records have that come to an in port; 0 where the vertex doesn't have it.
fn fields_at(graph: &Graph, id: VertexId, port: u32) -> u64
    requires { id.0 < length (shown_graph graph.now) }
{
    law_of_graph(graph);
    if port < graph.vertex(id).kind.in_ports() {
        graph.in_arity(id, port)
    } else {
        0
    }
}

/// Records that come to an in port at a time.
#[derive(Drop)]
struct Came {
    port: u32,
    time: Time,
    batch: Batch,
}

impl Station {
    /// The records of a text `0 at 3.1: 5 7 x 2, 6 7`.
    fn came(&self, alloc: Global, text: &str) -> Result<Option<Came>, WorkFault> {
        let (place, records) = text.split_once(": ").unwrap_or((text, ""));
        let (port, time) = place.split_once(" at ").unwrap_or((place, ""));
        let (Ok(port), Some(time)) = (port.parse::<u32>(), time_of(alloc, time)?) else {
            return Ok(None);
        };
        let fields = fields_at(&self.graph, self.id, port) as usize;
        let Some(rows) = records_of(alloc, fields, records)? else {
            return Ok(None);
        };
        Ok(Batch::merged(alloc, rows)?.map(|batch| Came { port, time, batch }))
    }

    /// What the shard sends for records that come, and whether it asks to be notified.
    fn take(&mut self, alloc: Global, came: Came) -> Result<Option<Out>, WorkFault> {
        let Came { port, time, batch } = came;
        if !self.is_whole {
            return Ok(None);
        }
        self.is_whole = false;
        let out = give(
            alloc,
            &self.graph,
            self.id,
            &mut self.shard,
            port,
            &time,
            batch,
        )?;
        self.is_whole = true;
        Ok(out)
    }

    fn port(&mut self, alloc: Global, text: &str) -> Result<String, WorkFault> {
        match self.came(alloc, text)? {
            Some(came) => sent(alloc, self.take(alloc, came)?),
            None => no_such_call(alloc),
        }
    }

    /// What the shard sends at the notification of a time.
    fn notify(&self, alloc: Global, time: &Time) -> Result<Option<Out>, WorkFault> {
        if !self.is_whole || self.graph.vertex(self.id).kind.role() != Role::Notified {
            return Ok(None);
        }
        let mut out = Out::new();
        self.shard.on_notify(alloc, time, &mut out)?;
        Ok(Some(out))
    }

    fn notified(&self, alloc: Global, text: &str) -> Result<String, WorkFault> {
        match time_of(alloc, text)? {
            Some(time) => sent(alloc, self.notify(alloc, &time)?),
            None => no_such_call(alloc),
        }
    }

    /// Lets go of a time.
    fn let_go(&mut self, alloc: Global, text: &str) -> Result<String, WorkFault> {
        match time_of(alloc, text)? {
            Some(time) if self.is_whole => {
                forget(&self.graph, self.id, &mut self.shard, &time);
                done(alloc)
            }
            _ => no_such_call(alloc),
        }
    }

    /// A time of which the shard keeps something, and that may have passed at another one.
    fn earlier(&self, alloc: Global, now: &str) -> Result<String, WorkFault> {
        match time_of(alloc, now)? {
            Some(now) => match self.shard.earlier(&now) {
                Some(time) => Ok(shown_time(alloc, &time)?),
                None => text(alloc, "none"),
            },
            None => no_such_call(alloc),
        }
    }

    /// By what the records that come to an in port are routed.
    fn route_key(&self, alloc: Global, port: &str) -> Result<String, WorkFault> {
        let Ok(port) = port.parse::<u32>() else {
            return no_such_call(alloc);
        };
        let key = match self.graph.vertex(self.id).kind.route_key(port) {
            RouteKey::Nothing => "nothing",
            RouteKey::Record => "record",
            _ => "columns",
        };
        text(alloc, key)
    }
}

/// What a shard sends by its two out ports, and whether it asks to be notified.
fn sent(alloc: Global, out: Option<Out>) -> Result<String, WorkFault> {
    let Some(out) = out else {
        return no_such_call(alloc);
    };
    let asks = if out.asked() { "; asks" } else { "" };
    let (first, second) = out.into_batches();
    let first = sent_by(alloc, "", first)?;
    let second = sent_by(alloc, "; second: ", second)?;
    let both = format!(in alloc; "{first}{second}{asks}")?;
    match both.as_str().strip_prefix("; ") {
        Some(rest) => text(alloc, rest),
        None if both.is_empty() => text(alloc, "nothing"),
        None => Ok(both),
    }
}

/// What is sent by one out port.
fn sent_by(alloc: Global, head: &str, batch: Option<Batch>) -> Result<String, WorkFault> {
    match batch {
        Some(batch) => {
            let records = shown(alloc, batch.counted())?;
            Ok(format!(in alloc; "{head}{records}")?)
        }
        None => text(alloc, ""),
    }
}

/// What a call is answered.
fn reply(alloc: Global, subject: &mut Station, call: &str) -> Result<String, WorkFault> {
    let (verb, rest) = call.split_once(' ').unwrap_or((call, ""));
    match verb {
        "port" => subject.port(alloc, rest),
        "notified" => subject.notified(alloc, rest.strip_prefix("at ").unwrap_or("")),
        "forget" => subject.let_go(alloc, rest),
        "earlier" => subject.earlier(alloc, rest.strip_prefix("than ").unwrap_or("")),
        "route-key" => subject.route_key(alloc, rest.strip_prefix("of port ").unwrap_or("")),
        _ => no_such_call(alloc),
    }
}

impl Subject for Station {
    fn answer(&mut self, alloc: Global, call: &str) -> Result<String, AllocError> {
        said(alloc, reply(alloc, self, call))
    }
}
