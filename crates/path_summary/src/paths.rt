//! The table of a graph, and the answers that it gives.

ghost use Rattle.std.specs.Prelude.{◌≡◌, ◌≤◌, ◌<◌, ◌↔◌, Some, None, IsTrue, IfOk, IfSome, IfNone, false, length};
ghost use Rattle.std.specs.Bool.{Decides};
ghost use Rattle.graph.specs.Shown.{shown_graph};
ghost use Rattle.graph.specs.Limits.{max_vertices, max_edges};
ghost use Rattle.semantics.specs.Could.{CouldResultIn, IsTimeAt};
ghost use Rattle.semantics.specs.Dataflow.{IsDataflow};
ghost use Rattle.path_summary.specs.Linking.{IsKnown};
ghost use Rattle.path_summary.specs.Made.{ArePacked, DecidedIn, entry_at};
ghost use Rattle.path_summary.specs.Tables.{Covers, Stays};
ghost use Rattle.loop_context.specs.Actions.{action_of};
ghost use Rattle.path_summary.specs.Walks.{HaveLoops};

use crate::kept::Kept;
use crate::links::Links;
use crate::pointstamp::{Pointstamp, same_location};
use crate::row::Row;
use crate::summaries::Summaries;
use crate::summary::Summary;
use graph::{Graph, Location};
use loop_context::{Action, Time};
use record_core::NoMemory;
use std::alloc::Global;
use std::marker::Model;
use std::sync::Arc;

/// Which pointstamps of a graph could result in which.
#[derive(Drop)]
pub struct Paths {
    graph: Arc<Graph, Global>,
    links: Links,
    summaries: Summaries,
    rows: Vec<Kept>,
}

impl Model for Paths {
    ghost use Rattle.expr_tree.specs.contracts.scalar.Scalar as scalar;
    ghost use Rattle.expr_tree.specs.contracts.condition.Cond as condition;
    ghost use Rattle.graph.specs.Shown.{GraphValue, shown_graph};
    ghost use Rattle.path_summary.specs.Made.{IsMade};
    ghost use Rattle.std.specs.Coded.{codes};
    ghost use Rattle.std.specs.contracts.alloc.Global as heap;
    ghost use Rattle.std.specs.contracts.impls.GlobalAllocator.TheImpl as allocates;

    ghost Value = { GraphValue };

    ghost coded = { Prim.hlevel (codes, (scalar.the_row heap.the_row allocates.ghosts).coded, (condition.the_row heap.the_row allocates.ghosts).coded) };

    ghost view = { λ p. p.graph.value };

    ghost invariant = { λ p. IsMade (shown_graph p.graph.value) p.links p.summaries p.rows.items };
}

impl Paths {
    /// The paths of a graph. The table takes 2 bytes for each two vertices, or more if there are over 65,535 different summaries.
    pub fn of(alloc: Global, graph: &Arc<Graph, Global>) -> Result<Paths, NoMemory>
        ensures { IfOk result (λ p. p ≡ graph.now.value) }
    {
        semantics::graphs::law_program();
        let graph = Arc::try_clone(graph)?;
        graph.law_of_program();
        let links = Links::of(alloc, &graph)?;
        let mut summaries = Summaries::new(alloc);
        let rows = rows_of(alloc, &links, &mut summaries)?;
        Ok(Paths {
            graph,
            links,
            summaries,
            rows,
        })
    }

    /// The graph of the paths.
    pub fn graph(&self) -> &Graph
        ensures { result.now ≡ self.now }
    {
        &self.graph
    }

    /// Whether the graph has the location of `p`, and its time the location's depth. The calls below require that of pointstamps.
    pub fn fits(&self, p: &Pointstamp) -> bool
        ensures { IsTrue result ↔ IsTimeAt (shown_graph self.now) p.now.location p.now.time }
    {
        is_time_at(self.graph(), p)
    }

    /// The graph is a dataflow graph, so the laws of dataflow graphs hold of it. Nothing is done.
    pub fn law_of_dataflow(&self)
        ensures { ∥ IsDataflow (shown_graph self.now) ∥₁ }
    {
        let _ = &self.graph;
    }

    /// Whether `p` could result in `q`: some path, perhaps without steps, takes it to one at or before `q`. The time of each must have the depth of
    /// its location.
    #[inline(always)]
    pub fn could(&self, p: &Pointstamp, q: &Pointstamp) -> bool
        requires from { IsTimeAt (shown_graph self.now) p.now.location p.now.time }
        requires to { IsTimeAt (shown_graph self.now) q.now.location q.now.time }
        ensures { IsTrue result ↔ CouldResultIn (shown_graph self.now) p.now q.now }
    {
        could_in(&self.links, &self.summaries, &self.rows, p, q)
    }
}

/// Whether the graph has the location, and the time has its depth.
fn is_time_at(graph: &Graph, p: &Pointstamp) -> bool
    ensures { IsTrue result ↔ IsTimeAt (shown_graph graph.now) p.now.location p.now.time }
{
    match p.location() {
        Location::Edge(edge) => {
            (edge.0 as usize) < graph.edge_count()
                && graph.depth_at(p.location()) as usize == p.time().depth()
        }
        Location::Vertex(vertex) => {
            (vertex.0 as usize) < graph.vertex_count()
                && graph.depth_at(p.location()) as usize == p.time().depth()
        }
    }
}

/// The rows of all vertices.
fn rows_of(alloc: Global, links: &Links, summaries: &mut Summaries) -> Result<Vec<Kept>, NoMemory>
    requires few { length links.now.depths ≤ max_vertices }
    requires edges { length links.now.edges ≤ max_edges }
    requires loops { ∥ HaveLoops links.now ∥₁ }
    ensures packed { IfOk result (λ rows. ArePacked links.now summaries.new rows.items) }
    ensures long { IfOk result (λ rows. length rows.items ≡ length links.now.depths) }
{
    let mut rows = Vec::with_capacity(alloc, links.vertex_count())?;
    for vertex in 0..links.vertex_count() {
        let row = Row::of(alloc, links, summaries, vertex as u32)?;
        rows.push(Kept::of(alloc, row, summaries)?)?;
    }
    Ok(rows)
}

/// Whether `p` could result in `q`, by the table.
#[inline(always)]
fn could_in(
    links: &Links,
    summaries: &Summaries,
    rows: &[Kept],
    p: &Pointstamp,
    q: &Pointstamp,
) -> bool
    requires from { IsKnown links.now p.now.location }
    requires to { IsKnown links.now q.now.location }
    ensures { Decides result (DecidedIn links.now summaries.now rows.now p.now q.now.location q.now.time) }
{
    let home = links.home(p.location());
    match q.location() {
        Location::Vertex(vertex) => { comes(summaries, rows, home, vertex.0, Action::Stay, p, q) }
        Location::Edge(number) => {
            let edge = links.edge(number.0);
            stays(p, q) || comes(summaries, rows, home, edge.source(), edge.action(), p, q)
        }
    }
}

/// Whether the entry from one vertex to another, followed by the action, takes `p` to a time at or before that of `q`.
#[inline(always)]
fn comes(
    summaries: &Summaries,
    rows: &[Kept],
    from: u32,
    to: u32,
    action: Action,
    p: &Pointstamp,
    q: &Pointstamp,
) -> bool
    ensures { Decides result (Covers (entry_at summaries.now rows.now from to) (action_of action) p.now.time q.now.time) }
{
    match entry(summaries, rows, from, to) {
        Some(summary) => covers(summary, action, p.time(), q.time()),
        None => false,
    }
}

/// The entry from one vertex to another.
#[inline(always)]
fn entry<'a>(summaries: &'a Summaries, rows: &[Kept], from: u32, to: u32) -> Option<&'a Summary>
    ensures none { IfNone result (entry_at summaries.now rows.now from to ≡ None) }
    ensures some { IfSome result (λ f. entry_at summaries.now rows.now from to ≡ Some f.now) }
{
    let code = match rows.get(from as usize) {
        Some(row) => row.code(to),
        None => 0,
    };
    summaries.get(code)
}

/// Whether a summary followed by an action takes `time` to one at or before `until`.
#[inline(always)]
fn covers(summary: &Summary, action: Action, time: &Time, until: &Time) -> bool
    ensures { Decides result (Covers (Some summary.now) (action_of action) time.now until.now) }
{
    time.epoch() <= until.epoch() && summary.reaches(action, time.counters(), until.counters())
}

/// Whether `p` is at the location of `q`, and at or before its time.
#[inline(always)]
fn stays(p: &Pointstamp, q: &Pointstamp) -> bool
    ensures { Decides result (Stays p.now.location p.now.time q.now.location q.now.time) }
{
    let same = same_location(p.location(), q.location());
    same && p.time().leq(q.time())
}
