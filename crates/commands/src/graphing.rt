//! The graph of a query, written.

ghost use Rattle.std.specs.Prelude.{◌≡◌, true, IfOk, IfErr, IsErrOf};
ghost use Rattle.collector.specs.Watching.{has_failed, inner_of};
ghost use Rattle.compile.specs.Compiled.{IsQueryFault};
ghost use Rattle.commands.specs.Graphs.{GraphEnds, ShowsGraph};
ghost use Rattle.commands.specs.Readings.{GraphsOnHanded, GraphsOver, KeepsQuery};
ghost use Rattle.commands.specs.Runs.{IsAfterReading};
ghost use Rattle.diagnostics.specs.declared.fault.Fault.TheVariants as fault;

use crate::reading::read_query;
use crate::writing::write_text;
use collector::Watched;
use command_line::GraphForm;
use compile::{compile, graph_fault};
use diagnostics::{Fault, Texts};
use graph_text::{graph_dot, graph_text};
use std::alloc::{Allocator, Global};
use std::io::{Read, Write};

/// The text of a query's graph.
fn text_of_graph<A: Allocator + Copy>(
    alloc: Global,
    arena: A,
    form: GraphForm,
    query: &[u8],
) -> Result<Vec<u8>, Fault>
    ensures text { IfOk result (λ t. ShowsGraph form query.now t.items) }
    ensures fault { IfErr result (IsQueryFault query.now) }
{
    let graph = match compile(alloc, arena, query) {
        Ok(graph) => graph,
        Err(fault) => return Err(graph_fault(fault)),
    };
    let mut text = Vec::new(alloc);
    let done = match form {
        GraphForm::Lines => graph_text(alloc, &graph, &mut text),
        GraphForm::Dot => graph_dot(alloc, &graph, &mut text),
    };
    match done {
        Ok(()) => Ok(text),
        Err(_) => Err(Fault::NoMemory),
    }
}

/// Writes the graph of a query text.
fn write_shown<A: Allocator + Copy, W: Write>(
    alloc: Global,
    arena: A,
    form: GraphForm,
    query: &[u8],
    writer: &mut Watched<W>,
) -> Result<(), Fault>
    ensures ends { GraphEnds form query.now (W.contents (inner_of writer.old)) (W.contents (inner_of writer.new)) result }
    ensures writer { IsErrOf result fault.Write → has_failed writer.new ≡ true }
    ensures read { IfErr result IsAfterReading }
{
    let text = match text_of_graph(alloc, arena, form, query) {
        Ok(text) => text,
        Err(fault) => return Err(fault),
    };
    write_text(writer, text.as_slice())
}

/// Reads a query, compiles it, and writes its graph: a line for each vertex, or a text that Graphviz draws. It is written only once
/// all of it is made. A graph of more than 4096 vertices is refused. The text that was read is left in `texts`.
#[tactic(auto, using(crate::proofs::HandedOver::graph_unread, crate::proofs::HandedOver::one_read))]
pub fn graph_query<A: Allocator + Copy, Q: Read, W: Write>(
    alloc: Global,
    arena: A,
    form: GraphForm,
    query: &mut Watched<Q>,
    texts: &mut Texts,
    writer: &mut Watched<W>,
) -> Result<(), Fault>
    ensures ends { GraphsOver form (Q.remaining (inner_of query.old)) (W.contents (inner_of writer.old)) (W.contents (inner_of writer.new)) result }
    ensures handed { GraphsOnHanded form Q.remaining query.old query.new (W.contents (inner_of writer.old)) (W.contents (inner_of writer.new)) result }
    ensures query { IsErrOf result fault.ReadQuery → has_failed query.new ≡ true }
    ensures writer { IsErrOf result fault.Write → has_failed writer.new ≡ true }
    ensures kept { KeepsQuery (Q.remaining (inner_of query.old)) result texts.new.query.items }
{
    match read_query(alloc, query) {
        Ok(text) => texts.query = text,
        Err(fault) => return Err(fault),
    }
    write_shown(alloc, arena, form, &texts.query, writer)
}
