//! The counts as lines, or in a drawing.

ghost use Rattle.std.specs.Prelude.{◌≡◌, ◌+◌, ◌++◌, ◌<◌, IfOk, OnOk, cond, decimal, codes, length, nat_lt, slice_index_or, slice_range, [], vec_len};
ghost use Rattle.graph.specs.Shown.{shown_graph};
ghost use Rattle.statistics.specs.Report.{AreOfVertices, EndsReport, IsOfVertex, IsReport, head_of, line, numbers, sum_of, worker_line, worker_lines};

use crate::fed::Statistics;
use driver::{Counts, Tally};
use graph::{Graph, VertexId};
use graph_text::{Figures, graph_dot_with, name_of, put_number, put_vertex};
use record_core::NoMemory;
use std::alloc::Global;

impl Statistics {
    /// The number of vertices.
    pub fn vertex_count(&self) -> usize
        ensures { result ≡ length (shown_graph self.now.graph.value) }
    {
        self.graph.vertex_count()
    }

    /// A line for each vertex, and one for each worker where the workers' numbers differ; then the numbers of messages and epochs.
    pub fn text(&self, alloc: Global, tally: &Tally) -> Result<Vec<u8>, NoMemory>
        ensures { IfOk result (λ text. IsReport self.now.graph.value tally.now text.items) }
    {
        let mut text = self.lines(alloc, tally)?;
        self.put_sums(tally, &mut text)?;
        Ok(text)
    }

    /// A drawing of the graph with what each vertex did.
    pub fn dot(&self, alloc: Global, tally: &Tally) -> Result<Vec<u8>, NoMemory> {
        let mut figures = Vec::with_capacity(alloc, tally.len())?;
        for vertex in 0..tally.len() {
            let all = sum(self.counts(tally, vertex));
            figures.push(Figures {
                events: all.events,
                received: all.received,
                sent: all.sent,
            })?;
        }
        let mut text = Vec::new(alloc);
        graph_dot_with(alloc, &self.graph, figures.as_slice(), &mut text)?;
        Ok(text)
    }

    /// The numbers of a vertex: of an input what it is fed, of any other what each worker did.
    fn counts<'a>(&'a self, tally: &'a Tally, vertex: usize) -> &'a [Counts]
        ensures { result.now ≡ cond (nat_lt vertex (vec_len self.entry.now.inputs)) (slice_range self.entry.now.inputs.items vertex (vertex + 1)) (slice_index_or tally.entry.now vertex []) }
    {
        if vertex < self.inputs.len() {
            &self.inputs[vertex..vertex + 1]
        } else {
            tally.row(vertex)
        }
    }

    /// The lines of the vertices.
    fn lines(&self, alloc: Global, tally: &Tally) -> Result<Vec<u8>, NoMemory>
        ensures { IfOk result (λ text. AreOfVertices self.now.graph.value
            (λ v. cond (nat_lt v (vec_len self.now.inputs)) (slice_range self.now.inputs.items v (v + 1)) (slice_index_or tally.now v [])) (length (shown_graph self.now.graph.value)) text.items) }
    {
        let mut text = Vec::new(alloc);
        for vertex in 0..self.graph.vertex_count() as u32 {
            let counts = self.counts(tally, vertex as usize);
            let here = vertex_lines(alloc, &self.graph, vertex, counts)?;
            text.extend_from_slice(&here)?;
        }
        Ok(text)
    }

    /// Puts the last two lines at the end.
    fn put_sums(&self, tally: &Tally, text: &mut Vec<u8>) -> Result<(), NoMemory>
        ensures { OnOk result (EndsReport text.old.items text.new.items) }
    {
        text.extend_from_slice(b"messages ")?;
        put_number(text, self.messages.saturating_add(tally.messages()))?;
        text.extend_from_slice(b"\nepochs ")?;
        put_number(text, u64::from(self.epochs))?;
        text.extend_from_slice(b"\n")?;
        Ok(())
    }
}

/// The lines of a vertex: one for all workers together, and one for each if there are several and their counts differ.
fn vertex_lines(
    alloc: Global,
    graph: &Graph,
    vertex: u32,
    counts: &[Counts],
) -> Result<Vec<u8>, NoMemory>
    requires { vertex < length (shown_graph graph.now) }
    ensures { IfOk result (λ text. IsOfVertex (head_of graph.now vertex) counts.now text.items) }
{
    let head = head_text(alloc, graph, vertex)?;
    let mut text = Vec::new(alloc);
    put_line(&mut text, &head, sum(counts))?;
    if are_same(counts) {
        return Ok(text);
    }
    put_workers(&mut text, &head, counts)?;
    Ok(text)
}

/// The number and the kind of a vertex.
fn head_text(alloc: Global, graph: &Graph, vertex: u32) -> Result<Vec<u8>, NoMemory>
    requires { vertex < length (shown_graph graph.now) }
    ensures { IfOk result (λ text. text.items ≡ head_of graph.now vertex) }
{
    let number = u64::from(vertex);
    let mut text = Vec::new(alloc);
    let name = name_of(graph.outputs(), number);
    put_vertex(
        &mut text,
        number,
        &graph.vertex(VertexId(vertex)).kind,
        name,
    )?;
    Ok(text)
}

/// The counts of all workers together.
fn sum(counts: &[Counts]) -> Counts
    ensures { result ≡ sum_of counts.now }
{
    let mut all = Counts::none();
    for one in counts {
        all = all.with(*one);
    }
    all
}

/// Whether the counts of all workers are the same.
fn are_same(counts: &[Counts]) -> bool {
    match counts.first() {
        None => true,
        Some(first) => counts.iter().all(|one| one == first),
    }
}

/// Puts the line of each worker at the end.
fn put_workers(text: &mut Vec<u8>, head: &[u8], counts: &[Counts]) -> Result<(), NoMemory>
    ensures { OnOk result (text.new.items ≡ text.old.items ++ worker_lines head.now counts.now (length counts.now)) }
{
    for worker in 0..counts.len() {
        put_worker(text, head, worker as u64, counts[worker])?;
    }
    Ok(())
}

/// Puts the line of a vertex at the end.
fn put_line(text: &mut Vec<u8>, head: &[u8], counts: Counts) -> Result<(), NoMemory>
    ensures { OnOk result (text.new.items ≡ text.old.items ++ line head.now counts) }
{
    text.extend_from_slice(head)?;
    put_counts(text, counts)
}

/// Puts the line of a worker at the end.
fn put_worker(text: &mut Vec<u8>, head: &[u8], worker: u64, counts: Counts) -> Result<(), NoMemory>
    ensures { OnOk result (text.new.items ≡ text.old.items ++ worker_line head.now worker counts) }
{
    text.extend_from_slice(head)?;
    text.extend_from_slice(b" worker ")?;
    put_number(text, worker)?;
    put_counts(text, counts)
}

/// Puts numbers at the end, and ends the line.
fn put_counts(text: &mut Vec<u8>, counts: Counts) -> Result<(), NoMemory>
    ensures { OnOk result (text.new.items ≡ text.old.items ++ numbers counts) }
{
    text.extend_from_slice(b" events ")?;
    put_number(text, counts.events)?;
    text.extend_from_slice(b" in ")?;
    put_number(text, counts.received)?;
    text.extend_from_slice(b" sent ")?;
    put_number(text, counts.sent)?;
    text.extend_from_slice(b"\n")?;
    Ok(())
}
