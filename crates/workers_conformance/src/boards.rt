//! Boards and batches.

ghost use Rattle.std.specs.Prelude.{◌≡◌, ◌<◌, ◌≤◌, length};

use board::Board;
use graph::Graph;
use lowering::lower;
use parser::parse;
use progress::LocationTracker;
use rows::{Batch, Rows};
use std::alloc::Global;
use std::sync::Arc;
use typing::check;
use views::{Direct, LocalViews, Views};
use workers::Report;

/// Copies its input to its output.
pub const COPY: &str = "input a/1; output a;";

/// The graph of a query.
pub fn graph_of(alloc: Global, text: &str) -> Option<Arc<Graph, Global>> {
    let program = parse(alloc, text.as_bytes()).ok()?;
    let typed = check(alloc, program).ok()?;
    Arc::new(alloc, lower(alloc, &typed).ok()?).ok()
}

/// A board that copies its input to its output.
pub fn copying(alloc: Global, workers: u32) -> Option<Board<Direct<LocationTracker>>>
    requires some { 0 < workers }
    requires few { workers ≤ 64 }
{
    Board::new(alloc, graph_of(alloc, COPY)?, workers).ok()
}

/// The same board with a view for each worker.
pub fn copying_with_local_views(alloc: Global, workers: u32) -> Option<Board<LocalViews>>
    requires some { 0 < workers }
    requires few { workers ≤ 64 }
{
    Board::with_local_views(alloc, graph_of(alloc, COPY)?, workers).ok()
}

/// A batch of one record of one field.
pub fn batch_of(alloc: Global, field: i64) -> Option<Batch> {
    let mut rows = Rows::with_capacity(alloc, 1, 1).ok()?;
    rows.push(&[field]).ok()?;
    Batch::from_rows(alloc, rows).ok()?
}

/// A batch of one record of two fields.
pub fn wide_batch(alloc: Global) -> Option<Batch> {
    let mut rows = Rows::with_capacity(alloc, 2, 1).ok()?;
    rows.push(&[1, 2]).ok()?;
    Batch::from_rows(alloc, rows).ok()?
}

/// A batch of a record of one field for each of these numbers; nothing where there are none.
pub fn batch_of_range(alloc: Global, from: i64, to: i64) -> Option<Batch> {
    let mut rows = Rows::with_capacity(alloc, 1, 1).ok()?;
    for field in from..to {
        rows.push(&[field]).ok()?;
    }
    Batch::from_rows(alloc, rows).ok()?
}

/// How often the field is in these batches.
pub fn count_of(batches: &[Batch], field: i64) -> u64 {
    let mut count = 0u64;
    for batch in batches {
        for place in 0..batch.len() {
            if batch.row(place) == [field].as_slice() {
                count = count.saturating_add(batch.count(place));
            }
        }
    }
    count
}

/// What was emitted at the first output for an epoch; nothing where there is no output.
pub fn emitted<V: Views>(report: &Report<V>, epoch: u32) -> &[Batch] {
    if report.output_count() == 0 {
        return &[];
    }
    report.emitted(0, epoch)
}
