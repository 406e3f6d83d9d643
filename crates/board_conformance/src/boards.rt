//! A board over the graph of a query, and turns of its workers.

ghost use Rattle.std.specs.Prelude.{◌<◌, ◌≤◌, length};
ghost use Rattle.board.specs.Commits.{IsOf};

use board::{Board, Claimed, CommitRefusal};
use events::Work;
use graph::Graph;
use lowering::lower;
use parser::parse;
use progress::LocationTracker;
use rows::{Batch, Rows, WorkFault};
use std::alloc::{AllocError, Global};
use std::sync::Arc;
use typing::check;
use views::{Direct, LocalViews, Views};

/// The graph of a query.
pub fn graph_of(alloc: Global, text: &str) -> Option<Arc<Graph, Global>> {
    let program = parse(alloc, text.as_bytes()).ok()?;
    let typed = check(alloc, program).ok()?;
    Arc::new(alloc, lower(alloc, &typed).ok()?).ok()
}

/// A board over the graph of a query, whose workers all see one tracker.
pub fn board_of(alloc: Global, text: &str, workers: u32) -> Option<Board<Direct<LocationTracker>>>
    requires some { 0 < workers }
    requires few { workers ≤ 64 }
{
    Board::new(alloc, graph_of(alloc, text)?, workers).ok()
}

/// The same with a view for each worker, which may be late.
pub fn late_board_of(alloc: Global, text: &str, workers: u32) -> Option<Board<LocalViews>>
    requires some { 0 < workers }
    requires few { workers ≤ 64 }
{
    Board::with_local_views(alloc, graph_of(alloc, text)?, workers).ok()
}

/// A batch of one record.
pub fn batch_of(alloc: Global, fields: &[i64]) -> Option<Batch>
    requires some { 1 ≤ length fields.now }
    requires few { length fields.now ≤ 16 }
{
    let mut rows = Rows::with_capacity(alloc, fields.len(), 1).ok()?;
    rows.push(fields).ok()?;
    Batch::from_rows(alloc, rows).ok()?
}

/// The result of a turn.
#[derive(Clone, Copy)]
pub enum Turn {
    Stopped,
    Busy,
    Drained,
    Idle,
    Committed,
    NoMemory,
    Count,
}

/// Computes an event and commits it, or abandons it if that is refused.
fn commit<V: Views>(alloc: Global, board: &mut Board<V>, work: Work) -> Turn
    requires { IsOf board.old.shown work.0 }
{
    match work.compute(alloc) {
        Ok(done) => match board.commit(done) {
            Ok(_sent) => Turn::Committed,
            Err(CommitRefusal::NoMemory(done)) => {
                board.abandon_done(done);
                Turn::NoMemory
            }
        },
        Err((work, fault)) => {
            board.abandon(work);
            match fault {
                WorkFault::NoMemory => Turn::NoMemory,
                WorkFault::Count => Turn::Count,
            }
        }
    }
}

/// Claims, computes and commits once.
pub fn take_turn<V: Views>(alloc: Global, board: &mut Board<V>, worker: u32) -> Turn {
    match board.claim(worker) {
        Claimed::Stopped => Turn::Stopped,
        Claimed::Busy => Turn::Busy,
        Claimed::Drained => Turn::Drained,
        Claimed::Idle => Turn::Idle,
        Claimed::Work(work) => commit(alloc, board, work),
    }
}

/// What was emitted at an output for an epoch; nothing where there is no such output.
pub fn emitted_at<V: Views>(board: &Board<V>, output: u32, epoch: u32) -> &[Batch] {
    if output < board.output_count() {
        board.emitted(output, epoch)
    } else {
        &[]
    }
}

/// Whether an epoch has passed at an output; no where there is no such output.
pub fn passed_at<V: Views>(board: &Board<V>, output: u32, epoch: u32) -> bool {
    output < board.output_count() && board.passed(output, epoch)
}

/// The fields of all records, in order, equal ones of a batch with their repeats one after the other.
pub fn fields_of(alloc: Global, batches: &[Batch]) -> Result<Vec<i64>, AllocError> {
    let mut fields = Vec::new(alloc);
    for batch in batches {
        for place in 0..batch.len() {
            for _ in 0..batch.count(place) {
                fields.extend_from_slice(batch.row(place))?;
            }
        }
    }
    Ok(fields)
}
