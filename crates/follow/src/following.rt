//! Follows an input from its first byte to its end.

ghost use Rattle.std.specs.Prelude.{◌≡◌, ◌+◌, ◌<◌, ◌≤◌, [], length, map, false, true, IfOk, IsErrOf, OnErr, OnOk};
ghost use Rattle.record_core.specs.Inputs.{input_of};
ghost use Rattle.graph.specs.Shown.{GraphValue, shown_inputs};
ghost use Rattle.machine.specs.World.{opening};
ghost use Rattle.board.specs.Promises.{IsOpening};
ghost use Rattle.board.specs.Showing.{Shows};
ghost use Rattle.collector.specs.Watching.{has_failed, inner_of};
ghost use Rattle.follow.specs.Follows.{FollowsInput, HasRead};
ghost use Rattle.follow.specs.Scenes.{IsPositionAfter, IsTakenSo, IsWrittenSo};
ghost use Rattle.follow.specs.Working.{IsWorkedOff};
ghost use Rattle.follow.specs.Steps.{FollowsEnd, FollowsLines, FollowsPiece, TakesLines};
ghost use Rattle.follow.specs.declared.outcome.Ending.TheVariants as ending;
ghost use Rattle.follow.specs.declared.line_stop.Taken.TheVariants as taken;

use crate::answering::{answer_last, answer_open};
use crate::intake::{Intake, take_lines};
use crate::line_stop::{Taken, is_too_long};
use crate::numbering::{FirstEpoch, Numbering};
use crate::outcome::{Ending, Halt};
use crate::position::Position;
use crate::renewing::{LINES, Plan, renew};
use crate::worker_count::WorkerCount;
use board::Board;
use collector::{NO_LINE_FEED, Watched, find, put};
use driver::law_inputs;
use graph::Graph;
use progress::LocationTracker;
use record_core::DeclaredInput;
use std::alloc::Global;
use std::io::{Read, Write};
use std::mem::replace;
use std::sync::Arc;
use std::thread::Threads;
use views::{Direct, Views};

/// The greatest number of bytes that are taken of an input, so that each of its lines has a number.
const MAX_BYTES: u64 = 18_446_744_073_709_551_614;

/// The ending at the line after those that were taken, which has a fault of that code.
fn ending_at_fault(intake: &Intake, code: u8) -> Ending
    requires { intake.now.line < 18446744073709551615 }
    ensures { result ≡ ending.Input code (intake.now.line + 1) }
{
    Ending::Input {
        code,
        line: intake.line + 1,
    }
}

/// Takes the whole lines that are pending, and leaves the text after them.
fn take_text<V: Views>(
    alloc: Global,
    board: &mut Board<V>,
    inputs: &[DeclaredInput],
    base: u32,
    until: u64,
    intake: &mut Intake,
    pending: &mut Vec<u8>,
) -> Result<Taken, Halt>
    requires same { map input_of inputs.now ≡ shown_inputs board.old.shown.graph }
    requires taken { IsTakenSo board.old.shown base intake.old (map input_of inputs.now) pending.old.items }
    requires few { intake.old.line + length pending.old.items < 18446744073709551615 }
    ensures lines { IfOk result (λ how. TakesLines base board.old.shown board.new.shown intake.old intake.new
        (map input_of inputs.now) pending.old.items pending.new.items how) }
    ensures shorter { IfOk result (λ how. how ≡ taken.Epoch → length pending.new.items < length pending.old.items) }
    ensures counted { OnOk result (intake.new.line + length pending.new.items ≤ intake.old.line + length pending.old.items) }
{
    let text = replace(pending, Vec::new(alloc));
    match take_lines(alloc, board, inputs, base, until, intake, text.as_slice()) {
        Ok((rest, taken)) => {
            pending.extend_from_slice(rest)?;
            Ok(taken)
        }
        Err(halt) => Err(halt),
    }
}

/// The number of lines per epoch, among those taken since `begun` epochs had begun and `line` lines had been taken.
fn lines_of_epoch(intake: &Intake, begun: u32, line: u64) -> u64 {
    let lines = intake.line.saturating_sub(line);
    let epochs = intake.begun.saturating_sub(begun);
    lines / u64::from(epochs).saturating_add(1)
}

/// Takes the pending lines, up to an epoch that is to get a new board, and writes what can be answered then.
fn follow_lines<V: Views, R: Threads + Sync, W: Write>(
    rt: &R,
    alloc: Global,
    first: FirstEpoch,
    inputs: &[DeclaredInput],
    board: &mut Board<V>,
    position: &mut Position,
    writer: &mut Watched<W>,
) -> Result<Taken, Ending>
    requires known { (g : GraphValue) × (map input_of inputs.now ≡ shown_inputs g) × IsWrittenSo first.number g board.old.shown position.old (W.contents (inner_of writer.old)) }
    requires few { position.old.intake.line + length position.old.pending.items < 18446744073709551615 }
    ensures follows { FollowsLines first.number (map input_of inputs.now) board.old.shown board.new.shown position.old position.new
        (W.contents (inner_of writer.old)) (W.contents (inner_of writer.new)) result }
    ensures shorter { IfOk result (λ how. how ≡ taken.Epoch → length position.new.pending.items < length position.old.pending.items) }
    ensures counted { OnOk result (position.new.intake.line + length position.new.pending.items ≤ position.old.intake.line + length position.old.pending.items) }
    ensures rests { OnOk result (IsWorkedOff board.new.shown) }
    ensures writer { IsErrOf result ending.Write → has_failed writer.new ≡ true }
    ensures reader { IsErrOf result ending.Read → ⊥ }
{
    let (base, until) = (position.base, position.until);
    let (begun, line) = (position.intake.begun, position.intake.line);
    let taken = match take_text(
        alloc,
        board,
        inputs,
        base,
        until,
        &mut position.intake,
        &mut position.pending,
    ) {
        Ok(taken) => taken,
        Err(halt) => return Err(halt.ending()),
    };
    let records = lines_of_epoch(&position.intake, begun, line);
    let out = match answer_open(
        rt,
        alloc,
        records,
        board,
        Numbering { first, base },
        &mut position.intake,
        &mut position.reporting,
    ) {
        Ok(out) => out,
        Err(halt) => return Err(halt.ending()),
    };
    match put(writer, out.as_slice()) {
        Ok(()) => Ok(taken),
        Err(_) => Err(Ending::Write),
    }
}

/// Follows a piece of the input, after the pending part of a line. A piece without line feed is only added to it, unless that becomes too long.
fn follow_piece<R: Threads + Sync, W: Write>(
    rt: &R,
    alloc: Global,
    plan: &Plan,
    board: &mut Board<Direct<LocationTracker>>,
    position: &mut Position,
    piece: &[u8],
    writer: &mut Watched<W>,
) -> Result<(), Ending>
    requires rests { IsWorkedOff board.old.shown }
    requires known { IsWrittenSo plan.now.first.number plan.now.graph.value board.old.shown position.old (W.contents (inner_of writer.old)) }
    requires few { position.old.intake.line + length position.old.pending.items + length piece.now < 18446744073709551615 }
    ensures follows { FollowsPiece plan.now.first.number plan.now.graph.value board.old.shown board.new.shown position.old position.new piece.now
        (W.contents (inner_of writer.old)) (W.contents (inner_of writer.new)) result }
    ensures counted { OnOk result (position.new.intake.line + length position.new.pending.items ≤
        position.old.intake.line + length position.old.pending.items + length piece.now) }
    ensures rests { OnOk result (IsWorkedOff board.new.shown) }
    ensures writer { IsErrOf result ending.Write → has_failed writer.new ≡ true }
    ensures reader { IsErrOf result ending.Read → ⊥ }
{
    if position.pending.extend_from_slice(piece).is_err() {
        return Err(Ending::NoMemory);
    }
    if find(piece, b'\n').is_none() && !is_too_long(position.pending.as_slice()) {
        return Ok(());
    }
    let inputs = plan.graph.inputs();
    'boards: loop {
        match follow_lines(rt, alloc, plan.first, inputs, board, position, writer) {
            Ok(Taken::Whole) => return Ok(()),
            Ok(Taken::Fault(code)) => return Err(ending_at_fault(&position.intake, code)),
            Ok(Taken::Epoch) => match renew(alloc, plan, board, position) {
                Ok(()) => {}
                Err(halt) => return Err(halt.ending()),
            },
            Err(ending) => return Err(ending),
        }
    }
}

/// Ends following at the reader's end.
fn follow_end<V: Views, R: Threads + Sync, W: Write>(
    rt: &R,
    alloc: Global,
    first: FirstEpoch,
    board: &mut Board<V>,
    position: &mut Position,
    writer: &mut Watched<W>,
) -> Result<(), Ending>
    requires prompt { V.late ≡ false }
    requires known { (g : GraphValue) × IsWrittenSo first.number g board.old.shown position.old (W.contents (inner_of writer.old)) }
    requires few { position.old.intake.line + length position.old.pending.items < 18446744073709551615 }
    ensures follows { FollowsEnd first.number board.old.shown position.old (W.contents (inner_of writer.old)) (W.contents (inner_of writer.new)) result }
    ensures writer { IsErrOf result ending.Write → has_failed writer.new ≡ true }
    ensures reader { IsErrOf result ending.Read → ⊥ }
{
    if !position.pending.is_empty() {
        return Err(ending_at_fault(&position.intake, NO_LINE_FEED));
    }
    let base = position.base;
    let out = match answer_last(
        rt,
        alloc,
        board,
        Numbering { first, base },
        &mut position.intake,
        &mut position.reporting,
    ) {
        Ok(out) => out,
        Err(halt) => return Err(halt.ending()),
    };
    match put(writer, out.as_slice()) {
        Ok(()) => Ok(()),
        Err(_) => Err(Ending::Write),
    }
}

/// Follows the input piece by piece.
fn follow_pieces<T: Threads + Sync, R: Read, W: Write>(
    rt: &T,
    alloc: Global,
    plan: &Plan,
    board: &mut Board<Direct<LocationTracker>>,
    position: &mut Position,
    reader: &mut Watched<R>,
    writer: &mut Watched<W>,
) -> Result<(), Ending>
    requires rests { IsWorkedOff board.old.shown }
    requires first { IsPositionAfter plan.now.first.number plan.now.graph.value board.old.shown position.old []
        (W.contents (inner_of writer.old)) (W.contents (inner_of writer.old)) }
    requires none { position.old.intake.line + length position.old.pending.items ≡ 0 }
    ensures follows { FollowsInput plan.now.first.number plan.now.graph.value
        (HasRead R.remaining reader.old reader.new) (W.contents (inner_of writer.old)) (W.contents (inner_of writer.new)) result }
    ensures reader { IsErrOf result ending.Read → has_failed reader.new ≡ true }
    ensures writer { IsErrOf result ending.Write → has_failed writer.new ≡ true }
{
    let mut piece = [0; 16_384];
    let mut room = MAX_BYTES;
    'pieces: loop {
        let Ok(count) = reader.pull(&mut piece) else {
            return Err(Ending::Read);
        };
        if count == 0 {
            return follow_end(rt, alloc, plan.first, board, position, writer);
        }
        let Some(left) = room.checked_sub(count as u64) else {
            return Err(Ending::TooLong);
        };
        room = left;
        match follow_piece(rt, alloc, plan, board, position, &piece[..count], writer) {
            Ok(()) => {}
            Err(ending) => return Err(ending),
        }
    }
}

/// How many workers compute, and what the first epoch is called.
#[derive(Clone, Copy)]
pub struct Manner {
    pub workers: WorkerCount,
    pub first: FirstEpoch,
}

/// A new board over the graph, and the plan for further ones.
fn open_board(
    alloc: Global,
    manner: Manner,
    graph: Graph,
) -> Result<(Plan, Board<Direct<LocationTracker>>), Halt>
    ensures same { IfOk result (λ p. p.0.graph.value ≡ graph) }
    ensures first { IfOk result (λ p. p.0.first ≡ manner.first) }
    ensures opening { IfOk result (λ p. IsOpening p.0.graph.value p.0.workers.count p.1.shown) }
    ensures shows { IfOk result (λ p. Shows p.1.shown opening) }
{
    let graph = Arc::new(alloc, graph)?;
    let Manner { workers, first } = manner;
    let plan = Plan {
        graph,
        workers,
        first,
    };
    let board = plan.new_board(alloc)?;
    Ok((plan, board))
}

/// Follows the input of a graph on a new board: what it writes is an answer to what it reads.
fn follow_graph<T: Threads + Sync, R: Read, W: Write>(
    rt: &T,
    alloc: Global,
    plan: &Plan,
    board: &mut Board<Direct<LocationTracker>>,
    reader: &mut Watched<R>,
    rest: &mut Vec<u8>,
    writer: &mut Watched<W>,
) -> Result<Result<(), Ending>, Halt>
    requires opening { IsOpening plan.now.graph.value plan.now.workers.count board.old.shown }
    requires shows { Shows board.old.shown opening }
    ensures follows { IfOk result (λ r. FollowsInput plan.now.first.number plan.now.graph.value
        (HasRead R.remaining reader.old reader.new) (W.contents (inner_of writer.old)) (W.contents (inner_of writer.new)) r) }
    ensures reader { IfOk result (λ r. IsErrOf r ending.Read → has_failed reader.new ≡ true) }
    ensures writer { IfOk result (λ r. IsErrOf r ending.Write → has_failed writer.new ≡ true) }
    ensures unread { OnErr result (reader.new ≡ reader.old) }
    ensures unwritten { OnErr result (writer.new ≡ writer.old) }
{
    board.law_run();
    law_inputs(&plan.graph);
    let inputs = plan.graph.inputs();
    let mut position = Position::new(alloc, inputs, board.output_count(), LINES)?;
    let ended = follow_pieces(rt, alloc, plan, board, &mut position, reader, writer);
    *rest = position.pending;
    Ok(ended)
}

/// Follows an input text to its end. After each piece that it reads, it feeds the records, does what can be done, and writes what was emitted before
/// it reads more. With several workers, large events are computed by a thread each.
///
/// The records of the first epoch that isn't complete are written as they come, and the line that says that it is complete once it has passed at
/// every output. Epochs are called by their numbers, counted from that of the first. At `Ok` every epoch is complete. What was written before a fault
/// stays true: it is an answer to the lines before the fault. The bytes read after the last line that was taken are left in `rest`; at a fault they
/// begin with the faulty line, or with so much of one as shows that it is too long.
pub fn follow<T: Threads + Sync, R: Read, W: Write>(
    rt: &T,
    alloc: Global,
    manner: Manner,
    graph: Graph,
    reader: &mut Watched<R>,
    rest: &mut Vec<u8>,
    writer: &mut Watched<W>,
) -> Result<(), Ending>
    ensures follows { FollowsInput manner.first.number graph
        (HasRead R.remaining reader.old reader.new) (W.contents (inner_of writer.old)) (W.contents (inner_of writer.new)) result }
    ensures reader { IsErrOf result ending.Read → has_failed reader.new ≡ true }
    ensures writer { IsErrOf result ending.Write → has_failed writer.new ≡ true }
{
    let (plan, mut board) = match open_board(alloc, manner, graph) {
        Ok(pair) => pair,
        Err(halt) => return Err(halt.ending()),
    };
    match follow_graph(rt, alloc, &plan, &mut board, reader, rest, writer) {
        Ok(result) => result,
        Err(halt) => Err(halt.ending()),
    }
}
