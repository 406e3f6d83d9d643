//! Scenarios: steps on an engine that copies its input to its output, and what its report shows, each with its answer. One call plays them all.

ghost use Rattle.std.specs.Prelude.{◌≡◌, None};
ghost use Rattle.board.specs.Shown.{tables};

use crate::boards::{count_of, emitted};
use crate::calls::{Call, NO_MEMORY, answer_to_call};
use crate::threads::{BOTH_DRAINED, BOTH_STOPPED, digit_of, work_both, work_while};
use board::Board;
use std::alloc::Global;
use std::marker::Brand;
use std::sync::Wait;
use std::thread::Threads;
use views::Views;
use workers::{Engine, Gate, Mark, Naming, Publisher, Report, Seat, finish, work};

/// A step. It is answered by a number.
#[derive(Clone, Copy)]
pub enum Step {
    Call(Call),
    /// Worker 0 does all work that there is, and ends for a reason.
    Work,
    /// Workers 0 and 1 do so, a thread each.
    WorkBoth,
    /// The same while two more threads make the calls of a feeding.
    WorkWhile(usize),
    /// How often a number was fed for an epoch, as a look shows it.
    Fed(u32, i64),
    /// How often it was emitted.
    Emitted(u32, i64),
    /// Whether an epoch has passed: 1 or 0.
    Passed(u32),
    /// How many epochs have passed, as the mark says.
    Mark,
}

/// A question about the report. It is answered by a number too.
#[derive(Clone, Copy)]
pub enum Question {
    /// How often a number was emitted for an epoch.
    Emitted(u32, i64),
    /// How many of the numbers below that one were fed once.
    FedOnce(i64),
    /// The end, where the numbers below that one were fed.
    End(i64),
    /// Whether that is one of the two ends: 1 or 0.
    HasEnded(i64),
}

/// Both workers have found nothing left to do, one epoch has passed, and each number was emitted once.
pub const WORKED_OFF: u64 = 1;
/// An event was abandoned: both workers have stopped, a number is missing and none was emitted twice, and no epoch has passed.
pub const GIVEN_UP: u64 = 2;

/// The answer to a step that may have any.
pub const ANY: u64 = 999;

#[derive(Clone, Copy)]
pub struct Scenario {
    pub steps: &'static [(Step, u64)],
    pub report: &'static [(Question, u64)],
}

/// How far a scenario came.
#[derive(Clone, Copy)]
struct Progress {
    is_right: bool,
    lacks_memory: bool,
    /// What the workers answered last.
    worked: u64,
}

/// How often a number was fed and emitted for an epoch, and whether that has passed.
fn look_of<J: Naming, V: Views, R: Wait>(
    rt: &R,
    alloc: Global,
    engine: &Engine<J, V>,
    seat: &mut Seat,
    epoch: u32,
    field: i64,
) -> (u64, u64, u64)
    requires { seat.old.table ≡ J.mark }
    ensures { seat.new.table ≡ seat.old.table }
{
    match engine.look(rt, alloc, epoch, seat) {
        Ok(look) => {
            let passed = if look.passed(0) { 1 } else { 0 };
            (
                count_of(look.fed(0), field),
                count_of(look.emitted(0), field),
                passed,
            )
        }
        Err(_) => (NO_MEMORY, NO_MEMORY, NO_MEMORY),
    }
}

/// Takes a step.
fn answer_to<J: Naming + Send + Sync, V: Views + Send, G: Gate + Sync, R: Threads + Wait + Sync>(
    rt: &R,
    alloc: Global,
    engine: &Engine<J, V>,
    mark: &Mark,
    seat: &mut Seat,
    gate: &G,
    step: Step,
) -> u64
    requires { (seat.old.table ≡ J.mark) × (mark.now ≡ J.mark) }
    ensures { seat.new.table ≡ seat.old.table }
{
    match step {
        Step::Call(call) => answer_to_call(rt, alloc, engine, call),
        Step::Work => digit_of(work(rt, alloc, engine, 0, gate)),
        Step::WorkBoth => work_both(rt, alloc, engine, gate),
        Step::WorkWhile(feeding) => work_while(rt, alloc, engine, gate, feeding),
        Step::Fed(epoch, field) => look_of(rt, alloc, engine, seat, epoch, field).0,
        Step::Emitted(epoch, field) => look_of(rt, alloc, engine, seat, epoch, field).1,
        Step::Passed(epoch) => look_of(rt, alloc, engine, seat, epoch, 0).2,
        Step::Mark => mark.observe(seat),
    }
}

/// Takes steps up to the first that is answered otherwise.
fn take<J: Naming + Send + Sync, V: Views + Send, G: Gate + Sync, R: Threads + Wait + Sync>(
    rt: &R,
    alloc: Global,
    engine: &Engine<J, V>,
    mark: &Mark,
    seat: &mut Seat,
    gate: &G,
    steps: &[(Step, u64)],
) -> Progress
    requires { (seat.old.table ≡ J.mark) × (mark.now ≡ J.mark) }
{
    let mut progress = Progress {
        is_right: true,
        lacks_memory: false,
        worked: 0,
    };
    for (step, wanted) in steps {
        let answer = answer_to(rt, alloc, engine, mark, seat, gate, *step);
        if matches!(step, Step::WorkBoth | Step::WorkWhile(_)) {
            progress.worked = answer;
        }
        if answer != *wanted && *wanted != ANY {
            progress.is_right = false;
            progress.lacks_memory = answer == NO_MEMORY;
            return progress;
        }
    }
    progress
}

/// The end of a run in which the numbers below that one were fed: `WORKED_OFF`, `GIVEN_UP`, or 0.
fn end_of<V: Views>(report: &Report<V>, fed: i64, worked: u64) -> u64 {
    let mut missing = 0u64;
    for field in 0..fed {
        match count_of(emitted(report, 0), field) {
            0 => missing = missing.saturating_add(1),
            1 => {}
            _ => return 0,
        }
    }
    let (drained, stopped, passed) = (report.drained(), report.stopped(), report.passed());
    if worked == BOTH_DRAINED && drained && !stopped && passed == 1 && missing == 0 {
        return WORKED_OFF;
    }
    if worked == BOTH_STOPPED && !drained && stopped && passed == 0 && missing > 0 {
        return GIVEN_UP;
    }
    0
}

/// What a report answers.
fn answer_in<V: Views>(report: &Report<V>, worked: u64, question: Question) -> u64 {
    match question {
        Question::Emitted(epoch, field) => count_of(emitted(report, epoch), field),
        Question::FedOnce(fed) => {
            let mut once = 0u64;
            for field in 0..fed {
                if count_of(report.fed(0, 0), field) == 1 {
                    once = once.saturating_add(1);
                }
            }
            once
        }
        Question::End(fed) => end_of(report, fed, worked),
        Question::HasEnded(fed) => {
            if end_of(report, fed, worked) == 0 {
                0
            } else {
                1
            }
        }
    }
}

/// Whether a report answers as the rows say.
fn shows<V: Views>(report: &Report<V>, worked: u64, rows: &[(Question, u64)]) -> bool {
    for (question, wanted) in rows {
        if answer_in(report, worked, *question) != *wanted {
            return false;
        }
    }
    true
}

/// What an engine publishes, and who observes it.
#[derive(Drop)]
struct Observed<'a> {
    publisher: Publisher,
    mark: &'a Mark,
    seat: Seat,
}

/// Whether a scenario goes as it says; None if memory was refused before its work.
fn goes<J: Naming + Send + Sync, V: Views + Send, G: Gate + Sync, R: Threads + Wait + Sync>(
    rt: &R,
    alloc: Global,
    board: Board<V>,
    observed: Observed<'_>,
    gate: &G,
    scenario: Scenario,
) -> Option<bool>
    requires names { tables board.shown ≡ J.names }
    requires graph { board.shown.graph ≡ J.graph }
    requires mark { (observed.publisher.table ≡ J.mark) × (observed.mark.now ≡ J.mark) }
    requires unwatched { J.received ≡ None }
    requires fresh { observed.publisher.number ≡ 0 }
    requires seat { observed.seat.table ≡ J.mark }
{
    let Observed {
        publisher,
        mark,
        mut seat,
    } = observed;
    let Ok(engine) = Engine::<J, V>::new(alloc, board, publisher) else {
        return None;
    };
    let progress = take(rt, alloc, &engine, mark, &mut seat, gate, scenario.steps);
    let report = finish(engine, Vec::new(alloc));
    if progress.lacks_memory {
        return None;
    }
    Some(progress.is_right && shows(&report, progress.worked, scenario.report))
}

fn goes_with<V: Views + Send, G: Gate + Sync, R: Threads + Wait + Sync>(
    rt: &R,
    alloc: Global,
    board: Board<V>,
    observed: Observed<'_>,
    gate: &G,
    scenario: Scenario,
) -> Option<bool>
    requires publisher { (observed.publisher.table ≡ observed.mark.now) × (observed.publisher.number ≡ 0) }
    requires seat { observed.seat.table ≡ observed.mark.now }
{
    goes::<Brand, V, G, R>(rt, alloc, board, observed, gate, scenario)
}

/// Whether a scenario goes as it says on this board; None if memory was refused before its work.
pub fn play<V: Views + Send, G: Gate + Sync, R: Threads + Wait + Sync>(
    rt: &R,
    alloc: Global,
    board: Option<Board<V>>,
    gate: &G,
    scenario: Scenario,
) -> Option<bool> {
    let board = board?;
    let Ok((mark, publisher, mut seats)) = Mark::new(alloc, 1) else {
        return None;
    };
    let observed = Observed {
        publisher,
        mark: &mark,
        seat: seats.pop()?,
    };
    goes_with(rt, alloc, board, observed, gate, scenario)
}
