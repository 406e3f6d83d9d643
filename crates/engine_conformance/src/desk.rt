//! A board over the graph of a query, and a look at it.

ghost use Rattle.std.specs.Prelude.{◌≡◌, IfOk};
ghost use Rattle.board.specs.Commits.{IsOf};
ghost use Rattle.board.specs.Shown.{tables};

use crate::texts::{
    done, fields_in, no_such_call, number, or_nothing, records_of, said, show, text, yes_or_no,
};
use board::{Board, Claimed, CommitRefusal, Look, StepRefusal};
use events::Work;
use pages::Subject;
use rows::{Batch, WorkFault};
use std::alloc::{AllocError, Global};
use views::Views;

/// A board, and the last look at it.
#[derive(Drop)]
pub struct Desk<V: Views> {
    board: Box<Board<V>>,
    look: Option<Box<Look>>,
}

/// Two numbers of a text `0 at 1`.
fn two_numbers(text: &str) -> Option<(u32, u32)> {
    let (one, other) = text.split_once(" at ").unwrap_or((text, ""));
    match (one.parse(), other.parse()) {
        (Ok(one), Ok(other)) => Some((one, other)),
        _ => None,
    }
}

/// What a step is answered.
fn step_answer(alloc: Global, step: Result<(), StepRefusal>) -> Result<String, WorkFault> {
    match step {
        Ok(()) => done(alloc),
        Err(refusal) => Ok(format!(in alloc; "{refusal}")?),
    }
}

/// The records of batches.
fn records_in(alloc: Global, batches: &[Batch]) -> Result<String, WorkFault> {
    let mut text = String::new(alloc);
    for batch in batches {
        for place in 0..batch.len() {
            show(alloc, &mut text, batch.row(place), batch.count(place))?;
        }
    }
    or_nothing(text)
}

/// Feeds the records of a text `0: 5, 7 x 2` to an input.
fn feed<V: Views>(alloc: Global, board: &mut Board<V>, call: &str) -> Result<String, WorkFault>
    ensures { tables board.new.shown ≡ tables board.old.shown }
{
    let (input, records) = call.split_once(": ").unwrap_or((call, ""));
    let rows = records_of(alloc, fields_in(records), records)?;
    let (Ok(input), Some(rows)) = (input.parse::<u32>(), rows) else {
        return no_such_call(alloc);
    };
    match Batch::merged(alloc, rows)? {
        Some(batch) => step_answer(alloc, board.feed(alloc, input, batch)),
        None => no_such_call(alloc),
    }
}

/// Computes an event and commits it, or abandons it if that is refused.
fn commit<V: Views>(alloc: Global, board: &mut Board<V>, work: Work) -> &'static str
    requires { IsOf board.old.shown work.0 }
    ensures { tables board.new.shown ≡ tables board.old.shown }
{
    match work.compute(alloc) {
        Ok(done) => match board.commit(done) {
            Ok(_sent) => "committed",
            Err(CommitRefusal::NoMemory(done)) => {
                board.abandon_done(done);
                "no memory"
            }
        },
        Err((work, fault)) => {
            board.abandon(work);
            match fault {
                WorkFault::NoMemory => "no memory",
                WorkFault::Count => "too often",
            }
        }
    }
}

/// An event that a worker claims, or why it has none.
fn claim<V: Views>(board: &mut Board<V>, worker: u32) -> Result<Work, &'static str>
    ensures own { IfOk result (λ work. IsOf board.new.shown work.0) }
    ensures tables { tables board.new.shown ≡ tables board.old.shown }
{
    match board.claim(worker) {
        Claimed::Work(work) => Ok(work),
        Claimed::Stopped => Err("stopped"),
        Claimed::Busy => Err("busy"),
        Claimed::Drained => Err("drained"),
        Claimed::Idle => Err("idle"),
    }
}

/// Claims, computes and commits once.
fn take_turn<V: Views>(alloc: Global, board: &mut Board<V>, worker: u32) -> &'static str
    ensures { tables board.new.shown ≡ tables board.old.shown }
{
    match claim(board, worker) {
        Ok(work) => commit(alloc, board, work),
        Err(answer) => answer,
    }
}

/// What a look at an epoch shows of the first input and output: `fed 5, emitted 5 1, passed`.
fn seen(alloc: Global, look: &Look) -> Result<String, WorkFault> {
    let fed = records_in(alloc, look.fed(0))?;
    let emitted = records_in(alloc, look.emitted(0))?;
    let state = if look.passed(0) { "passed" } else { "open" };
    Ok(format!(in alloc; "fed {fed}, emitted {emitted}, {state}")?)
}

/// What a board tells of an output at an epoch, by a text `0 at 1`: what was emitted, or whether the epoch has passed.
fn told<V: Views>(
    alloc: Global,
    board: &Board<V>,
    verb: &str,
    call: &str,
) -> Result<String, WorkFault> {
    match two_numbers(call) {
        Some((output, epoch)) if output < board.output_count() => match verb {
            "emitted" => records_in(alloc, board.emitted(output, epoch)),
            _ => yes_or_no(alloc, board.passed(output, epoch)),
        },
        _ => no_such_call(alloc),
    }
}

/// What a board tells of itself, by a worker's or an input's number where there is one.
fn question<V: Views>(
    alloc: Global,
    board: &Board<V>,
    verb: &str,
    call: &str,
) -> Result<String, WorkFault> {
    match (verb, call.parse::<u32>(), two_numbers(call)) {
        ("workers", _, _) => number(alloc, board.workers() as usize),
        ("waiting-changes", _, _) => number(alloc, board.waiting_changes() as usize),
        ("holding", Ok(worker), _) => yes_or_no(alloc, board.holding(worker)),
        ("fed", _, Some((input, epoch))) => records_in(alloc, board.fed(input, epoch)),
        _ => told(alloc, board, verb, call),
    }
}

/// Commits a worker's event of that number.
fn pick<V: Views>(
    alloc: Global,
    board: &mut Board<V>,
    worker: u32,
    choice: u32,
) -> Result<String, WorkFault>
    ensures { tables board.new.shown ≡ tables board.old.shown }
{
    match board.pick(worker, u64::from(choice)) {
        Ok(work) => text(alloc, commit(alloc, board, work)),
        Err(refusal) => step_answer(alloc, Err(refusal)),
    }
}

/// Changes a board, or asks it.
fn change<V: Views>(
    alloc: Global,
    board: &mut Board<V>,
    verb: &str,
    call: &str,
) -> Result<String, WorkFault>
    ensures { tables board.new.shown ≡ tables board.old.shown }
{
    match (verb, call.parse::<u32>(), two_numbers(call)) {
        ("feed", _, _) => feed(alloc, board, call),
        ("seal", Ok(input), _) => step_answer(alloc, board.seal(input)),
        ("close", Ok(input), _) => step_answer(alloc, board.close(input)),
        ("turn", Ok(worker), _) => text(alloc, take_turn(alloc, board, worker)),
        ("pick", _, Some((worker, choice))) => pick(alloc, board, worker, choice),
        ("merge", _, Some((worker, place))) => yes_or_no(
            alloc,
            board.merge(worker, place as usize),
        ),
        ("apply", _, Some((worker, sender))) => yes_or_no(alloc, board.apply(worker, sender)),
        ("passed-count", _, _) => number(alloc, board.passed_count() as usize),
        _ => question(alloc, board, verb, call),
    }
}

/// Claims an event, makes a call, and then commits the event: `0: passed 0 at 1`.
fn during<V: Views>(alloc: Global, board: &mut Board<V>, call: &str) -> Result<String, WorkFault> {
    let (worker, call) = call.split_once(": ").unwrap_or((call, ""));
    let (verb, rest) = call.split_once(' ').unwrap_or((call, ""));
    match claim(board, worker.parse::<u32>().unwrap_or(0)) {
        Ok(work) => {
            let answer = change(alloc, board, verb, rest);
            let _committed = commit(alloc, board, work);
            answer
        }
        Err(answer) => text(alloc, answer),
    }
}

/// Claims an event and abandons it.
fn abandon<V: Views>(
    alloc: Global,
    board: &mut Board<V>,
    worker: &str,
) -> Result<String, WorkFault> {
    match claim(board, worker.parse::<u32>().unwrap_or(0)) {
        Ok(work) => {
            board.abandon(work);
            done(alloc)
        }
        Err(answer) => text(alloc, answer),
    }
}

impl<V: Views> Desk<V> {
    pub fn new(alloc: Global, board: Board<V>) -> Result<Desk<V>, AllocError> {
        Ok(Desk {
            board: Box::new(alloc, board)?,
            look: None,
        })
    }

    /// Looks at an epoch.
    fn look(&mut self, alloc: Global, epoch: &str) -> Result<String, WorkFault> {
        let Ok(epoch) = epoch.parse::<u32>() else {
            return no_such_call(alloc);
        };
        self.look = Some(Box::new(alloc, self.board.look(alloc, epoch)?)?);
        done(alloc)
    }

    /// What the look shows.
    fn seen(&self, alloc: Global) -> Result<String, WorkFault> {
        match &self.look {
            Some(look) => seen(alloc, look),
            None => no_such_call(alloc),
        }
    }

    fn reply(&mut self, alloc: Global, call: &str) -> Result<String, WorkFault> {
        let (verb, rest) = call.split_once(' ').unwrap_or((call, ""));
        match verb {
            "during" => during(alloc, &mut self.board, rest),
            "abandon" => abandon(alloc, &mut self.board, rest),
            "look" => self.look(alloc, rest),
            "seen" => self.seen(alloc),
            _ => change(alloc, &mut self.board, verb, rest),
        }
    }
}

impl<V: Views> Subject for Desk<V> {
    fn answer(&mut self, alloc: Global, call: &str) -> Result<String, AllocError> {
        said(alloc, self.reply(alloc, call))
    }
}
