//! A run over texts in memory.

ghost use Rattle.std.specs.Prelude.{◌≡◌, ◌++◌, [], ℕ, List, IfOk, OnOk};
ghost use Rattle.collector.specs.Piecewise.{row_line};
ghost use Rattle.collector.specs.Watching.{inner_of};
ghost use Rattle.query_answers.specs.Runs.{IsRun};
ghost use Rattle.commands.specs.Taken.{HasTaken};

use crate::intake::{Intake, lines_fault, take_lines, take_record};
use crate::reading::read_query;
use crate::run_options::RunOptions;
use crate::running::{answer_epochs, graph_of_text};
use crate::streams::Streams;
use collector::{InputReader, Watched, push_row_line};
use command_line::Workers;
use diagnostics::{Fault, Texts};
use driver::law_inputs;
use execution::{NoGate, Watcher};
use query_answers::Answering;
use record_core::NoMemory;
use std::alloc::Global;
use std::sync::Wait;
use std::thread::Threads;

/// Where a run writes in memory.
fn streams_in_memory(alloc: Global) -> Streams<Vec<u8>, Vec<u8>, Vec<u8>>
    ensures { (inner_of result.out).items ≡ [] }
{
    Streams {
        out: Watched::new(Vec::new(alloc)),
        err: Vec::new(alloc),
        watcher: None::<Watcher<Vec<u8>>>,
    }
}

/// The fault of a run in memory: where it couldn't write, memory lacked.
fn memory_fault(fault: Fault) -> Fault {
    match fault {
        Fault::Write => Fault::NoMemory,
        fault => fault,
    }
}

/// The answer to all that was taken. The inputs that are fed in the first epoch alone, where others are fed later, are noted in `texts`.
fn answer_taken<R: Threads + Wait + Sync>(
    rt: &R,
    alloc: Global,
    intake: Intake,
    texts: &mut Texts,
) -> Result<Vec<u8>, Fault>
    ensures { (query text : List ℕ) → HasTaken intake.graph intake.reader query text → IfOk result (λ answer. IsRun query text answer.items) }
{
    let Intake {
        graph,
        workers,
        reader,
        ..
    } = intake;
    let Ok(epochs) = reader.finish(alloc) else {
        return Err(Fault::NoMemory);
    };
    let options = RunOptions {
        workers,
        gate: &NoGate,
        stats: None,
    };
    let mut streams = streams_in_memory(alloc);
    law_inputs(&graph);
    match answer_epochs(
        rt,
        alloc,
        options,
        graph,
        &epochs,
        &mut texts.early,
        &mut streams,
    ) {
        Ok(()) => Ok(streams.out.into_inner()),
        Err(fault) => Err(memory_fault(fault)),
    }
}

/// Takes more lines. Where they are refused, they are left in `texts`, if there is memory for them.
fn take_text(
    alloc: Global,
    intake: &mut Intake,
    lines: &[u8],
    texts: &mut Texts,
) -> Result<(), Fault>
    ensures { (query text : List ℕ) → HasTaken intake.old.graph intake.old.reader query text →
        OnOk result (HasTaken intake.new.graph intake.new.reader query (text ++ lines.now)) }
{
    match take_lines(alloc, intake, lines) {
        Ok(()) => Ok(()),
        Err(refusal) => Err(lines_fault(alloc, refusal, intake.lines, lines, texts)),
    }
}

/// Takes a record as its line.
fn take_line(
    alloc: Global,
    intake: &mut Intake,
    name: &[u8],
    numbers: &[i64],
    texts: &mut Texts,
) -> Result<(), Fault>
    ensures { (query text : List ℕ) → HasTaken intake.old.graph intake.old.reader query text →
        OnOk result (HasTaken intake.new.graph intake.new.reader query (text ++ row_line name.now numbers.now)) }
{
    let mut line = Vec::new(alloc);
    if push_row_line(&mut line, name, numbers).is_err() {
        return Err(Fault::NoMemory);
    }
    take_text(alloc, intake, line.as_slice(), texts)
}

/// The engine of the commands, over texts in memory.
#[derive(Drop)]
pub struct InMemory<'a, R> {
    rt: &'a R,
}

impl<'a, R> InMemory<'a, R> {
    /// `rt` permits starting threads, and not returning until all work is done.
    pub fn new(rt: &'a R) -> InMemory<'a, R> {
        InMemory { rt }
    }
}

impl<'a, R: Threads + Wait + Sync> Answering for InMemory<'a, R> {
    ghost use Rattle.std.specs.Thread.{IsSync};
    ghost use Rattle.commands.specs.Taken.{HasTaken};

    ghost is_usable = { IsSync R.row };

    type Intake = Intake;

    ghost holds = { λ intake query text. HasTaken intake.graph intake.reader query text };

    fn begin(
        &self,
        alloc: Global,
        workers: Workers,
        query: &[u8],
        texts: &mut Texts,
    ) -> Result<Intake, Fault> {
        texts.query = read_query(alloc, &mut Watched::new(query))?;
        let graph = graph_of_text(alloc, &texts.query)?;
        let Ok(reader) = InputReader::new(alloc, graph.inputs().len()) else {
            return Err(Fault::NoMemory);
        };
        Ok(Intake {
            graph,
            workers,
            reader,
            lines: 0,
        })
    }

    fn take(
        &self,
        alloc: Global,
        intake: &mut Intake,
        lines: &[u8],
        texts: &mut Texts,
    ) -> Result<(), Fault> {
        take_text(alloc, intake, lines, texts)
    }

    fn take_row(
        &self,
        alloc: Global,
        intake: &mut Intake,
        name: &[u8],
        numbers: &[i64],
        texts: &mut Texts,
    ) -> Result<(), Fault> {
        match take_record(alloc, intake, name, numbers) {
            Ok(true) => Ok(()),
            Ok(false) => take_line(alloc, intake, name, numbers, texts),
            Err(NoMemory) => Err(Fault::NoMemory),
        }
    }

    fn answer(&self, alloc: Global, intake: Intake, texts: &mut Texts) -> Result<Vec<u8>, Fault> {
        answer_taken(self.rt, alloc, intake, texts)
    }
}
