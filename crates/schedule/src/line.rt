//! Reads one line of a schedule.

ghost use Rattle.collector.specs.Said.{words_of};
ghost use Rattle.schedule.specs.LineReader.{ArgumentsEnd, LineEnds};

use crate::arguments::{one_count, one_name, read_feed, two_counts};
use crate::refusal::Fault;
use crate::verb::{Verb, ViewKind, verb_of};
use collector::first_word;
use std::alloc::Global;

/// What a line says. The names are bytes of the text; whether an input has such a name is found out when the line is done.
#[derive(Drop)]
pub enum Line<'a> {
    /// Feeds a record of these fields to the input of that name.
    Feed { input: &'a [u8], fields: Vec<i64> },
    /// Ends the input's open epoch.
    Seal { input: &'a [u8] },
    /// Closes the input.
    Close { input: &'a [u8] },
    /// The worker takes its choice of that number, and computes it.
    Take { worker: u32, choice: u32 },
    /// Commits what the worker holds.
    Commit { worker: u32 },
    /// The worker takes its choice of that number, computes it, and commits it.
    Deliver { worker: u32, choice: u32 },
    /// Prints whether the epoch has passed, and what was emitted for it so far.
    Print { epoch: u32 },
    /// The worker applies the next batch of changes that the sender posted. Only if each worker has its own view.
    Apply { worker: u32, sender: u32 },
}

/// Why a line can't be read.
#[derive(Clone, Copy)]
pub enum LineError {
    Fault(Fault),
    NoMemory,
}

/// What the words after a verb's letter say.
fn arguments_say(alloc: Global, verb: Verb, rest: Option<&[u8]>) -> Result<Line<'_>, LineError>
    ensures { ArgumentsEnd verb (words_of rest.entry) result }
{
    match verb {
        Verb::Feed => read_feed(alloc, rest),
        Verb::Seal => match one_name(rest) {
            Some(input) => Ok(Line::Seal { input }),
            None => Err(LineError::Fault(Fault::Malformed)),
        },
        Verb::Close => match one_name(rest) {
            Some(input) => Ok(Line::Close { input }),
            None => Err(LineError::Fault(Fault::Malformed)),
        },
        Verb::Take => match two_counts(rest) {
            Ok((worker, choice)) => Ok(Line::Take { worker, choice }),
            Err(fault) => Err(LineError::Fault(fault)),
        },
        Verb::Commit => match one_count(rest) {
            Ok(worker) => Ok(Line::Commit { worker }),
            Err(fault) => Err(LineError::Fault(fault)),
        },
        Verb::Deliver => match two_counts(rest) {
            Ok((worker, choice)) => Ok(Line::Deliver { worker, choice }),
            Err(fault) => Err(LineError::Fault(fault)),
        },
        Verb::Print => match one_count(rest) {
            Ok(epoch) => Ok(Line::Print { epoch }),
            Err(fault) => Err(LineError::Fault(fault)),
        },
        Verb::Apply => match two_counts(rest) {
            Ok((worker, sender)) => Ok(Line::Apply { worker, sender }),
            Err(fault) => Err(LineError::Fault(fault)),
        },
    }
}

/// What a line says.
pub fn read_line(alloc: Global, kind: ViewKind, text: &[u8]) -> Result<Line<'_>, LineError>
    ensures { LineEnds kind text.now result }
{
    let (first, rest) = first_word(text);
    match verb_of(kind, first) {
        None => Err(LineError::Fault(Fault::Malformed)),
        Some(verb) => arguments_say(alloc, verb, rest),
    }
}
