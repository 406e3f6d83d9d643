//! The first byte of a text that the grammar doesn't allow.

ghost use Rattle.std.specs.Prelude.{◌≡◌, ◌≤◌, ◌+◌, length, IfErr, List, OnOk, ℕ};
ghost use Rattle.csv_strict.specs.Strict.{IsPlace, IsRefused, IsStrict, fault_of, line_of};

use crate::state::State;
use thiserror::Error;

/// Why a text isn't one of CSV.
#[derive(Clone, Copy, Debug, Error)]
pub enum Fault {
    /// A line with no byte. A record of one empty cell is written `""`.
    #[error("an empty line")]
    EmptyLine,
    /// A cell that has a quote, and doesn't begin with one.
    #[error("a quote in a cell without quotes")]
    QuoteInside,
    /// After a cell in quotes comes no comma and no line's end.
    #[error("more after a cell's closing quote")]
    AfterQuote,
    /// A CR that no LF follows.
    #[error("a carriage return that ends no line")]
    BareReturn,
    /// A cell's quote is never closed.
    #[error("a quote that is never closed")]
    Unclosed,
}

/// A fault, and its line, counted from 1: of a quote that is never closed the line where it stands.
#[derive(Clone, Copy, Debug)]
pub struct Refusal {
    pub fault: Fault,
    pub line: u64,
}

/// The fault where a text stops that has come this far.
fn fault_at(state: State) -> Fault
    ensures { result ≡ fault_of state }
{
    match state {
        State::Record | State::Field => Fault::EmptyLine,
        State::Bare => Fault::QuoteInside,
        State::Quoted => Fault::Unclosed,
        State::Quote => Fault::AfterQuote,
        State::Return => Fault::BareReturn,
    }
}

/// The place of the fault of a text that ends in that state.
fn place_at(state: State, opened: usize, end: usize) -> usize
    requires { opened ≤ end }
    ensures place { IsPlace (fault_of state) end result }
    ensures within { result ≤ end }
{
    match state {
        State::Quoted => opened,
        _ => end,
    }
}

/// The line of a place of a text, from 1.
fn line_at(text: &[u8], place: usize) -> u64
    requires { place ≤ length text.now }
    ensures { result ≡ line_of text.now place }
{
    let mut line = 1u64;
    for i in 0..place {
        if text[i] == b'\n' {
            line += 1;
        }
    }
    line
}

/// Passes a text of the grammar, in linear time. A refusal names its first fault.
#[tactic(auto, using(crate::proofs::Runs::state_next, crate::proofs::Runs::state_first))]
pub fn check_text(text: &[u8]) -> Result<(), Refusal>
    ensures passed { OnOk result (IsStrict text.now) }
    ensures refused { IfErr result (IsRefused text.now) }
{
    let mut state = State::Record;
    let mut opened = 0;
    for i in 0..text.len() {
        if state.stays(text[i]) {
            continue;
        }
        let next = match state.next(text[i]) {
            Some(next) => next,
            None => {
                return Err(Refusal {
                    fault: fault_at(state),
                    line: line_at(text, i),
                });
            }
        };
        if next == State::Quoted && state != State::Quoted && state != State::Quote {
            opened = i;
        }
        state = next;
    }
    if state.may_end() {
        return Ok(());
    }
    let place = place_at(state, opened, text.len());
    Err(Refusal {
        fault: fault_at(state),
        line: line_at(text, place),
    })
}

/// A text that is refused isn't one of the grammar.
pub fn law_refused()
    ensures { (text : List ℕ) (refusal : Refusal) → IsRefused text refusal → ¬ IsStrict text }
{}

/// The line, from 1, on which the record begins that comes after that many others.
pub fn line_of_record(text: &[u8], count: u64) -> u64 {
    let mut state = State::Record;
    let mut left = count;
    let mut line = 1u64;
    for byte in text {
        if left == 0 {
            return line;
        }
        if *byte == b'\n' {
            line = line.saturating_add(1);
        }
        let Some(next) = state.next(*byte) else {
            return line;
        };
        state = next;
        if state == State::Record {
            left -= 1;
        }
    }
    line
}
