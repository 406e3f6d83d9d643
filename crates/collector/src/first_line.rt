//! Reads the first line of a text.

ghost use Rattle.std.specs.Prelude.{map};
ghost use Rattle.record_core.specs.Inputs.{input_of};
ghost use Rattle.collector.specs.Quick.{NextEnds};

use crate::line::{Line, LineError, line_says};
use crate::quick::quick_row;
use crate::refusal::Fault;
use crate::splitting::{around, find};
use record_core::DeclaredInput;
use thiserror::Error;

/// Why no line was read.
#[derive(Clone, Copy, Debug, Error)]
pub enum Stop {
    #[error("out of memory")]
    NoMemory,
    #[error(transparent)]
    Fault(Fault),
    #[error("no line feed")]
    NoLineFeed,
}

/// Reads the first line, in whatever spelling.
fn any_line<'a>(
    text: &'a [u8],
    inputs: &[DeclaredInput],
    epochs: u32,
    fields: &mut Vec<i64>,
) -> Result<(Line, &'a [u8]), Stop>
    ensures { NextEnds (map input_of inputs.now) epochs text.entry.now fields.new.items result }
{
    let Some(end) = find(text, b'\n') else {
        return Err(Stop::NoLineFeed);
    };
    let (line, after) = around(text, end);
    match line_says(line, inputs, epochs, fields) {
        Ok(said) => Ok((said, after)),
        Err(LineError::NoMemory) => Err(Stop::NoMemory),
        Err(LineError::Fault(fault)) => Err(Stop::Fault(fault)),
    }
}

/// Reads the first line after `epochs` epochs have begun: what it says, and the text after it.
#[inline(always)]
pub fn next_line<'a>(
    text: &'a [u8],
    inputs: &[DeclaredInput],
    epochs: u32,
    fields: &mut Vec<i64>,
) -> Result<(Line, &'a [u8]), Stop>
    ensures { NextEnds (map input_of inputs.now) epochs text.entry.now fields.new.items result }
{
    if epochs > 0 {
        match quick_row(text, inputs, fields) {
            Err(_) => return Err(Stop::NoMemory),
            Ok(Some((input, after))) => return Ok((Line::Row { input }, after)),
            Ok(None) => {}
        }
    }
    any_line(text, inputs, epochs, fields)
}
