//! Reads a schedule.

ghost use Rattle.std.specs.Prelude.{map, IfOk, IfErr};
ghost use Rattle.schedule.specs.LineReader.{command_of};
ghost use Rattle.schedule.specs.ScheduleText.{IsRefused, IsScheduleText};

use crate::line::{Line, LineError, read_line};
use crate::refusal::ScheduleRefusal;
use crate::verb::ViewKind;
use collector::{NO_LINE_FEED, around, find};
use std::alloc::Global;

/// Reads a whole schedule, in linear time. The lines borrow their names from the text. The kind of the workers' views decides whether it may have
/// lines that apply changes.
///
/// A refusal names the first faulty line, and nothing is kept.
pub fn read_schedule(
    alloc: Global,
    kind: ViewKind,
    text: &[u8],
) -> Result<Vec<Line<'_>>, ScheduleRefusal>
    ensures read { IfOk result (λ lines. IsScheduleText kind text.now (map command_of lines.items)) }
    ensures refused { IfErr result (IsRefused kind text.now) }
{
    let mut lines = Vec::new(alloc);
    let mut rest = text;
    let mut number = 0;
    while let Some(end) = find(rest, b'\n') {
        let (line, after) = around(rest, end);
        number += 1;
        match read_line(alloc, kind, line) {
            Ok(said) => lines.push(said)?,
            Err(LineError::NoMemory) => return Err(ScheduleRefusal::NoMemory),
            Err(LineError::Fault(fault)) => {
                return Err(ScheduleRefusal::At {
                    code: fault.code(),
                    line: number,
                });
            }
        }
        rest = after;
    }
    if !rest.is_empty() {
        return Err(ScheduleRefusal::At {
            code: NO_LINE_FEED,
            line: number + 1,
        });
    }
    Ok(lines)
}
