//! What is wrong with a line of a schedule.

use crate::display::Part::Text;
use crate::display::write_line;
use crate::query_fault::write_summary;
use std::io;
use std::io::Write;

/// Writes what is wrong with a line of a schedule, in one line.
pub fn write_schedule_fault<W: Write>(code: u8, writer: &mut W) -> io::Result<()> {
    let text = match code {
        44 => {
            "expected a number without a sign or a leading zero, at most 4294967295; a field as in an input"
        }
        46 => {
            "a line is `f INPUT FIELD ..`, `s INPUT`, `x INPUT`, `t WORKER CHOICE`, `c WORKER`, `d WORKER CHOICE`, `p EPOCH` \
            or, with `--views`, `v WORKER SENDER`"
        }
        _ => return write_summary(code, writer),
    };
    write_line(&[Text(text)], writer)
}
