//! How far following has come.

ghost use Rattle.std.specs.Prelude.{IfOk, map};
ghost use Rattle.record_core.specs.Inputs.{input_of};
ghost use Rattle.follow.specs.Steps.{HaveArities, IsFirst};

use crate::intake::Intake;
use crate::outcome::Halt;
use crate::reporting::Reporting;
use record_core::DeclaredInput;
use std::alloc::Global;

/// What was taken of the input, and what was written of the answer.
#[derive(Drop)]
pub struct Position {
    /// The input's epoch at which the board's epochs begin. Those before it are complete.
    pub base: u32,
    /// From this line on, the next epoch gets a new board.
    pub until: u64,
    pub intake: Intake,
    pub reporting: Reporting,
    /// The bytes after the last line that was taken.
    pub pending: Vec<u8>,
}

impl Position {
    /// The position at the beginning of an input. From line `until` on, the next epoch gets a new board.
    pub fn new(
        alloc: Global,
        inputs: &[DeclaredInput],
        outputs: u32,
        until: u64,
    ) -> Result<Position, Halt>
        requires { HaveArities (map input_of inputs.now) }
        ensures { IfOk result (IsFirst (map input_of inputs.now) outputs) }
    {
        Ok(Position {
            base: 0,
            until,
            intake: Intake::new(alloc, inputs)?,
            reporting: Reporting::new(alloc, outputs)?,
            pending: Vec::new(alloc),
        })
    }
}
