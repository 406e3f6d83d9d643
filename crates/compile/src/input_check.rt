//! The check of a query together with an input.

ghost use Rattle.std.specs.Prelude.{IfErr, IfOk};
ghost use Rattle.compile.specs.CheckedInputs.{IsCheckedInput, IsInputCheckFault};
ghost use Rattle.compile.specs.Early.{NotesEarly};

use crate::checking::arities_of;
use crate::early::noted_early;
use crate::fault::{input_fault, query_fault};
use crate::typed_program;
use collector::read_input;
use diagnostics::Fault;
use lowering::declared_inputs;
use std::alloc::{Allocator, Global};

/// What is told of a query and an input that are right.
#[derive(Drop)]
pub struct CheckedInput {
    /// The inputs and the arities.
    pub text: Vec<u8>,
    /// The numbers of the inputs that are fed in the first epoch alone, where others are fed later.
    pub early: Vec<u32>,
}

/// Checks a query and an input. Early inputs are left out where there is no memory for them.
#[tactic(auto, using(crate::proofs::QueryFaults::input_check_refused))]
pub fn checked_input<A: Allocator + Copy>(
    alloc: Global,
    arena: A,
    query: &[u8],
    input: &[u8],
) -> Result<CheckedInput, Fault>
    ensures text { IfOk result (λ c. IsCheckedInput query.now input.now c.text.items) }
    ensures early { IfOk result (λ c. NotesEarly query.now input.now c.early.items) }
    ensures fault { IfErr result (IsInputCheckFault query.now input.now) }
{
    let typed = match typed_program(alloc, arena, query) {
        Ok(typed) => typed,
        Err(refusal) => return Err(query_fault(refusal)),
    };
    let program = typed.program();
    let declared = match declared_inputs(alloc, &program.inputs) {
        Ok(inputs) => inputs,
        Err(_) => return Err(Fault::NoMemory),
    };
    let inputs = declared.as_slice();
    let early = match read_input(alloc, input, inputs) {
        Ok(epochs) => noted_early(alloc, &epochs, inputs.len()),
        Err(refusal) => return Err(input_fault(refusal)),
    };
    match arities_of(alloc, program, typed.output_arities()) {
        Ok(text) => Ok(CheckedInput { text, early }),
        Err(_) => Err(Fault::NoMemory),
    }
}
