//! The check of a query: its inputs and its arities.

ghost use Rattle.std.specs.Prelude.{◌≡◌, ◌++◌, map, IfErr, IfOk, OnOk};
ghost use Rattle.std.specs.List.{flat_map};
ghost use Rattle.expr_tree.specs.Plain.{plain_input, plain_output, plain_program};
ghost use Rattle.expr_tree.specs.Views.{output_tree, program_tree};
ghost use Rattle.compile.specs.Checked.{IsCheckFault, IsChecked, input_line, output_line, output_lines, check_text};

use crate::fault::query_fault;
use crate::typed_program;
use diagnostics::Fault;
use expr_tree::{Input, Output, Program};
use itoa::Buffer;
use std::alloc::{AllocError, Allocator, Global};

/// Appends `input NAME/ARITY`.
pub fn push_input(text: &mut Vec<u8>, input: &Input) -> Result<(), AllocError>
    ensures { OnOk result (text.new.items ≡ text.old.items ++ input_line (plain_input input.now)) }
{
    let mut buffer = Buffer::new();
    text.extend_from_slice(b"input ")?;
    text.extend_from_slice(input.name.bytes())?;
    text.extend_from_slice(b"/")?;
    text.extend_from_slice(buffer.format(input.arity).as_bytes())?;
    text.extend_from_slice(b"\n")?;
    Ok(())
}

/// Appends `output ARITY`, or `output NAME/ARITY` where the output isn't named `out`.
pub fn push_output<A: Allocator>(
    text: &mut Vec<u8>,
    output: &Output<A>,
    arity: u64,
) -> Result<(), AllocError>
    ensures { OnOk result (text.new.items ≡ text.old.items ++ output_line (plain_output (output_tree output.now)) arity) }
{
    let mut buffer = Buffer::new();
    let name = output.name.bytes();
    text.extend_from_slice(b"output ")?;
    if name != b"out".as_slice() {
        text.extend_from_slice(name)?;
        text.extend_from_slice(b"/")?;
    }
    text.extend_from_slice(buffer.format(arity).as_bytes())?;
    text.extend_from_slice(b"\n")?;
    Ok(())
}

/// Appends the lines of the inputs in order.
#[tactic(auto, using(crate::proofs::OneMore::more_of))]
fn push_inputs(text: &mut Vec<u8>, inputs: &[Input]) -> Result<(), AllocError>
    ensures { OnOk result (text.new.items ≡ text.old.items ++ flat_map input_line (map plain_input inputs.now)) }
{
    for i in 0..inputs.len() {
        push_input(text, &inputs[i])?;
    }
    Ok(())
}

/// Appends the lines of the outputs in order, with their arities.
fn push_outputs<A: Allocator>(
    text: &mut Vec<u8>,
    outputs: &[Output<A>],
    arities: &[u64],
) -> Result<(), AllocError>
    ensures { OnOk result (text.new.items ≡ text.old.items ++ output_lines (map plain_output (map output_tree outputs.now)) arities.now) }
{
    match outputs {
        [] => Ok(()),
        [output, outputs @ ..] => match arities {
            [] => Ok(()),
            [arity, arities @ ..] => {
                push_output(text, output, *arity)?;
                push_outputs(text, outputs, arities)
            }
        },
    }
}

/// The lines of the inputs in order, and of the outputs.
pub fn arities_of<A: Allocator>(
    alloc: Global,
    program: &Program<A>,
    arities: &[u64],
) -> Result<Vec<u8>, AllocError>
    ensures { IfOk result (λ t. t.items ≡ check_text (plain_program (program_tree program.now)) arities.now) }
{
    let mut text = Vec::new(alloc);
    push_inputs(&mut text, &program.inputs)?;
    push_outputs(&mut text, &program.outputs, arities)?;
    Ok(text)
}

/// The text of a checked query: a line `input NAME/ARITY` for each input in order, and for each output `output NAME/ARITY`, or `output ARITY` where
/// it is named `out`.
#[tactic(auto, using(crate::proofs::QueryFaults::check_refused))]
pub fn checked_text<A: Allocator + Copy>(
    alloc: Global,
    arena: A,
    query: &[u8],
) -> Result<Vec<u8>, Fault>
    ensures text { IfOk result (λ t. IsChecked query.now t.items) }
    ensures fault { IfErr result (IsCheckFault query.now) }
{
    let typed = match typed_program(alloc, arena, query) {
        Ok(typed) => typed,
        Err(refusal) => return Err(query_fault(refusal)),
    };
    match arities_of(alloc, typed.program(), typed.output_arities()) {
        Ok(text) => Ok(text),
        Err(_) => Err(Fault::NoMemory),
    }
}
