//! Programs.

ghost use Rattle.std.specs.Prelude.{◌≡◌, ◌≤◌, ◌++◌, length, map, OnOk, OnErr};
ghost use Rattle.std.specs.List.{flat_map};
ghost use Rattle.expr_tree.specs.Views.{let_tree, output_tree, program_tree};
ghost use Rattle.lexer.specs.Tokens.{max_length};
ghost use Rattle.writer.specs.Pieces.{Extends, text_of};
ghost use Rattle.writer.specs.Programs.{input_pieces, let_pieces, naming, output_pieces, program_text};
ghost use Rattle.writer.specs.Sources.{IsSource, ReadsAs};

use crate::push::{push, push_number};
use crate::relation::write_rel;
use expr_tree::{Input, Let, Output, Program};
use record_core::{Name, NoMemory};
use std::alloc::{AllocError, Allocator};

/// Appends an input's line.
fn write_input(out: &mut Vec<u8>, input: &Input) -> Result<(), AllocError>
    ensures ok { OnOk result (out.new.items ≡ out.old.items ++ text_of (input_pieces input.now)) }
    ensures err { OnErr result (Extends out.old.items out.new.items) }
{
    push(out, b"input ")?;
    push(out, input.name.bytes())?;
    push(out, b"/")?;
    push_number(out, input.arity)?;
    push(out, b";\n")
}

/// Appends a named relation's line.
fn write_let<A: Allocator>(out: &mut Vec<u8>, item: &Let<A>) -> Result<(), AllocError>
    ensures ok { OnOk result (out.new.items ≡ out.old.items ++ text_of (let_pieces (let_tree item.now))) }
    ensures err { OnErr result (Extends out.old.items out.new.items) }
{
    push(out, b"let ")?;
    push(out, item.name.bytes())?;
    push(out, b" = ")?;
    write_rel(out, &item.relation)?;
    push(out, b";\n")
}

/// Appends the name of an output and the sign after it; nothing where it is `out`.
fn write_naming(out: &mut Vec<u8>, name: &Name) -> Result<(), AllocError>
    ensures ok { OnOk result (out.new.items ≡ out.old.items ++ text_of (naming name.now)) }
    ensures err { OnErr result (Extends out.old.items out.new.items) }
{
    if name.bytes() == b"out".as_slice() {
        return Ok(());
    }
    push(out, name.bytes())?;
    push(out, b" = ")
}

/// Appends an output's line.
fn write_output<A: Allocator>(out: &mut Vec<u8>, output: &Output<A>) -> Result<(), AllocError>
    ensures ok { OnOk result (out.new.items ≡ out.old.items ++ text_of (output_pieces (output_tree output.now))) }
    ensures err { OnErr result (Extends out.old.items out.new.items) }
{
    push(out, b"output ")?;
    write_naming(out, &output.name)?;
    write_rel(out, &output.relation)?;
    push(out, b";\n")
}

/// Appends the inputs' lines.
fn write_inputs(out: &mut Vec<u8>, inputs: &[Input]) -> Result<(), AllocError>
    ensures ok { OnOk result (out.new.items ≡ out.old.items ++ text_of (flat_map input_pieces inputs.now)) }
    ensures err { OnErr result (Extends out.old.items out.new.items) }
{
    for input in inputs {
        write_input(out, input)?;
    }
    Ok(())
}

/// Appends the named relations' lines.
fn write_lets<A: Allocator>(out: &mut Vec<u8>, lets: &[Let<A>]) -> Result<(), AllocError>
    ensures ok { OnOk result (out.new.items ≡ out.old.items ++ text_of (flat_map let_pieces (map let_tree lets.now))) }
    ensures err { OnErr result (Extends out.old.items out.new.items) }
{
    for item in lets {
        write_let(out, item)?;
    }
    Ok(())
}

/// Appends the outputs' lines.
fn write_outputs<A: Allocator>(out: &mut Vec<u8>, outputs: &[Output<A>]) -> Result<(), AllocError>
    ensures ok { OnOk result (out.new.items ≡ out.old.items ++ text_of (flat_map output_pieces (map output_tree outputs.now))) }
    ensures err { OnErr result (Extends out.old.items out.new.items) }
{
    for output in outputs {
        write_output(out, output)?;
    }
    Ok(())
}

/// Appends a program's lines; after a refusal some of them may be there.
fn write_items<A: Allocator>(out: &mut Vec<u8>, program: &Program<A>) -> Result<(), AllocError>
    ensures ok { OnOk result (out.new.items ≡ out.old.items ++ program_text (program_tree program.now)) }
    ensures err { OnErr result (Extends out.old.items out.new.items) }
{
    write_inputs(out, &program.inputs)?;
    write_lets(out, &program.lets)?;
    write_outputs(out, &program.outputs)
}

/// Appends the canonical text of a source (`is_source`): a line for each input, each named relation and each output, with one
/// space where there is any, and brackets only where the tree asks for them. The vector's allocator alone gives the memory.
///
/// The text is that program, spans aside, where it is no longer than 1,048,576 bytes: `parse` reads it as such a tree, under any
/// allocator, or is refused for memory.
///
/// After `NoMemory` the vector is as before.
pub fn write_program<A: Allocator>(program: &Program<A>, out: &mut Vec<u8>) -> Result<(), NoMemory>
    requires { IsSource (program_tree program.now) }
    // The text follows what was there.
    ensures written { OnOk result (out.new.items ≡ out.old.items ++ program_text (program_tree program.now)) }
    // It reads as the program, spans aside.
    ensures reads { length (program_text (program_tree program.now)) ≤ max_length →
        ReadsAs (program_text (program_tree program.now)) (program_tree program.now) }
    // After a refusal what was there is all.
    ensures unchanged { OnErr result (out.new.items ≡ out.old.items) }
{
    let before = out.len();
    match write_items(out, program) {
        Ok(()) => Ok(()),
        Err(_) => {
            out.truncate(before);
            Err(NoMemory)
        }
    }
}
