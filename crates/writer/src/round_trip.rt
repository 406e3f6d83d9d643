//! A program, written and read again.

ghost use Rattle.std.specs.Prelude.{◌≡◌, ◌≤◌, length, IfOk, IfErr};
ghost use Rattle.record_core.specs.declared.span.Refusal.TheVariants as refusal;
ghost use Rattle.expr_tree.specs.Plain.{plain_program};
ghost use Rattle.expr_tree.specs.Views.{program_tree};
ghost use Rattle.lexer.specs.Tokens.{max_length};
ghost use Rattle.writer.specs.Programs.{program_text};
ghost use Rattle.writer.specs.Sources.{IsSource};

use crate::program::write_program;
use expr_tree::Program;
use parser::parse;
use record_core::Refusal;
use std::alloc::{Allocator, Global};

/// A source written as its canonical text, and that text read under another allocator. The text lies in `memory`.
///
/// Refusals: those of `parse`. A text of at most 1,048,576 bytes is refused for memory alone.
pub fn read_back<A: Allocator, B: Allocator + Copy>(
    memory: Global,
    program: &Program<A>,
    alloc: B,
) -> Result<Program<B>, Refusal>
    requires { IsSource (program_tree program.now) }
    // What is read is the same, spans aside.
    ensures same { length (program_text (program_tree program.now)) ≤ max_length →
        IfOk result (λ p. plain_program (program_tree p) ≡ plain_program (program_tree program.now)) }
    // Nothing but memory can be wanting.
    ensures memory { length (program_text (program_tree program.now)) ≤ max_length → IfErr result (λ e. e ≡ refusal.NoMemory) }
{
    let mut text = Vec::new(memory);
    write_program(program, &mut text)?;
    parse(alloc, text.as_slice())
}
