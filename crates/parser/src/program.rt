//! Programs from tokens, and from texts.

ghost use Rattle.std.specs.Prelude.{◌≢◌, ℕ, ◌<◌, ◌≤◌, length, IfOk, IfErr};
ghost use Rattle.record_core.specs.declared.span.Refusal.{Refusal};
ghost use Rattle.expr_tree.specs.Trees.{ProgramTree};
ghost use Rattle.expr_tree.specs.Views.{program_tree};
ghost use Rattle.grammar.specs.Programs.{ReadsProgram};
ghost use Rattle.grammar.specs.Texts.{Reads, max_height};
ghost use Rattle.parser.specs.Faults.{Denies};
ghost use Rattle.parser.specs.Refusals.{NoProgram, Refuses, IsRefusalFor};

use crate::fault::Fault;
use crate::item::{parse_inputs, parse_lets};
use crate::output::parse_outputs;
use crate::refusals::{TOO_HIGH, UNEXPECTED};
use expr_tree::Program;
use lexer::{Token, lex};
use record_core::{Refusal, Span};
use std::alloc::Allocator;

/// The program that the tokens of a text are.
fn parse_program<A: Allocator + Copy>(
    alloc: A,
    text: &[u8],
    tokens: &[Token],
) -> Result<Program<A>, Fault>
    ensures found { IfOk result (λ p. (h : ℕ) × ReadsProgram text.now tokens.now (program_tree p) h × (h ≤ max_height)) }
    ensures denied { IfErr result (λ f. Denies f (NoProgram text.now tokens.now) max_height) }
{
    let (inputs, second) = parse_inputs(alloc, text, tokens)?;
    let (lets, _, third) = parse_lets(alloc, text, second)?;
    let (outputs, _) = parse_outputs(alloc, text, third)?;
    Ok(Program {
        inputs,
        lets,
        outputs,
    })
}

/// The refusal for a fault in a text of that length.
fn refusal(fault: Fault, length: u32) -> Refusal
    ensures { IsRefusalFor fault result }
{
    let end = Span {
        start: length,
        end: length,
    };
    match fault {
        Fault::Unexpected(place) => Refusal::At {
            code: UNEXPECTED,
            span: place.unwrap_or(end),
        },
        Fault::TooHigh(span) => Refusal::At {
            code: TOO_HIGH,
            span,
        },
        Fault::NoMemory => Refusal::NoMemory,
    }
}

/// The program that a text is, made in the caller's allocator; its tokens lie there too until the end.
///
/// Refusals, the first that applies:
/// - 6, 1, 2, 3: those of the tokens, as `lex` refuses them; the text is lexed whole first.
/// - 4: the first token that can't follow the tokens before it; at the end of the text, the empty span there.
/// - 5: a bracket that would be the 65th open one, with its own span; or a phrase higher than 64, refused once its last token
///   is read, with the span of its head: the keyword of a relation, the operator, connective or comparison, the `-`, the
///   `not`, or the opening bracket.
/// - `NoMemory`: the allocator refused.
pub fn parse<A: Allocator + Copy>(alloc: A, text: &[u8]) -> Result<Program<A>, Refusal>
    // The text is that program.
    ensures read { IfOk result (λ p. Reads text.now (program_tree p)) }
    // A numbered refusal says why the text is no program.
    ensures refused { IfErr result (λ e. Refuses text.now e) }
    // A text that is refused, but for memory, is no program.
    ensures none { IfErr result (λ e. e ≢ Refusal.NoMemory → (p : ProgramTree) → ¬ (Reads text.now p)) }
{
    let tokens = lex(alloc, text)?;
    match parse_program(alloc, text, tokens.as_slice()) {
        Ok(program) => Ok(program),
        Err(fault) => Err(refusal(fault, text.len() as u32)),
    }
}
