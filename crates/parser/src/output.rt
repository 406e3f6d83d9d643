//! Outputs from tokens.

ghost use Rattle.std.specs.Prelude.{◌≡◌, ◌<◌, ◌≤◌, length, map, IfOk, IfErr};
ghost use Rattle.expr_tree.specs.Views.{output_tree};
ghost use Rattle.grammar.specs.Phrases.{Unread};
ghost use Rattle.grammar.specs.Programs.{default_name, OutputAt, Outputs};
ghost use Rattle.grammar.specs.Texts.{max_height};
ghost use Rattle.parser.specs.Faults.{Denies};
ghost use Rattle.parser.specs.Items.{NamesOutput, NoOutputs};

use crate::fault::{Fault, MAX_HEIGHT};
use crate::relation::parse_rel_then;
use crate::scan::{after_keyword, after_mark, after_name, front};
use expr_tree::Output;
use lexer::{Mark, Token};
use record_core::{Keyword, Name, Span};
use std::alloc::Allocator;

/// The name of an output that is given none.
fn name_out() -> Name
    ensures { result ≡ default_name }
{
    match Name::new(b"out") {
        Some(name) => name,
        None => unreachable!(),
    }
}

/// What names an output whose keyword is at that place: the place of the name, the name, and what follows.
fn output_name<'a>(keyword: Span, text: &[u8], tokens: &'a [Token]) -> (Span, Name, &'a [Token])
    ensures found { NamesOutput text.now keyword tokens.now result.0 result.1 result.2.now }
    ensures shorter { length result.2.now ≤ length tokens.now }
{
    let Some((span, name, second)) = after_name(text, tokens) else {
        return (keyword, name_out(), tokens);
    };
    let Some((_, rest)) = after_mark(Mark::Equal, second) else {
        return (keyword, name_out(), tokens);
    };
    (span, name, rest)
}

/// An output, with its keyword.
fn parse_output<'a, A: Allocator + Copy>(
    alloc: A,
    text: &[u8],
    tokens: &'a [Token],
) -> Result<(Output<A>, u32, &'a [Token]), Fault>
    ensures found { IfOk result (λ r. OutputAt text.now tokens.now (output_tree r.0) r.1 r.2.now) }
    ensures low { IfOk result (λ r. r.1 ≤ max_height) }
    ensures denied { IfErr result (λ f. Denies f (Unread (OutputAt text.now) tokens.now) max_height) }
    ensures shorter { IfOk result (λ r. length r.2.now < length tokens.now) }
{
    let Some((keyword_span, after)) = after_keyword(Keyword::Output, tokens) else {
        return Err(Fault::Unexpected(front(tokens)));
    };
    let (name_span, name, inner) = output_name(keyword_span, text, after);
    let (relation, height, _, rest) = parse_rel_then(
        alloc,
        Mark::Semicolon,
        text,
        inner,
        MAX_HEIGHT,
    )?;
    let output = Output {
        keyword_span,
        name_span,
        name,
        relation,
    };
    Ok((output, height, rest))
}

/// The outputs, to the end of the tokens, and the greatest of their heights.
pub fn parse_outputs<A: Allocator + Copy>(
    alloc: A,
    text: &[u8],
    tokens: &[Token],
) -> Result<(Vec<Output<A>, A>, u32), Fault>
    ensures found { IfOk result (λ r. Outputs text.now tokens.now (map output_tree r.0.items) r.1) }
    ensures low { IfOk result (λ r. r.1 ≤ max_height) }
    ensures denied { IfErr result (λ f. Denies f (NoOutputs text.now tokens.now) max_height) }
{
    let mut outputs = Vec::new(alloc);
    let mut height = 0;
    let mut rest = tokens;
    'items: loop {
        let (next, other, others) = parse_output(alloc, text, rest)?;
        outputs.push(next)?;
        height = other.max(height);
        if others.is_empty() {
            return Ok((outputs, height));
        }
        rest = others;
    }
}
