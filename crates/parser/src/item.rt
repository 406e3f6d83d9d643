//! Inputs and named relations from tokens.

ghost use Rattle.std.specs.Prelude.{ℕ, ◌<◌, ◌≤◌, length, map, IfOk, IfErr};
ghost use Rattle.expr_tree.specs.Views.{let_tree};
ghost use Rattle.grammar.specs.Phrases.{Unread};
ghost use Rattle.grammar.specs.Programs.{Inputs, Lets};
ghost use Rattle.grammar.specs.Texts.{max_height};
ghost use Rattle.parser.specs.Faults.{Denies};
ghost use Rattle.parser.specs.Items.{Declares, NoDeclaration, Binds, NoInputs};

use crate::fault::{Fault, MAX_HEIGHT};
use crate::relation::parse_rel_then;
use crate::scan::{after_keyword, after_mark, after_name, after_number, front};
use expr_tree::{Input, Let};
use lexer::{Mark, Token};
use record_core::Keyword;
use std::alloc::Allocator;

/// What follows `input`.
fn parse_input<'a>(text: &[u8], tokens: &'a [Token]) -> Result<(Input, &'a [Token]), Fault>
    ensures found { IfOk result (λ r. Declares text.now tokens.now r.0 r.1.now) }
    ensures none { IfErr result (λ f. NoDeclaration text.now tokens.now) }
    ensures shorter { IfOk result (λ r. length r.1.now < length tokens.now) }
{
    let Some((name_span, name, second)) = after_name(text, tokens) else {
        return Err(Fault::Unexpected(front(tokens)));
    };
    let Some((_, third)) = after_mark(Mark::Slash, second) else {
        return Err(Fault::Unexpected(front(second)));
    };
    let Some((arity_span, arity, fourth)) = after_number(third) else {
        return Err(Fault::Unexpected(front(third)));
    };
    let Some((_, rest)) = after_mark(Mark::Semicolon, fourth) else {
        return Err(Fault::Unexpected(front(fourth)));
    };
    let input = Input {
        name_span,
        name,
        arity_span,
        arity,
    };
    Ok((input, rest))
}

/// The inputs at the front.
pub fn parse_inputs<'a, A: Allocator>(
    alloc: A,
    text: &[u8],
    tokens: &'a [Token],
) -> Result<(Vec<Input, A>, &'a [Token]), Fault>
    ensures found { IfOk result (λ r. Inputs text.now tokens.now r.0.items r.1.now) }
    ensures denied { IfErr result (λ f. (room : ℕ) → Denies f (λ m. NoInputs text.now tokens.now) room) }
{
    let mut inputs = Vec::new(alloc);
    let mut rest = tokens;
    'items: while let Some((_, after)) = after_keyword(Keyword::Input, rest) {
        let (next, others) = parse_input(text, after)?;
        inputs.push(next)?;
        rest = others;
    }
    Ok((inputs, rest))
}

/// What follows `let`.
fn parse_let<'a, A: Allocator + Copy>(
    alloc: A,
    text: &[u8],
    tokens: &'a [Token],
) -> Result<(Let<A>, u32, &'a [Token]), Fault>
    ensures found { IfOk result (λ r. Binds text.now tokens.now (let_tree r.0) r.1 r.2.now) }
    ensures low { IfOk result (λ r. r.1 ≤ max_height) }
    ensures denied { IfErr result (λ f. Denies f (Unread (Binds text.now) tokens.now) max_height) }
    ensures shorter { IfOk result (λ r. length r.2.now < length tokens.now) }
{
    let Some((name_span, name, second)) = after_name(text, tokens) else {
        return Err(Fault::Unexpected(front(tokens)));
    };
    let Some((_, third)) = after_mark(Mark::Equal, second) else {
        return Err(Fault::Unexpected(front(second)));
    };
    let (relation, height, _, rest) = parse_rel_then(
        alloc,
        Mark::Semicolon,
        text,
        third,
        MAX_HEIGHT,
    )?;
    let binding = Let {
        name_span,
        name,
        relation,
    };
    Ok((binding, height, rest))
}

/// The named relations at the front, and the greatest of their heights.
pub fn parse_lets<'a, A: Allocator + Copy>(
    alloc: A,
    text: &[u8],
    tokens: &'a [Token],
) -> Result<(Vec<Let<A>, A>, u32, &'a [Token]), Fault>
    ensures found { IfOk result (λ r. Lets text.now tokens.now (map let_tree r.0.items) r.1 r.2.now) }
    ensures low { IfOk result (λ r. r.1 ≤ max_height) }
    ensures denied { IfErr result (λ f. Denies f (Unread (Lets text.now) tokens.now) max_height) }
{
    let mut lets = Vec::new(alloc);
    let mut height = 1;
    let mut rest = tokens;
    'items: while let Some((_, after)) = after_keyword(Keyword::Let, rest) {
        let (next, other, others) = parse_let(alloc, text, after)?;
        lets.push(next)?;
        height = other.max(height);
        rest = others;
    }
    Ok((lets, height, rest))
}
