//! Scalars from tokens.

ghost use Rattle.std.specs.Prelude.{◌≡◌, ◌<◌, ◌≤◌, ◌∷◌, length, IfOk, IfErr, MatchOption, Some};
ghost use Rattle.expr_tree.specs.Views.{scalar_tree};
ghost use Rattle.grammar.specs.Scalars.{Reads, Atom, Unary, Chain, operator, operand, NoOperator};
ghost use Rattle.grammar.specs.Texts.{max_height};
ghost use Rattle.parser.specs.Faults.{Denies};
ghost use Rattle.parser.specs.Scalars.{Unread};

use crate::fault::{Fault, MAX_HEIGHT};
use crate::scan::{after_column, after_mark, after_number, front, spanning};
use expr_tree::{Operator, Scalar};
use grammar::OperatorLevel;
use lexer::{Mark, Token, TokenKind};
use record_core::Span;
use std::alloc::Allocator;

/// The operator of that level that a token is.
fn operator_of(level: OperatorLevel, kind: TokenKind) -> Option<Operator>
    ensures { result ≡ operator level kind }
{
    match (level, kind) {
        (OperatorLevel::Products, TokenKind::Mark(Mark::Star)) => Some(Operator::Multiply),
        (OperatorLevel::Sums, TokenKind::Mark(Mark::Plus)) => Some(Operator::Add),
        (OperatorLevel::Sums, TokenKind::Mark(Mark::Minus)) => Some(Operator::Subtract),
        _ => None,
    }
}

/// The operator of that level at the front, its token, and what follows.
fn after_operator(level: OperatorLevel, tokens: &[Token]) -> Option<(Operator, Token, &[Token])>
    ensures { MatchOption result (NoOperator level tokens.now) (λ r. (tokens.now ≡ r.1 ∷ r.2.now) × (operator level r.1.kind ≡ Some r.0)) }
{
    let (first, rest) = tokens.split_first()?;
    let operator = operator_of(level, first.kind)?;
    Some((operator, *first, rest))
}

/// A number, a column, or a scalar in brackets.
#[cycle(parse)]
fn parse_atom<'a, A: Allocator + Copy>(
    alloc: A,
    tokens: &'a [Token],
    room: u32,
) -> Result<(Scalar<A>, Span, u32, &'a [Token]), Fault>
    requires { room ≤ max_height }
    ensures found { IfOk result (λ r. Reads Atom tokens.now (scalar_tree r.0) r.1 r.2 r.3.now) }
    ensures low { IfOk result (λ r. (1 ≤ r.2) × (r.2 ≤ max_height)) }
    ensures denied { IfErr result (λ f. Denies f (Unread Atom tokens.now) room) }
    ensures shorter { IfOk result (λ r. length r.3.now < length tokens.now) }
{
    if let Some((span, number, rest)) = after_number(tokens) {
        return Ok((Scalar::Literal(span, number as i64), span, 1, rest));
    }
    if let Some((span, column, rest)) = after_column(tokens) {
        return Ok((Scalar::Column(span, column), span, 1, rest));
    }
    let Some((open, inner)) = after_mark(Mark::OpenRound, tokens) else {
        return Err(Fault::Unexpected(front(tokens)));
    };
    if room == 0 {
        return Err(Fault::TooHigh(open));
    }
    let (scalar, _, height, after) = parse_chain(alloc, OperatorLevel::Sums, inner, room - 1)?;
    let Some((close, rest)) = after_mark(Mark::CloseRound, after) else {
        return Err(Fault::Unexpected(front(after)));
    };
    if height == MAX_HEIGHT {
        return Err(Fault::TooHigh(open));
    }
    Ok((scalar, spanning(open, close), height + 1, rest))
}

/// An atom, or a minus and an atom.
#[cycle(parse)]
fn parse_unary<'a, A: Allocator + Copy>(
    alloc: A,
    tokens: &'a [Token],
    room: u32,
) -> Result<(Scalar<A>, Span, u32, &'a [Token]), Fault>
    requires { room ≤ max_height }
    ensures found { IfOk result (λ r. Reads Unary tokens.now (scalar_tree r.0) r.1 r.2 r.3.now) }
    ensures low { IfOk result (λ r. (1 ≤ r.2) × (r.2 ≤ max_height)) }
    ensures denied { IfErr result (λ f. Denies f (Unread Unary tokens.now) room) }
    ensures shorter { IfOk result (λ r. length r.3.now < length tokens.now) }
{
    let Some((minus, after)) = after_mark(Mark::Minus, tokens) else {
        return parse_atom(alloc, tokens, room);
    };
    let (scalar, end, height, rest) = parse_atom(alloc, after, room)?;
    if height == MAX_HEIGHT {
        return Err(Fault::TooHigh(minus));
    }
    let extent = spanning(minus, end);
    let scalar = Scalar::negate(alloc, extent, scalar)?;
    Ok((scalar, extent, height + 1, rest))
}

/// What comes between the operators of a level.
#[cycle(parse)]
fn parse_operand<'a, A: Allocator + Copy>(
    alloc: A,
    level: OperatorLevel,
    tokens: &'a [Token],
    room: u32,
) -> Result<(Scalar<A>, Span, u32, &'a [Token]), Fault>
    requires { room ≤ max_height }
    ensures found { IfOk result (λ r. Reads (operand level) tokens.now (scalar_tree r.0) r.1 r.2 r.3.now) }
    ensures low { IfOk result (λ r. (1 ≤ r.2) × (r.2 ≤ max_height)) }
    ensures denied { IfErr result (λ f. Denies f (Unread (operand level) tokens.now) room) }
    ensures shorter { IfOk result (λ r. length r.3.now < length tokens.now) }
{
    match level {
        OperatorLevel::Products => parse_unary(alloc, tokens, room),
        OperatorLevel::Sums => parse_chain(alloc, OperatorLevel::Products, tokens, room),
    }
}

/// Operands of a level with its operators between, grouped to the left.
#[cycle(parse)]
pub fn parse_chain<'a, A: Allocator + Copy>(
    alloc: A,
    level: OperatorLevel,
    tokens: &'a [Token],
    room: u32,
) -> Result<(Scalar<A>, Span, u32, &'a [Token]), Fault>
    requires { room ≤ max_height }
    ensures found { IfOk result (λ r. Reads (Chain level) tokens.now (scalar_tree r.0) r.1 r.2 r.3.now) }
    ensures low { IfOk result (λ r. (1 ≤ r.2) × (r.2 ≤ max_height)) }
    ensures denied { IfErr result (λ f. Denies f (Unread (Chain level) tokens.now) room) }
    ensures shorter { IfOk result (λ r. length r.3.now < length tokens.now) }
{
    let (mut left, mut extent, mut height, mut rest) = parse_operand(alloc, level, tokens, room)?;
    while let Some((operator, sign, after)) = after_operator(level, rest) {
        let (right, end, other, others) = parse_operand(alloc, level, after, room)?;
        let most = height.max(other);
        if most == MAX_HEIGHT {
            return Err(Fault::TooHigh(sign.span));
        }
        height = most + 1;
        extent = spanning(extent, end);
        left = Scalar::binary(alloc, extent, operator, left, right)?;
        rest = others;
    }
    Ok((left, extent, height, rest))
}
