//! Conditions from tokens.

ghost use Rattle.std.specs.Prelude.{◌≡◌, ◌<◌, ◌≤◌, ◌∷◌, length, IfOk, IfErr, MatchOption, Some};
ghost use Rattle.record_core.specs.declared.keyword.Keyword.TheVariants as keyword;
ghost use Rattle.lexer.specs.declared.mark.Mark.TheVariants as mark;
ghost use Rattle.expr_tree.specs.Trees.{CondTree};
ghost use Rattle.expr_tree.specs.Views.{scalar_tree, cond_tree};
ghost use Rattle.grammar.specs.Tokens.{NoMark, NoKeyword};
ghost use Rattle.grammar.specs.Conditions.{Reads, Square, Single, Chain, connective, compares, operand, NoConnective};
ghost use Rattle.grammar.specs.Texts.{max_height};
ghost use Rattle.parser.specs.Faults.{Denies};
ghost use Rattle.parser.specs.Conditions.{Unread, NoComparison};

use crate::fault::{Fault, MAX_HEIGHT};
use crate::scalar::parse_chain;
use crate::scan::{after_keyword, after_mark, front, spanning};
use expr_tree::{Comparison, Cond, Connective, Scalar};
use grammar::{ConnectiveLevel, OperatorLevel};
use lexer::{Mark, Token, TokenKind};
use record_core::{Keyword, Span};
use std::alloc::Allocator;

/// Two scalars compared.
fn comparison<A: Allocator>(
    span: Span,
    operator: Comparison,
    left: Scalar<A>,
    right: Scalar<A>,
) -> Cond<A>
    ensures { cond_tree result ≡ CondTree.compare span operator (scalar_tree left) (scalar_tree right) }
{
    Cond::Compare(span, operator, left, right)
}

/// The connective of that level that a token is.
fn connective_of(level: ConnectiveLevel, kind: TokenKind) -> Option<Connective>
    ensures { result ≡ connective level kind }
{
    match (level, kind) {
        (ConnectiveLevel::Conjunctions, TokenKind::Keyword(Keyword::And)) => Some(Connective::And),
        (ConnectiveLevel::Disjunctions, TokenKind::Keyword(Keyword::Or)) => Some(Connective::Or),
        _ => None,
    }
}

/// The comparison that a token is.
fn comparison_of(kind: TokenKind) -> Option<Comparison>
    ensures { result ≡ compares kind }
{
    match kind {
        TokenKind::Mark(Mark::Equal) => Some(Comparison::Equal),
        TokenKind::Mark(Mark::NotEqual) => Some(Comparison::NotEqual),
        TokenKind::Mark(Mark::Below) => Some(Comparison::Less),
        TokenKind::Mark(Mark::AtMost) => Some(Comparison::AtMost),
        TokenKind::Mark(Mark::Above) => Some(Comparison::Greater),
        TokenKind::Mark(Mark::AtLeast) => Some(Comparison::AtLeast),
        _ => None,
    }
}

/// The connective of that level at the front, its token, and what follows.
fn after_connective(
    level: ConnectiveLevel,
    tokens: &[Token],
) -> Option<(Connective, Token, &[Token])>
    ensures { MatchOption result (NoConnective level tokens.now) (λ r. (tokens.now ≡ r.1 ∷ r.2.now) × (connective level r.1.kind ≡ Some r.0)) }
{
    let (first, rest) = tokens.split_first()?;
    let connective = connective_of(level, first.kind)?;
    Some((connective, *first, rest))
}

/// The comparison at the front, its token, and what follows.
fn after_comparison(tokens: &[Token]) -> Option<(Comparison, Token, &[Token])>
    ensures { MatchOption result (NoComparison tokens.now) (λ r. (tokens.now ≡ r.1 ∷ r.2.now) × (compares r.1.kind ≡ Some r.0)) }
{
    let (first, rest) = tokens.split_first()?;
    let comparison = comparison_of(first.kind)?;
    Some((comparison, *first, rest))
}

/// A condition in square brackets; `head` is the place of the refusal if it is too high: the `not` before it, or its bracket.
#[cycle(parse)]
fn parse_square<'a, A: Allocator + Copy>(
    alloc: A,
    head: Span,
    tokens: &'a [Token],
    room: u32,
) -> Result<(Cond<A>, Span, u32, &'a [Token]), Fault>
    requires { room ≤ max_height }
    ensures found { IfOk result (λ r. Reads Square tokens.now (cond_tree r.0) r.1 r.2 r.3.now) }
    ensures low { IfOk result (λ r. (1 ≤ r.2) × (r.2 ≤ max_height)) }
    ensures denied { IfErr result (λ f. Denies f (Unread Square tokens.now) room) }
    ensures shorter { IfOk result (λ r. length r.3.now < length tokens.now) }
{
    let Some((open, inner)) = after_mark(Mark::OpenSquare, tokens) else {
        return Err(Fault::Unexpected(front(tokens)));
    };
    if room == 0 {
        return Err(Fault::TooHigh(open));
    }
    let level = ConnectiveLevel::Disjunctions;
    let (condition, _, height, after) = parse_condition(alloc, level, inner, room - 1)?;
    let Some((close, rest)) = after_mark(Mark::CloseSquare, after) else {
        return Err(Fault::Unexpected(front(after)));
    };
    if height == MAX_HEIGHT {
        return Err(Fault::TooHigh(head));
    }
    Ok((condition, spanning(open, close), height + 1, rest))
}

/// Two scalars compared.
fn parse_comparison<'a, A: Allocator + Copy>(
    alloc: A,
    tokens: &'a [Token],
    room: u32,
) -> Result<(Cond<A>, Span, u32, &'a [Token]), Fault>
    requires room { room ≤ max_height }
    requires no_not { NoKeyword keyword.Not tokens.now }
    requires no_square { NoMark mark.OpenSquare tokens.now }
    ensures found { IfOk result (λ r. Reads Single tokens.now (cond_tree r.0) r.1 r.2 r.3.now) }
    ensures low { IfOk result (λ r. (1 ≤ r.2) × (r.2 ≤ max_height)) }
    ensures denied { IfErr result (λ f. Denies f (Unread Single tokens.now) room) }
    ensures shorter { IfOk result (λ r. length r.3.now < length tokens.now) }
{
    let (left, start, height, after) = parse_chain(alloc, OperatorLevel::Sums, tokens, room)?;
    let Some((operator, sign, inner)) = after_comparison(after) else {
        return Err(Fault::Unexpected(front(after)));
    };
    let (right, end, other, rest) = parse_chain(alloc, OperatorLevel::Sums, inner, room)?;
    let most = height.max(other);
    if most == MAX_HEIGHT {
        return Err(Fault::TooHigh(sign.span));
    }
    let extent = spanning(start, end);
    let condition = comparison(extent, operator, left, right);
    Ok((condition, extent, most + 1, rest))
}

/// A condition without connectives.
#[cycle(parse)]
fn parse_single<'a, A: Allocator + Copy>(
    alloc: A,
    tokens: &'a [Token],
    room: u32,
) -> Result<(Cond<A>, Span, u32, &'a [Token]), Fault>
    requires { room ≤ max_height }
    ensures found { IfOk result (λ r. Reads Single tokens.now (cond_tree r.0) r.1 r.2 r.3.now) }
    ensures low { IfOk result (λ r. (1 ≤ r.2) × (r.2 ≤ max_height)) }
    ensures denied { IfErr result (λ f. Denies f (Unread Single tokens.now) room) }
    ensures shorter { IfOk result (λ r. length r.3.now < length tokens.now) }
{
    if let Some((not, after)) = after_keyword(Keyword::Not, tokens) {
        let (condition, end, height, rest) = parse_square(alloc, not, after, room)?;
        let extent = spanning(not, end);
        let condition = Cond::negate(alloc, extent, condition)?;
        return Ok((condition, extent, height, rest));
    }
    if let Some((open, _)) = after_mark(Mark::OpenSquare, tokens) {
        return parse_square(alloc, open, tokens, room);
    }
    parse_comparison(alloc, tokens, room)
}

/// What comes between the connectives of a level.
#[cycle(parse)]
fn parse_operand<'a, A: Allocator + Copy>(
    alloc: A,
    level: ConnectiveLevel,
    tokens: &'a [Token],
    room: u32,
) -> Result<(Cond<A>, Span, u32, &'a [Token]), Fault>
    requires { room ≤ max_height }
    ensures found { IfOk result (λ r. Reads (operand level) tokens.now (cond_tree r.0) r.1 r.2 r.3.now) }
    ensures low { IfOk result (λ r. (1 ≤ r.2) × (r.2 ≤ max_height)) }
    ensures denied { IfErr result (λ f. Denies f (Unread (operand level) tokens.now) room) }
    ensures shorter { IfOk result (λ r. length r.3.now < length tokens.now) }
{
    match level {
        ConnectiveLevel::Conjunctions => parse_single(alloc, tokens, room),
        ConnectiveLevel::Disjunctions => {
            parse_condition(alloc, ConnectiveLevel::Conjunctions, tokens, room)
        }
    }
}

/// Operands of a level with its connectives between, grouped to the left.
#[cycle(parse)]
pub fn parse_condition<'a, A: Allocator + Copy>(
    alloc: A,
    level: ConnectiveLevel,
    tokens: &'a [Token],
    room: u32,
) -> Result<(Cond<A>, Span, u32, &'a [Token]), Fault>
    requires { room ≤ max_height }
    ensures found { IfOk result (λ r. Reads (Chain level) tokens.now (cond_tree r.0) r.1 r.2 r.3.now) }
    ensures low { IfOk result (λ r. (1 ≤ r.2) × (r.2 ≤ max_height)) }
    ensures denied { IfErr result (λ f. Denies f (Unread (Chain level) tokens.now) room) }
    ensures shorter { IfOk result (λ r. length r.3.now < length tokens.now) }
{
    let (mut left, mut extent, mut height, mut rest) = parse_operand(alloc, level, tokens, room)?;
    while let Some((connective, word, after)) = after_connective(level, rest) {
        let (right, end, other, others) = parse_operand(alloc, level, after, room)?;
        let most = height.max(other);
        if most == MAX_HEIGHT {
            return Err(Fault::TooHigh(word.span));
        }
        height = most + 1;
        extent = spanning(extent, end);
        left = Cond::logical(alloc, extent, connective, left, right)?;
        rest = others;
    }
    Ok((left, extent, height, rest))
}
