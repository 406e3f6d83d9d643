//! Scalars, pairs, columns and aggregates, with commas between.

ghost use Rattle.std.specs.Prelude.{◌≡◌, ℕ, ◌<◌, ◌≤◌, ◌∷◌, length, map, IfOk, IfErr};
ghost use Rattle.expr_tree.specs.Views.{scalar_tree, cond_tree};
ghost use Rattle.lexer.specs.declared.mark.Mark.TheVariants as mark;
ghost use Rattle.grammar.specs.Tokens.{reaching, mark_at};
ghost use Rattle.grammar.specs.Phrases.{Listed, Ended, Unread};
ghost use Rattle.grammar.specs.Scalars.{ScalarAt};
ghost use Rattle.grammar.specs.Conditions.{ConditionAt};
ghost use Rattle.grammar.specs.Relations.{column_at, ColumnAt, PairAt, AggAt};
ghost use Rattle.grammar.specs.Texts.{max_height};
ghost use Rattle.parser.specs.Faults.{Denies};
ghost use Rattle.parser.specs.Scanning.{NoColumn};

use crate::condition::parse_condition;
use crate::fault::Fault;
use crate::scalar::parse_chain;
use crate::scan::{after_column, after_keyword, after_mark, front, spanning};
use expr_tree::{Agg, Column, Cond, Pair, Scalar};
use grammar::{ConnectiveLevel, OperatorLevel};
use lexer::{Mark, Token};
use record_core::{Keyword, Span};
use std::alloc::Allocator;

/// One scalar or more.
fn parse_scalars<'a, A: Allocator + Copy>(
    alloc: A,
    tokens: &'a [Token],
    room: u32,
) -> Result<(Vec<Scalar<A>, A>, u32, &'a [Token]), Fault>
    requires { room ≤ max_height }
    ensures found { IfOk result (λ r. Listed ScalarAt tokens.now (map scalar_tree r.0.items) r.1 r.2.now) }
    ensures low { IfOk result (λ r. r.1 ≤ max_height) }
    ensures denied { IfErr result (λ f. Denies f (Unread (Listed ScalarAt) tokens.now) room) }
    ensures shorter { IfOk result (λ r. length r.2.now < length tokens.now) }
{
    let mut scalars = Vec::new(alloc);
    let mut height = 0;
    let mut rest = tokens;
    'items: loop {
        let (next, _, other, others) = parse_chain(alloc, OperatorLevel::Sums, rest, room)?;
        scalars.push(next)?;
        height = other.max(height);
        match after_mark(Mark::Comma, others) {
            None => return Ok((scalars, height, others)),
            Some((_, after)) => rest = after,
        }
    }
}

/// Scalars, and the round bracket after them.
pub fn parse_last_scalars<'a, A: Allocator + Copy>(
    alloc: A,
    tokens: &'a [Token],
    room: u32,
) -> Result<(Vec<Scalar<A>, A>, u32, Span, &'a [Token]), Fault>
    requires { room ≤ max_height }
    ensures found { IfOk result (λ r. Listed ScalarAt tokens.now (map scalar_tree r.0.items) r.1 (mark_at mark.CloseRound r.2 ∷ r.3.now)) }
    ensures low { IfOk result (λ r. r.1 ≤ max_height) }
    ensures denied { IfErr result (λ f. Denies f (Unread (Ended (Listed ScalarAt) mark.CloseRound) tokens.now) room) }
    ensures shorter { IfOk result (λ r. length r.3.now < length tokens.now) }
{
    let (scalars, height, after) = parse_scalars(alloc, tokens, room)?;
    let Some((close, rest)) = after_mark(Mark::CloseRound, after) else {
        return Err(Fault::Unexpected(front(after)));
    };
    Ok((scalars, height, close, rest))
}

/// A condition, and the round bracket after it.
pub fn parse_last_condition<'a, A: Allocator + Copy>(
    alloc: A,
    tokens: &'a [Token],
    room: u32,
) -> Result<(Cond<A>, u32, Span, &'a [Token]), Fault>
    requires { room ≤ max_height }
    ensures found { IfOk result (λ r. ConditionAt tokens.now (cond_tree r.0) r.1 (mark_at mark.CloseRound r.2 ∷ r.3.now)) }
    ensures low { IfOk result (λ r. r.1 ≤ max_height) }
    ensures denied { IfErr result (λ f. Denies f (Unread (Ended ConditionAt mark.CloseRound) tokens.now) room) }
    ensures shorter { IfOk result (λ r. length r.3.now < length tokens.now) }
{
    let level = ConnectiveLevel::Disjunctions;
    let (condition, _, height, after) = parse_condition(alloc, level, tokens, room)?;
    let Some((close, rest)) = after_mark(Mark::CloseRound, after) else {
        return Err(Fault::Unexpected(front(after)));
    };
    Ok((condition, height, close, rest))
}

/// A column.
fn parse_column(tokens: &[Token]) -> Result<(Column, &[Token]), Fault>
    ensures found { IfOk result (λ r. tokens.now ≡ column_at r.0 ∷ r.1.now) }
    ensures none { IfErr result (λ f. NoColumn tokens.now) }
{
    let Some((span, index, rest)) = after_column(tokens) else {
        return Err(Fault::Unexpected(front(tokens)));
    };
    Ok((Column { span, index }, rest))
}

/// A pair of columns.
fn parse_pair(tokens: &[Token]) -> Result<(Pair, &[Token]), Fault>
    ensures found { IfOk result (λ r. PairAt tokens.now r.0 1 r.1.now) }
    ensures none { IfErr result (λ f. (m : ℕ) → Unread PairAt tokens.now m) }
{
    let (left, after) = parse_column(tokens)?;
    let Some((_, second)) = after_mark(Mark::Equal, after) else {
        return Err(Fault::Unexpected(front(after)));
    };
    let (right, rest) = parse_column(second)?;
    Ok((Pair { left, right }, rest))
}

/// The column of an aggregate whose keyword is at `start`, and the span of the aggregate.
fn parse_aggregated(start: Span, tokens: &[Token]) -> Result<(Span, Column, &[Token]), Fault>
    ensures found { IfOk result (λ r. (r.0 ≡ reaching start r.1.span) × (tokens.now ≡ column_at r.1 ∷ r.2.now)) }
    ensures none { IfErr result (λ f. NoColumn tokens.now) }
{
    let (column, rest) = parse_column(tokens)?;
    Ok((spanning(start, column.span), column, rest))
}

/// An aggregate.
fn parse_agg(tokens: &[Token]) -> Result<(Agg, &[Token]), Fault>
    ensures found { IfOk result (λ r. AggAt tokens.now r.0 1 r.1.now) }
    ensures none { IfErr result (λ f. (m : ℕ) → Unread AggAt tokens.now m) }
    ensures shorter { IfOk result (λ r. length r.1.now < length tokens.now) }
{
    if let Some((span, rest)) = after_keyword(Keyword::Count, tokens) {
        return Ok((Agg::Count(span), rest));
    }
    if let Some((start, after)) = after_keyword(Keyword::Sum, tokens) {
        let (span, column, rest) = parse_aggregated(start, after)?;
        return Ok((Agg::Sum(span, column), rest));
    }
    if let Some((start, after)) = after_keyword(Keyword::Min, tokens) {
        let (span, column, rest) = parse_aggregated(start, after)?;
        return Ok((Agg::Min(span, column), rest));
    }
    if let Some((start, after)) = after_keyword(Keyword::Max, tokens) {
        let (span, column, rest) = parse_aggregated(start, after)?;
        return Ok((Agg::Max(span, column), rest));
    }
    Err(Fault::Unexpected(front(tokens)))
}

/// One column or more, and the semicolon after them.
pub fn parse_columns<'a, A: Allocator>(
    alloc: A,
    tokens: &'a [Token],
) -> Result<(Vec<Column, A>, Span, &'a [Token]), Fault>
    ensures found { IfOk result (λ r. Listed ColumnAt tokens.now r.0.items 1 (mark_at mark.Semicolon r.1 ∷ r.2.now)) }
    ensures denied { IfErr result (λ f. (room : ℕ) → Denies f (Unread (Ended (Listed ColumnAt) mark.Semicolon) tokens.now) room) }
    ensures shorter { IfOk result (λ r. length r.2.now < length tokens.now) }
{
    let mut columns = Vec::new(alloc);
    let mut rest = tokens;
    'items: loop {
        let (next, others) = parse_column(rest)?;
        columns.push(next)?;
        match after_mark(Mark::Comma, others) {
            None => {
                let Some((end, after)) = after_mark(Mark::Semicolon, others) else {
                    return Err(Fault::Unexpected(front(others)));
                };
                return Ok((columns, end, after));
            }
            Some((_, after)) => rest = after,
        }
    }
}

/// One pair or more, and the round bracket after them.
pub fn parse_last_pairs<'a, A: Allocator>(
    alloc: A,
    tokens: &'a [Token],
) -> Result<(Vec<Pair, A>, Span, &'a [Token]), Fault>
    ensures found { IfOk result (λ r. Listed PairAt tokens.now r.0.items 1 (mark_at mark.CloseRound r.1 ∷ r.2.now)) }
    ensures denied { IfErr result (λ f. (room : ℕ) → Denies f (Unread (Ended (Listed PairAt) mark.CloseRound) tokens.now) room) }
    ensures shorter { IfOk result (λ r. length r.2.now < length tokens.now) }
{
    let mut pairs = Vec::new(alloc);
    let mut rest = tokens;
    'items: loop {
        let (next, others) = parse_pair(rest)?;
        pairs.push(next)?;
        match after_mark(Mark::Comma, others) {
            None => {
                let Some((end, after)) = after_mark(Mark::CloseRound, others) else {
                    return Err(Fault::Unexpected(front(others)));
                };
                return Ok((pairs, end, after));
            }
            Some((_, after)) => rest = after,
        }
    }
}

/// One aggregate or more, and the round bracket after them.
pub fn parse_last_aggs<'a, A: Allocator>(
    alloc: A,
    tokens: &'a [Token],
) -> Result<(Vec<Agg, A>, Span, &'a [Token]), Fault>
    ensures found { IfOk result (λ r. Listed AggAt tokens.now r.0.items 1 (mark_at mark.CloseRound r.1 ∷ r.2.now)) }
    ensures denied { IfErr result (λ f. (room : ℕ) → Denies f (Unread (Ended (Listed AggAt) mark.CloseRound) tokens.now) room) }
    ensures shorter { IfOk result (λ r. length r.2.now < length tokens.now) }
{
    let mut aggs = Vec::new(alloc);
    let mut rest = tokens;
    'items: loop {
        let (next, others) = parse_agg(rest)?;
        aggs.push(next)?;
        match after_mark(Mark::Comma, others) {
            None => {
                let Some((end, after)) = after_mark(Mark::CloseRound, others) else {
                    return Err(Fault::Unexpected(front(others)));
                };
                return Ok((aggs, end, after));
            }
            Some((_, after)) => rest = after,
        }
    }
}
