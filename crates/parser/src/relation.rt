//! Relations from tokens.

ghost use Rattle.std.specs.Prelude.{◌≡◌, ◌↔◌, ◌+◌, ◌<◌, ◌≤◌, ◌∷◌, length, IfOk, IfErr, IsTrue, MatchOption};
ghost use Rattle.expr_tree.specs.Trees.{RelTree};
ghost use Rattle.expr_tree.specs.Views.{rel_tree};
ghost use Rattle.grammar.specs.Tokens.{mark_at};
ghost use Rattle.grammar.specs.Phrases.{Ended, Unread};
ghost use Rattle.grammar.specs.Relations.{Reads, closure_word, piece};
ghost use Rattle.grammar.specs.Texts.{max_height};
ghost use Rattle.parser.specs.declared.relation.Form.TheVariants as form;
ghost use Rattle.parser.specs.Faults.{Denies};
ghost use Rattle.parser.specs.Forms.{form_of, form_token, opened, closing, IsClosureAt, NoClosure, NoForm, Heads, NoHead};

use crate::fault::{Fault, MAX_HEIGHT};
use crate::list::{
    parse_columns, parse_last_aggs, parse_last_condition, parse_last_pairs, parse_last_scalars,
};
use crate::scan::{after_mark, after_name, after_number, front, spanning};
use expr_tree::{LoopForm, Rel, SetOperator};
use lexer::{Mark, Token, TokenKind};
use record_core::{Keyword, Name, Span};
use std::alloc::Allocator;

/// A form of relation, by its keyword.
#[derive(Clone, Copy)]
pub enum Form {
    Select,
    Where,
    SetOperation(SetOperator),
    Join,
    Group,
    Distinct,
    Iterate,
}

/// The keyword and the bracket that a form begins with.
#[derive(Clone, Copy)]
pub struct Opening {
    pub keyword: Span,
    pub bracket: Span,
}

/// What comes before the relations of a loop: the number of turns and the variable.
#[derive(Drop)]
pub struct LoopHead {
    pub turns_span: Span,
    pub turns: u64,
    pub name_span: Span,
    pub name: Name,
}

/// The form that a keyword begins.
fn form_at(keyword: Keyword) -> Option<Form>
    ensures { result ≡ form_of keyword }
{
    match keyword {
        Keyword::Select => Some(Form::Select),
        Keyword::Where => Some(Form::Where),
        Keyword::Concat => Some(Form::SetOperation(SetOperator::Concat)),
        Keyword::Except => Some(Form::SetOperation(SetOperator::Except)),
        Keyword::Intersect => Some(Form::SetOperation(SetOperator::Intersect)),
        Keyword::Join => Some(Form::Join),
        Keyword::Group => Some(Form::Group),
        Keyword::Distinct => Some(Form::Distinct),
        Keyword::Iterate => Some(Form::Iterate),
        _ => None,
    }
}

/// The form whose keyword is at the front, the keyword's place, and what follows it.
fn after_form(tokens: &[Token]) -> Option<(Form, Span, &[Token])>
    ensures { MatchOption result (NoForm tokens.now) (λ r. tokens.now ≡ form_token r.0 r.1 ∷ r.2.now) }
{
    let (first, rest) = tokens.split_first()?;
    match first.kind {
        TokenKind::Keyword(keyword) => {
            let form = form_at(keyword)?;
            Some((form, first.span, rest))
        }
        _ => None,
    }
}

/// Whether a name is the word that a closure begins with.
fn is_closure_word(name: &Name) -> bool
    ensures { IsTrue result ↔ (name.now ≡ closure_word) }
{
    name.bytes() == b"closure".as_slice()
}

/// The word of a closure and its bracket, if they are at the front, and what follows them.
fn after_closure<'a>(text: &[u8], tokens: &'a [Token]) -> Option<(Opening, &'a [Token])>
    ensures { MatchOption result (NoClosure text.now tokens.now) (λ r. (tokens.now ≡ closing r.0 r.1.now) × IsClosureAt text.now r.0.keyword) }
{
    let (keyword, name, after) = after_name(text, tokens)?;
    if !is_closure_word(&name) {
        return None;
    }
    let (bracket, inner) = after_mark(Mark::OpenRound, after)?;
    Some((Opening { keyword, bracket }, inner))
}

/// The head of a loop, inside its bracket.
fn parse_loop_head<'a>(text: &[u8], tokens: &'a [Token]) -> Result<(LoopHead, &'a [Token]), Fault>
    ensures found { IfOk result (λ r. Heads text.now tokens.now r.0.turns_span r.0.turns r.0.name_span r.1.now) }
    ensures name { IfOk result (λ r. r.0.name ≡ piece text.now r.0.name_span) }
    ensures none { IfErr result (λ f. NoHead text.now tokens.now) }
    ensures shorter { IfOk result (λ r. length r.1.now < length tokens.now) }
{
    let Some((turns_span, turns, second)) = after_number(tokens) else {
        return Err(Fault::Unexpected(front(tokens)));
    };
    let Some((_, third)) = after_mark(Mark::Semicolon, second) else {
        return Err(Fault::Unexpected(front(second)));
    };
    let Some((name_span, name, fourth)) = after_name(text, third) else {
        return Err(Fault::Unexpected(front(third)));
    };
    let Some((_, rest)) = after_mark(Mark::Equal, fourth) else {
        return Err(Fault::Unexpected(front(fourth)));
    };
    let head = LoopHead {
        turns_span,
        turns,
        name_span,
        name,
    };
    Ok((head, rest))
}

/// A loop of these relations.
fn iteration<A: Allocator>(
    span: Span,
    form: LoopForm,
    head: LoopHead,
    start: Box<Rel<A>, A>,
    body: Box<Rel<A>, A>,
) -> Rel<A>
    ensures { rel_tree result ≡ RelTree.loop span form head.turns_span head.turns head.name_span head.name (rel_tree start.value) (rel_tree body.value) }
{
    Rel::Loop {
        span,
        form,
        turns_span: head.turns_span,
        turns: head.turns,
        name_span: head.name_span,
        name: head.name,
        start,
        body,
    }
}

/// A relation, which is moved into a box, and the mark after it.
#[cycle(parse)]
pub fn parse_rel_then<'a, A: Allocator + Copy>(
    alloc: A,
    mark: Mark,
    text: &[u8],
    tokens: &'a [Token],
    room: u32,
) -> Result<(Box<Rel<A>, A>, u32, Span, &'a [Token]), Fault>
    requires { room ≤ max_height }
    ensures found { IfOk result (λ r. Reads text.now tokens.now (rel_tree r.0.value) r.1 (mark_at mark r.2 ∷ r.3.now)) }
    ensures low { IfOk result (λ r. (1 ≤ r.1) × (r.1 ≤ max_height)) }
    ensures denied { IfErr result (λ f. Denies f (Unread (Ended (Reads text.now) mark) tokens.now) room) }
    ensures shorter { IfOk result (λ r. length r.3.now < length tokens.now) }
{
    let (relation, height, after) = parse_rel(alloc, text, tokens, room)?;
    let relation = Box::new(alloc, relation)?;
    let Some((end, rest)) = after_mark(mark, after) else {
        return Err(Fault::Unexpected(front(after)));
    };
    Ok((relation, height, end, rest))
}

/// What follows `select (`.
#[cycle(parse)]
fn parse_select<'a, A: Allocator + Copy>(
    alloc: A,
    opening: Opening,
    text: &[u8],
    tokens: &'a [Token],
    room: u32,
) -> Result<(Rel<A>, u32, &'a [Token]), Fault>
    requires { room < max_height }
    ensures found { IfOk result (λ r. Reads text.now (opened form.Select opening tokens.now) (rel_tree r.0) r.1 r.2.now) }
    ensures low { IfOk result (λ r. (1 ≤ r.1) × (r.1 ≤ max_height)) }
    ensures denied { IfErr result (λ f. Denies f (Unread (Reads text.now) (opened form.Select opening tokens.now)) (room + 1)) }
    ensures shorter { IfOk result (λ r. length r.2.now < length tokens.now) }
{
    let (relation, height, _, inner) = parse_rel_then(alloc, Mark::Semicolon, text, tokens, room)?;
    let (scalars, other, end, rest) = parse_last_scalars(alloc, inner, room)?;
    let most = height.max(other);
    if most == MAX_HEIGHT {
        return Err(Fault::TooHigh(opening.keyword));
    }
    let span = spanning(opening.keyword, end);
    Ok((Rel::Select(span, relation, scalars), most + 1, rest))
}

/// What follows `where (`.
#[cycle(parse)]
fn parse_where<'a, A: Allocator + Copy>(
    alloc: A,
    opening: Opening,
    text: &[u8],
    tokens: &'a [Token],
    room: u32,
) -> Result<(Rel<A>, u32, &'a [Token]), Fault>
    requires { room < max_height }
    ensures found { IfOk result (λ r. Reads text.now (opened form.Where opening tokens.now) (rel_tree r.0) r.1 r.2.now) }
    ensures low { IfOk result (λ r. (1 ≤ r.1) × (r.1 ≤ max_height)) }
    ensures denied { IfErr result (λ f. Denies f (Unread (Reads text.now) (opened form.Where opening tokens.now)) (room + 1)) }
    ensures shorter { IfOk result (λ r. length r.2.now < length tokens.now) }
{
    let (relation, height, _, inner) = parse_rel_then(alloc, Mark::Semicolon, text, tokens, room)?;
    let (condition, other, end, rest) = parse_last_condition(alloc, inner, room)?;
    let most = height.max(other);
    if most == MAX_HEIGHT {
        return Err(Fault::TooHigh(opening.keyword));
    }
    let span = spanning(opening.keyword, end);
    Ok((Rel::Where(span, relation, condition), most + 1, rest))
}

/// What follows the keyword and the bracket of that set operator.
#[cycle(parse)]
fn parse_set_operation<'a, A: Allocator + Copy>(
    alloc: A,
    operator: SetOperator,
    opening: Opening,
    text: &[u8],
    tokens: &'a [Token],
    room: u32,
) -> Result<(Rel<A>, u32, &'a [Token]), Fault>
    requires { room < max_height }
    ensures found { IfOk result (λ r. Reads text.now (opened (form.SetOperation operator) opening tokens.now) (rel_tree r.0) r.1 r.2.now) }
    ensures low { IfOk result (λ r. (1 ≤ r.1) × (r.1 ≤ max_height)) }
    ensures denied { IfErr result (λ f. Denies f (Unread (Reads text.now) (opened (form.SetOperation operator) opening tokens.now)) (room + 1)) }
    ensures shorter { IfOk result (λ r. length r.2.now < length tokens.now) }
{
    let (left, height, _, inner) = parse_rel_then(alloc, Mark::Comma, text, tokens, room)?;
    let (right, other, end, rest) = parse_rel_then(alloc, Mark::CloseRound, text, inner, room)?;
    let most = height.max(other);
    if most == MAX_HEIGHT {
        return Err(Fault::TooHigh(opening.keyword));
    }
    let span = spanning(opening.keyword, end);
    Ok((
        Rel::SetOperation(span, operator, left, right),
        most + 1,
        rest,
    ))
}

/// What follows `join (`.
#[cycle(parse)]
fn parse_join<'a, A: Allocator + Copy>(
    alloc: A,
    opening: Opening,
    text: &[u8],
    tokens: &'a [Token],
    room: u32,
) -> Result<(Rel<A>, u32, &'a [Token]), Fault>
    requires { room < max_height }
    ensures found { IfOk result (λ r. Reads text.now (opened form.Join opening tokens.now) (rel_tree r.0) r.1 r.2.now) }
    ensures low { IfOk result (λ r. (1 ≤ r.1) × (r.1 ≤ max_height)) }
    ensures denied { IfErr result (λ f. Denies f (Unread (Reads text.now) (opened form.Join opening tokens.now)) (room + 1)) }
    ensures shorter { IfOk result (λ r. length r.2.now < length tokens.now) }
{
    let (left, height, _, inner) = parse_rel_then(alloc, Mark::Comma, text, tokens, room)?;
    let (right, other, _, last) = parse_rel_then(alloc, Mark::Semicolon, text, inner, room)?;
    let (pairs, end, rest) = parse_last_pairs(alloc, last)?;
    let most = height.max(other);
    if most == MAX_HEIGHT {
        return Err(Fault::TooHigh(opening.keyword));
    }
    let span = spanning(opening.keyword, end);
    Ok((Rel::Join(span, left, right, pairs), most + 1, rest))
}

/// What follows `group (`.
#[cycle(parse)]
fn parse_group<'a, A: Allocator + Copy>(
    alloc: A,
    opening: Opening,
    text: &[u8],
    tokens: &'a [Token],
    room: u32,
) -> Result<(Rel<A>, u32, &'a [Token]), Fault>
    requires { room < max_height }
    ensures found { IfOk result (λ r. Reads text.now (opened form.Group opening tokens.now) (rel_tree r.0) r.1 r.2.now) }
    ensures low { IfOk result (λ r. (1 ≤ r.1) × (r.1 ≤ max_height)) }
    ensures denied { IfErr result (λ f. Denies f (Unread (Reads text.now) (opened form.Group opening tokens.now)) (room + 1)) }
    ensures shorter { IfOk result (λ r. length r.2.now < length tokens.now) }
{
    let (relation, height, _, inner) = parse_rel_then(alloc, Mark::Semicolon, text, tokens, room)?;
    let (keys, _, last) = parse_columns(alloc, inner)?;
    let (aggs, end, rest) = parse_last_aggs(alloc, last)?;
    if height == MAX_HEIGHT {
        return Err(Fault::TooHigh(opening.keyword));
    }
    let span = spanning(opening.keyword, end);
    Ok((Rel::Group(span, relation, keys, aggs), height + 1, rest))
}

/// What follows `distinct (`.
#[cycle(parse)]
fn parse_distinct<'a, A: Allocator + Copy>(
    alloc: A,
    opening: Opening,
    text: &[u8],
    tokens: &'a [Token],
    room: u32,
) -> Result<(Rel<A>, u32, &'a [Token]), Fault>
    requires { room < max_height }
    ensures found { IfOk result (λ r. Reads text.now (opened form.Distinct opening tokens.now) (rel_tree r.0) r.1 r.2.now) }
    ensures low { IfOk result (λ r. (1 ≤ r.1) × (r.1 ≤ max_height)) }
    ensures denied { IfErr result (λ f. Denies f (Unread (Reads text.now) (opened form.Distinct opening tokens.now)) (room + 1)) }
    ensures shorter { IfOk result (λ r. length r.2.now < length tokens.now) }
{
    let (relation, height, end, rest) = parse_rel_then(
        alloc,
        Mark::CloseRound,
        text,
        tokens,
        room,
    )?;
    if height == MAX_HEIGHT {
        return Err(Fault::TooHigh(opening.keyword));
    }
    let span = spanning(opening.keyword, end);
    Ok((Rel::Distinct(span, relation), height + 1, rest))
}

/// What follows `iterate (`.
#[cycle(parse)]
fn parse_iterate<'a, A: Allocator + Copy>(
    alloc: A,
    opening: Opening,
    text: &[u8],
    tokens: &'a [Token],
    room: u32,
) -> Result<(Rel<A>, u32, &'a [Token]), Fault>
    requires { room < max_height }
    ensures found { IfOk result (λ r. Reads text.now (opened form.Iterate opening tokens.now) (rel_tree r.0) r.1 r.2.now) }
    ensures low { IfOk result (λ r. (1 ≤ r.1) × (r.1 ≤ max_height)) }
    ensures denied { IfErr result (λ f. Denies f (Unread (Reads text.now) (opened form.Iterate opening tokens.now)) (room + 1)) }
    ensures shorter { IfOk result (λ r. length r.2.now < length tokens.now) }
{
    let (head, first) = parse_loop_head(text, tokens)?;
    let (start, height, _, inner) = parse_rel_then(alloc, Mark::Semicolon, text, first, room)?;
    let (body, other, end, rest) = parse_rel_then(alloc, Mark::CloseRound, text, inner, room)?;
    let most = height.max(other);
    if most == MAX_HEIGHT {
        return Err(Fault::TooHigh(opening.keyword));
    }
    let span = spanning(opening.keyword, end);
    Ok((
        iteration(span, LoopForm::Iterate, head, start, body),
        most + 1,
        rest,
    ))
}

/// What follows `closure (`.
#[cycle(parse)]
fn parse_closure<'a, A: Allocator + Copy>(
    alloc: A,
    opening: Opening,
    text: &[u8],
    tokens: &'a [Token],
    room: u32,
) -> Result<(Rel<A>, u32, &'a [Token]), Fault>
    requires room { room < max_height }
    requires word { IsClosureAt text.now opening.keyword }
    ensures found { IfOk result (λ r. Reads text.now (closing opening tokens.now) (rel_tree r.0) r.1 r.2.now) }
    ensures low { IfOk result (λ r. (1 ≤ r.1) × (r.1 ≤ max_height)) }
    ensures denied { IfErr result (λ f. Denies f (Unread (Reads text.now) (closing opening tokens.now)) (room + 1)) }
    ensures shorter { IfOk result (λ r. length r.2.now < length tokens.now) }
{
    let (head, first) = parse_loop_head(text, tokens)?;
    let (start, height, _, inner) = parse_rel_then(alloc, Mark::Semicolon, text, first, room)?;
    let (body, other, end, rest) = parse_rel_then(alloc, Mark::CloseRound, text, inner, room)?;
    let most = height.max(other);
    if most == MAX_HEIGHT {
        return Err(Fault::TooHigh(opening.keyword));
    }
    let span = spanning(opening.keyword, end);
    Ok((
        iteration(span, LoopForm::Closure, head, start, body),
        most + 1,
        rest,
    ))
}

/// A relation at the front.
#[cycle(parse)]
fn parse_rel<'a, A: Allocator + Copy>(
    alloc: A,
    text: &[u8],
    tokens: &'a [Token],
    room: u32,
) -> Result<(Rel<A>, u32, &'a [Token]), Fault>
    requires { room ≤ max_height }
    ensures found { IfOk result (λ r. Reads text.now tokens.now (rel_tree r.0) r.1 r.2.now) }
    ensures low { IfOk result (λ r. (1 ≤ r.1) × (r.1 ≤ max_height)) }
    ensures denied { IfErr result (λ f. Denies f (Unread (Reads text.now) tokens.now) room) }
    ensures shorter { IfOk result (λ r. length r.2.now < length tokens.now) }
{
    if let Some((opening, inner)) = after_closure(text, tokens) {
        if room == 0 {
            return Err(Fault::TooHigh(opening.bracket));
        }
        return parse_closure(alloc, opening, text, inner, room - 1);
    }
    if let Some((span, name, rest)) = after_name(text, tokens) {
        return Ok((Rel::Named(span, name), 1, rest));
    }
    let Some((form, keyword, after)) = after_form(tokens) else {
        return Err(Fault::Unexpected(front(tokens)));
    };
    let Some((bracket, inner)) = after_mark(Mark::OpenRound, after) else {
        return Err(Fault::Unexpected(front(after)));
    };
    if room == 0 {
        return Err(Fault::TooHigh(bracket));
    }
    let opening = Opening { keyword, bracket };
    let room = room - 1;
    match form {
        Form::Select => parse_select(alloc, opening, text, inner, room),
        Form::Where => parse_where(alloc, opening, text, inner, room),
        Form::SetOperation(operator) => {
            parse_set_operation(alloc, operator, opening, text, inner, room)
        }
        Form::Join => parse_join(alloc, opening, text, inner, room),
        Form::Group => parse_group(alloc, opening, text, inner, room),
        Form::Distinct => parse_distinct(alloc, opening, text, inner, room),
        Form::Iterate => parse_iterate(alloc, opening, text, inner, room),
    }
}
