//! What is at the front of the tokens.

ghost use Rattle.std.specs.Prelude.{◌≡◌, ◌<◌, ◌^◌, ◌∷◌, MatchOption, SomeIff};
ghost use Rattle.lexer.specs.declared.token.TokenKind.TheVariants as kind;
ghost use Rattle.grammar.specs.Tokens.{reaching, token, mark_at, keyword_at, NoMark, NoKeyword};
ghost use Rattle.grammar.specs.Relations.{IsNameAt, piece};
ghost use Rattle.parser.specs.Scanning.{NoNumber, NoColumn, NoName};

use lexer::{Mark, Token, TokenKind};
use record_core::{Keyword, Name, Span};

/// The place of the first token; `None` at the end.
pub fn front(tokens: &[Token]) -> Option<Span> {
    match tokens.first() {
        None => None,
        Some(token) => Some(token.span),
    }
}

/// From the first of two spans to the end of the second.
pub fn spanning(first: Span, last: Span) -> Span
    ensures { result ≡ reaching first last }
{
    Span {
        start: first.start,
        end: last.end,
    }
}

/// The place of that mark, and what follows it.
pub fn after_mark(mark: Mark, tokens: &[Token]) -> Option<(Span, &[Token])>
    ensures { MatchOption result (NoMark mark tokens.now) (λ r. tokens.now ≡ mark_at mark r.0 ∷ r.1.now) }
{
    let (first, rest) = tokens.split_first()?;
    if first.kind == TokenKind::Mark(mark) {
        Some((first.span, rest))
    } else {
        None
    }
}

/// The place of that keyword, and what follows it.
pub fn after_keyword(keyword: Keyword, tokens: &[Token]) -> Option<(Span, &[Token])>
    ensures { MatchOption result (NoKeyword keyword tokens.now) (λ r. tokens.now ≡ keyword_at keyword r.0 ∷ r.1.now) }
{
    let (first, rest) = tokens.split_first()?;
    if first.kind == TokenKind::Keyword(keyword) {
        Some((first.span, rest))
    } else {
        None
    }
}

/// The place of a number, its value, and what follows it.
pub fn after_number(tokens: &[Token]) -> Option<(Span, u64, &[Token])>
    ensures { MatchOption result (NoNumber tokens.now) (λ r. (tokens.now ≡ token (kind.Number r.1) r.0 ∷ r.2.now) × (r.1 < 2 ^ 63)) }
{
    let (first, rest) = tokens.split_first()?;
    match first.kind {
        TokenKind::Number(n) => {
            if n < 0x8000_0000_0000_0000 {
                Some((first.span, n, rest))
            } else {
                None
            }
        }
        _ => None,
    }
}

/// The place of a column, its number, and what follows it.
pub fn after_column(tokens: &[Token]) -> Option<(Span, u64, &[Token])>
    ensures { MatchOption result (NoColumn tokens.now) (λ r. tokens.now ≡ token (kind.Column r.1) r.0 ∷ r.2.now) }
{
    let (first, rest) = tokens.split_first()?;
    match first.kind {
        TokenKind::Column(n) => Some((first.span, n, rest)),
        _ => None,
    }
}

/// The name of a span of the text.
fn name_at(text: &[u8], span: Span) -> Option<Name>
    ensures { SomeIff result (IsNameAt text.now span) (piece text.now span) }
{
    let start = span.start as usize;
    let end = span.end as usize;
    if end > text.len() || start > end {
        return None;
    }
    Name::new(&text[start..end])
}

/// The place of a name, the name, and what follows it.
pub fn after_name<'a>(text: &[u8], tokens: &'a [Token]) -> Option<(Span, Name, &'a [Token])>
    ensures { MatchOption result (NoName text.now tokens.now)
        (λ r. (tokens.now ≡ token kind.Name r.0 ∷ r.2.now) × (r.1 ≡ piece text.now r.0) × IsNameAt text.now r.0) }
{
    let (first, rest) = tokens.split_first()?;
    match first.kind {
        TokenKind::Name => {
            let name = name_at(text, first.span)?;
            Some((first.span, name, rest))
        }
        _ => None,
    }
}
