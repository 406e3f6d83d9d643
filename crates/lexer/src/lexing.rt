//! From bytes to tokens.

ghost use Rattle.std.specs.Prelude.{◌≡◌, ◌≢◌, List, ◌<◌, ◌≤◌, ◌^◌, length, IfOk, IfErr};
ghost use Rattle.std.specs.List.{All};
ghost use Rattle.record_core.specs.declared.span.Refusal.{Refusal};
ghost use Rattle.lexer.specs.declared.token.Token.{Token};
ghost use Rattle.lexer.specs.Lexemes.{shape_of};
ghost use Rattle.lexer.specs.Tokens.{IsPlaced, Lexes, max_length};
ghost use Rattle.lexer.specs.Faults.{Begins, Stops, Refuses, fault_code};

use crate::lexeme::{Class, Shape, lexeme_len, run, shape_at};
use crate::refusals::{BAD_NUMBER, NAME_TOO_LONG, NO_TOKEN, TEXT_TOO_LONG};
use crate::spelling::kind_of;
use crate::token::Token;
use record_core::{Refusal, Span};
use std::alloc::Allocator;

/// The longest query text, in bytes.
pub const MAX_LENGTH: usize = 1_048_576;

/// The tokens of a text, in order.
///
/// Refusals, of which only the first in the text is reported:
/// - 1: a byte that begins no token, including a `#` without a digit and a `!` without a `=` directly after it. Its span is the byte.
/// - 2: a number with a leading zero or above 9223372036854775807. Its span is the whole run of digits, with the `#` of a column.
/// - 3: a name of more than 32 bytes. Its span is the whole run of name bytes.
/// - 6: a text of more than 1,048,576 bytes; reported before all others. Its span is the empty one at 1048576.
/// - `NoMemory`: the allocator refused.
pub fn lex<A: Allocator>(alloc: A, text: &[u8]) -> Result<Vec<Token, A>, Refusal>
    // They are the text's tokens, in order, and the rest is white space.
    ensures tokens { IfOk result (λ v. Lexes text.now v.items) }
    // The text has no other tokens.
    ensures only { IfOk result (λ v. (ts : List Token) → Lexes text.now ts → ts ≡ v.items) }
    // Each is in the text, and its span's slice spells it; a name's slice is a name.
    ensures placed { IfOk result (λ v. All (IsPlaced text.now) v.items) }
    // A refusal is the first fault.
    ensures refused { IfErr result (λ e. Refuses text.now e) }
    // The text has no other first fault.
    ensures first { IfErr result (λ e. e ≢ Refusal.NoMemory → (f : Refusal) → f ≢ Refusal.NoMemory → Refuses text.now f → f ≡ e) }
    // A text that is refused, except for lack of memory, has no tokens.
    ensures none { IfErr result (λ e. e ≢ Refusal.NoMemory → (ts : List Token) → ¬ (Lexes text.now ts)) }
{
    scan(alloc, text)
}

fn scan<A: Allocator>(alloc: A, text: &[u8]) -> Result<Vec<Token, A>, Refusal>
    ensures tokens { IfOk result (λ v. Lexes text.now v.items) }
    ensures refused { IfErr result (λ e. Refuses text.now e) }
{
    if text.len() > MAX_LENGTH {
        return Err(Refusal::At {
            code: TEXT_TOO_LONG,
            span: span(MAX_LENGTH, MAX_LENGTH),
        });
    }
    let mut tokens = Vec::new(alloc);
    let mut at = 0;
    while let Some(token) = next_token(text, at)? {
        at = token.span.end as usize;
        tokens.push(token)?;
    }
    Ok(tokens)
}

/// The next token, after white space.
fn next_token(text: &[u8], at: usize) -> Result<Option<Token>, Refusal>
    requires short { length text.now ≤ max_length }
    requires within { at ≤ length text.now }
    ensures token { IfOk result (λ next. Begins text.now at next) }
    ensures fault { IfErr result (λ e. Stops text.now at e) }
{
    let start = at + run(&text[at..], Class::Space);
    if start == text.len() {
        return Ok(None);
    }
    let rest = &text[start..];
    let Some(len) = lexeme_len(rest) else {
        return Err(Refusal::At {
            code: NO_TOKEN,
            span: span(start, start + 1),
        });
    };
    let end = start + len;
    match kind_of(&rest[..len]) {
        Some(kind) => Ok(Some(Token {
            kind,
            span: span(start, end),
        })),
        None => Err(Refusal::At {
            code: bad_code(text[start]),
            span: span(start, end),
        }),
    }
}

/// The code for a lexeme that spells no token, by its first byte.
fn bad_code(byte: u8) -> u8
    ensures { result ≡ fault_code (shape_of byte) }
{
    match shape_at(byte) {
        Shape::Word => NAME_TOO_LONG,
        Shape::Numeral | Shape::Reference => BAD_NUMBER,
        Shape::Sign => NO_TOKEN,
    }
}

fn span(start: usize, end: usize) -> Span
    requires first { start < 2 ^ 32 }
    requires last { end < 2 ^ 32 }
    ensures { result ≡ record { start = start; end = end } }
{
    Span {
        start: start as u32,
        end: end as u32,
    }
}
