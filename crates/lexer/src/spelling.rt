//! Decides which token a lexeme spells.

ghost use Rattle.std.specs.Prelude.{◌≡◌, ◌≢◌, ◌<◌, ◌^◌, ℕ, slice_index, decimal, IfSome, IfNone};
ghost use Rattle.lexer.specs.declared.token.TokenKind.{TokenKind};
ghost use Rattle.lexer.specs.Lexemes.{shape_of, IsLexeme};
ghost use Rattle.lexer.specs.Tokens.{Spells};

use crate::lexeme::{Shape, shape_at};
use crate::mark::Mark;
use crate::token::TokenKind;
use decimal::number;
use record_core::Keyword;

/// The token that a lexeme spells. `None` for a name that is too long, and for digits that aren't a number of the language.
pub(crate) fn kind_of(word: &[u8]) -> Option<TokenKind>
    requires { IsLexeme word.now }
    ensures found { IfSome result (λ t. Spells word.now t) }
    ensures none { IfNone result ((t : TokenKind) → ¬ (Spells word.now t)) }
{
    let Some((first, rest)) = word.split_first() else {
        return None;
    };
    match shape_at(*first) {
        Shape::Word => word_kind(word),
        Shape::Numeral => match literal(word) {
            None => None,
            Some(number) => Some(TokenKind::Number(number)),
        },
        Shape::Reference => match literal(rest) {
            None => None,
            Some(number) => Some(TokenKind::Column(number)),
        },
        Shape::Sign => match Mark::at_front(word) {
            None => None,
            Some(mark) => Some(TokenKind::Mark(mark)),
        },
    }
}

/// The keyword or the name that a letter and name bytes spell.
fn word_kind(word: &[u8]) -> Option<TokenKind>
    requires lexeme { IsLexeme word.now }
    requires word { shape_of (slice_index word.now 0) ≡ Shape.Word }
    ensures found { IfSome result (λ t. Spells word.now t) }
    ensures none { IfNone result ((t : TokenKind) → ¬ (Spells word.now t)) }
{
    match Keyword::of(word) {
        Some(keyword) => Some(TokenKind::Keyword(keyword)),
        None => {
            if word.len() <= 32 {
                Some(TokenKind::Name)
            } else {
                None
            }
        }
    }
}

/// The number that the bytes spell, at most 9223372036854775807.
fn literal(text: &[u8]) -> Option<u64>
    ensures found { IfSome result (λ n. (text.now ≡ decimal n) × (n < 2 ^ 63)) }
    ensures none { IfNone result ((n : ℕ) → n < 2 ^ 63 → text.now ≢ decimal n) }
{
    match number(text) {
        None => None,
        Some(n) => {
            if n < 0x8000_0000_0000_0000 {
                Some(n)
            } else {
                None
            }
        }
    }
}
