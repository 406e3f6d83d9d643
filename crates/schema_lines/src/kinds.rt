//! The words for kinds of cells.

ghost use Rattle.std.specs.Prelude.{◌≡◌, ◌≤◌, ◌++◌, ℕ, codes, decimal, IfSome, Some};
ghost use Rattle.csv_cells.specs.declared.column.Kind.{Kind};
ghost use Rattle.schema_lines.specs.Words.{IsKind, kind_text};

use csv_cells::Kind;
use decimal::number;

/// The digits after the point, from the word for a kind with a point.
fn places_of(word: &[u8]) -> Option<u8>
    ensures right { IfSome result (λ p. (1 ≤ p) × (p ≤ 18)) }
    ensures read { (p : ℕ) → 1 ≤ p → p ≤ 18 → word.now ≡ codes "decimal(" ++ (decimal p ++ codes ")") → result ≡ Some p }
{
    let places = number(word.strip_prefix(b"decimal(")?.strip_suffix(b")")?)?;
    match u8::try_from(places) {
        Ok(places) if 1 <= places && places <= 18 => Some(places),
        _ => None,
    }
}

/// The kind that a word names.
pub fn kind_named(word: &[u8]) -> Option<Kind>
    ensures right { IfSome result IsKind }
    ensures read { (kind : Kind) → IsKind kind → word.now ≡ kind_text kind → result ≡ Some kind }
{
    if word == b"int".as_slice() {
        return Some(Kind::Int);
    }
    if word == b"date".as_slice() {
        return Some(Kind::Date);
    }
    if word == b"time".as_slice() {
        return Some(Kind::Time);
    }
    if word == b"text".as_slice() {
        return Some(Kind::Text);
    }
    match places_of(word) {
        Some(places) => Some(Kind::Decimal(places)),
        None => None,
    }
}
