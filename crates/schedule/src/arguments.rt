//! Reads the words after a verb's letter.

ghost use Rattle.std.specs.Prelude.{◌≡◌, ◌≢◌, ◌<◌, ◌^◌, ℕ, List, [], ◌∷◌, decimal, IfSome, IfNone};
ghost use Rattle.collector.specs.Said.{words_of};
ghost use Rattle.schedule.specs.LineReader.{ArgumentsEnd, CountEnds, CountsEnd, NameEnds};
ghost use Rattle.schedule.specs.declared.refusal.Fault.TheVariants.{BadNumber};
ghost use Rattle.schedule.specs.declared.verb.Verb.TheVariants as verb;

use crate::line::{Line, LineError};
use crate::refusal::Fault;
use collector::{first_word, is_word, read_fields, rest_is_filled};
use decimal::number;
use std::alloc::Global;

/// The only word after the letter, if there is exactly one.
fn only_word(rest: Option<&[u8]>) -> Option<&[u8]>
    ensures found { IfSome result (λ word. words_of rest.entry ≡ word.now ∷ []) }
    ensures none { IfNone result ((word : List ℕ) → words_of rest.entry ≡ word ∷ [] → ⊥) }
{
    let Some(words) = rest else {
        return None;
    };
    let (word, more) = first_word(words);
    match more {
        None => Some(word),
        Some(_) => None,
    }
}

/// The two words after the letter, if there are exactly two.
fn two_words(rest: Option<&[u8]>) -> Option<(&[u8], &[u8])>
    ensures found { IfSome result (λ p. words_of rest.entry ≡ p.0.now ∷ p.1.now ∷ []) }
    ensures none { IfNone result ((first second : List ℕ) → words_of rest.entry ≡ first ∷ second ∷ [] → ⊥) }
{
    let Some(words) = rest else {
        return None;
    };
    let (first, more) = first_word(words);
    match only_word(more) {
        None => None,
        Some(second) => Some((first, second)),
    }
}

/// The number of 32 bits that a word spells.
fn count_of(word: &[u8]) -> Option<u32>
    ensures found { IfSome result (λ n. word.now ≡ decimal n) }
    ensures none { IfNone result ((n : ℕ) → n < 2 ^ 32 → word.now ≢ decimal n) }
{
    let Some(count) = number(word) else {
        return None;
    };
    if count <= 4_294_967_295 {
        Some(count as u32)
    } else {
        None
    }
}

/// The only name after the letter.
pub fn one_name(rest: Option<&[u8]>) -> Option<&[u8]>
    ensures { NameEnds (words_of rest.entry) result }
{
    let Some(name) = only_word(rest) else {
        return None;
    };
    if is_word(name) { Some(name) } else { None }
}

/// The only number after the letter.
pub fn one_count(rest: Option<&[u8]>) -> Result<u32, Fault>
    ensures { CountEnds (words_of rest.entry) result }
{
    let Some(word) = only_word(rest) else {
        return Err(Fault::Malformed);
    };
    if word.is_empty() {
        return Err(Fault::Malformed);
    }
    match count_of(word) {
        Some(count) => Ok(count),
        None => Err(Fault::BadNumber),
    }
}

/// The two numbers after the letter.
pub fn two_counts(rest: Option<&[u8]>) -> Result<(u32, u32), Fault>
    ensures { CountsEnd (words_of rest.entry) result }
{
    let Some((first, second)) = two_words(rest) else {
        return Err(Fault::Malformed);
    };
    if first.is_empty() || second.is_empty() {
        return Err(Fault::Malformed);
    }
    let Some(left) = count_of(first) else {
        return Err(Fault::BadNumber);
    };
    let Some(right) = count_of(second) else {
        return Err(Fault::BadNumber);
    };
    Ok((left, right))
}

/// Reads an input's name and the fields of a record.
pub fn read_feed(alloc: Global, rest: Option<&[u8]>) -> Result<Line<'_>, LineError>
    ensures { ArgumentsEnd verb.Feed (words_of rest.entry) result }
{
    let Some(words) = rest else {
        return Err(LineError::Fault(Fault::Malformed));
    };
    let (input, more) = first_word(words);
    if !is_word(input) || !rest_is_filled(more) {
        return Err(LineError::Fault(Fault::Malformed));
    }
    let mut fields = Vec::new(alloc);
    match read_fields(more, &mut fields) {
        Err(_) => Err(LineError::NoMemory),
        Ok(false) => Err(LineError::Fault(Fault::BadNumber)),
        Ok(true) => Ok(Line::Feed { input, fields }),
    }
}
