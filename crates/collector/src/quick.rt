//! A fast path: reads records that are spelled as they print, in one pass.
//!
//! A record that is read here is read correctly. Anything else, wrong or only spelled at more length, is left to the reader of lines.

ghost use Rattle.std.specs.Prelude.{◌≡◌, ◌<◌, ◌≤◌, ◌^◌, ◌++◌, ◌∷◌, ℕ, List, length, take, map, decimal, FitsSigned, IsTrue, ◌↔◌, IfOk, IfSome, IfNone, OnOk, true, false};
ghost use Rattle.std.specs.Fmt.{signed_decimal};
ghost use Rattle.std.specs.Int.{w64};
ghost use Rattle.std.specs.List.{flat_map};
ghost use Rattle.record_core.specs.Inputs.{input_of};
ghost use Rattle.collector.specs.OutputText.{spaced};
ghost use Rattle.collector.specs.Quick.{IsRowAt, Fit};

use core::dec2flt::read_digits;
use record_core::{DeclaredInput, MAX_FIELDS};
use std::alloc::AllocError;

/// As many digits write a number below 2^64, whatever they are.
const MOST_DIGITS: usize = 19;

/// The number at the head of the text, and the number of bytes that spell it.
#[inline(always)]
fn quick_number(text: &[u8]) -> Option<(u64, usize)>
    ensures within { IfSome result (λ r. r.1 ≤ length text.now) }
    ensures number { IfSome result (λ r. take r.1 text.now ≡ decimal r.0) }
    ensures small { IfSome result (λ r. r.0 < 2 ^ 63) }
{
    let (end, value) = read_digits(text, 0, 0);
    if end == 0 || end > MOST_DIGITS || value > i64::MAX as u64 {
        return None;
    }
    if text[0] == b'0' && end > 1 {
        return None;
    }
    Some((value, end))
}

/// The text after a minus at its head, and whether there is one.
#[inline(always)]
fn without_minus(text: &[u8]) -> (bool, &[u8])
    ensures minus { result.0 ≡ true → text.now ≡ 45 ∷ result.1.now }
    ensures none { result.0 ≡ false → text.now ≡ result.1.now }
{
    match text.split_first() {
        Some((b'-', rest)) => (true, rest),
        _ => (false, text),
    }
}

/// The signed number at the head of the text, and the text after it.
#[inline(always)]
fn quick_signed(text: &[u8]) -> Option<(i64, &[u8])>
    ensures spelled { IfSome result (λ r. text.now ≡ signed_decimal r.0 ++ r.1.now) }
    ensures fits { IfSome result (λ r. FitsSigned w64 r.0) }
{
    let (is_negative, digits) = without_minus(text);
    let Some((value, end)) = quick_number(digits) else {
        return None;
    };
    let (_, after) = digits.split_at(end);
    let number = value as i64;
    if !is_negative {
        return Some((number, after));
    }
    if number == 0 {
        return None;
    }
    Some((-number, after))
}

/// Fills the buffer with the fields at the head of the text, each after a space, up to a line feed after the last; gives the text after it.
#[inline(always)]
fn quick_fields<'a>(text: &'a [u8], fields: &mut [i64]) -> Option<&'a [u8]>
    ensures spelled { IfSome result (λ after. text.entry.now ≡ flat_map spaced fields.new ++ 10 ∷ after.now) }
    ensures fit { IfSome result (λ after. Fit fields.new) }
    ensures count { length fields.new ≡ length fields.old }
{
    let mut rest = text;
    for place in 0..fields.len() {
        let Some((b' ', spelled)) = rest.split_first() else {
            return None;
        };
        let Some((number, after)) = quick_signed(spelled) else {
            return None;
        };
        fields[place] = number;
        rest = after;
    }
    match rest.split_first() {
        Some((b'\n', after)) => Some(after),
        _ => None,
    }
}

/// Makes the buffer hold that many fields, whatever they are.
#[inline(always)]
fn set_len(fields: &mut Vec<i64>, count: usize) -> Result<(), AllocError>
    ensures { OnOk result (length fields.new.items ≡ count) }
{
    if fields.len() != count {
        fields.clear();
        fields.resize(count, 0)?;
    }
    Ok(())
}

#[inline(always)]
fn is_same(word: &[u8], name: &[u8]) -> bool
    ensures { IsTrue result ↔ (word.now ≡ name.now) }
{
    word == name
}

/// The text after a name at the head of the text, if a space follows it.
#[inline(always)]
fn after_name<'a>(text: &'a [u8], name: &[u8]) -> Option<&'a [u8]>
    ensures some { IfSome result (λ rest. text.entry.now ≡ name.now ++ rest.now) }
    ensures none { IfNone result ((rest : List ℕ) → text.entry.now ≡ name.now ++ 32 ∷ rest → ⊥) }
{
    let size = name.len();
    if text.len() <= size || text[size] != b' ' {
        return None;
    }
    let (head, rest) = text.split_at(size);
    if is_same(head, name) {
        Some(rest)
    } else {
        None
    }
}

/// Reads the record at the head of the text: the number of its input, and the text after its line.
#[inline(always)]
pub fn quick_row<'a>(
    text: &'a [u8],
    inputs: &[DeclaredInput],
    fields: &mut Vec<i64>,
) -> Result<Option<(usize, &'a [u8])>, AllocError>
    ensures { IfOk result (λ o. IfSome o (λ r. IsRowAt (map input_of inputs.now) text.entry.now fields.new.items r.0 r.1.now)) }
{
    for (i, declared) in inputs.iter().enumerate() {
        if let Some(rest) = after_name(text, declared.name.bytes()) {
            if declared.arity < 1 || declared.arity > MAX_FIELDS as u64 {
                return Ok(None);
            }
            set_len(fields, declared.arity as usize)?;
            return match quick_fields(rest, fields.as_mut_slice()) {
                Some(after) => Ok(Some((i, after))),
                None => Ok(None),
            };
        }
    }
    Ok(None)
}
