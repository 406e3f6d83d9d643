//! The number that a text spells, if it spells one. Its digits are joined first, and then compared with those that the number has.

ghost use Rattle.std.specs.Prelude.{◌≡◌, ◌≢◌, ◌↔◌, ◌<◌, ◌^◌, [], ◌∷◌, ◌++◌, ℕ, ℤ, pos, neg_ℤ, decimal, length, List, FitsSigned, IfNone, IfSome, IsTrue, Some};
ghost use Rattle.std.specs.Fmt.{signed_decimal};
ghost use Rattle.std.specs.Int.{w64};
ghost use Rattle.scalar_texts.specs.Numbers.{IsDateText, amount_text, clock_text, date_text, decimal_text, digits_text, joined, time_text};

use crate::digits::{digit, whole_of};
use decimal::{number, signed_number};
use jiff_core::civil::Date;

/// A number with digits behind it, by its last 64 bits.
fn joined(start: u64, digits: &[u8]) -> u64
    ensures { joined start digits.now < 2 ^ 64 → result ≡ joined start digits.now }
{
    let mut sum = start;
    for i in 0..digits.len() {
        let digit = digits[i].saturating_sub(b'0');
        sum = sum.wrapping_mul(10).wrapping_add(u64::from(digit));
    }
    sum
}

/// The number with a sign.
fn signed(n: u64) -> Option<i64>
    ensures found { IfSome result (λ z. z ≡ pos n) }
    ensures small { n < 2 ^ 63 → result ≡ Some (pos n) }
{
    i64::try_from(n).ok()
}

/// The number below zero, for one that isn't 0.
fn negated(n: u64) -> Option<i64>
    ensures found { IfSome result (λ z. (0 < n) × (z ≡ neg_ℤ (pos n))) }
    ensures only { (z : ℤ) → FitsSigned w64 z → 0 < n → z ≡ neg_ℤ (pos n) → result ≡ Some z }
{
    if n == 0 {
        return None;
    }
    i64::try_from(-i128::from(n)).ok()
}

/// Whether a text is the last digits of a number, as many as it is long.
fn has_digits(text: &[u8], n: u64) -> bool
    ensures { IsTrue result ↔ (text.now ≡ digits_text (length text.now) n) }
{
    match text.split_last() {
        Some((last, front)) => *last == digit(n % 10) && has_digits(front, n / 10),
        None => true,
    }
}

/// Whether two bytes are the last two digits of a number.
#[inline(always)]
fn are_digits(first: u8, second: u8, n: u64) -> bool
    ensures { IsTrue result ↔ (first ∷ second ∷ [] ≡ digits_text 2 n) }
{
    first == digit(n / 10 % 10) && second == digit(n % 10)
}

/// Whether a text is the time of day after that many seconds.
fn is_clock(text: &[u8], seconds: u64) -> bool
    ensures { IsTrue result ↔ (text.now ≡ clock_text seconds) }
{
    match text {
        [a, b, b':', c, d, b':', e, f] => {
            are_digits(*a, *b, seconds / 3600)
                && are_digits(*c, *d, seconds / 60 % 60)
                && are_digits(*e, *f, seconds % 60)
        }
        _ => false,
    }
}

/// Whether a text is the time of day that a number stands for.
fn is_time(text: &[u8], z: i64) -> bool
    ensures { IsTrue result ↔ (time_text z ≡ Some text.now) }
{
    match u64::try_from(z) {
        Ok(seconds) => seconds < 86_400 && is_clock(text, seconds),
        Err(_) => false,
    }
}

/// The seconds of a text `HH:MM:SS`, if it is a time of day.
pub fn seconds_of(text: &[u8]) -> Option<i64>
    ensures found { IfSome result (λ z. time_text z ≡ Some text.now) }
    ensures only { (z : ℤ) → time_text z ≡ Some text.now → result ≡ Some z }
{
    let z = joined_seconds(text)?;
    if is_time(text, z) { Some(z) } else { None }
}

/// The seconds of a text `HH:MM:SS`.
fn joined_seconds(text: &[u8]) -> Option<i64>
    ensures { (z : ℤ) → time_text z ≡ Some text.now → result ≡ Some z }
{
    if text.len() != 8 {
        return None;
    }
    let hours = joined(0, &text[..2]);
    let minutes = joined(0, &text[3..5]);
    let seconds = joined(0, &text[6..]);
    let whole = hours.wrapping_mul(60).wrapping_add(minutes);
    signed(whole.wrapping_mul(60).wrapping_add(seconds))
}

/// A number with the digits of a text behind its own.
fn with_digits(start: u64, digits: &[u8]) -> Option<u64>
    requires { 0 < start }
    ensures { IfSome result (λ n. decimal n ≡ decimal start ++ digits.now) }
{
    let mut sum = start;
    for i in 0..digits.len() {
        let digit = digits[i];
        if !digit.is_ascii_digit() {
            return None;
        }
        sum = sum.checked_mul(10)?.checked_add(u64::from(digit - b'0'))?;
    }
    Some(sum)
}

/// The number above 0 that the bytes spell, if they do.
fn plain_number(text: &[u8]) -> Option<u64>
    ensures { IfSome result (λ n. text.now ≡ decimal n) }
{
    match text {
        [first @ b'1'..=b'9', rest @ ..] => with_digits(u64::from(*first - b'0'), rest),
        _ => None,
    }
}

/// The number that the bytes spell.
fn whole_number(text: &[u8]) -> Option<u64>
    ensures found { IfSome result (λ n. text.now ≡ decimal n) }
    ensures none { IfNone result ((n : ℕ) → n < 2 ^ 64 → text.now ≢ decimal n) }
{
    match plain_number(text) {
        Some(n) => Some(n),
        None => number(text),
    }
}

/// The signed number that the bytes spell.
pub fn int_of(text: &[u8]) -> Option<i64>
    ensures found { IfSome result (λ z. text.now ≡ signed_decimal z) }
    ensures none { IfNone result ((z : ℤ) → FitsSigned w64 z → text.now ≢ signed_decimal z) }
{
    if let Some(n) = plain_number(text) {
        if let Ok(z) = i64::try_from(n) {
            return Some(z);
        }
    }
    signed_number(text)
}

/// The parts of an amount without its sign.
fn amount_of(places: u8, text: &[u8]) -> Option<u64>
    ensures found { IfSome result (λ n. amount_text places n ≡ text.now) }
    ensures only { (n : ℕ) → n < 2 ^ 64 → amount_text places n ≡ text.now → result ≡ Some n }
{
    let tail = usize::from(places) + 1;
    if text.len() < tail {
        return None;
    }
    let end = text.len() - tail;
    if text[end] != b'.' {
        return None;
    }
    let whole = whole_number(&text[..end])?;
    let back = &text[end + 1..];
    let n = joined(whole, back);
    if whole_of(places, n) != whole {
        return None;
    }
    if has_digits(back, n) { Some(n) } else { None }
}

/// What comes after a minus.
fn after_minus(text: &[u8]) -> Option<&[u8]>
    ensures some { IfSome result (λ rest. text.now ≡ 45 ∷ rest.now) }
    ensures none { IfNone result ((rest : List ℕ) → text.now ≢ 45 ∷ rest) }
{
    text.strip_prefix(b"-")
}

/// The parts of an amount.
pub fn parts_of(places: u8, text: &[u8]) -> Option<i64>
    ensures found { IfSome result (λ z. decimal_text places z ≡ text.now) }
    ensures only { (z : ℤ) → FitsSigned w64 z → decimal_text places z ≡ text.now → result ≡ Some z }
{
    match after_minus(text) {
        Some(amount) => negated(amount_of(places, amount)?),
        None => signed(amount_of(places, text)?),
    }
}

/// A year.
fn year(n: u64) -> Option<i16>
    ensures { n < 2 ^ 15 → result ≡ Some (pos n) }
{
    i16::try_from(n).ok()
}

/// A month or a day.
fn part(n: u64) -> Option<i8>
    ensures { n < 2 ^ 7 → result ≡ Some (pos n) }
{
    i8::try_from(n).ok()
}

/// The number of four digits.
fn year_of(text: &[u8]) -> Option<i16>
    ensures { (n : ℕ) → n < 10000 → text.now ≡ digits_text 4 n → result ≡ Some (pos n) }
{
    year(joined(0, text))
}

/// The number of two digits.
fn part_of(text: &[u8]) -> Option<i8>
    ensures { (n : ℕ) → n < 100 → text.now ≡ digits_text 2 n → result ≡ Some (pos n) }
{
    part(joined(0, text))
}

/// Whether four bytes are the last four digits of a number.
#[inline(always)]
fn are_four_digits(bytes: [u8; 4], n: u64) -> bool
    ensures { IsTrue result ↔ (bytes ≡ digits_text 4 n) }
{
    let [a, b, c, d] = bytes;
    are_digits(a, b, n / 10 / 10) && are_digits(c, d, n)
}

/// Whether a text is of that year, month and day.
fn is_day(text: &[u8], year: u64, month: u64, day: u64) -> bool
    ensures { IsTrue result ↔ (text.now ≡ digits_text 4 year ++ 45 ∷ (digits_text 2 month ++ 45 ∷ digits_text 2 day)) }
{
    match text {
        [a, b, c, d, b'-', e, f, b'-', g, h] => {
            are_four_digits([*a, *b, *c, *d], year)
                && are_digits(*e, *f, month)
                && are_digits(*g, *h, day)
        }
        _ => false,
    }
}

/// Whether a text is that date.
fn is_civil(text: &[u8], date: Date) -> bool
    ensures { IsTrue result ↔ (date_text date.year date.month date.day ≡ Some text.now) }
{
    match u64::try_from(date.year) {
        Ok(year) => is_day(text, year, u64::from(date.month), u64::from(date.day)),
        Err(_) => false,
    }
}

/// The day of a text `YYYY-MM-DD`, if it is one.
pub fn day_of(text: &[u8]) -> Option<i64>
    ensures found { IfSome result (λ z. IsDateText z text.now) }
    ensures only { (z : ℤ) → IsDateText z text.now → result ≡ Some z }
{
    if text.len() != 10 {
        return None;
    }
    let Some(year) = year_of(&text[..4]) else {
        return None;
    };
    let Some(month) = part_of(&text[5..7]) else {
        return None;
    };
    let Some(day) = part_of(&text[8..]) else {
        return None;
    };
    let Ok(date) = Date::new(year, month, day) else {
        return None;
    };
    if is_civil(text, date) {
        Some(i64::from(date.to_unix_epoch_day()))
    } else {
        None
    }
}
