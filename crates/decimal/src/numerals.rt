//! Reads numbers.

ghost use Rattle.std.specs.Prelude.{◌≡◌, ◌≢◌, ◌<◌, ◌^◌, ◌≤◌, ◌↔◌, ℕ, ℤ, slice_index, FitsSigned, IfSome, IfNone, IsTrue, decimal};
ghost use Rattle.decimal.specs.Numerals.{MayBegin, MayBeginSigned};
ghost use Rattle.std.specs.Fmt.{signed_decimal};
ghost use Rattle.std.specs.Int.{w64};

/// The number that the bytes spell: `0`, or a digit from `1` on and further digits. `None` exactly if they don't spell a number in range.
pub fn number(text: &[u8]) -> Option<u64>
    ensures found { IfSome result (λ n. text.now ≡ decimal n) }
    ensures none { IfNone result ((n : ℕ) → n < 2 ^ 64 → text.now ≢ decimal n) }
{
    if !may_begin(text) {
        return None;
    }
    let Ok(word) = str::from_utf8(text) else {
        return None;
    };
    let Ok(number) = word.parse::<u64>() else {
        return None;
    };
    Some(number)
}

/// The signed number that the bytes spell: `0`, or an optional `-`, a digit from `1` on and further digits. `None` exactly if they don't spell a
/// number in range.
pub fn signed_number(text: &[u8]) -> Option<i64>
    ensures found { IfSome result (λ z. text.now ≡ signed_decimal z) }
    ensures none { IfNone result ((z : ℤ) → FitsSigned w64 z → text.now ≢ signed_decimal z) }
{
    if !may_begin_signed(text) {
        return None;
    }
    let Ok(word) = str::from_utf8(text) else {
        return None;
    };
    let Ok(number) = word.parse::<i64>() else {
        return None;
    };
    Some(number)
}

/// Whether a digit comes first, and nothing follows a leading zero.
fn may_begin(text: &[u8]) -> bool
    ensures { IsTrue result ↔ MayBegin text.now }
{
    let Some((first, rest)) = text.split_first() else {
        return false;
    };
    match first {
        b'0' => rest.is_empty(),
        b'1'..=b'9' => true,
        _ => false,
    }
}

/// The same, or a `-` with a digit from `1` on after it.
fn may_begin_signed(text: &[u8]) -> bool
    ensures { IsTrue result ↔ MayBeginSigned text.now }
{
    let Some((first, rest)) = text.split_first() else {
        return false;
    };
    if *first == b'-' {
        begins_above_zero(rest)
    } else {
        may_begin(text)
    }
}

/// Whether a digit from `1` on comes first.
fn begins_above_zero(text: &[u8]) -> bool
    ensures { IsTrue result ↔ ((48 < slice_index text.now 0) × (slice_index text.now 0 ≤ 57)) }
{
    match text.split_first() {
        None => false,
        Some((first, _)) => matches!(first, b'1'..=b'9'),
    }
}
