//! Splits bytes at a byte.

ghost use Rattle.std.specs.Prelude.{◌≡◌, ◌≢◌, ◌<◌, ℕ, length, slice_index, take, drop, ◌+◌, IfSome, IfNone};

/// The first place of a byte.
pub fn find(bytes: &[u8], byte: u8) -> Option<usize>
    ensures found { IfSome result (λ i. (i < length bytes.now) × (slice_index bytes.now i ≡ byte) × ((k : ℕ) → k < i → slice_index bytes.now k ≢ byte)) }
    ensures none { IfNone result ((k : ℕ) → k < length bytes.now → slice_index bytes.now k ≢ byte) }
{
    for (i, b) in bytes.iter().enumerate() {
        if *b == byte {
            return Some(i);
        }
    }
    None
}

/// The bytes before a place, and those after it.
pub fn around(bytes: &[u8], at: usize) -> (&[u8], &[u8])
    requires { at < length bytes.now }
    ensures before { result.0.now ≡ take at bytes.now }
    ensures after { result.1.now ≡ drop (at + 1) bytes.now }
    ensures shorter { length result.1.now < length bytes.now }
{
    let (before, _) = bytes.split_at(at);
    let (_, after) = bytes.split_at(at + 1);
    (before, after)
}
