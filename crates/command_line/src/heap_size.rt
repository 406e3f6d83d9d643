//! How large a heap a command line asks for.

ghost use Rattle.std.specs.Prelude.{◌≡◌, ◌≤◌, IfNone, IfSome};

/// The size of a heap in bytes, 64 to 16777216.
#[derive(Clone, Copy)]
pub struct HeapSize {
    bytes: u32,
    ghost least: { 64 ≤ bytes },
    ghost most: { bytes ≤ 16777216 },
}

impl HeapSize {
    /// That many bytes. None exactly where they aren't 64 to 16777216.
    pub fn new(bytes: u32) -> Option<HeapSize>
        ensures found { IfSome result (λ h. h.bytes ≡ bytes) }
        ensures none { IfNone result (64 ≤ bytes → bytes ≤ 16777216 → ⊥) }
    {
        if 64 <= bytes && bytes <= 16_777_216 {
            Some(HeapSize { bytes })
        } else {
            None
        }
    }

    /// The number of bytes.
    pub fn bytes(self) -> u32
        ensures { result ≡ self.bytes }
    {
        self.bytes
    }
}
