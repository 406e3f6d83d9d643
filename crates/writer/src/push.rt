//! Bytes at the end of a vector.

ghost use Rattle.std.specs.Prelude.{◌≡◌, ◌++◌, ◌∷◌, OnOk, OnErr, decimal};
ghost use Rattle.writer.specs.Pieces.{Extends, text_of};
ghost use Rattle.writer.specs.Scalars.{literal};

use itoa::Buffer;
use std::alloc::AllocError;

/// Appends bytes.
pub fn push(out: &mut Vec<u8>, bytes: &[u8]) -> Result<(), AllocError>
    ensures ok { OnOk result (out.new.items ≡ out.old.items ++ bytes.now) }
    ensures err { OnErr result (Extends out.old.items out.new.items) }
{
    out.extend_from_slice(bytes)
}

/// Appends a number.
pub fn push_number(out: &mut Vec<u8>, number: u64) -> Result<(), AllocError>
    ensures ok { OnOk result (out.new.items ≡ out.old.items ++ decimal number) }
    ensures err { OnErr result (Extends out.old.items out.new.items) }
{
    let mut buffer = Buffer::new();
    out.extend_from_slice(buffer.format(number).as_bytes())
}

/// Appends a column by its number.
pub fn push_column(out: &mut Vec<u8>, index: u64) -> Result<(), AllocError>
    ensures ok { OnOk result (out.new.items ≡ out.old.items ++ 35 ∷ decimal index) }
    ensures err { OnErr result (Extends out.old.items out.new.items) }
{
    push(out, b"#")?;
    push_number(out, index)
}

/// Appends a literal.
pub fn push_literal(out: &mut Vec<u8>, number: &i64) -> Result<(), AllocError>
    ensures ok { OnOk result (out.new.items ≡ out.old.items ++ text_of (literal number.now)) }
    ensures err { OnErr result (Extends out.old.items out.new.items) }
{
    let mut buffer = Buffer::new();
    out.extend_from_slice(buffer.format(*number).as_bytes())
}
