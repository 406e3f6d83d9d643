//! An epoch's number in its answer.

ghost use Rattle.std.specs.Prelude.{IfOk};
ghost use Rattle.table_epochs.specs.Followed.{IsNumberedAs};

use itoa::Buffer;
use std::alloc::{AllocError, Global};

/// How an answer begins that has an epoch.
const FIRST: &[u8] = b"epoch 0\n";

/// The answer to one epoch by itself, with the number of that epoch in the place of 0.
pub fn numbered(alloc: Global, number: u64, answer: &[u8]) -> Result<Vec<u8>, AllocError>
    ensures { IfOk result (λ text. IsNumberedAs number answer.now text.items) }
{
    let Some(rest) = answer.strip_prefix(FIRST) else {
        return Vec::from_slice(alloc, answer);
    };
    let mut text = Vec::new(alloc);
    let mut buffer = Buffer::new();
    text.extend_from_slice(b"epoch ")?;
    text.extend_from_slice(buffer.format(number).as_bytes())?;
    text.extend_from_slice(b"\n")?;
    text.extend_from_slice(rest)?;
    Ok(text)
}
