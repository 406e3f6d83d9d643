//! Cuts a text into parts that can be read side by side.

ghost use Rattle.std.specs.Prelude.{◌≡◌, map, IfOk};
ghost use Rattle.collector.specs.Parts.{together};

use crate::splitting::find;
use std::alloc::{AllocError, Global};

/// Cuts a text into at most `count` parts of about one length, each of which ends with a line feed if the text does. That they end with one, and
/// their lengths, save time alone.
pub fn cut_lines<'a>(
    alloc: Global,
    text: &'a [u8],
    count: usize,
) -> Result<Vec<&'a [u8]>, AllocError>
    ensures { IfOk result (λ parts. together (map (λ r. r.now) parts.items) ≡ text.entry.now) }
{
    let mut parts = Vec::new(alloc);
    let size = text.len() / count.max(1);
    let mut rest = text;
    for _part in 1..count {
        if rest.len() <= size {
            break;
        }
        let (_, later) = rest.split_at(size);
        let Some(end) = find(later, b'\n') else {
            break;
        };
        let (part, after) = rest.split_at(size + end + 1);
        parts.push(part)?;
        rest = after;
    }
    parts.push(rest)?;
    Ok(parts)
}
