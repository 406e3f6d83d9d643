//! Reads all that a reader gives, or a limited number of bytes.

ghost use Rattle.std.specs.Prelude.{◌≡◌, ◌⊎◌, true, length, take, IfOk, IfSome, IsErrOf, OnErr};
ghost use Rattle.collector.specs.Watching.{Hands, HandsAll, HandsSome, has_ended, has_failed, inner_of};
ghost use Rattle.collector.specs.declared.bytes.ReadFault.TheVariants.{Failed};

use crate::watched::Watched;
use std::alloc::Global;
use std::io::Read;
use thiserror::Error;

/// The reason why nothing was read.
#[derive(Clone, Copy, Debug, PartialEq, Eq, Error)]
pub enum ReadFault {
    #[error("out of memory")]
    NoMemory,
    /// The reader failed in this call.
    #[error("cannot read")]
    Failed,
}

/// Reads everything that the reader gives.
pub fn read_all<R: Read>(alloc: Global, reader: &mut Watched<R>) -> Result<Vec<u8>, ReadFault>
    ensures bytes { IfOk result (λ v. IfSome (R.remaining (inner_of reader.old)) (λ xs. v.items ≡ xs)) }
    ensures all { IfOk result (λ v. HandsAll reader.old reader.new v.items) }
    ensures part { OnErr result (HandsSome reader.old reader.new) }
    ensures failed { IsErrOf result Failed → has_failed reader.new ≡ true }
{
    let mut bytes = Vec::new(alloc);
    let mut piece = [0; 65536];
    'pieces: loop {
        let Ok(count) = reader.pull(&mut piece) else {
            return Err(ReadFault::Failed);
        };
        if count == 0 {
            return Ok(bytes);
        }
        if bytes.extend_from_slice(&piece[..count]).is_err() {
            return Err(ReadFault::NoMemory);
        }
    }
}

/// Reads the first bytes that the reader gives, at most `limit` of them, and asks for none beyond.
pub fn read_at_most<R: Read>(
    alloc: Global,
    limit: usize,
    reader: &mut Watched<R>,
) -> Result<Vec<u8>, ReadFault>
    ensures bytes { IfOk result (λ v. IfSome (R.remaining (inner_of reader.old)) (λ xs. v.items ≡ take limit xs)) }
    ensures hands { IfOk result (λ v. Hands reader.old reader.new v.items) }
    ensures whole { IfOk result (λ v. (has_ended reader.new ≡ true) ⊎ (length v.items ≡ limit)) }
    ensures part { OnErr result (HandsSome reader.old reader.new) }
    ensures failed { IsErrOf result Failed → has_failed reader.new ≡ true }
{
    let mut bytes = Vec::new(alloc);
    let mut piece = [0; 4096];
    'pieces: while bytes.len() < limit {
        let room = (limit - bytes.len()).min(4096);
        let Ok(count) = reader.pull(&mut piece[..room]) else {
            return Err(ReadFault::Failed);
        };
        if count == 0 {
            return Ok(bytes);
        }
        if bytes.extend_from_slice(&piece[..count]).is_err() {
            return Err(ReadFault::NoMemory);
        }
    }
    Ok(bytes)
}
