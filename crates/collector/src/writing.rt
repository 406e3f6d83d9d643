//! Writes bytes whole, or a beginning of them, in pieces of whole lines.
//!
//! A pipe takes a piece of at most `PIPE_PIECE` bytes at once, all of it or nothing. So whoever reads from a pipe has whole lines, also if a signal ends
//! the program in between.

ghost use Rattle.std.specs.Prelude.{◌≡◌, ◌<◌, ◌≤◌, ◌⊎◌, length, take, true, IfNone, IfSome, OnErr, OnOk, OnSome};
ghost use Rattle.std.specs.Io.KnownBytes.{Appends, Keeps};
ghost use Rattle.collector.specs.Watching.{has_failed, inner_of};
ghost use Rattle.collector.specs.WrittenBytes.{AppendsFront, EndsLine};

use crate::splitting::find;
use crate::watched::Watched;
use std::io::Write;

/// The most bytes that a pipe takes at once, which POSIX calls `PIPE_BUF`; Linux has this one.
const PIPE_PIECE: usize = 4096;

/// The writer failed, or took no byte.
#[derive(Clone, Copy)]
pub struct Broken;

/// The end of the last line that ends within the first `limit` bytes; 0 if none does.
fn last_end(bytes: &[u8], limit: usize) -> usize
    requires { limit ≤ length bytes.now }
    ensures within { result ≤ limit }
    ensures line { 0 < result → EndsLine bytes.now result }
{
    let mut end = limit;
    while 0 < end {
        if bytes[end - 1] == b'\n' {
            return end;
        }
        end -= 1;
    }
    end
}

/// The end of the first line that ends beyond the first `limit` bytes; all bytes if none does.
fn next_end(bytes: &[u8], limit: usize) -> usize
    requires { limit ≤ length bytes.now }
    ensures beyond { limit ≤ result }
    ensures within { result ≤ length bytes.now }
    ensures line { (result ≡ length bytes.now) ⊎ EndsLine bytes.now result }
{
    match find(&bytes[limit..], b'\n') {
        None => bytes.len(),
        Some(place) => limit + place + 1,
    }
}

/// How many of the bytes are written next: as many whole lines as `PIPE_PIECE` bytes have, a longer line by itself, or all, if they are few.
fn piece_len(bytes: &[u8]) -> usize
    requires { 0 < length bytes.now }
    ensures some { 0 < result }
    ensures within { result ≤ length bytes.now }
    ensures line { (result ≡ length bytes.now) ⊎ EndsLine bytes.now result }
{
    if bytes.len() <= PIPE_PIECE {
        return bytes.len();
    }
    match last_end(bytes, PIPE_PIECE) {
        0 => next_end(bytes, PIPE_PIECE),
        end => end,
    }
}

/// Writes a beginning of the bytes once, of their next piece alone, and gives the number of bytes taken. `None` if the writer failed.
fn push_piece<W: Write>(writer: &mut Watched<W>, bytes: &[u8]) -> Option<usize>
    requires { 0 < length bytes.now }
    ensures some { IfSome result (λ n. (0 < n) × (n ≤ length bytes.now)) }
    ensures bytes { IfSome result (λ n. Appends (W.contents (inner_of writer.old)) (W.contents (inner_of writer.new)) (take n bytes.now)) }
    ensures ok { OnSome result (has_failed writer.new ≡ has_failed writer.old) }
    ensures err { IfNone result (has_failed writer.new ≡ true) }
    ensures kept { IfNone result (Keeps (W.contents (inner_of writer.old)) (W.contents (inner_of writer.new))) }
{
    let end = piece_len(bytes);
    writer.push(&bytes[..end])
}

/// Writes the bytes, in pieces of whole lines. After an error the writer has failed in this call, and a beginning of the bytes was written.
pub fn put<W: Write>(writer: &mut Watched<W>, bytes: &[u8]) -> Result<(), Broken>
    ensures ok { OnOk result (Appends (W.contents (inner_of writer.old)) (W.contents (inner_of writer.new)) bytes.now) }
    ensures err { OnErr result (AppendsFront (W.contents (inner_of writer.old)) (W.contents (inner_of writer.new)) bytes.now) }
    ensures failed { OnErr result (has_failed writer.new ≡ true) }
    ensures fine { OnOk result (has_failed writer.new ≡ has_failed writer.old) }
{
    let mut at = 0;
    while at < bytes.len() {
        match push_piece(writer, &bytes[at..]) {
            None => return Err(Broken),
            Some(n) => at += n,
        }
    }
    if writer.settle() { Ok(()) } else { Err(Broken) }
}
