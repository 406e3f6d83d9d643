//! Readers and writers that remember whether they failed, and what readers have handed over.
//!
//! A fault may say "cannot read" or "cannot write" only if the reader or the writer really failed. They fail only in `pull`, `push` and `settle`,
//! which set a mark, so a caller that reports such a fault can prove it by the mark. Of a reader there is also, for proofs alone, what `pull` has
//! handed over, and a mark that the last one said that this is all: so what was read can be named also of a reader whose bytes nobody knows.

ghost use Rattle.std.specs.Prelude.{◌≡◌, ◌<◌, ◌≤◌, ◌++◌, [], false, true, length, take, IfOk, IfSome, IfNone, OnSome, OnOk, OnErr};
ghost use Rattle.std.specs.Io.{ReadsAtMost};
ghost use Rattle.std.specs.Io.KnownBytes.{Appends, IsAtEnd, Keeps, ReadConsumes};
ghost use Rattle.collector.specs.Watching.{handed, has_ended, has_failed, inner_of};

use crate::trace::Trace;
use std::io;
use std::io::{ErrorKind, Read, Write};

/// A reader or a writer, what `pull` handed over, and whether a call on it failed.
#[derive(Drop)]
pub struct Watched<T> {
    inner: T,
    failed: bool,
    ended: bool,
    trace: Trace,
    reason: Option<ErrorKind>,
}

impl<T> Watched<T> {
    /// Watches a reader or a writer that hasn't failed yet.
    pub fn new(inner: T) -> Watched<T>
        ensures inner { inner_of result ≡ inner }
        ensures fresh { has_failed result ≡ false }
        ensures none { handed result ≡ [] }
        ensures going { has_ended result ≡ false }
    {
        Watched {
            inner,
            failed: false,
            ended: false,
            trace: Trace::new(),
            reason: None,
        }
    }

    /// The system's reason for the last read that failed.
    pub fn reason(&self) -> Option<ErrorKind> {
        self.reason
    }

    /// The reader or the writer itself.
    pub fn into_inner(self) -> T
        ensures { result ≡ inner_of self }
    {
        self.inner
    }
}

impl<T: Drop> Watched<T> {
    /// What was handed over, and whether that is all. The reader is dropped.
    pub(crate) fn into_trace(self) -> (Trace, bool)
        ensures trace { result.0.items ≡ handed self }
        ensures ended { result.1 ≡ has_ended self }
    {
        (self.trace, self.ended)
    }
}

impl<R: Read> Watched<R> {
    /// Reads once into the piece, and gives the number of bytes, which is 0 only at the end or for an empty piece. The reader has failed exactly if
    /// the answer is an error.
    pub fn pull(&mut self, piece: &mut [u8]) -> io::Result<usize>
        ensures bound { ReadsAtMost result piece.new }
        ensures bytes { ReadConsumes (R.remaining (inner_of self.old)) (R.remaining (inner_of self.new)) result piece.new }
        ensures last { OnOk result (has_ended self.new ≡ true → IsAtEnd (R.remaining (inner_of self.new))) }
        ensures handed { IfOk result (λ n. handed self.new ≡ handed self.old ++ take n piece.new) }
        ensures ended { IfOk result (λ n. n ≡ 0 → 0 < length piece.old → has_ended self.new ≡ true) }
        ensures none { OnErr result (handed self.new ≡ handed self.old) }
        ensures ok { OnOk result (has_failed self.new ≡ has_failed self.old) }
        ensures err { OnErr result (has_failed self.new ≡ true) }
    {
        match self.inner.read(piece) {
            Ok(count) => {
                self.trace.add(&piece[..count]);
                self.ended = count == 0 && !piece.is_empty();
                Ok(count)
            }
            Err(error) => {
                self.failed = true;
                self.reason = Some(error.kind());
                Err(error)
            }
        }
    }
}

impl<W: Write> Watched<W> {
    /// Writes a beginning of the piece once, and gives the number of bytes taken, at least 1. `None` if the writer gave an error or took no byte;
    /// only then has it failed.
    pub fn push(&mut self, piece: &[u8]) -> Option<usize>
        requires { 0 < length piece.now }
        ensures some { IfSome result (λ n. (0 < n) × (n ≤ length piece.now)) }
        ensures bytes { IfSome result (λ n. Appends (W.contents (inner_of self.old)) (W.contents (inner_of self.new)) (take n piece.now)) }
        ensures ok { OnSome result (has_failed self.new ≡ has_failed self.old) }
        ensures err { IfNone result (has_failed self.new ≡ true) }
        ensures kept { IfNone result (Keeps (W.contents (inner_of self.old)) (W.contents (inner_of self.new))) }
    {
        match self.inner.write(piece) {
            Ok(0) | Err(_) => {
                self.failed = true;
                None
            }
            Ok(count) => Some(count),
        }
    }

    /// Flushes the writer. `false` if that failed; only then has the writer failed.
    pub fn settle(&mut self) -> bool
        ensures bytes { Keeps (W.contents (inner_of self.old)) (W.contents (inner_of self.new)) }
        ensures ok { result ≡ true → has_failed self.new ≡ has_failed self.old }
        ensures err { result ≡ false → has_failed self.new ≡ true }
    {
        if self.inner.flush().is_err() {
            self.failed = true;
            return false;
        }
        true
    }
}
