//! Writers that record what they took.
//!
//! The bytes that a file or a pipe holds nobody knows. Those that it took are known: of a `Recorded` they are its `contents`. So what is proved of
//! the contents of any writer is proved, at a recorded one, of the bytes that went out.

ghost use Rattle.std.specs.Prelude.{◌≡◌, Some, []};
ghost use Rattle.std.specs.Io.{WritesAtMost};
ghost use Rattle.std.specs.Io.KnownBytes.{WriteAppends};
ghost use Rattle.collector.specs.Recording.{taken, writer_of};

use crate::trace::Trace;
use std::io;
use std::io::Write;

/// A writer, and for proofs alone the bytes that it took.
#[derive(Drop)]
pub struct Recorded<W> {
    inner: W,
    trace: Trace,
}

impl<W> Recorded<W> {
    pub fn new(inner: W) -> Recorded<W>
        ensures { taken result ≡ [] }
    {
        Recorded {
            inner,
            trace: Trace::new(),
        }
    }
}

impl<W: Write> Recorded<W> {
    /// Writes a beginning of the bytes, as the writer itself does.
    fn write_recorded(&mut self, bytes: &[u8]) -> io::Result<usize>
        ensures bound { WritesAtMost result bytes.now }
        ensures written { WriteAppends (W.contents (writer_of self.old)) (W.contents (writer_of self.new)) result bytes.now }
        ensures recorded { WriteAppends (Some (taken self.old)) (Some (taken self.new)) result bytes.now }
    {
        let count = self.inner.write(bytes)?;
        self.trace.add(&bytes[..count]);
        Ok(count)
    }
}

impl<W: Write> Write for Recorded<W> {
    ghost contents = { λ w. Some (taken w) };

    fn write(&mut self, buf: &[u8]) -> io::Result<usize> {
        self.write_recorded(buf)
    }

    fn flush(&mut self) -> io::Result<()> {
        self.inner.flush()
    }
}
