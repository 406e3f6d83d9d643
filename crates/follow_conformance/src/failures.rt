//! Following while each read, each write and each flush fails in turn, with answers worked out by hand.

use crate::inputs::{AUDIENCE, Slow, ended_by, graph_of};
use collector::Watched;
use follow::Ending;
use std::alloc::{AllocError, Global};
use std::io;
use std::io::{ErrorKind, Read, Write};
use std::test::Fail;
use std::thread::Threads;

/// The lines of an input, each with what is written once it has been read.
const LINES: [(&str, &str); 8] = [
    ("epoch\n", ""),
    ("buyer 7\n", "0 7\n"),
    ("reader 9\n", "0 9\n"),
    ("epoch\n", "complete 0\n"),
    ("buyer 7\n", "1 7\n"),
    ("reader 7\n", ""),
    ("epoch\n", "complete 1\n"),
    ("reader 5\n", "2 5\n"),
];

/// What the end of the input adds.
const LAST: &str = "complete 2\n";

/// A writer that takes at most `most` bytes at a time. After `writes` writes, or `flushes` flushes, one of them fails, or takes nothing; those
/// after it succeed again.
#[derive(Drop)]
struct Failing {
    most: usize,
    writes: usize,
    flushes: usize,
    fails: bool,
    written: Vec<u8>,
}

impl Write for Failing {
    fn write(&mut self, buf: &[u8]) -> io::Result<usize> {
        let is_last = self.writes == 0;
        self.writes = self.writes.wrapping_sub(1);
        if is_last && self.fails {
            return Err(io::Error::from(ErrorKind::Other));
        }
        let count = if is_last { 0 } else { buf.len().min(self.most) };
        self.written.extend_from_slice(&buf[..count])?;
        Ok(count)
    }

    fn flush(&mut self) -> io::Result<()> {
        let is_last = self.flushes == 0;
        self.flushes = self.flushes.wrapping_sub(1);
        if is_last {
            return Err(io::Error::from(ErrorKind::Other));
        }
        Ok(())
    }
}

/// A writer whose calls all succeed, and that takes a byte at a time.
fn sound(alloc: Global) -> Failing {
    Failing {
        most: 1,
        writes: usize::MAX,
        flushes: usize::MAX,
        fails: true,
        written: Vec::new(alloc),
    }
}

/// The input.
fn input(alloc: Global) -> Result<Vec<u8>, AllocError> {
    let mut text = Vec::new(alloc);
    for (line, _answer) in LINES {
        text.extend_from_slice(line.as_bytes())?;
    }
    Ok(text)
}

/// What is written for the lines that end within that many bytes of the input.
fn answer_to(alloc: Global, bytes: usize) -> Result<Vec<u8>, AllocError> {
    let mut text = Vec::new(alloc);
    let mut end = 0usize;
    for (line, answer) in LINES {
        end = end.saturating_add(line.len());
        if end <= bytes {
            text.extend_from_slice(answer.as_bytes())?;
        }
    }
    Ok(text)
}

/// What is written for the whole input.
fn whole(alloc: Global) -> Result<Vec<u8>, AllocError> {
    let mut text = answer_to(alloc, usize::MAX)?;
    text.extend_from_slice(LAST.as_bytes())?;
    Ok(text)
}

/// How following ends, and what is written, if the reader gives at most `most` bytes at a time and fails after `reads` reads.
fn followed(
    threads: &(impl Threads + Sync),
    alloc: Global,
    most: usize,
    reads: usize,
    writer: Failing,
) -> Result<(Result<(), Ending>, Vec<u8>), Fail> {
    let graph = graph_of(alloc, AUDIENCE).ok_or("no graph")?;
    let text = input(alloc)?;
    let mut reader = Watched::new(Slow {
        text: text.as_slice(),
        most,
        left: reads,
    });
    let mut out = Watched::new(writer);
    let ended = ended_by(threads, alloc, 1, graph, &mut reader, &mut out);
    Ok((ended, out.into_inner().written))
}

// A byte is read and a byte is written at a time.
#[test]
fn each_write_fails(rt: HostRuntime) -> Result<(), Fail> {
    let whole = whole(rt.alloc())?;
    for fails in [false, true] {
        for writes in 0..whole.len() {
            let writer = Failing {
                writes,
                fails,
                ..sound(rt.alloc())
            };
            let (ended, text) = followed(&rt, rt.alloc(), 1, usize::MAX, writer)?;
            assert_eq!(rt; ended, Err(Ending::Write));
            assert_eq!(rt; text.as_slice(), &whole[..writes]);
        }
        let writer = Failing {
            writes: whole.len(),
            fails,
            ..sound(rt.alloc())
        };
        let (ended, text) = followed(&rt, rt.alloc(), 1, usize::MAX, writer)?;
        assert_eq!(rt; ended, Ok(()));
        assert_eq!(rt; text.as_slice(), whole.as_slice());
    }
    Ok(())
}

// The whole input comes at once: a text of all lines, and one of its end.
#[test]
fn each_large_write_fails(rt: HostRuntime) -> Result<(), Fail> {
    let lines = answer_to(rt.alloc(), usize::MAX)?;
    for fails in [false, true] {
        for (writes, wanted) in [b"".as_slice(), lines.as_slice()].iter().enumerate() {
            let writer = Failing {
                most: 1000,
                writes,
                fails,
                ..sound(rt.alloc())
            };
            let (ended, text) = followed(&rt, rt.alloc(), 1000, usize::MAX, writer)?;
            assert_eq!(rt; ended, Err(Ending::Write));
            assert_eq!(rt; text.as_slice(), *wanted);
        }
    }
    Ok(())
}

// What is written for each line is flushed, also where it is nothing, and so is what is written at the end.
#[test]
fn each_flush_fails(rt: HostRuntime) -> Result<(), Fail> {
    let whole = whole(rt.alloc())?;
    let mut end = 0usize;
    for (flushes, (line, _answer)) in LINES.iter().enumerate() {
        end = end.saturating_add(line.len());
        let writer = Failing {
            flushes,
            ..sound(rt.alloc())
        };
        let (ended, text) = followed(&rt, rt.alloc(), 1, usize::MAX, writer)?;
        assert_eq!(rt; ended, Err(Ending::Write));
        assert_eq!(rt; text.as_slice(), answer_to(rt.alloc(), end)?.as_slice());
    }
    for (flushes, wanted) in [(8, Err(Ending::Write)), (9, Ok(()))] {
        let writer = Failing {
            flushes,
            ..sound(rt.alloc())
        };
        let (ended, text) = followed(&rt, rt.alloc(), 1, usize::MAX, writer)?;
        assert_eq!(rt; ended, wanted);
        assert_eq!(rt; text.as_slice(), whole.as_slice());
    }
    Ok(())
}

// After that many reads of one byte, the answer to the lines that end in these bytes has been written.
#[test]
fn each_read_fails(rt: HostRuntime) -> Result<(), Fail> {
    let bytes = input(rt.alloc())?.len();
    for reads in 0..bytes.saturating_add(1) {
        let (ended, text) = followed(&rt, rt.alloc(), 1, reads, sound(rt.alloc()))?;
        assert_eq!(rt; ended, Err(Ending::Read));
        assert_eq!(rt; text.as_slice(), answer_to(rt.alloc(), reads)?.as_slice());
    }
    let (ended, text) = followed(
        &rt,
        rt.alloc(),
        1,
        bytes.saturating_add(1),
        sound(rt.alloc()),
    )?;
    assert_eq!(rt; ended, Ok(()));
    assert_eq!(rt; text.as_slice(), whole(rt.alloc())?.as_slice());
    Ok(())
}

// The same where several bytes come at a time, also a line and a piece of the next.
#[test]
fn each_large_read_fails(rt: HostRuntime) -> Result<(), Fail> {
    let bytes = input(rt.alloc())?.len();
    for most in [2, 7, 20, 1000] {
        for reads in 0..bytes {
            let (ended, text) = followed(&rt, rt.alloc(), most, reads, sound(rt.alloc()))?;
            let given = reads.saturating_mul(most);
            if given < bytes.saturating_add(most) {
                assert_eq!(rt; ended, Err(Ending::Read));
                assert_eq!(rt; text.as_slice(), answer_to(rt.alloc(), given)?.as_slice());
            } else {
                assert_eq!(rt; ended, Ok(()));
                assert_eq!(rt; text.as_slice(), whole(rt.alloc())?.as_slice());
            }
        }
    }
    Ok(())
}
