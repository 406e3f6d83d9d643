//! The program's own call over texts that are given, with readers and writers that may fail. Every test of a command line goes through `end_of`.

use collector::Watched;
use console::{Sources, Streams, Telling, Transcripts, Watcher, answer};
use std::alloc::Global;
use std::io;
use std::io::{ErrorKind, Read, Write};
use std::sync::Wait;
use std::thread::Threads;

/// More reads, and more bytes, than a test needs.
const MANY: usize = 1_000_000;

/// A reader that gives a text, at most three bytes at a time, and fails after that many reads.
#[derive(Drop)]
pub struct Slow<'a> {
    text: &'a [u8],
    left: usize,
}

impl<'a> Read for Slow<'a> {
    fn read(&mut self, buf: &mut [u8]) -> io::Result<usize> {
        if self.left == 0 {
            return Err(io::Error::from(ErrorKind::Other));
        }
        self.left -= 1;
        let count = self.text.len().min(buf.len()).min(3);
        let (front, back) = self.text.split_at(count);
        for (to, from) in buf.iter_mut().zip(front) {
            *to = *from;
        }
        self.text = back;
        Ok(count)
    }
}

/// How many bytes a writer takes. Beyond that it fails, or takes none. It may hold back what it took, and fail where it is asked to hand that on.
#[derive(Clone, Copy)]
pub struct Room {
    pub bytes: usize,
    pub fails: bool,
    pub holds: bool,
}

impl Room {
    /// Room for that many bytes; beyond that the writer fails.
    pub fn of(bytes: usize) -> Room {
        Room {
            bytes,
            fails: true,
            holds: false,
        }
    }

    /// Room for all that is written.
    pub fn ample() -> Room {
        Room::of(MANY)
    }
}

/// A writer that takes two bytes at a time while it has room.
#[derive(Drop)]
pub struct Full {
    room: Room,
    written: Vec<u8>,
}

impl Write for Full {
    fn write(&mut self, buf: &[u8]) -> io::Result<usize> {
        if self.room.bytes == 0 && self.room.fails {
            return Err(io::Error::from(ErrorKind::Other));
        }
        let count = buf.len().min(2).min(self.room.bytes);
        self.written.extend_from_slice(&buf[..count])?;
        self.room.bytes -= count;
        Ok(count)
    }

    fn flush(&mut self) -> io::Result<()> {
        if self.room.holds {
            return Err(io::Error::from(ErrorKind::Other));
        }
        Ok(())
    }
}

fn writer(alloc: Global, room: Room) -> Full {
    Full {
        room,
        written: Vec::new(alloc),
    }
}

/// The texts of a command line: the query is named `q`, and any other name is the other text. Each reader fails after a number of reads.
#[derive(Clone, Copy)]
pub struct Shelf<'a> {
    pub query: &'a [u8],
    pub other: &'a [u8],
    pub query_reads: usize,
    pub other_reads: usize,
}

impl<'a> Shelf<'a> {
    /// Texts whose readers don't fail.
    pub fn of(query: &'a [u8], other: &'a [u8]) -> Shelf<'a> {
        Shelf {
            query,
            other,
            query_reads: MANY,
            other_reads: MANY,
        }
    }
}

impl<'a> Sources<'a> for Shelf<'a> {
    type Reader = Slow<'a>;

    fn open(&self, name: &'a str) -> Slow<'a> {
        if name == "q" {
            Slow {
                text: self.query,
                left: self.query_reads,
            }
        } else {
            Slow {
                text: self.other,
                left: self.other_reads,
            }
        }
    }
}

/// The rooms of standard output, of standard error and of what `--watch` tells, and how that is told.
#[derive(Clone, Copy)]
pub struct Rooms {
    pub out: Room,
    pub err: Room,
    pub told: Room,
    pub telling: Telling,
}

impl Rooms {
    /// Room for all that is written.
    pub fn ample() -> Rooms {
        Rooms {
            out: Room::ample(),
            err: Room::ample(),
            told: Room::ample(),
            telling: Telling::Lines,
        }
    }
}

/// How a command line ends: its status, and what was written to standard output, to standard error and to the watcher.
#[derive(Drop)]
pub struct Ended {
    pub status: u8,
    pub out: Vec<u8>,
    pub err: Vec<u8>,
    pub told: Vec<u8>,
}

impl Ended {
    /// Whether it ended with this status, and wrote this to standard output and that to standard error.
    pub fn is(&self, status: u8, out: &[u8], err: &[u8]) -> bool {
        self.status == status && self.out.as_slice() == out && self.err.as_slice() == err
    }
}

/// How a command line ends over these texts, where the writers have that much room.
pub fn end_of<'a, R: Threads + Wait + Sync>(
    rt: &R,
    alloc: Global,
    words: &'a [&'a str],
    shelf: Shelf<'a>,
    rooms: Rooms,
) -> Ended {
    let mut streams = Streams {
        out: Watched::new(writer(alloc, rooms.out)),
        err: writer(alloc, rooms.err),
        watcher: Some(Watcher {
            writer: writer(alloc, rooms.told),
            telling: rooms.telling,
        }),
    };
    let mut transcripts = Transcripts::new();
    let status = answer(rt, alloc, &shelf, words, &mut streams, &mut transcripts);
    let Streams { out, err, watcher } = streams;
    Ended {
        status,
        out: out.into_inner().written,
        err: err.written,
        told: match watcher {
            Some(watcher) => watcher.writer.written,
            None => Vec::new(alloc),
        },
    }
}
