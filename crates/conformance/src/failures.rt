//! Commands whose readers and writers fail.

use crate::program::{Room, Rooms, Shelf, end_of};
use console::Fault;
use std::alloc::Global;
use std::sync::Wait;
use std::test::Fail;
use std::thread::Threads;

const QUERY: &[u8] = b"input a/1; output a;";

const INPUT: &[u8] = b"epoch\na 1\n";

/// How many reads take in the query to its end.
const QUERY_READS: usize = 8;

/// A command over the query and another text.
#[derive(Clone, Copy)]
struct Command {
    words: &'static [&'static str],
    other: &'static [u8],
    /// How many reads take in the other text to its end.
    reads: usize,
    /// What is written before the last of them is answered.
    early: &'static [u8],
    /// What is written before the first flush.
    held: &'static [u8],
    answer: &'static [u8],
}

const COMMANDS: [Command; 10] = [
    Command {
        words: &["loom", "run", "q", "i"],
        other: INPUT,
        reads: 5,
        early: b"",
        held: b"epoch 0\n1\n",
        answer: b"epoch 0\n1\n",
    },
    Command {
        words: &["loom", "run", "--workers", "2", "q", "i"],
        other: INPUT,
        reads: 5,
        early: b"",
        held: b"epoch 0\n1\n",
        answer: b"epoch 0\n1\n",
    },
    Command {
        words: &["loom", "run", "--end-mark", "q", "i"],
        other: b"epoch\na 1\nend\n",
        reads: 6,
        early: b"",
        held: b"epoch 0\n1\n",
        answer: b"epoch 0\n1\n",
    },
    Command {
        words: &["loom", "run", "q", "i"],
        other: b"",
        reads: 1,
        early: b"",
        held: b"",
        answer: b"",
    },
    Command {
        words: &["loom", "follow", "q", "i"],
        other: INPUT,
        reads: 5,
        early: b"0 1\n",
        held: b"",
        answer: b"0 1\ncomplete 0\n",
    },
    Command {
        words: &["loom", "check", "q"],
        other: b"",
        reads: 0,
        early: b"",
        held: b"input a/1\noutput 1\n",
        answer: b"input a/1\noutput 1\n",
    },
    Command {
        words: &["loom", "check", "q", "i"],
        other: INPUT,
        reads: 5,
        early: b"",
        held: b"input a/1\noutput 1\n",
        answer: b"input a/1\noutput 1\n",
    },
    Command {
        words: &["loom", "graph", "q"],
        other: b"",
        reads: 0,
        early: b"",
        held: b"0 input 0 <-\n1 output 0 <- 0.0\n",
        answer: b"0 input 0 <-\n1 output 0 <- 0.0\n",
    },
    Command {
        words: &["loom", "format", "q"],
        other: b"",
        reads: 0,
        early: b"",
        held: b"input a/1;\noutput a;\n",
        answer: b"input a/1;\noutput a;\n",
    },
    Command {
        words: &["loom", "replay", "q", "i"],
        other: b"p 0\n",
        reads: 3,
        early: b"",
        held: b"epoch 0 open\n",
        answer: b"epoch 0 open\n",
    },
];

/// Whether a command ends with status 6 and this line, or without the line where standard error is full, and by then has written these bytes.
fn is_failed<R: Threads + Wait + Sync>(
    rt: &R,
    alloc: Global,
    words: &[&str],
    shelf: Shelf<'_>,
    out: Room,
    written: &[u8],
    line: &[u8],
) -> bool {
    let rooms = Rooms {
        out,
        ..Rooms::ample()
    };
    let full = Rooms {
        err: Room::of(0),
        ..rooms
    };
    end_of(rt, alloc, words, shelf, rooms).is(6, written, line)
        && end_of(rt, alloc, words, shelf, full).is(6, written, b"")
}

/// Whether a command says so if any read of its query is refused, or of the other text.
fn reads_all<R: Threads + Wait + Sync>(rt: &R, alloc: Global, command: Command) -> bool {
    let Command { words, reads, .. } = command;
    let shelf = Shelf::of(QUERY, command.other);
    let room = Room::ample();
    for query_reads in 0..QUERY_READS {
        let cut = Shelf {
            query_reads,
            ..shelf
        };
        if !is_failed(rt, alloc, words, cut, room, b"", b"cannot read q\n") {
            return false;
        }
    }
    for other_reads in 0..reads {
        let cut = Shelf {
            other_reads,
            ..shelf
        };
        let is_last = other_reads + 1 == reads;
        let written = if is_last { command.early } else { b"" };
        if !is_failed(rt, alloc, words, cut, room, written, b"cannot read i\n") {
            return false;
        }
    }
    true
}

/// Whether a command says so if any write is refused or the first flush is, and else writes its answer, also where standard error is full.
fn writes_all<R: Threads + Wait + Sync>(rt: &R, alloc: Global, command: Command) -> bool {
    let Command { words, answer, .. } = command;
    let shelf = Shelf::of(QUERY, command.other);
    for bytes in 0..answer.len() {
        let room = Room::of(bytes);
        let taking_none = Room {
            fails: false,
            ..room
        };
        for room in [room, taking_none] {
            if !is_failed(
                rt,
                alloc,
                words,
                shelf,
                room,
                &answer[..bytes],
                b"cannot write\n",
            ) {
                return false;
            }
        }
    }
    let holding = Room {
        holds: true,
        ..Room::ample()
    };
    let rooms = Rooms {
        out: Room::of(answer.len()),
        err: Room::of(0),
        ..Rooms::ample()
    };
    is_failed(
        rt,
        alloc,
        words,
        shelf,
        holding,
        command.held,
        b"cannot write\n",
    ) && end_of(rt, alloc, words, shelf, rooms).is(0, answer, b"")
}

#[test]
fn commands_that_fail(rt: HostRuntime) {
    for command in COMMANDS {
        assert!(rt; reads_all(&rt, rt.alloc(), command));
        assert!(rt; writes_all(&rt, rt.alloc(), command));
    }
}

/// The line that checks a query.
const CHECKED: &[&str] = &["loom", "check", "--explain", "q"];

/// Whether the check of a query whose reader fails after that many reads ends so, without output.
fn is_checked<R: Threads + Wait + Sync>(
    rt: &R,
    alloc: Global,
    query: &[u8],
    query_reads: usize,
    status: u8,
    text: &str,
) -> bool {
    let shelf = Shelf {
        query_reads,
        ..Shelf::of(query, b"")
    };
    end_of(rt, alloc, CHECKED, shelf, Rooms::ample()).is(status, b"", text.as_bytes())
}

/// A query that is too long is read to one byte beyond the limit and no further, and no part of it is shown.
#[test]
fn a_query_that_is_too_long(rt: HostRuntime) -> Result<(), Fail> {
    let mut query = Vec::new(rt.alloc());
    query.resize(1_048_577, b';')?;
    let query = query.as_slice();
    let cut = "cannot read q\nq: the system can't read it\n";
    let whole = "query refused 6 at 1048576..1048576\nq: a text over 1,048,576 bytes\n";
    assert!(rt; is_checked(&rt, rt.alloc(), query, 349_525, 6, cut));
    assert!(rt; is_checked(&rt, rt.alloc(), query, 349_526, 3, whole));
    Ok(())
}

/// Faults that no reader, writer or text of a test brings about.
#[test]
fn lines_of_other_faults(rt: HostRuntime) -> Result<(), Fail> {
    for (fault, text) in [
        (Fault::NoWorker, "cannot start a worker\n"),
        (Fault::Incomplete, "the run is incomplete\n"),
    ] {
        let mut line = Vec::new(rt.alloc());
        fault.write_line("q", "i", &mut line)?;
        assert_eq!(rt; fault.status(), 5);
        assert_eq!(rt; line.as_slice(), text.as_bytes());
    }
    Ok(())
}
