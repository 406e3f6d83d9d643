//! Runs on two workers: what is told of a run while it works, what each vertex did, and an answer that two threads sort.

use crate::program::{Ended, Room, Rooms, Shelf, end_of};
use console::Telling;
use std::alloc::Global;
use std::io::Write;
use std::sync::Wait;
use std::test::Fail;
use std::thread::Threads;

const WATCHED: &[&str] = &[
    "loom",
    "run",
    "--workers",
    "2",
    "--watch",
    "--stats",
    "q",
    "i",
];

const UNWATCHED: &[&str] = &["loom", "run", "--workers", "2", "q", "i"];

/// What two workers answer to an input of records of one field, which go through as they are.
fn copied<R: Threads + Wait + Sync>(
    rt: &R,
    alloc: Global,
    words: &[&str],
    input: &[u8],
    rooms: Rooms,
) -> Ended {
    let shelf = Shelf::of(b"input a/1; output a;", input);
    end_of(rt, alloc, words, shelf, rooms)
}

/// The last number of lines `passed M`, or of one line whose numbers rise in place: 0 if nothing was told, and None if the numbers don't rise,
/// or something else was told.
fn last_passed(telling: Telling, told: &[u8]) -> Option<u64> {
    if told.is_empty() {
        return Some(0);
    }
    let text = str::from_utf8(told).ok()?.strip_suffix("\n")?;
    let (text, sign) = match telling {
        Telling::InPlace => (text.strip_prefix("\r")?, '\r'),
        _ => (text, '\n'),
    };
    let mut last = 0;
    for piece in text.split(sign) {
        let number = piece.strip_prefix("passed ")?.parse().ok()?;
        if number <= last {
            return None;
        }
        last = number;
    }
    Some(last)
}

/// Inputs, what is answered, and how many epochs pass. Which numbers are told before the last epoch is open isn't known.
const RUNS: [(&[u8], &[u8], u64); 3] = [
    (b"epoch\nepoch\nepoch\n", b"epoch 0\nepoch 1\nepoch 2\n", 3),
    (b"epoch\na 7\n", b"epoch 0\n7\n", 1),
    (b"", b"", 0),
];

/// Each of them, also where nobody takes what is told and what each vertex did.
#[test]
fn epochs_pass(rt: HostRuntime) {
    for (input, answer, passed) in RUNS {
        for telling in [Telling::Lines, Telling::InPlace] {
            let rooms = Rooms {
                telling,
                ..Rooms::ample()
            };
            let run = copied(&rt, rt.alloc(), WATCHED, input, rooms);
            assert!(rt; run.status == 0 && run.out.as_slice() == answer);
            assert_eq!(rt; last_passed(telling, run.told.as_slice()), Some(passed));
            let rooms = Rooms {
                err: Room::of(0),
                told: Room::of(0),
                ..rooms
            };
            assert!(rt; copied(&rt, rt.alloc(), WATCHED, input, rooms).is(0, answer, b""));
        }
    }
}

/// Of 256 epochs with two records each, one of the two workers computes all: each epoch is one message.
#[test]
fn many_small_epochs(rt: HostRuntime) -> Result<(), Fail> {
    let mut input = Vec::new(rt.alloc());
    for _ in 0..256 {
        input.extend_from_slice(b"epoch\na 1\na 2\n")?;
    }
    let run = copied(&rt, rt.alloc(), WATCHED, input.as_slice(), Rooms::ample());
    let end = b"epoch 254\n1\n2\nepoch 255\n1\n2\n".as_slice();
    let counted =
        b"0 input events 0 in 512 sent 512\n1 output events 256 in 512 sent 0\nmessages 256\nepochs 256\n";
    assert!(rt; run.out.ends_with(end) && run.err.as_slice() == counted.as_slice());
    Ok(())
}

/// As many records as two threads sort.
const RECORDS: u32 = 70_000;

/// Numbers that come in descending order are written in ascending order.
#[test]
fn sorted_by_two_threads(rt: HostRuntime) -> Result<(), Fail> {
    let mut input = b"epoch\n".to_vec(rt.alloc())?;
    let mut answer = b"epoch 0\n".to_vec(rt.alloc())?;
    for number in 0..RECORDS {
        writeln!(input, "a {}", RECORDS - 1 - number)?;
        writeln!(answer, "{number}")?;
    }
    let run = copied(&rt, rt.alloc(), UNWATCHED, input.as_slice(), Rooms::ample());
    assert!(rt; run.is(0, answer.as_slice(), b""));
    Ok(())
}
