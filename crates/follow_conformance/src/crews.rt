//! Inputs that several workers answer.

use crate::inputs::{AUDIENCE, ended_by, graph_of};
use collector::Watched;
use std::io::Write;
use std::test::Fail;

/// The number of people who each buy and read.
const PEOPLE: usize = 6000;

/// The bytes of the lines `0 N` for each of them: three and the digits of N, of which 10 numbers have one, 90 two, 900 three, 5000 four.
const LINE_BYTES: usize = 3 * PEOPLE + 10 + 2 * 90 + 3 * 900 + 4 * 5000;

/// Whether the lines `0 N` have each number below `count` once.
fn each_is_there_once(lines: &[u8], seen: &mut [bool]) -> bool {
    let mut number = 0usize;
    for byte in lines {
        match *byte {
            b' ' => number = 0,
            b'\n' => match seen.get_mut(number) {
                Some(place) if !*place => *place = true,
                _ => return false,
            },
            digit => {
                number = number
                    .saturating_mul(10)
                    .saturating_add(usize::from(digit.saturating_sub(b'0')));
            }
        }
    }
    seen.iter().all(|place| *place)
}

// The pieces are so large that workers with an event get a thread each.
#[test]
fn many_records(rt: HostRuntime) -> Result<(), Fail> {
    let mut text = Vec::new(rt.alloc());
    text.extend_from_slice(b"epoch\n")?;
    for number in 0..PEOPLE {
        writeln!(text, "buyer {number}\nreader {number}")?;
    }
    text.extend_from_slice(b"epoch\nreader 5\n")?;
    for workers in [1, 2, 8, 64] {
        let graph = graph_of(rt.alloc(), AUDIENCE).ok_or("no graph")?;
        let mut out = Watched::new(Vec::new(rt.alloc()));
        let mut reader = Watched::new(text.as_slice());
        let ended = ended_by(&rt, rt.alloc(), workers, graph, &mut reader, &mut out);
        assert!(rt; matches!(ended, Ok(())));
        let written = out.into_inner();
        let (lines, rest) = written.as_slice().split_at(LINE_BYTES.min(written.len()));
        let mut seen = [false; PEOPLE];
        assert!(rt; each_is_there_once(lines, &mut seen));
        assert_eq!(rt; rest, b"complete 0\n1 5\ncomplete 1\n".as_slice());
    }
    Ok(())
}
