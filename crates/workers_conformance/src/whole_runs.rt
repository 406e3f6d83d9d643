//! Runs of the program's own call, at whose gate two workers wait for one another.

use crate::boards::COPY;
use crate::flags::Meeting;
use collector::Watched;
use command_line::Workers;
use commands::{RunOptions, Streams, Texts, Watcher, run};
use std::alloc::Global;
use std::sync::Wait;
use std::test::Fail;
use std::thread::Threads;
use workers::Gate;

/// How many runs there are at most. In a run of two small events the thread that starts first may compute both.
const RUNS: u32 = 20;

/// What two workers answer to an input of records of one field, which go through as they are. The gate computes each event.
fn copied<R: Threads + Wait + Sync, G: Gate + Sync>(
    rt: &R,
    alloc: Global,
    input: &[u8],
    gate: &G,
) -> Option<Vec<u8>> {
    let mut query = Watched::new(COPY.as_bytes());
    let mut input = Watched::new(input);
    let mut texts = Texts::new(alloc);
    let mut streams = Streams {
        out: Watched::new(Vec::new(alloc)),
        err: Vec::new(alloc),
        watcher: None::<Watcher<Vec<u8>>>,
    };
    let options = RunOptions {
        workers: Workers::new(2)?,
        gate,
        stats: None,
    };
    run(
        rt,
        alloc,
        options,
        &mut query,
        &mut input,
        &mut texts,
        &mut streams,
    )
    .ok()?;
    let Streams { out, .. } = streams;
    Some(out.into_inner())
}

// Each worker has one of the records.
#[test]
fn two_at_once(rt: HostRuntime) -> Result<(), Fail> {
    for _run in 0..RUNS {
        let meeting = Meeting::new();
        let answer = copied(&rt, rt.alloc(), b"epoch\na 1\na 2\n", &meeting).ok_or("no answer")?;
        assert_eq!(rt; answer.as_slice(), b"epoch 0\n1\n2\n".as_slice());
        if meeting.have_met() {
            return Ok(());
        }
    }
    Err(Fail::from("never met"))
}
