//! Whole inputs, with answers worked out by hand.

ghost use Rattle.std.specs.Prelude.{◌<◌, ◌≤◌};

use collector::Watched;
use follow::{Ending, FirstEpoch, Manner, WorkerCount, follow};
use graph::Graph;
use lowering::lower;
use parser::parse;
use std::alloc::{AllocError, Global};
use std::io;
use std::io::{ErrorKind, Read, Write};
use std::thread::Threads;
use typing::check;

/// The graph of a query.
pub fn graph_of(alloc: Global, text: &str) -> Option<Graph> {
    let program = parse(alloc, text.as_bytes()).ok()?;
    let typed = check(alloc, program).ok()?;
    lower(alloc, &typed).ok()
}

/// Follows an input with that many workers.
pub fn ended_by<R: Read, W: Write>(
    threads: &(impl Threads + Sync),
    alloc: Global,
    workers: u32,
    graph: Graph,
    reader: &mut Watched<R>,
    out: &mut Watched<W>,
) -> Result<(), Ending>
    requires some { 0 < workers }
    requires few { workers ≤ 64 }
{
    let mut rest = Vec::new(alloc);
    let manner = Manner {
        workers: WorkerCount::new(workers),
        first: FirstEpoch::new(0),
    };
    follow(threads, alloc, manner, graph, reader, &mut rest, out)
}

/// A reader that gives a text, at most `most` bytes at a time, and fails after `left` reads.
#[derive(Drop)]
pub struct Slow<'a> {
    pub text: &'a [u8],
    pub most: usize,
    pub left: usize,
}

impl<'a> Read for Slow<'a> {
    fn read(&mut self, buf: &mut [u8]) -> io::Result<usize> {
        if self.left == 0 {
            return Err(io::Error::from(ErrorKind::Other));
        }
        self.left -= 1;
        let count = self.text.len().min(buf.len()).min(self.most);
        let (front, back) = self.text.split_at(count);
        for (to, from) in buf.iter_mut().zip(front) {
            *to = *from;
        }
        self.text = back;
        Ok(count)
    }
}

pub const AUDIENCE: &str = "input buyer/1; input reader/1; output distinct(concat(buyer, reader));";

#[test]
fn whole_input(rt: HostRuntime) -> Result<(), AllocError> {
    let Some(graph) = graph_of(rt.alloc(), AUDIENCE) else {
        return Err(AllocError);
    };
    let mut out = Watched::new(Vec::new(rt.alloc()));
    let mut reader = Watched::new(
        b"epoch\nbuyer 7\nbuyer 7\nreader 3\nepoch\nepoch\nreader 5\n".as_slice(),
    );
    let ended = ended_by(&rt, rt.alloc(), 1, graph, &mut reader, &mut out);
    assert!(rt; matches!(ended, Ok(())));
    assert_eq!(rt;
        out.into_inner().as_slice(),
        b"0 7\n0 3\ncomplete 0\ncomplete 1\n2 5\ncomplete 2\n".as_slice()
    );
    Ok(())
}

#[test]
fn byte_by_byte(rt: HostRuntime) -> Result<(), AllocError> {
    let Some(graph) = graph_of(rt.alloc(), AUDIENCE) else {
        return Err(AllocError);
    };
    let mut out = Watched::new(Vec::new(rt.alloc()));
    let mut reader = Watched::new(Slow {
        text: b"epoch\nbuyer 7\nreader 7\nepoch\nreader 5\nbuyer x\n",
        most: 1,
        left: 100,
    });
    let ended = ended_by(&rt, rt.alloc(), 1, graph, &mut reader, &mut out);
    assert_eq!(rt; ended, Err(Ending::Input { code: 44, line: 6 }));
    assert_eq!(rt;
        out.into_inner().as_slice(),
        b"0 7\ncomplete 0\n1 5\n".as_slice()
    );
    Ok(())
}

/// A line is refused with its 369th byte: the reader would fail if it were asked for more.
#[test]
fn longest_line(rt: HostRuntime) -> Result<(), AllocError> {
    let Some(graph) = graph_of(rt.alloc(), AUDIENCE) else {
        return Err(AllocError);
    };
    let mut text = Vec::from_slice(rt.alloc(), b"epoch\nbuyer 7\nbuyer ")?;
    text.extend_from_slice(&[b'7'; 400])?;
    let mut out = Watched::new(Vec::new(rt.alloc()));
    let mut reader = Watched::new(Slow {
        text: text.as_slice(),
        most: 1,
        left: 6 + 8 + 369,
    });
    let ended = ended_by(&rt, rt.alloc(), 1, graph, &mut reader, &mut out);
    assert_eq!(rt; ended, Err(Ending::Input { code: 46, line: 3 }));
    assert_eq!(rt; out.into_inner().as_slice(), b"0 7\n".as_slice());
    Ok(())
}

#[test]
fn broken_reader(rt: HostRuntime) -> Result<(), AllocError> {
    let Some(graph) = graph_of(rt.alloc(), AUDIENCE) else {
        return Err(AllocError);
    };
    let mut out = Watched::new(Vec::new(rt.alloc()));
    let mut reader = Watched::new(Slow {
        text: b"epoch\nbuyer 7\nreader 7\nepoch\n",
        most: 1,
        left: 15,
    });
    let ended = ended_by(&rt, rt.alloc(), 1, graph, &mut reader, &mut out);
    assert_eq!(rt; ended, Err(Ending::Read));
    assert_eq!(rt; out.into_inner().as_slice(), b"0 7\n".as_slice());
    Ok(())
}

#[test]
fn two_outputs(rt: HostRuntime) -> Result<(), AllocError> {
    let text =
        "input reading/2; let frost = where(reading; #1 < 0); output frost = frost; output stations = group(frost; #0; count);";
    let Some(graph) = graph_of(rt.alloc(), text) else {
        return Err(AllocError);
    };
    let mut out = Watched::new(Vec::new(rt.alloc()));
    let mut reader = Watched::new(Slow {
        text: b"epoch\nreading 5 -12\nreading 5 -3\nepoch\nreading 6 1",
        most: 7,
        left: 100,
    });
    let ended = ended_by(&rt, rt.alloc(), 1, graph, &mut reader, &mut out);
    assert_eq!(rt; ended, Err(Ending::Input { code: 43, line: 5 }));
    assert_eq!(rt;
        out.into_inner().as_slice(),
        b"0 frost 5 -12\n0 frost 5 -3\n0 stations 5 2\ncomplete 0\n".as_slice()
    );
    Ok(())
}
