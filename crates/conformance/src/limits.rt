//! Queries and inputs at the limits of size, which are too long for a page.

use crate::program::{Rooms, Shelf, end_of};
use collector::{Fault, Line, Stop, next_line};
use std::alloc::{AllocError, Global};
use std::test::Fail;

/// `input a/1; let l1 = distinct(a); let l2 = distinct(l1); ..` to `lN`, then `output lN;`
fn chain(alloc: Global, length: u32) -> Result<String, AllocError> {
    let mut text = format!(in alloc; "input a/1; let l1 = distinct(a);")?;
    for i in 2..length.saturating_add(1) {
        let before = i.saturating_sub(1);
        let next = format!(in alloc; " let l{i} = distinct(l{before});")?;
        text.push_str(next.as_str())?;
    }
    let end = format!(in alloc; " output l{length};")?;
    text.push_str(end.as_str())?;
    Ok(text)
}

/// The vertices are those of the lets, the input and the output. The graph's size is refused before the input's fault.
#[test]
fn at_most_4096_vertices(rt: HostRuntime) -> Result<(), Fail> {
    let rows: [(u32, &[&str], u8, &str, &str); 3] = [
        (
            4094,
            &["loom", "graph", "q"],
            0,
            "\n4094 distinct 0 <- 4093.0\n4095 output 0 <- 4094.0\n",
            "",
        ),
        (4095, &["loom", "graph", "q"], 3, "", "query refused 21\n"),
        (
            4095,
            &["loom", "run", "--explain", "q", "i"],
            3,
            "",
            "query refused 21\nq: a dataflow graph of over 4096 vertices\n",
        ),
    ];
    for (length, words, status, end, line) in rows {
        let query = chain(rt.alloc(), length)?;
        let shelf = Shelf::of(query.as_bytes(), b"a 1");
        let ended = end_of(&rt, rt.alloc(), words, shelf, Rooms::ample());
        assert!(rt; ended.out.ends_with(end.as_bytes()));
        assert!(rt; ended.out.is_empty() == end.is_empty());
        assert!(rt; ended.status == status && ended.err.as_slice() == line.as_bytes());
    }
    Ok(())
}

// No text here has so many lines: the line reader is told how many epochs have begun.
#[test]
fn too_many_epochs(rt: HostRuntime) {
    let mut fields = Vec::new(rt.alloc());
    for line in [b"epoch\n".as_slice(), b"epoch\na 1\n"] {
        let last = next_line(line, &[], u32::MAX - 1, &mut fields);
        assert!(rt; matches!(last, Ok((Line::Epoch, _))));
        let beyond = next_line(line, &[], u32::MAX, &mut fields);
        assert!(rt; matches!(beyond, Err(Stop::Fault(Fault::TooManyEpochs))));
    }
    assert_eq!(rt; Fault::TooManyEpochs.code(), 47);
}
