//! The examples of the table of refusals, and the explanation of a fault that no short text has.

use crate::program::{Ended, Rooms, Shelf, end_of};
use console::{Fault, Texts};
use diagnostics::{TextNames, explain_fault};
use refusals::{Explanation, OF_KINDS, OF_LINES, OF_QUERIES, OF_SCHEMAS, OF_STEPS, OF_TABLES};
use std::alloc::{AllocError, Global};
use std::sync::Wait;
use std::test::Fail;
use std::thread::Threads;

/// The query over which the inputs and the schedules of the table are read.
const QUERY: &[u8] = b"input a/2; output a;";

/// Whether an example is a schedule. Those of lower numbers are queries, which are checked, and those of higher ones inputs.
fn is_of_schedules(code: u8) -> bool {
    matches!(code, 31..=40)
}

/// How a command ends over an example of the table.
fn tried<R: Threads + Wait + Sync>(rt: &R, alloc: Global, code: u8, example: &str) -> Ended {
    let words = match code {
        0..=30 => ["loom", "check", "q"].as_slice(),
        31..=39 => &["loom", "replay", "q", "i"],
        40 => &["loom", "replay", "--views", "q", "i"],
        41..=255 => &["loom", "run", "q", "i"],
    };
    let shelf = match code {
        0..=30 => Shelf::of(example.as_bytes(), b""),
        31..=255 => Shelf::of(QUERY, example.as_bytes()),
    };
    end_of(rt, alloc, words, shelf, Rooms::ample())
}

/// How the line begins that says so of an example with that number.
fn refusal_line(alloc: Global, code: u8) -> Result<String, AllocError> {
    match code {
        0..=30 => format!(in alloc; "query refused {code} at "),
        31..=40 => format!(in alloc; "refused {code}\n"),
        41..=255 => format!(in alloc; "input refused {code} at line "),
    }
}

/// Whether an example is refused with its number. A schedule prints that once and nothing else.
fn is_refused<R: Threads + Wait + Sync>(
    rt: &R,
    alloc: Global,
    code: u8,
    example: &str,
) -> Result<bool, AllocError> {
    let line = refusal_line(alloc, code)?;
    let line = line.as_bytes();
    let ended = tried(rt, alloc, code, example);
    Ok(if is_of_schedules(code) {
        ended.is(0, line, b"")
    } else {
        ended.out.is_empty() && ended.err.as_slice().starts_with(line)
    })
}

/// Whether an example is taken. A schedule then prints nothing.
fn is_taken<R: Threads + Wait + Sync>(rt: &R, alloc: Global, code: u8, example: &str) -> bool {
    let ended = tried(rt, alloc, code, example);
    let is_silent = ended.out.is_empty() || !is_of_schedules(code);
    ended.status == 0 && is_silent && ended.err.is_empty()
}

/// Whether a part of the table has its codes in ascending order, and its examples are refused and taken as it says.
fn holds<R: Threads + Wait + Sync>(
    rt: &R,
    alloc: Global,
    rows: &[Explanation],
) -> Result<bool, AllocError> {
    let mut last = 0;
    for row in rows {
        let code = row.code;
        let has_none = matches!(code, 6 | 21 | 22 | 24..=30 | 37 | 38 | 39 | 47..=67);
        if code <= last || row.wrong.is_empty() != has_none {
            return Ok(false);
        }
        last = code;
        let is_right = has_none
            || is_refused(rt, alloc, code, row.wrong)? && is_taken(rt, alloc, code, row.right);
        if !is_right {
            return Ok(false);
        }
    }
    Ok(true)
}

#[test]
fn examples_of_the_table(rt: HostRuntime) -> Result<(), Fail> {
    for rows in [
        OF_QUERIES.as_slice(),
        OF_KINDS.as_slice(),
        OF_STEPS.as_slice(),
        OF_LINES.as_slice(),
        OF_SCHEMAS.as_slice(),
        OF_TABLES.as_slice(),
    ] {
        assert!(rt; holds(&rt, rt.alloc(), rows)?);
    }
    Ok(())
}

/// Faults that no text and no reader of a test brings about: too many epochs, and a text that can't be read for no reason.
#[test]
fn others_explained(rt: HostRuntime) -> Result<(), Fail> {
    let mut texts = Texts::new(rt.alloc());
    texts.input = b"epoch\n".to_vec(rt.alloc())?;
    let names = TextNames {
        query: "query",
        input: "input",
    };
    for (fault, text) in [
        (
            Fault::Input { code: 47, line: 1 },
            "input:1:1: over 4,294,967,295 epochs\n  1 | epoch\n",
        ),
        (Fault::ReadQuery, ""),
    ] {
        let mut said = Vec::new(rt.alloc());
        explain_fault(rt.alloc(), &fault, names, &texts, &mut said)?;
        assert_eq!(rt; said.as_slice(), text.as_bytes());
    }
    Ok(())
}
