//! The lines of a block.

use std::alloc::{AllocError, Global};
use std::io;

/// What a block is about.
pub trait Subject: Drop {
    /// What a call is answered.
    fn answer(&mut self, alloc: Global, call: &str) -> Result<String, AllocError>;
}

/// A line's call, and what it is to be answered: nothing where it has no arrow.
fn parts<'a>(line: &'a str) -> (&'a str, &'a str) {
    line.split_once(" -> ").unwrap_or((line, ""))
}

/// The call of a line.
pub fn call_of<'a>(line: &'a str) -> &'a str {
    parts(line).0
}

/// 1 where the line has the right answer, else 0. A wrong line is printed with the right answer.
pub fn compared(rt: &HostRuntime, line: &str, answer: &str) -> io::Result<usize> {
    let (call, wanted) = parts(line);
    if answer == wanted {
        return Ok(1);
    }
    println!(rt; "    {call} -> {answer}")?;
    Ok(0)
}

/// Makes the calls of the lines. How many have the right answer.
fn play<S: Subject>(rt: &HostRuntime, subject: &mut S, lines: &[&str]) -> io::Result<usize> {
    let mut right = 0usize;
    for line in lines {
        let answer = subject.answer(rt.alloc(), call_of(line))?;
        right = right.saturating_add(compared(rt, line, answer.as_str())?);
    }
    Ok(right)
}

/// Makes the calls of the lines on what the first line names, or compares why there is none. How many of all these lines have the
/// right answer.
pub fn play_on<S: Subject>(
    rt: &HostRuntime,
    first: &str,
    subject: Result<S, &str>,
    lines: &[&str],
) -> io::Result<usize> {
    match subject {
        Ok(mut subject) => {
            let named = compared(rt, first, "")?;
            let right = play(rt, &mut subject, lines)?;
            Ok(right.saturating_add(named))
        }
        Err(reason) => compared(rt, first, reason),
    }
}
