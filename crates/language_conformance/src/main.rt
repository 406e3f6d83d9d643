//! The program `language_conformance`: asks what pages ask of the front end, from a text to tokens, trees, normal forms and graphs, and compares the
//! answers.
//!
//! Its words are pages (crate `pages`), with answers that were worked out by hand. It ends with status 1 if any line isn't as written.
#![tactic(auto)]

mod basics;
mod canonical;
mod cells;
mod deep;
mod graphs;
mod held;
mod nodes;
mod normal;
mod queries;
mod questions;
mod schedules;
mod texts;
mod tokens;
mod trees;
mod values;

use crate::questions::question_of;
use pages::{Blocks, all_hold, call_of, compared, play_on};
use std::io;
use std::process::ExitCode;

/// Blocks about the front end.
struct Language;

impl Blocks for Language {
    fn right_lines(&self, rt: &HostRuntime, block: &[&str]) -> io::Result<usize> {
        let [first, lines @ ..] = block else {
            return Ok(0);
        };
        match question_of(call_of(first)) {
            Some(question) => play_on(rt, first, Ok(question), lines),
            None => compared(rt, first, "no such question"),
        }
    }
}

fn main(rt: HostRuntime) -> io::Result<ExitCode> {
    all_hold(&rt, &Language)
}
