//! The program `engine_conformance`: makes the calls that pages show, on the engine's parts and the board, and compares what they answer.
//!
//! Its words are pages (crate `pages`), with answers that were worked out by hand. It ends with status 1 if any line isn't as written.
#![tactic(auto)]

mod batches;
mod built_rows;
mod desk;
mod desks;
mod differences;
mod index;
mod lists;
mod mailbox;
mod paths;
mod routes;
mod set;
mod station;
mod steps;
mod texts;
mod times;
mod trackers;
mod turns;

use crate::batches::Records;
use crate::built_rows::new_rows;
use crate::desks::{new_board, new_counting_board, new_late_board, new_plain_board};
use crate::index::new_index;
use crate::lists::new_lists;
use crate::mailbox::new_mailbox;
use crate::paths::new_paths;
use crate::routes::Routes;
use crate::set::new_set;
use crate::station::new_station;
use crate::steps::Steps;
use crate::texts::named;
use crate::trackers::new_trackers;
use pages::{Blocks, all_hold, call_of, compared, play_on};
use std::io;
use std::process::ExitCode;

/// Blocks about parts of the engine.
struct Engine;

impl Blocks for Engine {
    fn right_lines(&self, rt: &HostRuntime, block: &[&str]) -> io::Result<usize> {
        let [first, lines @ ..] = block else {
            return Ok(0);
        };
        let call = call_of(first);
        let (subject, rest) = call.split_once(' ').unwrap_or((call, ""));
        let rest = rest.strip_prefix("of ").unwrap_or(rest);
        right_lines_about(rt, subject, rest, first, lines)
    }
}

/// Makes the calls of the lines on what the first line names: a word, and the rest of the line.
fn right_lines_about(
    rt: &HostRuntime,
    subject: &str,
    rest: &str,
    first: &str,
    lines: &[&str],
) -> io::Result<usize> {
    let alloc = rt.alloc();
    match subject {
        "shard" => play_on(rt, first, named(new_station(alloc, rest)), lines),
        "rows" => play_on(rt, first, named(new_rows(alloc, rest)), lines),
        "set" => play_on(rt, first, named(new_set(alloc, rest)), lines),
        "index" => play_on(rt, first, named(new_index(alloc, rest)), lines),
        "lists" => play_on(rt, first, named(new_lists(alloc, rest)), lines),
        "mailbox" => play_on(rt, first, Ok(new_mailbox(alloc)), lines),
        "records" => play_on(rt, first, Ok(Records), lines),
        "routes" => play_on(rt, first, Ok(Routes), lines),
        "times" => play_on(rt, first, Ok(Steps), lines),
        "paths" => play_on(rt, first, named(new_paths(alloc, rest)), lines),
        "board" => play_on(rt, first, named(new_board(alloc, rest)), lines),
        "board-plain" => play_on(rt, first, named(new_plain_board(alloc, rest)), lines),
        "board-counting" => play_on(rt, first, named(new_counting_board(alloc, rest)), lines),
        "board-late" => play_on(rt, first, named(new_late_board(alloc, rest)), lines),
        "trackers" => play_on(rt, first, named(new_trackers(alloc, rest)), lines),
        _ => compared(rt, first, "no such subject"),
    }
}

fn main(rt: HostRuntime) -> io::Result<ExitCode> {
    all_hold(&rt, &Engine)
}
