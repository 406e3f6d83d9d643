//! The program `documents`: replays the sessions that documents show, and compares what is printed with what they show.
//!
//! Its words are Markdown files. In each of them a line `$ ./loom ..` of a code block is answered by the calls that the program `loom`
//! makes, and a line `$ cat ..` by the file. It prints a line for each document that is right, each place where one is wrong, and ends
//! with status 1 if any is. The documents and the files that they name are in its folder `data`, where the gate runs it. They are the
//! pages for users, and `worked/` with answers that were worked out by hand. Of the manual page and of the completion it compares the commands and
//! options with those of the help. `wrong.md`, `wrong.1` and `wrong.bash` contain deliberate mistakes, which test the program itself. So the expected
//! status is 1.
#![tactic(auto)]

mod answers;
mod explanations;
mod lines;
mod options;
mod sessions;

use crate::answers::help_of;
use crate::explanations::{has_table, is_explained, rows};
use crate::lines::printed;
use crate::options::{
    Listed, add_options, commands_of, completed, described, lacking, options_of, to_complete,
    to_describe,
};
use crate::sessions::{Session, sessions};
use refusals::{Explanation, explanation_of};
use std::alloc::{AllocError, Global};
use std::process::ExitCode;
use std::sync::Wait;
use std::thread::Threads;
use std::{env, fs, io};

/// Prints what a session printed instead of what its document shows.
fn report(rt: &HostRuntime, path: &str, session: &Session, answered: &[u8]) -> io::Result<()> {
    let (line, typed) = (session.line, session.typed);
    println!(rt; "{path}:{line}: `{typed}` prints")?;
    for text in String::from_utf8_lossy(rt.alloc(), answered)?.lines() {
        println!(rt; "    {text}")?;
    }
    Ok(())
}

/// Whether each session prints what its document shows. Those that don't are reported.
fn replays(
    rt: &HostRuntime,
    threads: &(impl Threads + Wait + Sync),
    path: &str,
    sessions: &[Session],
) -> io::Result<bool> {
    let mut is_right = true;
    for session in sessions {
        let answered = printed(rt, threads, session.typed)?;
        if answered.as_slice() != session.printed.as_bytes() {
            report(rt, path, session, answered.as_slice())?;
            is_right = false;
        }
    }
    Ok(is_right)
}

/// All explanations, in the order of their codes.
fn all_explanations(alloc: Global) -> Result<Vec<&'static Explanation>, AllocError> {
    let mut all = Vec::new(alloc);
    for code in 0..=u8::MAX {
        if let Some(explanation) = explanation_of(code) {
            all.push(explanation)?;
        }
    }
    Ok(all)
}

/// Whether a document's table of refusals is that of these explanations. Rows that differ are reported.
fn explains(
    rt: &HostRuntime,
    path: &str,
    text: &str,
    explanations: &[&'static Explanation],
) -> io::Result<bool> {
    let rows = rows(rt.alloc(), text)?;
    let (listed, all) = (rows.len(), explanations.len());
    let mut is_right = listed == all;
    if !is_right {
        println!(rt; "{path}: the table has {listed} refusals, and there are {all}")?;
    }
    for (row, explanation) in rows.iter().zip(explanations) {
        if !is_explained(row, explanation) {
            let line = row.line;
            let (code, summary, place) = (explanation.code, explanation.summary, explanation.place);
            println!(rt; "{path}:{line}: this row should be")?;
            println!(rt; "    | {code} | {summary} | {place} |")?;
            is_right = false;
        }
    }
    Ok(is_right)
}

/// Whether a document is right. It prints a line that says so, or the places where it is wrong.
fn holds(rt: &HostRuntime, threads: &(impl Threads + Wait + Sync), path: &str) -> io::Result<bool> {
    let text = fs::read_to_string(rt, path)?;
    let sessions = sessions(rt.alloc(), text.as_str())?;
    let count = sessions.len();
    let are_replayed = replays(rt, threads, path, sessions.as_slice())?;
    if !has_table(text.as_str()) {
        if are_replayed {
            println!(rt; "{path}: {count} sessions as written")?;
        }
        return Ok(are_replayed);
    }
    let explanations = all_explanations(rt.alloc())?;
    let is_right = explains(rt, path, text.as_str(), explanations.as_slice())? && are_replayed;
    if is_right {
        let refusals = explanations.len();
        println!(rt; "{path}: {count} sessions as written, {refusals} refusals as told")?;
    }
    Ok(is_right)
}

/// Whether the manual page or the completion lists the commands and options of the help. It prints a line that says so, or what differs.
fn lists(rt: &HostRuntime, threads: &(impl Threads + Wait + Sync), path: &str) -> io::Result<bool> {
    let page = fs::read_to_string(rt, path)?;
    let own = help_of(rt, threads, &["loom", "--help"])?;
    let helps = helps_of(rt, threads, own.as_str())?;
    is_listed(rt, path, page.as_str(), own.as_str(), helps.as_slice())
}

/// The help of a command, and the one with `--schema`, which is empty if the command doesn't take that.
#[derive(Drop)]
struct Helps {
    own: String,
    with_schema: String,
}

/// The helps of a command.
fn helps_for(
    rt: &HostRuntime,
    threads: &(impl Threads + Wait + Sync),
    command: &str,
) -> io::Result<Helps> {
    let own = help_of(rt, threads, &["loom", "help", command])?;
    let with_schema = if matches!(command, "run" | "follow" | "check") {
        help_of(rt, threads, &["loom", command, "--schema", "-", "--help"])?
    } else {
        String::new(rt.alloc())
    };
    Ok(Helps { own, with_schema })
}

/// The helps of each command.
fn helps_of(
    rt: &HostRuntime,
    threads: &(impl Threads + Wait + Sync),
    own: &str,
) -> io::Result<Vec<Helps>> {
    let mut helps = Vec::new(rt.alloc());
    for command in commands_of(rt.alloc(), own)? {
        helps.push(helps_for(rt, threads, command)?)?;
    }
    Ok(helps)
}

/// Whether a page lists the commands and options of these helps: the program's own, and those of its commands.
fn is_listed(
    rt: &HostRuntime,
    path: &str,
    page: &str,
    own: &str,
    helps: &[Helps],
) -> io::Result<bool> {
    let alloc = rt.alloc();
    let mut help = Vec::new(alloc);
    for (command, texts) in commands_of(alloc, own)?.into_iter().zip(helps) {
        let mut options = options_of(alloc, texts.own.as_str())?;
        add_options(&mut options, options_of(alloc, texts.with_schema.as_str())?)?;
        help.push(Listed { command, options })?;
    }
    let (wanted, found) = if path.ends_with(".bash") {
        (
            to_complete(alloc, help.as_slice())?,
            completed(alloc, page)?,
        )
    } else {
        let options = options_of(alloc, own)?;
        (
            to_describe(alloc, help.as_slice(), options.as_slice())?,
            described(alloc, page)?,
        )
    };
    is_same_list(rt, path, wanted.as_slice(), found.as_slice())
}

/// Whether what a page lists is what it should. Prints what is missing and what isn't known.
fn is_same_list(
    rt: &HostRuntime,
    path: &str,
    wanted: &[String],
    found: &[String],
) -> io::Result<bool> {
    let missing = lacking(rt.alloc(), wanted, found)?;
    let unknown = lacking(rt.alloc(), found, wanted)?;
    for entry in &missing {
        println!(rt; "{path}: `{entry}` is missing")?;
    }
    for entry in &unknown {
        println!(rt; "{path}: `{entry}` isn't known")?;
    }
    let is_right = missing.is_empty() && unknown.is_empty();
    if is_right {
        println!(rt; "{path}: the commands and options of the help")?;
    }
    Ok(is_right)
}

/// Whether each document of the line is right.
fn all_hold(rt: &HostRuntime, threads: &(impl Threads + Wait + Sync)) -> io::Result<bool> {
    let words: Vec<String> = env::args(rt)?.collect(rt.alloc())?;
    let mut is_right = true;
    for path in words.iter().skip(1) {
        let path = path.as_str();
        is_right = if path.ends_with(".md") {
            holds(rt, threads, path)?
        } else {
            lists(rt, threads, path)?
        } && is_right;
    }
    Ok(is_right)
}

fn main(rt: HostRuntime) -> io::Result<ExitCode> {
    if all_hold(&rt, &rt)? {
        Ok(ExitCode::SUCCESS)
    } else {
        Ok(ExitCode::FAILURE)
    }
}
