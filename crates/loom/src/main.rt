//! The program `loom`: words, files, exit status. What it answers is `console`'s, and for CSV files `table_commands`', `table_runs`' and `table_follows`'; only whether
//! standard error is a terminal is asked here.
#![tactic(auto)]

ghost use Rattle.std.specs.Prelude.{None, Some, map};
ghost use Rattle.collector.specs.Recording.{taken};
ghost use Rattle.collector.specs.Watching.{inner_of};
ghost use Rattle.console.specs.Commands.{Answers};

use collector::{Recorded, Watched};
use console::{Disk, InMemory, LineFault, Streams, Telling, Transcripts, Watcher, answer, refuse};
use std::alloc::Global;
use std::io::{ErrorKind, IsTerminal, Stderr};
use std::process::ExitCode;
use std::sync::Wait;
use std::thread::Threads;
use std::{env, io};
use table_commands::{DiskDrafts, answer_tables, is_of_tables};
use table_follows::{answer_table_follow, is_table_follow};
use table_runs::{answer_table_check, answer_table_run, is_table_check, is_table_run};

/// The words of the line, the first of which is the program's own.
fn words_given(rt: &HostRuntime) -> Result<Vec<String>, LineFault> {
    match env::args(rt) {
        Ok(words) => words.collect(rt.alloc()).map_err(|_| LineFault::NoMemory),
        Err(error) if error.kind() == ErrorKind::OutOfMemory => Err(LineFault::NoMemory),
        Err(_) => Err(LineFault::NoText),
    }
}

/// Standard error, which shows how far a watched run is: in one line, if it is a terminal.
fn watcher_of(rt: &HostRuntime) -> Watcher<Stderr> {
    let writer = rt.stderr();
    let telling = if writer.is_terminal() {
        Telling::InPlace
    } else {
        Telling::Lines
    };
    Watcher { writer, telling }
}

/// Does what the words ask for, and gives the status. What standard output takes is the answer to what the texts hand over.
fn answer_words<'a>(
    threads: &(impl Threads + Wait + Sync),
    alloc: Global,
    disk: &Disk<'a>,
    words: &'a [&'a str],
    streams: &mut Streams<Recorded<io::Printer<'_, HostRuntime>>, Stderr, Stderr>,
    transcripts: &mut Transcripts<'a>,
) -> u8
    ensures { Answers (λ _. None) transcripts.new (map (λ s. s.now) words.entry.now)
        (Some (taken (inner_of streams.old.out))) (Some (taken (inner_of streams.new.out))) result }
{
    answer(threads, alloc, disk, words, streams, transcripts)
}

/// Answers a line of `encode`, `decode` or `kinds` over the system's files and streams.
fn answer_tables_here(rt: &HostRuntime, words: &[&str]) -> u8 {
    let disk = Disk::new(rt);
    let drafts = DiskDrafts::new(rt, rt.alloc());
    let mut out = Watched::new(io::writer(rt));
    let mut err = rt.stderr();
    answer_tables(rt.alloc(), &disk, &drafts, words, &mut out, &mut err)
}

/// Answers a line of `check --schema` over the system's files and streams.
fn check_tables_here(rt: &HostRuntime, words: &[&str]) -> u8 {
    let disk = Disk::new(rt);
    let mut out = Watched::new(io::writer(rt));
    let mut err = rt.stderr();
    answer_table_check(rt.alloc(), &disk, words, &mut out, &mut err)
}

/// Answers a line of `run --schema` over the system's files and streams.
fn run_tables_here(rt: &HostRuntime, threads: &(impl Threads + Wait + Sync), words: &[&str]) -> u8 {
    let disk = Disk::new(rt);
    let drafts = DiskDrafts::new(rt, rt.alloc());
    let mut out = Watched::new(io::writer(rt));
    let mut err = rt.stderr();
    answer_table_run(
        &InMemory::new(threads),
        rt.alloc(),
        &disk,
        &drafts,
        words,
        &mut out,
        &mut err,
    )
}

/// Answers a line of `follow --schema` over the system's files and streams.
fn follow_tables_here(
    rt: &HostRuntime,
    threads: &(impl Threads + Wait + Sync),
    words: &[&str],
) -> u8 {
    let disk = Disk::new(rt);
    let drafts = DiskDrafts::new(rt, rt.alloc());
    let mut out = Watched::new(io::writer(rt));
    let mut err = rt.stderr();
    answer_table_follow(
        &InMemory::new(threads),
        rt.alloc(),
        &disk,
        &drafts,
        words,
        &mut out,
        &mut err,
    )
}

/// Answers any other line over the system's files and streams.
fn answer_here(rt: &HostRuntime, threads: &(impl Threads + Wait + Sync), words: &[&str]) -> u8 {
    let disk = Disk::new(rt);
    let mut streams = Streams {
        out: Watched::new(Recorded::new(io::writer(rt))),
        err: rt.stderr(),
        watcher: Some(watcher_of(rt)),
    };
    let mut transcripts = Transcripts::new();
    answer_words(
        threads,
        rt.alloc(),
        &disk,
        words,
        &mut streams,
        &mut transcripts,
    )
}

/// Does what the line asks for, and gives the status. `threads` permits starting threads and not returning until all work is done.
fn answer_line(rt: &HostRuntime, threads: &(impl Threads + Wait + Sync)) -> Result<u8, LineFault> {
    let texts = words_given(rt)?;
    let Ok(words) = texts
        .iter()
        .map(|text| text.as_str())
        .collect::<Vec<&str>>(rt.alloc())
    else {
        return Err(LineFault::NoMemory);
    };
    let words = words.as_slice();
    if is_of_tables(words) {
        Ok(answer_tables_here(rt, words))
    } else if is_table_check(words) {
        Ok(check_tables_here(rt, words))
    } else if is_table_run(words) {
        Ok(run_tables_here(rt, threads, words))
    } else if is_table_follow(words) {
        Ok(follow_tables_here(rt, threads, words))
    } else {
        Ok(answer_here(rt, threads, words))
    }
}

fn main(rt: HostRuntime) -> ExitCode {
    let status = match answer_line(&rt, &rt) {
        Ok(status) => status,
        Err(fault) => refuse(&fault, &mut rt.stderr()),
    };
    ExitCode::from(status)
}
