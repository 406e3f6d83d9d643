//! What `./loom` prints, by the call that the program `loom` makes.

use collector::Watched;
use console::{Disk, DiskText, InMemory, Sources, Streams, Telling, Transcripts, Watcher, answer};
use std::io;
use std::io::{Read, Write};
use std::sync::Wait;
use std::thread::Threads;
use table_commands::{Drafts, answer_tables, is_of_tables};
use table_follows::{answer_table_follow, is_table_follow};
use table_runs::{answer_table_check, answer_table_run, is_table_check, is_table_run};

/// How often a run is repeated with each other number of workers.
const TIMES: usize = 20;

/// The status of a line that is refused.
const REFUSED: u8 = 2;

/// The texts that a line of a page names: files, and as `-` or `/dev/stdin` what is piped to it.
#[derive(Clone, Copy)]
struct Page<'a> {
    disk: Disk<'a>,
    piped: Option<&'a [u8]>,
}

/// A text that a line of a page names.
#[derive(Drop)]
enum PageText<'a> {
    Piped(&'a [u8]),
    Disk(DiskText<'a>),
}

impl Read for PageText<'_> {
    fn read(&mut self, buf: &mut [u8]) -> io::Result<usize> {
        match self {
            PageText::Piped(bytes) => bytes.read(buf),
            PageText::Disk(text) => text.read(buf),
        }
    }
}

impl<'a> Sources<'a> for Page<'a> {
    type Reader = PageText<'a>;

    fn open(&self, name: &'a str) -> PageText<'a> {
        match self.piped {
            Some(bytes) if name == "/dev/stdin" || name == "-" => PageText::Piped(bytes),
            _ => PageText::Disk(self.disk.open(name)),
        }
    }
}

/// A dictionary that a page's line writes isn't kept: those that pages name have all their texts.
impl Drafts for Page<'_> {
    type Draft = ();

    fn begin(&self, _name: &str) -> io::Result<()> {
        Ok(())
    }

    fn keep(&self, _draft: (), _text: &[u8]) -> io::Result<()> {
        Ok(())
    }

    fn discard(&self, _draft: ()) {}
}

/// What the program prints, and its status.
#[derive(Drop, PartialEq, Eq)]
struct Printed {
    status: u8,
    out: Vec<u8>,
    err: Vec<u8>,
}

/// What the program prints that is called with these words of `encode`, `decode`, `kinds` or `check --schema`.
fn tables_print<'a>(
    rt: &'a HostRuntime,
    piped: Option<&'a [u8]>,
    words: &'a [&'a str],
) -> io::Result<Printed> {
    let page = Page {
        disk: Disk::new(rt),
        piped,
    };
    let mut out = Watched::new(Vec::new(rt.alloc()));
    let mut err = Vec::new(rt.alloc());
    let status = if is_table_check(words) {
        answer_table_check(rt.alloc(), &page, words, &mut out, &mut err)
    } else {
        answer_tables(rt.alloc(), &page, &page, words, &mut out, &mut err)
    };
    Ok(Printed {
        status,
        out: out.into_inner(),
        err,
    })
}

/// What the program prints that is called with these words of `run --schema`, or of `follow --schema`.
fn table_run_prints<'a>(
    rt: &'a HostRuntime,
    threads: &(impl Threads + Wait + Sync),
    piped: Option<&'a [u8]>,
    words: &'a [&'a str],
) -> io::Result<Printed> {
    let page = Page {
        disk: Disk::new(rt),
        piped,
    };
    let mut out = Watched::new(Vec::new(rt.alloc()));
    let mut err = Vec::new(rt.alloc());
    let alloc = rt.alloc();
    let engine = InMemory::new(threads);
    let status = if is_table_follow(words) {
        answer_table_follow(&engine, alloc, &page, &page, words, &mut out, &mut err)
    } else {
        answer_table_run(&engine, alloc, &page, &page, words, &mut out, &mut err)
    };
    Ok(Printed {
        status,
        out: out.into_inner(),
        err,
    })
}

/// What the program prints that is called with these words, the first of which is its own name.
fn prints(
    rt: &HostRuntime,
    threads: &(impl Threads + Wait + Sync),
    piped: Option<&[u8]>,
    words: &[&str],
) -> io::Result<Printed> {
    if is_of_tables(words) || is_table_check(words) {
        return tables_print(rt, piped, words);
    }
    if is_table_run(words) || is_table_follow(words) {
        return table_run_prints(rt, threads, piped, words);
    }
    let page = Page {
        disk: Disk::new(rt),
        piped,
    };
    let mut streams = Streams {
        out: Watched::new(Vec::new(rt.alloc())),
        err: Vec::new(rt.alloc()),
        watcher: Some(Watcher {
            writer: Vec::new(rt.alloc()),
            telling: Telling::Lines,
        }),
    };
    let status = answer(
        threads,
        rt.alloc(),
        &page,
        words,
        &mut streams,
        &mut Transcripts::new(),
    );
    let Streams { out, err, watcher } = streams;
    let mut said = match watcher {
        Some(watcher) => watcher.writer,
        None => Vec::new(rt.alloc()),
    };
    said.extend_from_slice(err.as_slice())?;
    Ok(Printed {
        status,
        out: out.into_inner(),
        err: said,
    })
}

/// What the program writes to standard error that is called with these words.
pub fn help_of(
    rt: &HostRuntime,
    threads: &(impl Threads + Wait + Sync),
    words: &[&str],
) -> io::Result<String> {
    let printed = prints(rt, threads, None, words)?;
    Ok(String::from_utf8_lossy(rt.alloc(), printed.err.as_slice())?)
}

/// The words of a run on that many workers.
fn words_on<'a>(rt: &HostRuntime, words: &[&'a str], number: &'a str) -> io::Result<Vec<&'a str>> {
    let (front, rest) = words.split_at(words.len().min(2));
    let mut others = front.to_vec(rt.alloc())?;
    others.push("--workers")?;
    others.push(number)?;
    others.extend_from_slice(rest)?;
    Ok(others)
}

/// Whether a run prints the same with 2 and with 64 workers, each time.
fn is_steady(
    rt: &HostRuntime,
    threads: &(impl Threads + Wait + Sync),
    piped: Option<&[u8]>,
    words: &[&str],
    printed: &Printed,
) -> io::Result<bool> {
    for _time in 0..TIMES {
        for number in ["2", "64"] {
            let others = words_on(rt, words, number)?;
            let other = prints(rt, threads, piped, others.as_slice())?;
            if other != *printed {
                return Ok(false);
            }
        }
    }
    Ok(true)
}

/// Whether the line asks for workers, or for reports on standard error beside an answer.
fn asks_more(words: &[&str]) -> bool {
    let is_run = words.get(1).copied() == Some("run");
    words.iter().any(|word| {
        word.starts_with("--w") || word.starts_with("--stats") || is_run && *word == "--dot"
    })
}

/// Whether each stream has what it may have: standard output an answer, and standard error what is wrong. Only `follow` answers before it
/// fails, and only warnings of `--explain` and reports that are asked for come beside an answer.
fn are_apart(command: &str, words: &[&str], printed: &Printed) -> bool {
    if printed.status == 0 {
        words.contains(&"--explain") || asks_more(words) || printed.err.is_empty()
    } else {
        command == "follow" || printed.out.is_empty()
    }
}

/// What a page shows of it: standard output, then standard error, then the status where it isn't 0.
fn shown(printed: Printed) -> io::Result<Vec<u8>> {
    let Printed { status, out, err } = printed;
    let mut shown = out;
    shown.extend_from_slice(err.as_slice())?;
    if status != 0 {
        writeln!(shown, "status {status}")?;
    }
    Ok(shown)
}

/// What a page shows of the program that is called with these words. A run without `--workers`, `--watch`, `--stats` and `--dot` is repeated with
/// several workers. If that prints something else, or an error is on standard output or an answer on standard error, a line says so in
/// place of what is printed.
pub fn shown_of(
    rt: &HostRuntime,
    threads: &(impl Threads + Wait + Sync),
    piped: Option<&[u8]>,
    words: &[&str],
) -> io::Result<Vec<u8>> {
    let printed = prints(rt, threads, piped, words)?;
    let command = words.get(1).copied().unwrap_or("");
    if !are_apart(command, words, &printed) {
        return Ok(b"(its answer and its error are on one stream)\n".to_vec(rt.alloc())?);
    }
    let is_run = printed.status != REFUSED && command == "run";
    if is_run && !asks_more(words) && !is_steady(rt, threads, piped, words, &printed)? {
        return Ok(b"(with more workers it prints something else)\n".to_vec(rt.alloc())?);
    }
    shown(printed)
}
