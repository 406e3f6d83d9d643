//! The texts of the system: standard input, and files, each opened when it is first read.
//!
//! Each is read through `Watched`, so that what it gives can be proved to be what the system's own reader has handed over, and all of that where it
//! gives the end.

ghost use Rattle.std.specs.Prelude.{◌≡◌, ◌<◌, ◌++◌, [], true, length, take, None, IfOk};
ghost use Rattle.std.specs.Io.{ReadsAtMost};
ghost use Rattle.std.specs.Io.KnownBytes.{ReadConsumes};
ghost use Rattle.console.specs.Disk.{IsText, file_bytes, file_has_ended, path_of, text_bytes, text_has_ended};

use collector::{Sources, Watched};
use std::fs::File;
use std::io;
use std::io::{Read, Stdin};

/// Opens a file, by a descriptor above those of the standard streams. The first one is the lowest that is free: where standard input is
/// closed it is that of standard input, and whoever reads that would read this file.
fn open_file(rt: &HostRuntime, path: &str) -> io::Result<File> {
    File::open(rt, path)?.try_clone()
}

/// A file by its path. It is opened by its first read, so that of two files that can't be read the first is reported.
#[derive(Drop)]
pub struct LateFile<'a> {
    rt: &'a HostRuntime,
    path: &'a str,
    file: Option<Watched<File>>,
}

impl<'a> LateFile<'a> {
    pub fn new(rt: &'a HostRuntime, path: &'a str) -> LateFile<'a>
        ensures path { path_of result ≡ path.now }
        ensures none { file_bytes result ≡ [] }
    {
        LateFile {
            rt,
            path,
            file: None,
        }
    }
}

impl Read for LateFile<'_> {
    fn read(&mut self, buf: &mut [u8]) -> io::Result<usize>
        ensures bound { ReadsAtMost result buf.new }
        ensures unknown { ReadConsumes None None result buf.new }
        ensures path { path_of self.new ≡ path_of self.old }
        ensures bytes { IfOk result (λ n. file_bytes self.new ≡ file_bytes self.old ++ take n buf.new) }
        ensures last { IfOk result (λ n. n ≡ 0 → 0 < length buf.old → file_has_ended self.new ≡ true) }
    {
        if let Some(file) = &mut self.file {
            return file.pull(buf);
        }
        let mut file = Watched::new(open_file(self.rt, self.path)?);
        let count = file.pull(buf)?;
        self.file = Some(file);
        Ok(count)
    }
}

/// A text of the system.
#[derive(Drop)]
pub enum DiskText<'a> {
    /// What is left of standard input. Where that is closed, a read fails.
    Input(Watched<Stdin>),
    /// The text of a file.
    File(LateFile<'a>),
}

impl Read for DiskText<'_> {
    fn read(&mut self, buf: &mut [u8]) -> io::Result<usize>
        ensures bound { ReadsAtMost result buf.new }
        ensures unknown { ReadConsumes None None result buf.new }
        ensures bytes { IfOk result (λ n. text_bytes self.new ≡ text_bytes self.old ++ take n buf.new) }
        ensures last { IfOk result (λ n. n ≡ 0 → 0 < length buf.old → text_has_ended self.new ≡ true) }
    {
        match self {
            DiskText::Input(input) => input.pull(buf),
            DiskText::File(file) => file.read(buf),
        }
    }
}

/// The files, by their paths; `-` is standard input.
#[derive(Clone, Copy)]
pub struct Disk<'a> {
    rt: &'a HostRuntime,
}

impl<'a> Disk<'a> {
    pub fn new(rt: &'a HostRuntime) -> Disk<'a> {
        Disk { rt }
    }
}

impl<'a> Sources<'a> for Disk<'a> {
    type Reader = DiskText<'a>;

    fn open(&self, name: &'a str) -> DiskText<'a>
        ensures text { IsText result name.entry.now }
        ensures none { text_bytes result ≡ [] }
    {
        if name == "-" {
            DiskText::Input(Watched::new(self.rt.stdin()))
        } else {
            DiskText::File(LateFile::new(self.rt, name))
        }
    }
}
