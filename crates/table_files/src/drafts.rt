//! Files that are written anew: beside the old one, which the new one replaces once it is whole.

use std::alloc::Global;
use std::fs::File;
use std::io::Write;
use std::{fs, io};

/// Where files are written anew.
pub trait Drafts {
    /// A file that is being written anew.
    type Draft: Drop;

    /// Begins a file of that name, beside the old one. It fails while another one is begun.
    fn begin(&self, name: &str) -> io::Result<Self::Draft>;

    /// Writes the text, and puts the file in the old one's place. Where that fails, only the old one is left.
    fn keep(&self, draft: Self::Draft, text: &[u8]) -> io::Result<()>;

    /// Leaves the old file as it is.
    fn discard(&self, draft: Self::Draft);
}

/// A file of the disk, under the name that it has while it is written, and the one that it will have.
#[derive(Drop)]
pub struct Draft {
    file: File,
    beside: String,
    name: String,
}

/// The files of the disk. One that is begun has `.new` behind its name.
#[derive(Clone, Copy)]
pub struct DiskDrafts<'a> {
    rt: &'a HostRuntime,
    alloc: Global,
}

impl<'a> DiskDrafts<'a> {
    pub fn new(rt: &'a HostRuntime, alloc: Global) -> DiskDrafts<'a> {
        DiskDrafts { rt, alloc }
    }
}

/// Writes a text to a file, and waits until the disk has it.
fn write_through(file: &mut File, text: &[u8]) -> io::Result<()> {
    file.write_all(text)?;
    file.sync_all()
}

impl Drafts for DiskDrafts<'_> {
    type Draft = Draft;

    fn begin(&self, name: &str) -> io::Result<Draft> {
        let beside = format!(in self.alloc; "{name}.new")?;
        let name = String::from_str(self.alloc, name)?;
        let file = File::create_new(self.rt, beside.as_str())?;
        Ok(Draft { file, beside, name })
    }

    fn keep(&self, draft: Draft, text: &[u8]) -> io::Result<()> {
        let Draft {
            mut file,
            beside,
            name,
        } = draft;
        let written = match write_through(&mut file, text) {
            Ok(()) => fs::rename(self.rt, beside.as_str(), name.as_str()),
            Err(error) => Err(error),
        };
        if written.is_err() {
            let _ = fs::remove_file(self.rt, beside.as_str());
        }
        written
    }

    fn discard(&self, draft: Draft) {
        let _ = fs::remove_file(self.rt, draft.beside.as_str());
    }
}
