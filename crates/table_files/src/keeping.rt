//! A dictionary's file, which is written anew once what it is for is written.

ghost use Rattle.std.specs.Prelude.{◌≡◌, ◌⊎◌, IfErr, OnOk};
ghost use Rattle.std.specs.Io.KnownBytes.{Appends};
ghost use Rattle.collector.specs.Watching.{inner_of};
ghost use Rattle.table_faults.specs.Written.{IsWriteFault};

use crate::drafts::Drafts;
use collector::{Watched, put};
use csv_cells::Dictionary;
use std::alloc::Global;
use std::io::{ErrorKind, Write};
use table_faults::{Fault, WordFault};
use tables::dictionary_text;

/// Begins to write the dictionary of that name, which no other command writes meanwhile. Standard input can't be one.
pub fn begin_dictionary<'a, D: Drafts>(drafts: &D, name: &'a str) -> Result<D::Draft, Fault<'a>> {
    if name == "-" {
        return Err(Fault::Words(WordFault::NoDictionaryFile));
    }
    match drafts.begin(name) {
        Ok(draft) => Ok(draft),
        Err(error) => Err(match error.kind() {
            ErrorKind::OutOfMemory => Fault::NoMemory,
            kind => Fault::Dictionary(name, kind == ErrorKind::AlreadyExists),
        }),
    }
}

/// The text of a dictionary's file, if it has more than that many texts.
pub fn grown_text<'a>(
    alloc: Global,
    dictionary: &Dictionary,
    count: usize,
) -> Result<Option<Vec<u8>>, Fault<'a>> {
    if dictionary.len() == count {
        return Ok(None);
    }
    match dictionary_text(alloc, dictionary) {
        Ok(kept) => Ok(Some(kept)),
        Err(_) => Err(Fault::NoMemory),
    }
}

/// Puts the dictionary's text in the place of its file, if it has grown.
pub fn keep_dictionary<'a, D: Drafts>(
    drafts: &D,
    draft: D::Draft,
    name: &'a str,
    kept: Option<Vec<u8>>,
) -> Result<(), Fault<'a>>
    ensures { IfErr result IsWriteFault }
{
    match kept {
        None => {
            drafts.discard(draft);
            Ok(())
        }
        Some(bytes) => match drafts.keep(draft, bytes.as_slice()) {
            Ok(()) => Ok(()),
            Err(_) => Err(Fault::Dictionary(name, false)),
        },
    }
}

/// Writes a text, and keeps the dictionary.
pub fn write_with<'a, D: Drafts, W: Write>(
    drafts: &D,
    draft: D::Draft,
    name: &'a str,
    made: (Vec<u8>, Option<Vec<u8>>),
    out: &mut Watched<W>,
) -> Result<(), Fault<'a>>
    ensures written { OnOk result (Appends (W.contents (inner_of out.old)) (W.contents (inner_of out.new)) made.0.items) }
    ensures fault { IfErr result (λ fault. IsWriteFault fault ⊎ (W.contents (inner_of out.new) ≡ W.contents (inner_of out.old))) }
{
    let (text, kept) = made;
    if put(out, text.as_slice()).is_err() {
        drafts.discard(draft);
        return Err(Fault::Write);
    }
    keep_dictionary(drafts, draft, name, kept)
}
