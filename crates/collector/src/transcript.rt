//! Texts that are opened by their names, and what was read of them.
//!
//! Only `open_named` and `open_marked` make an `Opened`, and only closing that leaves a `Transcript`. So a transcript has what the reader that was
//! opened under its name has handed over, and whether the reader said that this was all; of a text that had to end with the mark it has what came
//! before the mark.

ghost use Rattle.std.specs.Prelude.{◌≡◌, [], cond, false, None};
ghost use Rattle.collector.specs.Marks.{left_of};
ghost use Rattle.collector.specs.Transcripts.{bytes_of, is_complete, is_marked, is_marked_text, name_of, opened_as};
ghost use Rattle.collector.specs.Watching.{handed, has_ended, inner_of};

use crate::end_mark::Marked;
use crate::sources::Sources;
use crate::trace::Trace;
use crate::watched::Watched;

/// A text that may be read, the name under which it was opened, and whether it has to end with the mark.
#[derive(Drop)]
pub struct Opened<'a, R> {
    name: &'a str,
    is_marked: bool,
    pub text: Watched<R>,
}

/// The name of a text, whether it had to end with the mark, and for proofs alone what its reader handed over, to its end or not.
#[derive(Drop)]
pub struct Transcript<'a> {
    name: &'a str,
    is_marked: bool,
    trace: Trace,
    ended: bool,
}

/// Opens the text of that name.
pub fn open_named<'a, S: Sources<'a>>(sources: &S, name: &'a str) -> Opened<'a, S::Reader>
    ensures name { opened_as result ≡ name.now }
    ensures plain { is_marked_text result ≡ false }
    ensures content { S.Reader.remaining (inner_of result.text) ≡ S.content sources.now name.now }
    ensures none { handed result.text ≡ [] }
    ensures going { has_ended result.text ≡ false }
{
    Opened {
        name,
        is_marked: false,
        text: Watched::new(sources.open(name)),
    }
}

/// Opens the text of that name, which may have to end with the mark.
pub fn open_marked<'a, S: Sources<'a>>(
    sources: &S,
    name: &'a str,
    is_marked: bool,
) -> Opened<'a, Marked<S::Reader>>
    ensures name { opened_as result ≡ name.now }
    ensures marked { is_marked_text result ≡ is_marked }
    ensures content { left_of S.Reader.remaining (inner_of result.text) ≡ cond is_marked None (S.content sources.now name.now) }
    ensures none { handed result.text ≡ [] }
    ensures going { has_ended result.text ≡ false }
{
    Opened {
        name,
        is_marked,
        text: Watched::new(Marked::new(sources.open(name), is_marked)),
    }
}

impl<'a, R: Drop> Opened<'a, R> {
    /// Closes the text.
    pub fn close(self) -> Transcript<'a>
        ensures name { name_of result ≡ opened_as self.entry }
        ensures marked { is_marked result ≡ is_marked_text self.entry }
        ensures bytes { bytes_of result ≡ handed self.entry.text }
        ensures ended { is_complete result ≡ has_ended self.entry.text }
    {
        let (trace, ended) = self.text.into_trace();
        Transcript {
            name: self.name,
            is_marked: self.is_marked,
            trace,
            ended,
        }
    }
}
