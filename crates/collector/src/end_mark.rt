//! Inputs that have to end with a mark.
//!
//! A producer that is killed looks like one that is done. So an input may have to end with a line `end`: then it is whole only where that is its last
//! line, and nothing comes after it.

ghost use Rattle.std.specs.Prelude.{◌≡◌, ◌<◌, ◌≤◌, ◌-◌, ◌++◌, [], false, length, take, true, IfNone, IfOk, IfSome, IsTrue};
ghost use Rattle.std.specs.Io.{ReadsAtMost};
ghost use Rattle.std.specs.Io.KnownBytes.{ReadConsumes};
ghost use Rattle.collector.specs.Watching.{handed, inner_of};
ghost use Rattle.collector.specs.Mark.{end_mark};

use crate::trace::Trace;
use crate::watched::Watched;
use std::io;
use std::io::{ErrorKind, Read};

/// The mark: a line `end`.
const MARK: [u8; 4] = *b"end\n";

/// A text that is read, and that may have to end with the mark. Then the mark isn't handed over, and the read that finds the text's end without it
/// fails, as one does whose piece has fewer than 5 bytes. Only bytes that may begin the mark are held back until more are read.
#[derive(Drop)]
pub struct Marked<R> {
    reader: Watched<R>,
    is_marked: bool,
    held: usize,
    starts_line: bool,
    given: Trace,
    ghost few: { held ≤ 4 },
    ghost plain: { is_marked ≡ false → held ≡ 0 },
    ghost split: { handed reader ≡ given.items ++ take held end_mark },
}

/// Whether a piece ends with the first bytes of the mark, and these begin a line.
fn ends_in_mark(piece: &[u8], count: usize, starts_line: bool) -> bool
    requires { count ≤ 4 }
    ensures within { IsTrue result → count ≤ length piece.now }
    ensures ends { IsTrue result → take (length piece.now - count) piece.now ++ take count end_mark ≡ piece.now }
{
    let Some(at) = piece.len().checked_sub(count) else {
        return false;
    };
    let (before, end) = piece.split_at(at);
    let begins_line = match before.last() {
        None => starts_line,
        Some(last) => *last == b'\n',
    };
    begins_line && end == &MARK[..count]
}

/// How many bytes at the end of a piece begin the mark, or are all of it.
fn mark_begun(piece: &[u8], starts_line: bool) -> usize
    ensures few { result ≤ 4 }
    ensures within { result ≤ length piece.now }
    ensures ends { take (length piece.now - result) piece.now ++ take result end_mark ≡ piece.now }
{
    for count in 1..5 {
        if ends_in_mark(piece, count, starts_line) {
            return count;
        }
    }
    0
}

impl<R> Marked<R> {
    ghost use Rattle.collector.specs.Marks.{given_of, has_to_end, reader_of};

    /// A text of which nothing was read.
    pub(crate) fn new(reader: R, is_marked: bool) -> Marked<R>
        ensures reader { inner_of (reader_of result) ≡ reader }
        ensures none { given_of result ≡ [] }
        ensures marked { has_to_end result ≡ is_marked }
    {
        Marked {
            reader: Watched::new(reader),
            is_marked,
            held: 0,
            starts_line: true,
            given: Trace::new(),
        }
    }
}

impl<R: Read> Marked<R> {
    ghost use Rattle.collector.specs.Marks.{IsWhole, given_of, has_to_end, reader_of};

    /// Reads once from a text that needs no mark.
    fn read_plain(&mut self, buf: &mut [u8]) -> io::Result<usize>
        requires { has_to_end self.old ≡ false }
        ensures bound { ReadsAtMost result buf.new }
        ensures known { ReadConsumes (R.remaining (inner_of (reader_of self.old))) (R.remaining (inner_of (reader_of self.new))) result buf.new }
        ensures given { IfOk result (λ n. given_of self.new ≡ given_of self.old ++ take n buf.new) }
        ensures last { IfOk result (λ n. n ≡ 0 → 0 < length buf.old → IsWhole self.new) }
        ensures marked { has_to_end self.new ≡ has_to_end self.old }
    {
        let count = self.reader.pull(buf)?;
        self.given.add(&buf[..count]);
        Ok(count)
    }

    /// Reads once from a text that needs the mark: behind the bytes that were held back, which come first in the piece. Gives how many bytes of it are
    /// handed over, 0 where all of them may begin the mark. None at the end.
    fn advance(&mut self, piece: &mut [u8]) -> io::Result<Option<usize>>
        requires marked { has_to_end self.old ≡ true }
        requires room { 4 < length piece.old }
        ensures bound { IfOk result (λ some. IfSome some (λ n. n ≤ length piece.new)) }
        ensures given { IfOk result (λ some. IfSome some (λ n. given_of self.new ≡ given_of self.old ++ take n piece.new)) }
        ensures held { IfOk result (λ some. IfSome some (λ n. n ≡ 0 → self.old.held < self.new.held)) }
        ensures whole { IfOk result (λ some. IfNone some (IsWhole self.new)) }
        ensures none { IfOk result (λ some. IfNone some (given_of self.new ≡ given_of self.old)) }
        ensures marked { has_to_end self.new ≡ has_to_end self.old }
    {
        let held = self.held;
        piece[..held].copy_from_slice(&MARK[..held]);
        let count = self.reader.pull(&mut piece[held..])?;
        if count == 0 {
            if held < MARK.len() {
                return Err(io::Error::new(ErrorKind::UnexpectedEof, "the last line isn't 'end'"));
            }
            return Ok(None);
        }
        let read = &piece[..held + count];
        let begun = mark_begun(read, self.starts_line);
        let (given, _) = read.split_at(read.len() - begun);
        self.held = begun;
        self.given.add(given);
        if let Some(last) = given.last() {
            self.starts_line = *last == b'\n';
        }
        Ok(Some(given.len()))
    }

    /// Reads until there are bytes to hand over, from a text that needs the mark.
    fn read_marked(&mut self, buf: &mut [u8]) -> io::Result<usize>
        requires { has_to_end self.old ≡ true }
        ensures bound { ReadsAtMost result buf.new }
        ensures given { IfOk result (λ n. given_of self.new ≡ given_of self.old ++ take n buf.new) }
        ensures last { IfOk result (λ n. n ≡ 0 → 0 < length buf.old → IsWhole self.new) }
        ensures marked { has_to_end self.new ≡ has_to_end self.old }
    {
        if buf.is_empty() {
            return Ok(0);
        }
        if buf.len() <= MARK.len() {
            return Err(io::Error::new(ErrorKind::InvalidInput, "the piece is too short"));
        }
        'turns: loop {
            match self.advance(buf)? {
                None => return Ok(0),
                Some(0) => {}
                Some(count) => return Ok(count),
            }
        }
    }
}

impl<R: Read> Read for Marked<R> {
    ghost use Rattle.collector.specs.Marks.{IsWhole, given_of, has_to_end, left_of};

    ghost remaining = { λ m. left_of R.remaining m };

    fn read(&mut self, buf: &mut [u8]) -> io::Result<usize>
        ensures bound { ReadsAtMost result buf.new }
        ensures known { ReadConsumes (left_of R.remaining self.old) (left_of R.remaining self.new) result buf.new }
        ensures given { IfOk result (λ n. given_of self.new ≡ given_of self.old ++ take n buf.new) }
        ensures last { IfOk result (λ n. n ≡ 0 → 0 < length buf.old → IsWhole self.new) }
        ensures marked { has_to_end self.new ≡ has_to_end self.old }
    {
        if self.is_marked {
            self.read_marked(buf)
        } else {
            self.read_plain(buf)
        }
    }
}
