//! A line of words, answered.

ghost use Rattle.std.specs.Prelude.{◌≡◌, ◌<◌, ◌↔◌, ◌⊎◌, IfErr, IsTrue, OnOk, codes, map, true};
ghost use Rattle.collector.specs.Watching.{inner_of};
ghost use Rattle.table_commands.specs.Done.{IsDone, IsQuiet};
ghost use Rattle.table_commands.specs.Written.{IsOfTables, IsTablesWord, IsWriteFault};
ghost use Rattle.table_words.specs.Line.{Asks};
ghost use Rattle.table_words.specs.declared.line.Asked.{Asked};

use crate::decoding::decode_answer;
use crate::encoding::{Encoding, encode_files};
use crate::listing::list_kinds;
use collector::{Sources, Watched};
use std::alloc::Global;
use std::io::Write;
use table_files::{Drafts, Fault};
use table_words::{Asked, LineError, read_words};

/// Whether a word is `encode`, `decode` or `kinds`.
fn is_command(word: &str) -> bool
    ensures { IsTrue result ↔ IsTablesWord word.now }
{
    word == "encode" || word == "decode" || word == "kinds"
}

/// Whether a word is `help`.
fn is_help(word: &str) -> bool
    ensures { IsTrue result ↔ (word.now ≡ codes "help") }
{
    word == "help"
}

/// Whether a line, whose first word is the program's own, is one of `encode`, `decode` or `kinds`, or asks for their help.
pub fn is_of_tables(words: &[&str]) -> bool
    ensures { result ≡ true → IsOfTables (map (λ s. s.now) words.now) }
{
    match words {
        [_, first, ..] if is_command(first) => true,
        [_, first, second, ..] => is_help(first) && is_command(second),
        _ => false,
    }
}

/// Does what is asked for.
fn obey<'a, S: Sources<'a>, D: Drafts, W: Write>(
    alloc: Global,
    sources: &S,
    drafts: &D,
    asked: &Asked<'a>,
    out: &mut Watched<W>,
) -> Result<(), Fault<'a>>
    ensures written { OnOk result (IsDone (S.content sources.now) asked.now (W.contents (inner_of out.old)) (W.contents (inner_of out.new))) }
    ensures fault { IfErr result (λ fault. IsWriteFault fault ⊎ IsQuiet asked.now (W.contents (inner_of out.old)) (W.contents (inner_of out.new))) }
{
    match asked {
        Asked::Encode {
            schema,
            files,
            dictionary,
            end_mark,
        } => {
            let asked = Encoding {
                schema: *schema,
                files: files.as_slice(),
                dictionary: *dictionary,
                end_mark: *end_mark,
            };
            encode_files(alloc, sources, drafts, asked, out)
        }
        Asked::Decode(asked) => decode_answer(alloc, sources, *asked, out),
        Asked::Kinds(asked) => list_kinds(alloc, sources, *asked, out),
    }
}

/// Reports a fault by one write, and gives its status.
pub fn report<E: Write>(alloc: Global, fault: &Fault<'_>, err: &mut E) -> u8
    ensures write { IsWriteFault fault.now → result ≡ 6 }
    ensures some { 0 < result }
{
    let mut text = Vec::new(alloc);
    let _ = match fault.write_line(&mut text) {
        Ok(()) => err.write_all(text.as_slice()),
        Err(_) => fault.write_line(err),
    };
    fault.status()
}

/// Reports why words are refused, and gives the status.
pub fn refuse<E: Write>(error: LineError, err: &mut E) -> u8
    ensures { 0 < result }
{
    match error {
        LineError::NoMemory => {
            let _ = writeln!(err, "out of memory");
            5
        }
        LineError::Words(error) => {
            let _ = write!(err, "{error}");
            2
        }
    }
}

/// Does what is asked for, reports a fault, and gives the status.
fn answer<'a, S: Sources<'a>, D: Drafts, W: Write, E: Write>(
    alloc: Global,
    sources: &S,
    drafts: &D,
    asked: &Asked<'a>,
    out: &mut Watched<W>,
    err: &mut E,
) -> u8
    ensures written { result ≡ 0 → IsDone (S.content sources.now) asked.now (W.contents (inner_of out.old)) (W.contents (inner_of out.new)) }
    ensures quiet { ((result ≡ 0) ⊎ (result ≡ 6)) ⊎ IsQuiet asked.now (W.contents (inner_of out.old)) (W.contents (inner_of out.new)) }
{
    match obey(alloc, sources, drafts, asked, out) {
        Ok(()) => 0,
        Err(fault) => report(alloc, &fault, err),
    }
}

/// Answers a line of `encode`, `decode` or `kinds`, whose first word is the program's own, and gives the status: 0 done, 2 command line, 3 schema or
/// query, 4 a file's text, 5 memory, 6 file.
pub fn answer_tables<'a, S: Sources<'a>, D: Drafts, W: Write, E: Write>(
    alloc: Global,
    sources: &S,
    drafts: &D,
    words: &'a [&'a str],
    out: &mut Watched<W>,
    err: &mut E,
) -> u8
    ensures written { result ≡ 0 → (asked : Asked) × Asks (map (λ s. s.now) words.entry.now) asked
        × IsDone (S.content sources.now) asked (W.contents (inner_of out.old)) (W.contents (inner_of out.new)) }
    ensures quiet { ((result ≡ 0) ⊎ (result ≡ 6)) ⊎ (W.contents (inner_of out.new) ≡ W.contents (inner_of out.old))
        ⊎ ((asked : Asked) × Asks (map (λ s. s.now) words.entry.now) asked × IsQuiet asked (W.contents (inner_of out.old)) (W.contents (inner_of out.new))) }
{
    let asked = match read_words(alloc, words) {
        Ok(Some(asked)) => asked,
        Ok(None) => return 2,
        Err(error) => return refuse(error, err),
    };
    answer(alloc, sources, drafts, &asked, out, err)
}
