//! Follows a CSV text, and writes the rows of each epoch's answer.

ghost use Rattle.std.specs.Prelude.{◌≡◌, ◌⊎◌, ◌++◌, [], IfErr, IfOk, List, ℕ, OnOk, Option};
ghost use Rattle.collector.specs.Watching.{inner_of};
ghost use Rattle.csv_cells.specs.Texts.{texts_of};
ghost use Rattle.csv_epochs.specs.declared.epoch.Epoch as epoch;
ghost use Rattle.table_epochs.specs.Followed.{FailsText, FollowsAll, FollowsPart, IsStart, Reached};
ghost use Rattle.table_epochs.specs.Going.{BreaksIn, BreaksOff, HasHeader, HasTaken, HasWritten};
ghost use Rattle.table_epochs.specs.Going.{IsGoing, Keeps, WritesEpoch, followed_by, reached_by};
ghost use Rattle.table_commands.specs.Read.{IsKnownAs};
ghost use Rattle.tables.specs.Inputs.{AreNumbered};

use crate::epoch_answer::{Following, Lines, answer_epoch, files_fault, put_text};
use collector::{Watched, put};
use csv_epochs::{Ending, Epoch, SplitFault, Splitter};
use diagnostics::{Fault, Texts};
use query_answers::Answering;
use std::alloc::Global;
use std::io::{Read, Write};
use table_queries::RunFault;
use tables::{EncodeRefusal, TableRefusal, encode_texts};

/// The greatest number of bytes that are read of a file.
const MAX_BYTES: u64 = 18_446_744_073_709_551_614;

/// Why a file whose text isn't split on is refused.
fn text_refusal(fault: SplitFault) -> TableRefusal {
    match fault {
        SplitFault::NoMemory => TableRefusal::NoMemory,
        SplitFault::Text(refusal) => TableRefusal::At {
            fault: tables::Fault::Text(refusal.fault),
            line: refusal.line,
        },
    }
}

/// The fault of a text that isn't split on.
fn split_fault<'a>(
    alloc: Global,
    following: &Following<'_, 'a>,
    fault: SplitFault,
) -> RunFault<'a> {
    let refusal = text_refusal(fault);
    let file = following.stream.place;
    let lines = Lines {
        header: 0,
        first: 1,
    };
    files_fault(
        alloc,
        &following.job,
        file,
        lines,
        EncodeRefusal { file, refusal },
    )
}

/// The rows of a CSV file, without the header row.
fn rows_under<'f>(header: &[u8], file: &'f [u8]) -> &'f [u8]
    ensures { (rows : List ℕ) → file.now ≡ header.now ++ rows → result.now ≡ rows }
{
    match file.strip_prefix(header) {
        Some(rows) => rows,
        None => file,
    }
}

/// Answers an epoch, and writes its rows, the first time under the header row.
fn write_epoch<'a, A: Answering, W: Write>(
    engine: &A,
    alloc: Global,
    following: &mut Following<'_, 'a>,
    epoch: Epoch,
    texts: &mut Texts,
    out: &mut Watched<W>,
) -> Result<(), RunFault<'a>>
    requires { A.is_usable }
    ensures written { HasHeader following.old → OnOk result (WritesEpoch (followed_by following.old) (reached_by following.old)
        (reached_by following.new) epoch (W.contents (inner_of out.old)) (W.contents (inner_of out.new))) }
    ensures fault { HasHeader following.old → IfErr result (λ fault. (W.contents (inner_of out.new) ≡ W.contents (inner_of out.old)) ⊎ BreaksOff
        (followed_by following.old) (reached_by following.old) epoch (W.contents (inner_of out.old)) (W.contents (inner_of out.new)) fault) }
    ensures keeps { OnOk result (Keeps following.old following.new) }
{
    let is_first = following.count == 0;
    let file = answer_epoch(engine, alloc, following, epoch, texts)?;
    let rows = if is_first {
        file.as_slice()
    } else {
        rows_under(following.header.as_slice(), file.as_slice())
    };
    match put(out, rows) {
        Ok(()) => Ok(()),
        Err(_) => Err(RunFault::Tables(table_commands::Fault::Write)),
    }
}

/// Takes a piece of the file, and writes the rows of each epoch that is complete then.
fn follow_piece<'a, A: Answering, W: Write>(
    engine: &A,
    alloc: Global,
    following: &mut Following<'_, 'a>,
    splitter: &mut Splitter,
    piece: &[u8],
    texts: &mut Texts,
    out: &mut Watched<W>,
) -> Result<(), RunFault<'a>>
    requires { A.is_usable }
    ensures going { (start : Reached) (text : List ℕ) (before : Option (List ℕ)) → HasHeader following.old → IsStart start
        → IsGoing (followed_by following.old) start (reached_by following.old) splitter.old text piece.now before (W.contents (inner_of out.old))
        → OnOk result (IsGoing (followed_by following.old) start (reached_by following.new) splitter.new text [] before
        (W.contents (inner_of out.new))) }
    ensures fault { (start : Reached) (text : List ℕ) (before : Option (List ℕ)) → HasHeader following.old → IsStart start
        → IsGoing (followed_by following.old) start (reached_by following.old) splitter.old text piece.now before (W.contents (inner_of out.old))
        → IfErr result (λ fault. FollowsPart (followed_by following.old) text fault before (W.contents (inner_of out.new))) }
    ensures keeps { OnOk result (Keeps following.old following.new) }
{
    let mut rest = piece;
    'epochs: loop {
        let (found, behind) = match splitter.take(rest) {
            Ok(taken) => taken,
            Err(fault) => return Err(split_fault(alloc, following, fault)),
        };
        let Some(epoch) = found else {
            return Ok(());
        };
        write_epoch(engine, alloc, following, epoch, texts, out)?;
        rest = behind;
    }
}

/// Writes the rows of the last epochs.
fn follow_last<'a, A: Answering, W: Write>(
    engine: &A,
    alloc: Global,
    following: &mut Following<'_, 'a>,
    epochs: Vec<Epoch>,
    texts: &mut Texts,
    out: &mut Watched<W>,
) -> Result<(), RunFault<'a>>
    requires { A.is_usable }
    ensures written { (start : Reached) (done : List epoch.Epoch) (before : Option (List ℕ)) → HasHeader following.old → IsStart start
        → HasWritten (followed_by following.old) start (reached_by following.old) done before (W.contents (inner_of out.old))
        → OnOk result (HasWritten (followed_by following.old) start (reached_by following.new) (done ++ epochs.items) before
        (W.contents (inner_of out.new))) }
    ensures fault { (start : Reached) (done : List epoch.Epoch) (before : Option (List ℕ)) → HasHeader following.old → IsStart start
        → HasWritten (followed_by following.old) start (reached_by following.old) done before (W.contents (inner_of out.old)) → IfErr result
        (BreaksIn (followed_by following.old) start done epochs.items before (W.contents (inner_of out.new))) }
    ensures keeps { OnOk result (Keeps following.old following.new) }
{
    for epoch in epochs {
        write_epoch(engine, alloc, following, epoch, texts, out)?;
    }
    Ok(())
}

/// Reads the file, and writes the rows of each epoch once it is complete. Gives the header row.
pub fn follow_text<'a, A: Answering, T: Read, W: Write>(
    engine: &A,
    alloc: Global,
    following: &mut Following<'_, 'a>,
    path: &'a str,
    text: &mut Watched<T>,
    texts: &mut Texts,
    out: &mut Watched<W>,
) -> Result<Vec<u8>, RunFault<'a>>
    requires { A.is_usable }
    ensures taken { HasHeader following.old → IsStart (reached_by following.old) → IfOk result
        (λ header. (bytes : List ℕ) × IsKnownAs (T.remaining (inner_of text.old)) bytes
        × HasTaken (followed_by following.old) (reached_by following.old) (reached_by following.new) bytes header.items
        (W.contents (inner_of out.old)) (W.contents (inner_of out.new))) }
    ensures fault { HasHeader following.old → IsStart (reached_by following.old) → IfErr result
        (FailsText (T.remaining (inner_of text.old)) (followed_by following.old) (W.contents (inner_of out.old)) (W.contents (inner_of out.new))) }
    ensures keeps { OnOk result (Keeps following.old following.new) }
{
    let mut splitter = Splitter::new(alloc, following.stream.column);
    let mut piece = [0; 16_384];
    let mut room = MAX_BYTES;
    'pieces: loop {
        let Ok(count) = text.pull(&mut piece) else {
            return Err(RunFault::Tables(table_commands::Fault::Read(path)));
        };
        if count == 0 {
            break;
        }
        let Some(left) = room.checked_sub(count as u64) else {
            return Err(RunFault::Run(Fault::Count));
        };
        room = left;
        follow_piece(
            engine,
            alloc,
            following,
            &mut splitter,
            &piece[..count],
            texts,
            out,
        )?;
    }
    match splitter.finish() {
        Ok(Ending { header, epochs }) => {
            follow_last(engine, alloc, following, epochs, texts, out)?;
            Ok(header)
        }
        Err(fault) => Err(split_fault(alloc, following, fault)),
    }
}

/// Reads the other files with this text in the place of the one that arrives: their first fault, or that of its header row.
pub fn check_files<'a>(
    alloc: Global,
    following: &mut Following<'_, 'a>,
    header: Vec<u8>,
) -> Result<(), RunFault<'a>>
    ensures keeps { Keeps following.old following.new }
    ensures paths { following.new.job ≡ following.old.job }
    ensures count { following.new.count ≡ following.old.count }
    ensures last { following.new.last ≡ following.old.last }
    ensures numbered { OnOk result (AreNumbered following.old.job.schema.now.constants.items (texts_of following.old.dictionary) (texts_of following.new.dictionary)) }
{
    let place = following.stream.place;
    put_text(&mut following.files, place, header);
    let files = following.files.as_slice();
    match encode_texts(
        alloc,
        following.job.schema,
        &mut following.dictionary,
        files,
    ) {
        Ok(_) => Ok(()),
        Err(refused) => {
            let lines = Lines {
                header: 0,
                first: 1,
            };
            Err(files_fault(alloc, &following.job, place, lines, refused))
        }
    }
}

/// Writes the header row alone, if there was no epoch and the header row of the file is right.
pub fn follow_end<'a, W: Write>(
    alloc: Global,
    following: &mut Following<'_, 'a>,
    header: Vec<u8>,
    out: &mut Watched<W>,
) -> Result<(), RunFault<'a>>
    ensures written { (start : Reached) (text : List ℕ) (before : Option (List ℕ)) → HasHeader following.old → IsStart start
        → HasTaken (followed_by following.old) start (reached_by following.old) text header.items before (W.contents (inner_of out.old))
        → OnOk result (FollowsAll (followed_by following.old) start text before (W.contents (inner_of out.new))) }
    ensures fault { (start : Reached) (text : List ℕ) (before : Option (List ℕ)) → HasHeader following.old → IsStart start
        → HasTaken (followed_by following.old) start (reached_by following.old) text header.items before (W.contents (inner_of out.old))
        → IfErr result (λ fault. FollowsPart (followed_by following.old) text fault before (W.contents (inner_of out.new))) }
{
    if following.count != 0 {
        return Ok(());
    }
    check_files(alloc, following, header)?;
    match put(out, following.header.as_slice()) {
        Ok(()) => Ok(()),
        Err(_) => Err(RunFault::Tables(table_commands::Fault::Write)),
    }
}
