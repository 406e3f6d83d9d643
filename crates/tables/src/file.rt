//! The file of a table as lines of an input text.

ghost use Rattle.std.specs.Prelude.{◌≡◌, ◌⊎◌, ◌++◌, ◌∷◌, ◌<◌, [], IfErr, IfOk, List, OnOk, Option, length, true, Bool, ℕ};
ghost use Rattle.std.specs.Io.KnownBytes.{Consumes, IsAtEnd};
ghost use Rattle.csv.specs.Reading.{strip_bom};
ghost use Rattle.collector.specs.Watching.{handed, inner_of};
ghost use Rattle.csv_blocks.specs.Blocks.{IsFaultOf, IsFilled, block_of};
ghost use Rattle.csv_blocks.specs.Texts.{AreWhole};
ghost use Rattle.csv_cells.specs.Texts.{Grows, texts_of};
ghost use Rattle.csv_strict.specs.Strict.{IsStrict};
ghost use Rattle.schema.specs.Text.{names_of};
ghost use Rattle.schema.specs.declared.tables.Table.{Table};
ghost use Rattle.tables.specs.Blocks.{HaveGone};
ghost use Rattle.tables.specs.TextFiles.{IsFaultIn, IsReadOut, IsRefusedBehind, MayFollow};
ghost use Rattle.tables.specs.Inputs.{IsEncodedFile, IsFileFault, IsKnownAs};
ghost use Rattle.tables.specs.Tables.{AreRefused};
ghost use Rattle.tables.specs.declared.file.Progress.TheVariants.{Records};

use crate::line_sink::LineSink;
use crate::records::{Target, encode_first, encode_next};
use crate::refusal::{FileFault, RecordFault, RowRefusal};
use collector::Watched;
use csv_answers::{Fault, TableRefusal};
use csv_blocks::{BlockFault, Blocks};
use csv_cells::Dictionary;
use csv_strict::line_of_record;
use schema::Table;
use std::alloc::Global;
use std::io::Read;

/// How far a file is.
#[derive(Clone, Copy)]
pub enum Progress {
    /// Its header row comes next.
    Header,
    /// Records come next, after one of that epoch.
    Records(Option<i64>),
}

/// Appends the lines of the records of a block, behind a line feed, and gives the epoch of the last. A refusal counts the records from the block's first.
fn encode_block<O: LineSink>(
    alloc: Global,
    table: &Table,
    target: Target<'_>,
    dictionary: &mut Dictionary,
    text: &[u8],
    progress: Progress,
    out: &mut O,
) -> Result<Option<i64>, RowRefusal>
    ensures encoded { (done block lines : List ℕ) → AreWhole done → text.now ≡ 10 ∷ block → HaveGone table.now target.entry (texts_of dictionary.old) progress done lines
        → IfOk result (λ latest. (more : List ℕ) × HaveGone table.now target.entry (texts_of dictionary.new) (Records latest) (done ++ block) (lines ++ more)
        × ((first : O) (taken : List ℕ) → O.took first out.old taken → O.took first out.new (taken ++ more))) }
    ensures refused { (done block lines tail file : List ℕ) → AreWhole done → text.now ≡ 10 ∷ block → HaveGone table.now target.entry (texts_of dictionary.old) progress done lines
        → (last : Bool) → MayFollow last block tail → strip_bom file ≡ (done ++ block) ++ tail
        → IfErr result (λ r. AreRefused (names_of table.now) table.now.columns.items target.entry.epochs file (texts_of dictionary.new) r.fault) }
    ensures grows { OnOk result (Grows (texts_of dictionary.old) (texts_of dictionary.new)) }
    ensures stays { (first : O) → O.stays first out.old → O.stays first out.new }
{
    match progress {
        Progress::Header => encode_first(
            alloc,
            &table.headers,
            &table.columns,
            target,
            dictionary,
            text,
            out,
        ),
        Progress::Records(last) => encode_next(
            alloc,
            &table.columns,
            target,
            dictionary,
            text,
            last,
            out,
        ),
    }
}

/// The fault of a text that isn't read on.
fn fault_of_block(fault: BlockFault) -> FileFault
    ensures { (table : Table) (known : Option (List ℕ)) (texts : List (List ℕ)) (file : List ℕ) → IsKnownAs known file → IsFaultOf (strip_bom file) fault
        → IsFileFault table known texts result }
{
    match fault {
        BlockFault::NoMemory => FileFault::Refused(TableRefusal::NoMemory),
        BlockFault::Read => FileFault::Read,
        BlockFault::Count => FileFault::Count,
        BlockFault::Text(refusal) => FileFault::Refused(TableRefusal::At {
            fault: Fault::Text(refusal.fault),
            line: refusal.line,
        }),
    }
}

/// Reads a text to its end, of which a block was read, the last one or not.
fn read_out<R: Read>(
    blocks: &mut Blocks,
    source: &mut Watched<R>,
    last: bool,
) -> Result<(), BlockFault>
    ensures whole { (done : List ℕ) → IsFilled last done blocks.old (handed source.old)
        → OnOk result (IsReadOut last (done ++ block_of blocks.old) (handed source.new)) }
    ensures refused { (done : List ℕ) → IsFilled last done blocks.old (handed source.old)
        → IfErr result (IsFaultIn (R.remaining (inner_of source.new)) (handed source.new)) }
    ensures ended { (last ≡ true → IsAtEnd (R.remaining (inner_of source.old))) → OnOk result (IsAtEnd (R.remaining (inner_of source.new))) }
    ensures consumed { (start : Option (List ℕ)) → Consumes start (R.remaining (inner_of source.old)) (handed source.old)
        → Consumes start (R.remaining (inner_of source.new)) (handed source.new) }
{
    let mut ended = last;
    for _block in 0..u64::MAX {
        if ended {
            return Ok(());
        }
        ended = match blocks.fill(source) {
            Ok(ended) => ended,
            Err(fault) => return Err(fault),
        };
    }
    Err(BlockFault::NoMemory)
}

/// The fault of a file with a record that has no lines: that of its text, if it has one.
fn fault_of_file<R: Read>(
    blocks: &mut Blocks,
    source: &mut Watched<R>,
    last: bool,
    refusal: RowRefusal,
) -> FileFault
    ensures { (table : Table) (texts : List (List ℕ)) (start : Option (List ℕ)) (done : List ℕ) → IsFilled last done blocks.old (handed source.old)
        → Consumes start (R.remaining (inner_of source.old)) (handed source.old) → (last ≡ true → IsAtEnd (R.remaining (inner_of source.old)))
        → IsRefusedBehind table texts last done (block_of blocks.old) refusal.fault → IsFileFault table start texts result }
{
    let fault = match refusal.fault {
        RecordFault::NoMemory => return FileFault::Refused(TableRefusal::NoMemory),
        RecordFault::Stopped => return FileFault::Stopped,
        RecordFault::Fault(fault) => fault,
    };
    let line = blocks
        .lines_before()
        .saturating_add(line_of_record(&blocks.block()[1..], refusal.count));
    match read_out(blocks, source, last) {
        Ok(()) => FileFault::Refused(TableRefusal::At { fault, line }),
        Err(fault) => fault_of_block(fault),
    }
}

/// Appends the lines of a table's file. A refusal is of its first fault: of its text, its header row, or its records.
pub fn encode_file<R: Read + Drop, O: LineSink>(
    alloc: Global,
    table: &Table,
    shared: &[u8],
    dictionary: &mut Dictionary,
    file: R,
    out: &mut O,
) -> Result<(), FileFault>
    ensures encoded { OnOk result ((text lines : List ℕ) × IsKnownAs (R.remaining file) text × IsEncodedFile table.now shared.now text (texts_of dictionary.new) lines
        × ((first : O) (taken : List ℕ) → O.took first out.old taken → O.took first out.new (taken ++ lines))) }
    ensures refused { IfErr result (IsFileFault table.now (R.remaining file) (texts_of dictionary.new)) }
    ensures grows { OnOk result (Grows (texts_of dictionary.old) (texts_of dictionary.new)) }
    ensures stays { (first : O) → O.stays first out.old → O.stays first out.new }
{
    let target = Target {
        epochs: table.epochs,
        name: &table.name,
        shared,
    };
    let mut source = Watched::new(file);
    let Ok(mut blocks) = Blocks::new(alloc) else {
        return Err(FileFault::Refused(TableRefusal::NoMemory));
    };
    let mut progress = Progress::Header;
    for _block in 0..u64::MAX {
        let last = match blocks.fill(&mut source) {
            Ok(last) => last,
            Err(fault) => return Err(fault_of_block(fault)),
        };
        match encode_block(
            alloc,
            table,
            target,
            dictionary,
            blocks.block(),
            progress,
            out,
        ) {
            Ok(latest) => progress = Progress::Records(latest),
            Err(refusal) => return Err(fault_of_file(&mut blocks, &mut source, last, refusal)),
        }
        if last {
            return Ok(());
        }
    }
    Err(FileFault::Count)
}
