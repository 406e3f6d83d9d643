//! The records of a CSV text as lines of an input text.

ghost use Rattle.schema.specs.declared.tables.Epochs.TheVariants.{By};
ghost use Rattle.csv_answers.specs.declared.refusal.Fault.TheVariants as fault;
ghost use Rattle.csv.specs.Reading.{AreRecords, default_config, strip_bom};
ghost use Rattle.csv.specs.declared.parser.State.TheVariants as st;
ghost use Rattle.tables.specs.declared.refusal.RecordFault.TheVariants as record_fault;
ghost use Rattle.std.specs.Prelude.{◌≡◌, ◌↔◌, ◌⊎◌, ◌++◌, ◌∷◌, [], IfErr, IfOk, IsTrue, List, None, OnOk, map, ℕ};
ghost use Rattle.csv_cells.specs.Encoded.{line_text};
ghost use Rattle.csv_cells.specs.Texts.{Grows, texts_of};
ghost use Rattle.tables.specs.Blocks.{AreAppended, NeedsNoReason, ReadsOn, Stops};
ghost use Rattle.tables.specs.Tables.{AreRefused, BeginsWith, HasRead, IsLate, epoch_of, head_text};

use crate::header::{new_reader, read_header, read_record};
use crate::line_sink::{LineSink, SinkFault};
use crate::refusal::{RecordFault, RowRefusal, fault_of_row, fault_of_sink};
use csv::{ByteRecord, Reader};
use csv_answers::Fault;
use csv_cells::{Column, Dictionary, read_row};
use schema::Epochs;
use std::alloc::Global;

/// The epoch of a record: its value in the column by which the table has its epochs.
fn epoch_value(epochs: Epochs, numbers: &[i64]) -> Option<i64>
    ensures { result ≡ epoch_of epochs numbers.now }
{
    match epochs {
        Epochs::One | Epochs::Every => None,
        Epochs::By(place) => {
            if place < numbers.len() {
                Some(numbers[place])
            } else {
                Some(0)
            }
        }
    }
}

/// Appends what begins the epoch of a record, if it isn't that of the record before.
#[inline(always)]
fn append_head<O: LineSink>(
    out: &mut O,
    shared: &[u8],
    last: Option<i64>,
    epoch: Option<i64>,
) -> Result<(), SinkFault>
    ensures taken { (first : O) (taken : List ℕ) → O.took first out.old taken → OnOk result (O.took first out.new (taken ++ head_text shared.now last epoch)) }
    ensures stays { (first : O) → O.stays first out.old → O.stays first out.new }
{
    let Some(now) = epoch else {
        return Ok(());
    };
    if let Some(before) = last {
        if before == now {
            return Ok(());
        }
    }
    out.append(b"epoch\n")?;
    out.append(shared)
}

/// Whether the epoch of a record comes before that of the one before.
fn is_late(last: Option<i64>, epoch: Option<i64>) -> bool
    ensures { IsTrue result ↔ IsLate last epoch }
{
    match (last, epoch) {
        (Some(before), Some(now)) => now < before,
        _ => false,
    }
}

/// The fault of a record that comes too late.
fn late_fault(epochs: Epochs) -> RecordFault
    ensures { (place : ℕ) → epochs ≡ By place → result ≡ record_fault.Fault (fault.Order place) }
{
    match epochs {
        Epochs::By(place) => RecordFault::Fault(Fault::Order(place)),
        Epochs::One | Epochs::Every => RecordFault::Fault(Fault::Order(0)),
    }
}

/// Where a table's records go: its epochs, its name, and the lines that are part of each of its epochs.
#[derive(Clone, Copy)]
pub struct Target<'a> {
    pub epochs: Epochs,
    pub name: &'a [u8],
    pub shared: &'a [u8],
}

/// Appends the lines of a record. `last` is the epoch of the record before.
#[inline(always)]
fn append_row<O: LineSink>(
    out: &mut O,
    target: Target<'_>,
    last: Option<i64>,
    numbers: &[i64],
) -> Result<(), SinkFault>
    ensures taken { (first : O) (taken : List ℕ) → O.took first out.old taken
        → OnOk result (O.took first out.new (taken ++ (head_text target.entry.shared.now last (epoch_of target.entry.epochs numbers.now) ++ line_text target.entry.name.now numbers.now))) }
    ensures stays { (first : O) → O.stays first out.old → O.stays first out.new }
{
    append_head(
        out,
        target.shared,
        last,
        epoch_value(target.epochs, numbers),
    )?;
    out.append_row(target.name, numbers)
}

/// Lack of memory after that many records.
fn no_memory(count: u64) -> RowRefusal
    ensures { result.fault ≡ record_fault.NoMemory }
{
    let fault = RecordFault::NoMemory;
    RowRefusal { count, fault }
}

/// Appends the lines of the records that are left, after one of that epoch, and gives the epoch of the last. A refusal counts the records from the first of
/// these.
fn append_rows<O: LineSink>(
    alloc: Global,
    columns: &[Column],
    target: Target<'_>,
    dictionary: &mut Dictionary,
    reader: &mut Reader<&[u8]>,
    last: Option<i64>,
    out: &mut O,
) -> Result<Option<i64>, RowRefusal>
    ensures encoded { IfOk result (λ latest. (rows : List (List (List ℕ))) × (lines : List ℕ) × AreAppended columns.now target.entry (texts_of dictionary.new) last latest rows lines
        × ((text : List ℕ) (before : List (List (List ℕ))) → HasRead text before reader.old → AreRecords default_config st.StartRecord (strip_bom text) (before ++ rows))
        × ((first : O) (taken : List ℕ) → O.took first out.old taken → O.took first out.new (taken ++ lines))) }
    ensures refused { IfErr result (λ r. Stops columns.now target.entry.epochs (texts_of dictionary.new) last (ReadsOn reader.old) r.fault) }
    ensures kept { IfErr result (λ r. NeedsNoReason r.fault ⊎ Grows (texts_of dictionary.old) (texts_of dictionary.new)) }
    ensures grows { OnOk result (Grows (texts_of dictionary.old) (texts_of dictionary.new)) }
    ensures stays { (first : O) → O.stays first out.old → O.stays first out.new }
{
    let mut row = ByteRecord::new(alloc);
    let mut numbers = Vec::new(alloc);
    let mut latest = last;
    for count in 0..u64::MAX {
        match read_record(reader, &mut row) {
            Ok(true) => {}
            Ok(false) => return Ok(latest),
            Err(_) => return Err(no_memory(count)),
        }
        match read_row(alloc, columns, dictionary, &row, &mut numbers) {
            Ok(()) => {}
            Err(fault) => {
                let fault = fault_of_row(fault);
                return Err(RowRefusal { count, fault });
            }
        }
        let epoch = epoch_value(target.epochs, numbers.as_slice());
        if is_late(latest, epoch) {
            let fault = late_fault(target.epochs);
            return Err(RowRefusal { count, fault });
        }
        match append_row(out, target, latest, numbers.as_slice()) {
            Ok(()) => {}
            Err(fault) => {
                let fault = fault_of_sink(fault);
                return Err(RowRefusal { count, fault });
            }
        }
        latest = epoch;
    }
    Err(no_memory(u64::MAX))
}

/// Appends the lines of the first records of a CSV text under its header row, whose cells are to be these names, and gives the epoch of the last. A refusal
/// names the first record, from the header row on, that has other cells than these, has no numbers, or comes too late.
pub fn encode_first<O: LineSink>(
    alloc: Global,
    names: &[Vec<u8>],
    columns: &[Column],
    target: Target<'_>,
    dictionary: &mut Dictionary,
    text: &[u8],
    out: &mut O,
) -> Result<Option<i64>, RowRefusal>
    ensures encoded { IfOk result (λ latest. (rows : List (List (List ℕ))) × (lines : List ℕ) × AreAppended columns.now target.entry (texts_of dictionary.new) None latest rows lines
        × AreRecords default_config st.StartRecord (strip_bom text.now) (map (λ v. v.items) names.now ∷ rows)
        × ((first : O) (taken : List ℕ) → O.took first out.old taken → O.took first out.new (taken ++ lines))) }
    ensures refused { IfErr result (λ r. AreRefused (map (λ v. v.items) names.now) columns.now target.entry.epochs text.now (texts_of dictionary.new) r.fault) }
    ensures grows { OnOk result (Grows (texts_of dictionary.old) (texts_of dictionary.new)) }
    ensures stays { (first : O) → O.stays first out.old → O.stays first out.new }
{
    let mut reader = new_reader(alloc, text);
    match read_header(alloc, &mut reader, names) {
        Ok(()) => {}
        Err(fault) => return Err(RowRefusal { count: 0, fault }),
    }
    match append_rows(alloc, columns, target, dictionary, &mut reader, None, out) {
        Ok(latest) => Ok(latest),
        Err(refusal) => Err(RowRefusal {
            count: refusal.count.saturating_add(1),
            fault: refusal.fault,
        }),
    }
}

/// Appends the lines of the records of a CSV text, which come after one of that epoch, and gives the epoch of the last. A refusal names the first of them that
/// has no numbers, or comes too late.
pub fn encode_next<O: LineSink>(
    alloc: Global,
    columns: &[Column],
    target: Target<'_>,
    dictionary: &mut Dictionary,
    text: &[u8],
    last: Option<i64>,
    out: &mut O,
) -> Result<Option<i64>, RowRefusal>
    ensures encoded { IfOk result (λ latest. (rows : List (List (List ℕ))) × (lines : List ℕ) × AreAppended columns.now target.entry (texts_of dictionary.new) last latest rows lines
        × AreRecords default_config st.StartRecord (strip_bom text.now) rows
        × ((first : O) (taken : List ℕ) → O.took first out.old taken → O.took first out.new (taken ++ lines))) }
    ensures refused { IfErr result (λ r. Stops columns.now target.entry.epochs (texts_of dictionary.new) last (BeginsWith text.now) r.fault) }
    ensures kept { IfErr result (λ r. NeedsNoReason r.fault ⊎ Grows (texts_of dictionary.old) (texts_of dictionary.new)) }
    ensures grows { OnOk result (Grows (texts_of dictionary.old) (texts_of dictionary.new)) }
    ensures stays { (first : O) → O.stays first out.old → O.stays first out.new }
{
    let mut reader = new_reader(alloc, text);
    append_rows(alloc, columns, target, dictionary, &mut reader, last, out)
}
