//! An answer as a CSV file.

ghost use Rattle.csv_answers.specs.declared.refusal.Fault.TheVariants as fault;
ghost use Rattle.csv_answers.specs.declared.refusal.TableRefusal.TheVariants as refusal;
ghost use Rattle.std.specs.Prelude.{◌≡◌, ◌≢◌, ◌<◌, ◌↔◌, ◌++◌, IsTrue, List, Bool, FitsSigned, IfErr, IfNone, IfOk, IfSome, OnOk, codes, false, get_or, length, true, map, option_map, pos, ℕ, ℤ};
ghost use Rattle.std.specs.Int.{w64};
ghost use Rattle.csv_cells.specs.Texts.{texts_of};
ghost use Rattle.csv_answers.specs.Answers.{Adds, AreDecoded, Begins, HasCells, IsDecoded, IsEpoch, IsFirstFault, IsOfRecord, IsOutput, IsRefusedAnswer, IsWhole, MayBegin, Where, label_for, where_of, words_text};
ghost use Rattle.schema.specs.declared.tables.Table.{Table};
ghost use Rattle.csv_answers.specs.Files.{IsFile};

use crate::refusal::{Fault, TableRefusal};
use crate::writing::{finish, new_file, write_cells};
use csv::Writer;
use csv_cells::{Column, Dictionary, write_row};
use decimal::{number, signed_number};
use schema::Table;
use std::alloc::{AllocError, Global};

/// The numbers of a line, each after one space but the first; `None` if a word is no number. An empty line has none.
fn numbers_of(alloc: Global, line: &[u8]) -> Result<Option<Vec<i64>>, AllocError>
    ensures found { IfOk result (λ o. IfSome o (λ v. line.now ≡ words_text v.items)) }
    ensures fit { IfOk result (λ o. IfSome o (λ v. (i : ℕ) → i < length v.items → FitsSigned w64 (get_or v.items i (pos 0)))) }
    ensures none { IfOk result (λ o. IfNone o ((numbers : List ℤ) → ((i : ℕ) → i < length numbers → FitsSigned w64 (get_or numbers i (pos 0))) → line.now ≢ words_text numbers)) }
{
    let mut numbers = Vec::new(alloc);
    if line.is_empty() {
        return Ok(Some(numbers));
    }
    let mut begin = 0;
    for end in 0..line.len() {
        if line[end] == b' ' {
            let Some(number) = signed_number(&line[begin..end]) else {
                return Ok(None);
            };
            numbers.push(number)?;
            begin = end + 1;
        }
    }
    let Some(number) = signed_number(&line[begin..]) else {
        return Ok(None);
    };
    numbers.push(number)?;
    Ok(Some(numbers))
}

/// The cells of a line of an answer, `None` if it has none in these columns.
fn cells_of(
    alloc: Global,
    columns: &[Column],
    dictionary: &Dictionary,
    line: &[u8],
) -> Result<Option<Vec<Vec<u8>>>, AllocError>
    ensures found { IfOk result (λ o. IfSome o (λ v. HasCells columns.now (texts_of dictionary.now) line.now (map (λ w. w.items) v.items))) }
    ensures none { IfOk result (λ o. IfNone o ((cells : List (List ℕ)) → ¬ HasCells columns.now (texts_of dictionary.now) line.now cells)) }
{
    match numbers_of(alloc, line)? {
        Some(numbers) => write_row(alloc, columns, dictionary, numbers.as_slice()),
        None => Ok(None),
    }
}

/// Where decoding stands in an answer.
#[derive(Drop)]
struct Place<'a> {
    /// The number of the epoch, as a text.
    epoch: &'a [u8],
    /// Whether the lines are of the output that is asked for.
    is_asked: bool,
    /// Whether a line of the epoch has named an output.
    is_named: bool,
    /// Whether the epoch has the output that is asked for.
    is_found: bool,
}

impl Place<'_> {
    /// Whether the epoch, if one has begun, has the output that is asked for.
    fn is_whole(&self) -> bool
        ensures { IsTrue result ↔ IsWhole (where_of self.now) }
    {
        self.epoch.is_empty() || self.is_found
    }

    /// Whether an epoch may begin: the first, or another after a whole one, where epochs are told apart.
    fn may_begin(&self, with_epochs: bool) -> bool
        ensures { IsTrue result ↔ MayBegin with_epochs (where_of self.now) }
    {
        self.epoch.is_empty() || self.is_found && with_epochs
    }
}

/// What comes after a word, if a line begins with it.
fn after<'a>(line: &'a [u8], word: &[u8]) -> Option<&'a [u8]>
    ensures some { IfSome result (λ rest. line.now ≡ word.now ++ rest.now) }
    ensures none { IfNone result ((rest : List ℕ) → line.now ≢ word.now ++ rest) }
{
    line.strip_prefix(word)
}

/// The number of the epoch that a line begins, as a text.
fn epoch_of<'a>(line: &'a [u8]) -> Option<&'a [u8]>
    ensures some { IfSome result (λ epoch. IsEpoch line.now epoch.now) }
    ensures none { IfNone result ((epoch : List ℕ) → ¬ IsEpoch line.now epoch) }
{
    let word = after(line, b"epoch ")?;
    match number(word) {
        Some(_) => Some(word),
        None => None,
    }
}

/// The name of the output that a line begins.
fn output_of<'a>(line: &'a [u8]) -> Option<&'a [u8]>
    ensures some { IfSome result (λ name. IsOutput line.now name.now) }
    ensures none { IfNone result ((name : List ℕ) → ¬ IsOutput line.now name) }
{
    after(line, b"output ")
}

/// Begins an epoch of that number, which is of the only output `out` unless a line names one. False if none may begin.
fn begin_epoch<'a>(
    place: &mut Place<'a>,
    table: &Table,
    with_epochs: bool,
    line: &'a [u8],
    epoch: &'a [u8],
) -> bool
    requires { IsEpoch line.now epoch.now }
    ensures begins { result ≡ true → Begins table.now.name.items with_epochs line.now (where_of place.old) (where_of place.new) }
    ensures refused { result ≡ false → (next : Where) → ¬ Begins table.now.name.items with_epochs line.now (where_of place.old) next }
{
    if !place.may_begin(with_epochs) {
        return false;
    }
    place.epoch = epoch;
    place.is_asked = table.name.as_slice() == b"out".as_slice();
    place.is_named = false;
    place.is_found = place.is_asked;
    true
}

/// Begins the output of that name. False before the first epoch.
fn begin_output<'a>(
    place: &mut Place<'a>,
    table: &Table,
    with_epochs: bool,
    line: &[u8],
    name: &[u8],
) -> bool
    requires { IsOutput line.now name.now }
    ensures begins { result ≡ true → Begins table.now.name.items with_epochs line.now (where_of place.old) (where_of place.new) }
    ensures refused { result ≡ false → (next : Where) → ¬ Begins table.now.name.items with_epochs line.now (where_of place.old) next }
{
    if place.epoch.is_empty() {
        return false;
    }
    place.is_asked = name == table.name.as_slice();
    place.is_found = place.is_asked || place.is_named && place.is_found;
    place.is_named = true;
    true
}

/// Takes a line that begins an epoch or an output, and says whether it may stand there; `None` if it begins neither.
fn take_head<'a>(
    place: &mut Place<'a>,
    table: &Table,
    with_epochs: bool,
    line: &'a [u8],
) -> Option<bool>
    ensures begins { IfSome result (λ b. b ≡ true → Begins table.now.name.items with_epochs line.now (where_of place.old) (where_of place.new)) }
    ensures refused { IfSome result (λ b. b ≡ false → (next : Where) → ¬ Begins table.now.name.items with_epochs line.now (where_of place.old) next) }
    ensures head { IfSome result (λ _. ¬ IsOfRecord line.now) }
    ensures other { IfNone result (IsOfRecord line.now) }
    ensures same { IfNone result (where_of place.new ≡ where_of place.old) }
{
    match epoch_of(line) {
        Some(epoch) => Some(begin_epoch(place, table, with_epochs, line, epoch)),
        None => match output_of(line) {
            Some(name) => Some(begin_output(place, table, with_epochs, line, name)),
            None => None,
        },
    }
}

/// The first cell of a row, if it is the number of the epoch.
fn label<'a>(with_epochs: bool, epoch: &'a [u8]) -> Option<&'a [u8]>
    ensures { option_map (λ s. s.now) result ≡ label_for with_epochs epoch.now }
{
    if with_epochs { Some(epoch) } else { None }
}

/// Writes the line of an answer, if it is a record of the output that is asked for; false if it has no cells.
fn write_line<'a>(
    alloc: Global,
    table: &Table,
    with_epochs: bool,
    dictionary: &Dictionary,
    place: &mut Place<'a>,
    writer: &mut Writer<Vec<u8>>,
    line: &'a [u8],
) -> Result<bool, AllocError>
    ensures found { IfOk result (λ found. found ≡ true → (rows : List (List (List ℕ))) → IsFile writer.old rows
        → (more : List (List (List ℕ))) × Adds table.now with_epochs (texts_of dictionary.now) (where_of place.old) line.now more (where_of place.new) × IsFile writer.new (rows ++ more)) }
    ensures none { IfOk result (λ found. found ≡ false → (more : List (List (List ℕ))) (next : Where) → ¬ Adds table.now with_epochs (texts_of dictionary.now) (where_of place.old) line.now more next) }
{
    if let Some(begins) = take_head(place, table, with_epochs, line) {
        return Ok(begins);
    }
    if place.epoch.is_empty() {
        return Ok(false);
    }
    if !place.is_asked {
        return Ok(true);
    }
    let Some(cells) = cells_of(alloc, &table.columns, dictionary, line)? else {
        return Ok(false);
    };
    match write_cells(writer, label(with_epochs, place.epoch), cells.as_slice()) {
        Some(()) => Ok(true),
        None => Err(AllocError),
    }
}

/// The refusal of a line of an answer.
fn refused(line: u64) -> TableRefusal
    ensures { result ≡ refusal.At fault.Answer line }
{
    let fault = Fault::Answer;
    TableRefusal::At { fault, line }
}

/// Writes the lines of an answer.
fn write_lines(
    alloc: Global,
    table: &Table,
    with_epochs: bool,
    dictionary: &Dictionary,
    writer: &mut Writer<Vec<u8>>,
    answer: &[u8],
) -> Result<(), TableRefusal>
    ensures written { OnOk result ((rows : List (List (List ℕ))) → IsFile writer.old rows
        → (more : List (List (List ℕ))) × AreDecoded table.now with_epochs (texts_of dictionary.now) answer.now more × IsFile writer.new (rows ++ more)) }
    ensures refused { IfErr result (λ r. (rows : List (List (List ℕ))) → IsFile writer.old rows → IsRefusedAnswer table.now with_epochs (texts_of dictionary.now) answer.now r) }
{
    let mut place = Place {
        epoch: b"",
        is_asked: false,
        is_named: false,
        is_found: false,
    };
    let mut line = 0u64;
    let mut begin = 0;
    for end in 0..answer.len() {
        if answer[end] == b'\n' {
            line += 1;
            let text = &answer[begin..end];
            if !write_line(
                alloc,
                table,
                with_epochs,
                dictionary,
                &mut place,
                writer,
                text,
            )? {
                return Err(refused(line));
            }
            begin = end + 1;
        }
    }
    if begin < answer.len() {
        return Err(refused(line + 1));
    }
    if !place.is_whole() {
        return Err(refused(line + 1));
    }
    Ok(())
}

/// The CSV file of an output, by the text of an answer: a header row, and the records in the answer's order. With epochs the first column is the epoch's
/// number. A refusal is of the first line that isn't one of the answer, has a number that stands for no cell, or doesn't end; of the line after an epoch
/// that lacks the output; and, without epochs, of a second one.
pub fn decode(
    alloc: Global,
    table: &Table,
    with_epochs: bool,
    dictionary: &Dictionary,
    answer: &[u8],
) -> Result<Vec<u8>, TableRefusal>
    ensures decoded { IfOk result (λ file. IsDecoded table.now with_epochs (texts_of dictionary.now) answer.now file.items) }
    ensures refused { IfErr result (λ r. IsRefusedAnswer table.now with_epochs (texts_of dictionary.now) answer.now r) }
{
    let mut writer = new_file(alloc);
    let first = label(with_epochs, b"epoch");
    let Some(()) = write_cells(&mut writer, first, table.headers.as_slice()) else {
        return Err(TableRefusal::NoMemory);
    };
    write_lines(alloc, table, with_epochs, dictionary, &mut writer, answer)?;
    finish(writer)
}

/// An answer that is refused has no rows.
pub fn law_refused_answer()
    ensures { (table : Table) (with_epochs : Bool) (texts : List (List ℕ)) (answer : List ℕ) (rows : List (List (List ℕ))) (line : ℕ)
        → IsFirstFault table with_epochs texts answer line → ¬ AreDecoded table with_epochs texts answer rows }
{}
