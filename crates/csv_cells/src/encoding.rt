//! A CSV text as lines of an input text.

ghost use Rattle.std.specs.Prelude.{◌≡◌, ◌∷◌, ◌++◌, IfOk, OnOk};
ghost use Rattle.std.specs.Fmt.{signed_decimal};
ghost use Rattle.csv.specs.Records.{fields_of};
ghost use Rattle.csv_cells.specs.Cells.{Spells};
ghost use Rattle.csv_cells.specs.Encoded.{EncodedAs, line_text};
ghost use Rattle.text_dictionary.specs.Texts.{Grows, texts_of};

use crate::column::Column;
use crate::row::{RowFault, read_row};
use csv::{ByteRecord, Error, ReaderBuilder};
use itoa::Buffer;
use std::alloc::{AllocError, Global};
use text_dictionary::Dictionary;

/// Appends a number after one space.
fn push_number(out: &mut Vec<u8>, number: i64) -> Result<(), AllocError>
    ensures { OnOk result (out.new.items ≡ out.old.items ++ 32 ∷ signed_decimal number) }
{
    let mut buffer = Buffer::new();
    out.push(b' ')?;
    out.extend_from_slice(buffer.format(number).as_bytes())?;
    Ok(())
}

/// Appends the line of a record: the input's name, and the numbers, each after one space.
pub fn append_line(out: &mut Vec<u8>, name: &[u8], numbers: &[i64]) -> Result<(), AllocError>
    ensures { OnOk result (out.new.items ≡ out.old.items ++ line_text name.now numbers.now) }
{
    out.extend_from_slice(name)?;
    for i in 0..numbers.len() {
        push_number(out, numbers[i])?;
    }
    out.push(b'\n')?;
    Ok(())
}

/// Why a text is refused.
#[derive(Debug, Drop, thiserror::Error)]
pub enum TextFault {
    /// The reader refused it.
    #[error("{0}")]
    Csv(Error),
    /// A record has no numbers: how many come before it, and why.
    #[error("record {0}: {1}")]
    Row(u64, RowFault),
    #[error("out of memory")]
    NoMemory,
}

/// Appends the line of a record, whose numbers come in place of those in `numbers`.
fn push_record(
    alloc: Global,
    columns: &[Column],
    name: &[u8],
    dictionary: &mut Dictionary,
    row: &ByteRecord,
    numbers: &mut Vec<i64>,
    out: &mut Vec<u8>,
) -> Result<(), RowFault>
    ensures spelled { OnOk result (Spells columns.now (texts_of dictionary.new) (fields_of row.now) numbers.new.items) }
    ensures written { OnOk result (out.new.items ≡ out.old.items ++ line_text name.now numbers.new.items) }
    ensures grows { OnOk result (Grows (texts_of dictionary.old) (texts_of dictionary.new)) }
{
    read_row(alloc, columns, dictionary, row, numbers)?;
    append_line(out, name, numbers.as_slice())?;
    Ok(())
}

/// The lines of the records of a CSV text with no header row.
pub fn encode_text(
    alloc: Global,
    columns: &[Column],
    name: &[u8],
    dictionary: &mut Dictionary,
    text: &[u8],
) -> Result<Vec<u8>, TextFault>
    ensures encoded { IfOk result (λ out. EncodedAs columns.now name.now text.now (texts_of dictionary.new) out.items) }
    ensures grows { OnOk result (Grows (texts_of dictionary.old) (texts_of dictionary.new)) }
{
    let reader = ReaderBuilder::new()
        .has_headers(false)
        .from_reader(alloc, text);
    let mut out = Vec::new(alloc);
    let mut numbers = Vec::new(alloc);
    let mut count = 0u64;
    for row in reader.into_byte_records() {
        let row = match row {
            Ok(row) => row,
            Err(error) => return Err(TextFault::Csv(error)),
        };
        match push_record(
            alloc,
            columns,
            name,
            dictionary,
            &row,
            &mut numbers,
            &mut out,
        ) {
            Ok(()) => {}
            Err(RowFault::NoMemory) => return Err(TextFault::NoMemory),
            Err(fault) => return Err(TextFault::Row(count, fault)),
        }
        count = count.saturating_add(1);
    }
    Ok(out)
}
