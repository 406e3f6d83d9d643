//! Reads one line of an input text.

ghost use Rattle.std.specs.Prelude.{◌≡◌, ◌<◌, ◌↔◌, ℤ, List, [], ◌∷◌, codes, map, true, false, IsTrue, IfSome, IfNone, IfOk};
ghost use Rattle.std.specs.List.{AllByRecursion, list_all};
ghost use Rattle.record_core.specs.Names.{begins_name, is_name_byte};
ghost use Rattle.record_core.specs.Inputs.{input_of};
ghost use Rattle.collector.specs.Pieces.{split_on};
ghost use Rattle.collector.specs.Lines.{AreNumbers, IsAbsent, IsFilled, IsInput, IsWord, MakeRecord};
ghost use Rattle.collector.specs.Said.{words_of, LineEnds, RowEnds};

use crate::refusal::Fault;
use crate::splitting::{around, find};
use decimal::signed_number;
use record_core::{DeclaredInput, MAX_FIELDS};
use std::alloc::AllocError;
use thiserror::Error;

/// What a line says. The fields of a record are in the reader's buffer.
#[derive(Clone, Copy)]
pub enum Line {
    Epoch,
    Row { input: usize },
}

/// Why a line can't be read.
#[derive(Clone, Copy, Debug, Error)]
pub enum LineError {
    #[error(transparent)]
    Fault(Fault),
    #[error("out of memory")]
    NoMemory,
}

/// The most epochs of a text.
const MAX_EPOCHS: u32 = 4_294_967_295;

/// The length of the longest word that is spelled like a name.
const MAX_WORD: usize = 32;

fn is_epoch(line: &[u8]) -> bool
    ensures { IsTrue result ↔ (line.now ≡ codes "epoch") }
{
    line == b"epoch".as_slice()
}

/// Whether the first byte is a letter.
fn begins(bytes: &[u8]) -> bool
    ensures { result ≡ begins_name bytes.now }
{
    match bytes {
        [] => false,
        [b, ..] => b.is_ascii_lowercase(),
    }
}

/// Whether all bytes are letters, digits and `_`.
fn goes_on(bytes: &[u8]) -> bool
    ensures { result ≡ list_all is_name_byte bytes.now }
{
    bytes.iter().all(|b| b.is_ascii_lowercase() || b.is_ascii_digit() || *b == b'_')
}

/// Whether a word is spelled like a name or a keyword.
pub fn is_word(word: &[u8]) -> bool
    ensures { IsTrue result ↔ IsWord word.now }
{
    begins(word) && word.len() <= MAX_WORD && goes_on(word)
}

/// The first word, and the text after the space that ends it, if there is one.
pub fn first_word(line: &[u8]) -> (&[u8], Option<&[u8]>)
    ensures { split_on 32 line.now ≡ result.0.now ∷ words_of result.1 }
{
    match find(line, b' ') {
        None => (line, None),
        Some(end) => {
            let (word, rest) = around(line, end);
            (word, Some(rest))
        }
    }
}

/// Whether no word is empty.
fn are_filled(text: &[u8]) -> bool
    ensures { IsTrue result ↔ AllByRecursion IsFilled (split_on 32 text.now) }
{
    let mut rest = text;
    while let Some(end) = find(rest, b' ') {
        if end == 0 {
            return false;
        }
        let (_, after) = around(rest, end);
        rest = after;
    }
    !rest.is_empty()
}

/// Whether no word after the first is empty.
pub fn rest_is_filled(rest: Option<&[u8]>) -> bool
    ensures { IsTrue result ↔ AllByRecursion IsFilled (words_of rest.entry) }
{
    match rest {
        None => true,
        Some(text) => are_filled(text),
    }
}

fn is_same(word: &[u8], name: &[u8]) -> bool
    ensures { IsTrue result ↔ (word.now ≡ name.now) }
{
    word == name
}

/// The first input of that name: its number, and the number of fields of its records.
pub fn find_input(inputs: &[DeclaredInput], name: &[u8]) -> Option<(usize, u64)>
    ensures found { IfSome result (λ p. IsInput (map input_of inputs.now) name.now p.0 p.1) }
    ensures none { IfNone result (IsAbsent (map input_of inputs.now) name.now) }
{
    for (i, declared) in inputs.iter().enumerate() {
        if is_same(declared.name.bytes(), name) {
            return Some((i, declared.arity));
        }
    }
    None
}

/// Reads the words as numbers into the buffer; `false` if one of them isn't a number.
fn read_numbers(text: &[u8], fields: &mut Vec<i64>) -> Result<bool, AllocError>
    ensures numbers { IfOk result (λ b. b ≡ true → AreNumbers (split_on 32 text.now) fields.new.items) }
    ensures none { IfOk result (λ b. b ≡ false → (zs : List ℤ) → AreNumbers (split_on 32 text.now) zs → ⊥) }
{
    fields.clear();
    let mut rest = text;
    while let Some(end) = find(rest, b' ') {
        let (word, after) = around(rest, end);
        match signed_number(word) {
            None => return Ok(false),
            Some(number) => fields.push(number)?,
        }
        rest = after;
    }
    match signed_number(rest) {
        None => Ok(false),
        Some(number) => {
            fields.push(number)?;
            Ok(true)
        }
    }
}

/// As `read_numbers`, for the words after the first.
pub fn read_fields(rest: Option<&[u8]>, fields: &mut Vec<i64>) -> Result<bool, AllocError>
    ensures numbers { IfOk result (λ b. b ≡ true → AreNumbers (words_of rest.entry) fields.new.items) }
    ensures none { IfOk result (λ b. b ≡ false → (zs : List ℤ) → AreNumbers (words_of rest.entry) zs → ⊥) }
{
    match rest {
        None => {
            fields.clear();
            Ok(true)
        }
        Some(text) => read_numbers(text, fields),
    }
}

/// Whether the fields make a record of an input of that arity.
pub(crate) fn make_record(fields: &[i64], arity: u64) -> bool
    ensures { IsTrue result ↔ MakeRecord arity fields.now }
{
    let count = fields.len();
    count as u64 == arity && 1 <= count && count <= MAX_FIELDS
}

/// What a line of words says once an epoch has begun. The caller has split the line into its words.
fn row_says(
    first: &[u8],
    rest: Option<&[u8]>,
    inputs: &[DeclaredInput],
    fields: &mut Vec<i64>,
) -> Result<usize, LineError>
    ensures { RowEnds (map input_of inputs.now) first.now (words_of rest.entry) fields.new.items result }
{
    let Some((input, arity)) = find_input(inputs, first) else {
        return Err(LineError::Fault(Fault::Unknown));
    };
    match read_fields(rest, fields) {
        Err(_) => Err(LineError::NoMemory),
        Ok(false) => Err(LineError::Fault(Fault::BadNumber)),
        Ok(true) => {
            if make_record(fields.as_slice(), arity) {
                Ok(input)
            } else {
                Err(LineError::Fault(Fault::WrongFields))
            }
        }
    }
}

/// What a line says after `epochs` epochs have begun. The fields of a record are put into the buffer.
pub fn line_says(
    line: &[u8],
    inputs: &[DeclaredInput],
    epochs: u32,
    fields: &mut Vec<i64>,
) -> Result<Line, LineError>
    ensures { LineEnds (map input_of inputs.now) epochs line.now fields.new.items result }
{
    if is_epoch(line) {
        return if epochs < MAX_EPOCHS {
            Ok(Line::Epoch)
        } else {
            Err(LineError::Fault(Fault::TooManyEpochs))
        };
    }
    let (first, rest) = first_word(line);
    if !is_word(first) || !rest_is_filled(rest) {
        return Err(LineError::Fault(Fault::Malformed));
    }
    if epochs == 0 {
        return Err(LineError::Fault(Fault::NoEpoch));
    }
    match row_says(first, rest, inputs, fields) {
        Ok(input) => Ok(Line::Row { input }),
        Err(error) => Err(error),
    }
}
