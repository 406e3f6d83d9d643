//! The lines of a schema, each by itself.

ghost use Rattle.std.specs.Prelude.{◌≡◌, ◌≢◌, ◌<◌, ◌++◌, ◌∷◌, ℕ, ℤ, List, [], codes, length, FitsSigned, IfErr, IfNone, IfOk, IfSome, Some};
ghost use Rattle.std.specs.Option.{option_map};
ghost use Rattle.std.specs.Int.{w64};
ghost use Rattle.csv_cells.specs.Cells.{StandsAs};
ghost use Rattle.csv_cells.specs.declared.column.Kind.TheVariants.{Text};
ghost use Rattle.csv_cells.specs.declared.column.Empty.TheVariants.{Refused};
ghost use Rattle.csv_cells.specs.declared.column.Column.{Column};
ghost use Rattle.csv_cells.specs.declared.column.Empty.{Empty};
ghost use Rattle.schema_lines.specs.Words.{IsColumn, IsEmptyOf, IsEmptyText, IsHeader, IsKind, IsName, Lacks, kind_text};
ghost use Rattle.schema_lines.specs.Lines.{AreParts, Epoched, Event, Gives, IsAroundFirst, IsAroundLast, IsColumnWords, IsLine, IsPart};
ghost use Rattle.schema_lines.specs.Lines.{IsProper, IsSaid, IsValue, MayBeValue, Reads, begun_by, epoched, epoched_text, event_of};
ghost use Rattle.schema_lines.specs.declared.lines.LineError.TheVariants as error;

use crate::fault::Fault;
use crate::kinds::kind_named;
use csv_cells::{Column, Dictionary, Empty, Kind, read_cell};
use std::alloc::{AllocError, AllocFailed, Global};

/// In which epochs an input's rows are, by the line that begins it.
#[derive(Clone, Copy)]
pub enum HeadEpochs<'a> {
    One,
    /// Each in the epoch of its value in the column of that name.
    By(&'a [u8]),
    Every,
}

/// What a line says.
#[derive(Clone, Copy)]
pub enum Line<'a> {
    Input {
        name: &'a [u8],
        epochs: HeadEpochs<'a>,
    },
    Output {
        name: &'a [u8],
    },
    Column {
        name: &'a [u8],
        column: Column,
    },
    Constant {
        name: &'a [u8],
        text: &'a [u8],
    },
}

/// Why a line says nothing.
pub enum LineError {
    Fault(Fault),
    NoMemory,
}

impl<T: Drop> From<AllocFailed<T>> for LineError {
    ghost from_gives = { λ _ e. e ≡ error.NoMemory };

    fn from(_e: AllocFailed<T>) -> LineError {
        LineError::NoMemory
    }
}

impl From<AllocError> for LineError {
    ghost from_gives = { λ _ e. e ≡ error.NoMemory };

    fn from(_e: AllocError) -> LineError {
        LineError::NoMemory
    }
}

/// What comes before and after the last place of a byte.
fn around_last(text: &[u8], byte: u8) -> Option<(&[u8], &[u8])>
    ensures found { IfSome result (λ p. IsAroundLast byte text.now p.0.now p.1.now) }
    ensures none { IfNone result (Lacks byte text.now) }
{
    let mut end = text.len();
    while end > 0 {
        let place = end - 1;
        if text[place] == byte {
            return Some((&text[..place], &text[end..]));
        }
        end = place;
    }
    None
}

/// What comes before and after the first place of a byte.
fn around_first(text: &[u8], byte: u8) -> Option<(&[u8], &[u8])>
    ensures found { IfSome result (λ p. IsAroundFirst byte text.now p.0.now p.1.now) }
    ensures none { IfNone result (Lacks byte text.now) }
{
    for place in 0..text.len() {
        if text[place] == byte {
            return Some((&text[..place], &text[place + 1..]));
        }
    }
    None
}

/// The first line, and what comes after its line feed.
pub fn cut_line(text: &[u8]) -> (&[u8], &[u8])
    ensures line { Lacks 10 result.0.now }
    ensures cut { (line rest : List ℕ) → Lacks 10 line → text.now ≡ line ++ 10 ∷ rest → (result.0.now ≡ line) × (result.1.now ≡ rest) }
    ensures shorter { 0 < length text.now → length result.1.now < length text.now }
{
    match around_first(text, b'\n') {
        Some((line, rest)) => (line, rest),
        None => (text, &text[..0]),
    }
}

/// The epochs that the words after an input's name tell.
fn head_epochs(words: &[u8]) -> HeadEpochs<'_>
    ensures { (epochs : Epoched) → codes " " ++ words.now ≡ epoched_text epochs → epoched result ≡ epochs }
{
    if words == b"every epoch".as_slice() {
        return HeadEpochs::Every;
    }
    match words.strip_prefix(b"by ") {
        Some(name) => HeadEpochs::By(name),
        None => HeadEpochs::One,
    }
}

/// What `input` says after its word.
fn input_line(rest: &[u8]) -> Line<'_>
    ensures read { (name : List ℕ) (epochs : Epoched) → IsName name → rest.now ≡ name ++ epoched_text epochs
        → event_of result ≡ Event.begins_input name epochs }
    ensures right { IsSaid rest.now (event_of result) }
{
    match around_first(rest, b' ') {
        None => Line::Input {
            name: rest,
            epochs: HeadEpochs::One,
        },
        Some((name, words)) => Line::Input {
            name,
            epochs: head_epochs(words),
        },
    }
}

/// The number that stands for a cell.
fn number_of(alloc: Global, kind: Kind, value: &[u8]) -> Result<Option<i64>, AllocError>
    ensures found { kind ≢ Text → IfOk result (λ o. IfSome o (λ n. StandsAs (record { kind = kind; empty = Refused }) [] n value.now)) }
    ensures only { kind ≢ Text
        → IfOk result (λ o. (n : ℤ) → FitsSigned w64 n → StandsAs (record { kind = kind; empty = Refused }) [] n value.now → o ≡ Some n) }
{
    let column = Column {
        kind,
        empty: Empty::Refused,
    };
    let mut none = Dictionary::new(alloc);
    read_cell(alloc, column, &mut none, value)
}

/// What an empty cell is that stands for this value.
fn empty_of(alloc: Global, kind: Kind, value: &[u8]) -> Result<Empty, LineError>
    ensures right { IfOk result (IsEmptyOf kind) }
    ensures read { (empty : Empty) → IsEmptyOf kind empty → IsValue kind empty value.now → Gives empty result }
{
    if let Kind::Text = kind {
        return if value == b"\"\"".as_slice() {
            Ok(Empty::Kept)
        } else {
            Err(LineError::Fault(Fault::BadValue))
        };
    }
    match number_of(alloc, kind, value) {
        Ok(Some(number)) => Ok(Empty::Number(number)),
        Ok(None) => Err(LineError::Fault(Fault::BadValue)),
        Err(_) => Err(LineError::NoMemory),
    }
}

/// A column, by the words for its kind and its empty cells.
fn column_of(alloc: Global, kind: &[u8], value: Option<&[u8]>) -> Result<Column, LineError>
    ensures right { IfOk result IsColumn }
    ensures read { (column : Column) → IsColumn column → kind.now ≡ kind_text column.kind → MayBeValue column.kind column.empty value.entry
        → Gives column result }
{
    let Some(kind) = kind_named(kind) else {
        return Err(LineError::Fault(Fault::UnknownKind));
    };
    let Some(value) = value else {
        return Ok(Column {
            kind,
            empty: Empty::Refused,
        });
    };
    match empty_of(alloc, kind, value) {
        Ok(empty) => Ok(Column { kind, empty }),
        Err(error) => Err(error),
    }
}

/// A column's name, and the words for its kind and its empty cells.
fn column_parts(words: &[u8]) -> Option<(&[u8], &[u8], Option<&[u8]>)>
    ensures right { IfSome result (λ p. IsPart p.0.now words.now × ((front : List ℕ) → p.0.now ≢ front ++ codes " or")) }
    ensures read { (name : List ℕ) (column : Column) → IsHeader name → IsColumn column → IsColumnWords name column words.now
        → AreParts name column result }
{
    let (front, last) = around_last(words, b' ')?;
    match front.strip_suffix(b" or") {
        None => Some((front, last, None)),
        Some(front) => {
            let (name, kind) = around_last(front, b' ')?;
            if name.ends_with(b" or") {
                None
            } else {
                Some((name, kind, Some(last)))
            }
        }
    }
}

/// What a column's line says after its two spaces.
fn column_words(alloc: Global, words: &[u8]) -> Result<Line<'_>, LineError>
    ensures read { (name : List ℕ) (column : Column) → IsHeader name → IsColumn column → IsColumnWords name column words.now
        → Reads (Event.has_column name column) result }
    ensures right { IfOk result (λ said. IsSaid words.now (event_of said)) }
{
    match column_parts(words) {
        None => Err(LineError::Fault(Fault::Malformed)),
        Some((name, kind, value)) => match column_of(alloc, kind, value) {
            Ok(column) => Ok(Line::Column { name, column }),
            Err(error) => Err(error),
        },
    }
}

/// What `constant` says after its word.
fn constant_line(rest: &[u8]) -> Result<Line<'_>, LineError>
    ensures read { (name text : List ℕ) → IsName name → rest.now ≡ name ++ (codes " = \"" ++ (text ++ codes "\""))
        → Reads (Event.has_constant name text) result }
    ensures right { IfOk result (λ said. IsSaid rest.now (event_of said)) }
{
    let Some((name, words)) = around_first(rest, b' ') else {
        return Err(LineError::Fault(Fault::Malformed));
    };
    match words.strip_prefix(b"= \"") {
        None => Err(LineError::Fault(Fault::Malformed)),
        Some(text) => match text.strip_suffix(b"\"") {
            None => Err(LineError::Fault(Fault::Malformed)),
            Some(text) => Ok(Line::Constant { name, text }),
        },
    }
}

/// What a line says.
pub fn read_line(alloc: Global, line: &[u8]) -> Result<Line<'_>, LineError>
    ensures read { (event : Event) → IsProper event → IsLine event line.now → Reads event result }
    ensures right { IfOk result (λ said. IsSaid line.now (event_of said)) }
{
    if let Some(words) = line.strip_prefix(b"  ") {
        return column_words(alloc, words);
    }
    if let Some(rest) = line.strip_prefix(b"input ") {
        return Ok(input_line(rest));
    }
    if let Some(name) = line.strip_prefix(b"output ") {
        return Ok(Line::Output { name });
    }
    match line.strip_prefix(b"constant ") {
        Some(rest) => constant_line(rest),
        None => Err(LineError::Fault(Fault::Malformed)),
    }
}

/// The column by which an input that begins has its epochs.
pub fn named_column(alloc: Global, epochs: HeadEpochs<'_>) -> Result<Option<Vec<u8>>, LineError>
    ensures made { IfOk result (λ by. option_map (λ v. v.items) by ≡ begun_by (epoched epochs.entry)) }
    ensures memory { IfErr result (λ e. e ≡ error.NoMemory) }
{
    match epochs {
        HeadEpochs::By(column) => Ok(Some(Vec::from_slice(alloc, column)?)),
        HeadEpochs::One | HeadEpochs::Every => Ok(None),
    }
}
