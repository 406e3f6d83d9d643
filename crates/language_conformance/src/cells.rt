//! Texts of CSV files as lines of numbers.

use crate::texts::{quoted, word};
use csv_cells::{Column, Dictionary, Empty, Kind, encode_text};
use std::alloc::{AllocError, Global};

/// A column of that kind in which an empty cell is refused.
fn strict(kind: Kind) -> Column {
    Column {
        kind,
        empty: Empty::Refused,
    }
}

/// The lines of `sale` of a text with a number, a text, a time, a decimal with two digits, a date, and a number that is -1 where the cell is empty.
pub fn encoded(alloc: Global, text: &[u8]) -> Result<String, AllocError> {
    let mut dictionary = Dictionary::new(alloc);
    let columns = [
        strict(Kind::Int),
        strict(Kind::Text),
        strict(Kind::Time),
        strict(Kind::Decimal(2)),
        strict(Kind::Date),
        Column {
            kind: Kind::Int,
            empty: Empty::Number(-1),
        },
    ];
    match encode_text(alloc, &columns, b"sale", &mut dictionary, text) {
        Ok(lines) => quoted(alloc, lines.as_slice()),
        Err(_) => word(alloc, "refused"),
    }
}
