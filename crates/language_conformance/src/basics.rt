//! Numbers, names, keywords and records of texts.

use crate::texts::{word, yes_or_no};
use decimal::{number, signed_number};
use record_core::{Keyword, Name, Record};
use std::alloc::{AllocError, Global};
use std::hash::{DefaultHasher, Hash, Hasher};

fn hash_of<T: Hash>(value: &T) -> u64 {
    let mut hasher = DefaultHasher::new();
    value.hash(&mut hasher);
    hasher.finish()
}

/// The number that a text spells.
pub fn unsigned(alloc: Global, text: &[u8]) -> Result<String, AllocError> {
    match number(text) {
        Some(number) => format!(in alloc; "{number}"),
        None => word(alloc, "no number"),
    }
}

/// The number that a text spells, perhaps with a sign.
pub fn signed(alloc: Global, text: &[u8]) -> Result<String, AllocError> {
    match signed_number(text) {
        Some(number) => format!(in alloc; "{number}"),
        None => word(alloc, "no number"),
    }
}

/// Whether a text is a name. The name has the text's bytes and hashes like them, and its copy is the same.
pub fn name(alloc: Global, text: &[u8]) -> Result<String, AllocError> {
    match Name::new(text) {
        Some(name)
            if name.bytes() == text && name.copied() == name && hash_of(&name) == hash_of(&text) =>
            word(alloc, "yes"),
        Some(_) => word(alloc, "another name"),
        None => word(alloc, "no"),
    }
}

/// Whether the first of two names is before the second.
pub fn are_in_order(alloc: Global, first: &[u8], second: &[u8]) -> Result<String, AllocError> {
    yes_or_no(alloc, Name::new(first) < Name::new(second))
}

/// The keyword that a text spells.
pub fn keyword(alloc: Global, text: &[u8]) -> Result<String, AllocError> {
    match Keyword::of(text) {
        Some(keyword) => format!(in alloc; "{keyword:?}"),
        None => word(alloc, "none"),
    }
}

/// Puts a number at the end; false where the word is none.
fn put_field(fields: &mut Vec<i64>, word: &str) -> Result<bool, AllocError> {
    let Ok(field) = word.parse() else {
        return Ok(false);
    };
    fields.push(field)?;
    Ok(true)
}

/// Puts the numbers of a text `1 5` at the end; false where one of them is none.
fn put_fields(fields: &mut Vec<i64>, text: &str) -> Result<bool, AllocError> {
    for word in text.split(' ') {
        if !put_field(fields, word)? {
            return Ok(false);
        }
    }
    Ok(true)
}

/// The fields of a text `3 times -1`, or `1 5`; none where a word is no number.
fn fields_of(alloc: Global, text: &str) -> Result<Vec<i64>, AllocError> {
    let (times, words) = text.split_once(" times ").unwrap_or(("1", text));
    let mut fields = Vec::new(alloc);
    for _ in 0..times.parse::<u32>().unwrap_or(0) {
        if !put_fields(&mut fields, words)? {
            fields.clear();
            break;
        }
    }
    Ok(fields)
}

/// Whether there is a record of these fields. It has them and hashes like them, and its copies are the same.
pub fn record(alloc: Global, text: &str) -> Result<String, AllocError> {
    let fields = fields_of(alloc, text)?;
    let fields = fields.as_slice();
    match Record::new(fields) {
        Some(record)
            if record.fields() == fields
                && record.copied() == record
                && record.clone().ok() == Some(record.copied())
                && hash_of(&record) == hash_of(&fields) => word(alloc, "yes"),
        Some(_) => word(alloc, "another record"),
        None => word(alloc, "no"),
    }
}

/// The record of these fields.
fn record_of(alloc: Global, text: &str) -> Result<Option<Record>, AllocError> {
    let fields = fields_of(alloc, text)?;
    Ok(Record::new(fields.as_slice()))
}

/// Whether the first of two records is before the second, and they are different: `1 5 before 2`.
pub fn is_before(alloc: Global, text: &str) -> Result<String, AllocError> {
    let (first, second) = text.split_once(" before ").unwrap_or((text, ""));
    match (record_of(alloc, first)?, record_of(alloc, second)?) {
        (Some(low), Some(high)) => yes_or_no(alloc, low < high && high > low && low != high),
        _ => word(alloc, "no record"),
    }
}
