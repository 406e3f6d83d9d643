//! The text of columns, by their numbers.

ghost use Rattle.std.specs.Prelude.{◌≡◌, ◌++◌, codes, map, OnOk};
ghost use Rattle.expr_tree.specs.Plain.{plain_agg, plain_pair};
ghost use Rattle.sql_meaning.specs.Translation.{aggregate_of};
ghost use Rattle.sql.specs.Epochs.{places};
ghost use Rattle.sql.specs.Text.{aggregate_text, column_text, columns_text, comma_text, continued, declared_columns_text, declared_text, joined, keys_text, made_column_text, made_columns_text, numbered, pair_text, place_text, sum_text};

use crate::form::{Dialect, Epochs, Form};
use crate::push::{push, push_column, push_number};
use crate::widths::places;
use expr_tree::{Agg, Column, Pair};
use record_core::NoMemory;

/// Appends columns, each after a comma.
fn push_more_keys(text: &mut Vec<u8>, keys: &[Column]) -> Result<(), NoMemory>
    ensures { OnOk result (text.new.items ≡ text.old.items ++ continued (codes ", ") (map column_text (map (λ k. k.index) keys.now))) }
{
    match keys {
        [] => Ok(()),
        [key, rest @ ..] => {
            push(text, b", ")?;
            push_column(text, key.index)?;
            push_more_keys(text, rest)
        }
    }
}

/// Appends columns, with a comma between each two.
fn push_joined_keys(text: &mut Vec<u8>, keys: &[Column]) -> Result<(), NoMemory>
    ensures { OnOk result (text.new.items ≡ text.old.items ++ joined (codes ", ") (map column_text (map (λ k. k.index) keys.now))) }
{
    match keys {
        [] => Ok(()),
        [key, rest @ ..] => {
            push_column(text, key.index)?;
            push_more_keys(text, rest)
        }
    }
}

/// Appends the columns that rows are grouped by.
pub fn push_keys(text: &mut Vec<u8>, epochs: Epochs, keys: &[Column]) -> Result<(), NoMemory>
    ensures { OnOk result (text.new.items ≡ text.old.items ++ keys_text epochs (map (λ k. k.index) keys.now)) }
{
    push(text, epochs.epoch_text())?;
    push_joined_keys(text, keys)
}

/// Appends a pair of columns.
fn push_pair(text: &mut Vec<u8>, pair: &Pair) -> Result<(), NoMemory>
    ensures { OnOk result (text.new.items ≡ text.old.items ++ pair_text (plain_pair pair.now)) }
{
    push(text, b"l.")?;
    push_column(text, pair.left.index)?;
    push(text, b" = r.")?;
    push_column(text, pair.right.index)
}

/// Appends pairs, each after an AND.
fn push_more_pairs(text: &mut Vec<u8>, pairs: &[Pair]) -> Result<(), NoMemory>
    ensures { OnOk result (text.new.items ≡ text.old.items ++ continued (codes " AND ") (map pair_text (map plain_pair pairs.now))) }
{
    match pairs {
        [] => Ok(()),
        [pair, rest @ ..] => {
            push(text, b" AND ")?;
            push_pair(text, pair)?;
            push_more_pairs(text, rest)
        }
    }
}

/// Appends pairs, with an AND between each two.
pub fn push_pairs(text: &mut Vec<u8>, pairs: &[Pair]) -> Result<(), NoMemory>
    ensures { OnOk result (text.new.items ≡ text.old.items ++ joined (codes " AND ") (map pair_text (map plain_pair pairs.now))) }
{
    match pairs {
        [] => Ok(()),
        [pair, rest @ ..] => {
            push_pair(text, pair)?;
            push_more_pairs(text, rest)
        }
    }
}

/// Appends a column with what stands around it.
fn push_around(text: &mut Vec<u8>, before: &[u8], column: u64, after: &[u8]) -> Result<(), NoMemory>
    ensures { OnOk result (text.new.items ≡ text.old.items ++ (before.now ++ (column_text column ++ after.now))) }
{
    push(text, before)?;
    push_column(text, column)?;
    push(text, after)
}

/// Appends a sum.
fn push_sum(text: &mut Vec<u8>, form: Form, column: u64) -> Result<(), NoMemory>
    ensures { OnOk result (text.new.items ≡ text.old.items ++ sum_text form column) }
{
    push(text, form.arithmetic().sum_open())?;
    push(text, form.operand_open())?;
    push_column(text, column)?;
    push(text, form.operand_close())?;
    push(text, form.arithmetic().sum_close())
}

/// Appends an aggregate.
fn push_aggregate(text: &mut Vec<u8>, form: Form, aggregate: &Agg) -> Result<(), NoMemory>
    ensures { OnOk result (text.new.items ≡ text.old.items ++ aggregate_text form (aggregate_of (plain_agg aggregate.now))) }
{
    match aggregate {
        Agg::Count(_) => push(text, b"COUNT(*)"),
        Agg::Sum(_, column) => push_sum(text, form, column.index),
        Agg::Min(_, column) => push_around(text, b"MIN(", column.index, b")"),
        Agg::Max(_, column) => push_around(text, b"MAX(", column.index, b")"),
    }
}

/// Appends aggregates, each after a comma.
pub fn push_aggregates(text: &mut Vec<u8>, form: Form, aggregates: &[Agg]) -> Result<(), NoMemory>
    ensures { OnOk result (text.new.items ≡ text.old.items ++ continued (codes ", ") (map (aggregate_text form) (map aggregate_of (map plain_agg aggregates.now)))) }
{
    match aggregates {
        [] => Ok(()),
        [aggregate, rest @ ..] => {
            push(text, b", ")?;
            push_aggregate(text, form, aggregate)?;
            push_aggregates(text, form, rest)
        }
    }
}

/// Appends a comma, unless it is for the first.
fn push_comma(text: &mut Vec<u8>, number: u64) -> Result<(), NoMemory>
    ensures { OnOk result (text.new.items ≡ text.old.items ++ comma_text number) }
{
    if number == 0 {
        return Ok(());
    }
    push(text, b", ")
}

/// Appends the first columns.
fn push_numbered_columns(text: &mut Vec<u8>, count: u64) -> Result<(), NoMemory>
    ensures { OnOk result (text.new.items ≡ text.old.items ++ numbered column_text count) }
{
    for i in 0..count {
        push_comma(text, i)?;
        push_column(text, i)?;
    }
    Ok(())
}

/// Appends the names of so many columns, with the epoch.
pub fn push_columns(text: &mut Vec<u8>, epochs: Epochs, count: u64) -> Result<(), NoMemory>
    ensures { OnOk result (text.new.items ≡ text.old.items ++ columns_text epochs count) }
{
    let epoch = epochs.epoch_text();
    push(text, epoch)?;
    push_numbered_columns(text, count)
}

/// Appends a column as a table that is made has it.
fn push_made_column(text: &mut Vec<u8>, dialect: Dialect, column: u64) -> Result<(), NoMemory>
    ensures { OnOk result (text.new.items ≡ text.old.items ++ made_column_text dialect column) }
{
    match dialect {
        Dialect::Postgres | Dialect::Spark => push_column(text, column),
        Dialect::Sqlite => {
            push_column(text, column)?;
            push_around(text, b" CHECK (typeof(", column, b") = 'integer')")
        }
    }
}

/// Appends the first columns as a table that is made has them.
fn push_numbered_made(text: &mut Vec<u8>, dialect: Dialect, count: u64) -> Result<(), NoMemory>
    ensures { OnOk result (text.new.items ≡ text.old.items ++ numbered (made_column_text dialect) count) }
{
    for i in 0..count {
        push_comma(text, i)?;
        push_made_column(text, dialect, i)?;
    }
    Ok(())
}

/// Appends the columns of a table that is made, with the epoch.
pub fn push_made_columns(
    text: &mut Vec<u8>,
    dialect: Dialect,
    epochs: Epochs,
    count: u64,
) -> Result<(), NoMemory>
    ensures { OnOk result (text.new.items ≡ text.old.items ++ made_columns_text dialect epochs count) }
{
    push(text, epochs.made_epoch(dialect))?;
    push_numbered_made(text, dialect, count)
}

/// Appends the first columns as a table declares them.
fn push_numbered_declared(text: &mut Vec<u8>, count: u64) -> Result<(), NoMemory>
    ensures { OnOk result (text.new.items ≡ text.old.items ++ numbered declared_text count) }
{
    for i in 0..count {
        push_comma(text, i)?;
        push_column(text, i)?;
        push(text, b" BIGINT NOT NULL")?;
    }
    Ok(())
}

/// Appends the columns of a given table, with the epoch.
pub fn push_declared(text: &mut Vec<u8>, epochs: Epochs, count: u64) -> Result<(), NoMemory>
    ensures { OnOk result (text.new.items ≡ text.old.items ++ declared_columns_text epochs count) }
{
    push(text, epochs.declared_epoch())?;
    push_numbered_declared(text, count)
}

/// Appends 1, 2 and so on, for the columns of a table and the epoch.
pub fn push_places(text: &mut Vec<u8>, epochs: Epochs, width: u64) -> Result<(), NoMemory>
    ensures { OnOk result (text.new.items ≡ text.old.items ++ numbered place_text (places epochs width)) }
{
    let count = places(epochs, width)?;
    push_numbered_places(text, count)
}

/// Appends 1, 2 and so on, so many numbers.
fn push_numbered_places(text: &mut Vec<u8>, count: u64) -> Result<(), NoMemory>
    ensures { OnOk result (text.new.items ≡ text.old.items ++ numbered place_text count) }
{
    for i in 0..count {
        push_comma(text, i)?;
        push_number(text, i + 1)?;
    }
    Ok(())
}
