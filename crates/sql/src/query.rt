//! The text of queries.

ghost use Rattle.std.specs.Prelude.{◌≡◌, ◌++◌, [], decimal, map, slice_index_or, OnOk};
ghost use Rattle.expr_tree.specs.Plain.{plain_agg, plain_cond, plain_input, plain_pair};
ghost use Rattle.expr_tree.specs.PlainLists.{plain_scalars};
ghost use Rattle.expr_tree.specs.Views.{cond_tree};
ghost use Rattle.sql_meaning.specs.Translation.{aggregate_of, expression, search};
ghost use Rattle.sql.specs.Shown.{shown_query, shown_table};
ghost use Rattle.sql.specs.Widths.{width_in};
ghost use Rattle.sql.specs.Signs.{set_operator_text};
ghost use Rattle.sql.specs.Text.{both_text, group_text, join_text, query_text, quoted, select_text, table_text, where_text};

use crate::columns::{push_aggregates, push_keys, push_pairs};
use crate::condition::push_cond;
use crate::form::{Dialect, Epochs, Form};
use crate::push::{push, push_number};
use crate::recursion::{Recursive, push_recursive};
use crate::scalar::push_scalars;
use crate::table::{Query, Table};
use expr_tree::{Agg, Column, Cond, Input, Pair, Scalar, SetOperator};
use record_core::NoMemory;
use std::alloc::Allocator;

/// Appends the name of a table that is made.
pub fn push_made(text: &mut Vec<u8>, dialect: Dialect, number: u64) -> Result<(), NoMemory>
    ensures { OnOk result (text.new.items ≡ text.old.items ++ quoted dialect (decimal number)) }
{
    push(text, dialect.quote())?;
    push_number(text, number)?;
    push(text, dialect.quote())
}

/// Appends a table's name.
pub fn push_table(
    text: &mut Vec<u8>,
    dialect: Dialect,
    inputs: &[Input],
    table: Table,
) -> Result<(), NoMemory>
    ensures { OnOk result (text.new.items ≡ text.old.items ++ table_text dialect (map plain_input inputs.now) (shown_table table)) }
{
    match table {
        Table::Given(place) => {
            push(text, dialect.quote())?;
            push_input_name(text, inputs, place)?;
            push(text, dialect.quote())
        }
        Table::Made(number) => push_made(text, dialect, number),
    }
}

/// Appends an input's name, or nothing beyond the last.
fn push_input_name(text: &mut Vec<u8>, inputs: &[Input], place: u64) -> Result<(), NoMemory>
    ensures { OnOk result (text.new.items ≡ text.old.items ++ slice_index_or (map (λ a. a.name) (map plain_input inputs.now)) place []) }
{
    if place < inputs.len() as u64 {
        return push(text, inputs[place as usize].name.bytes());
    }
    Ok(())
}

/// Appends the word of an operator of sets.
fn push_set_operator(text: &mut Vec<u8>, operator: SetOperator) -> Result<(), NoMemory>
    ensures { OnOk result (text.new.items ≡ text.old.items ++ set_operator_text operator) }
{
    match operator {
        SetOperator::Concat => push(text, b" UNION ALL"),
        SetOperator::Except => push(text, b" EXCEPT"),
        SetOperator::Intersect => push(text, b" INTERSECT"),
    }
}

/// Appends a select.
fn push_select<A: Allocator>(
    text: &mut Vec<u8>,
    form: Form,
    epochs: Epochs,
    inputs: &[Input],
    scalars: &[Scalar<A>],
    from: Table,
) -> Result<(), NoMemory>
    ensures { OnOk result (text.new.items ≡ text.old.items ++ select_text form epochs (map plain_input inputs.now)
        (map expression (plain_scalars scalars.now)) (shown_table from)) }
{
    push(text, b"SELECT ")?;
    push(text, epochs.epoch_text())?;
    push_scalars(text, form, scalars)?;
    push(text, b" FROM ")?;
    push_table(text, form.dialect(), inputs, from)
}

/// Appends a where.
fn push_where<A: Allocator>(
    text: &mut Vec<u8>,
    form: Form,
    inputs: &[Input],
    from: Table,
    condition: &Cond<A>,
) -> Result<(), NoMemory>
    ensures { OnOk result (text.new.items ≡ text.old.items ++ where_text form (map plain_input inputs.now)
        (shown_table from) (search (plain_cond (cond_tree condition.now)))) }
{
    push(text, b"SELECT * FROM ")?;
    push_table(text, form.dialect(), inputs, from)?;
    push(text, b" WHERE ")?;
    push_cond(text, form, condition)
}

/// Appends a join.
fn push_join(
    text: &mut Vec<u8>,
    dialect: Dialect,
    epochs: Epochs,
    inputs: &[Input],
    left: Table,
    right: Table,
    pairs: &[Pair],
) -> Result<(), NoMemory>
    ensures { OnOk result (text.new.items ≡ text.old.items ++ join_text dialect epochs (map plain_input inputs.now) (shown_table left) (shown_table right) (map plain_pair pairs.now)) }
{
    push(text, b"SELECT * FROM ")?;
    push_table(text, dialect, inputs, left)?;
    push(text, b" AS l INNER JOIN ")?;
    push_table(text, dialect, inputs, right)?;
    push(text, epochs.join_word())?;
    push_pairs(text, pairs)
}

/// Appends a group.
fn push_group(
    text: &mut Vec<u8>,
    form: Form,
    epochs: Epochs,
    inputs: &[Input],
    keys: &[Column],
    aggregates: &[Agg],
    from: Table,
) -> Result<(), NoMemory>
    ensures { OnOk result (text.new.items ≡ text.old.items ++ group_text form epochs (map plain_input inputs.now)
        (map (λ k. k.index) keys.now) (map aggregate_of (map plain_agg aggregates.now)) (shown_table from)) }
{
    push(text, b"SELECT ")?;
    push_keys(text, epochs, keys)?;
    push_aggregates(text, form, aggregates)?;
    push(text, b" FROM ")?;
    push_table(text, form.dialect(), inputs, from)?;
    push(text, b" GROUP BY ")?;
    push_keys(text, epochs, keys)
}

/// Appends all rows of two tables under an operator of sets.
fn push_both(
    text: &mut Vec<u8>,
    dialect: Dialect,
    inputs: &[Input],
    operator: SetOperator,
    left: Table,
    right: Table,
) -> Result<(), NoMemory>
    ensures { OnOk result (text.new.items ≡ text.old.items ++ both_text dialect (map plain_input inputs.now) (set_operator_text operator) (shown_table left) (shown_table right)) }
{
    push(text, b"SELECT * FROM ")?;
    push_table(text, dialect, inputs, left)?;
    push_set_operator(text, operator)?;
    push(text, b" SELECT * FROM ")?;
    push_table(text, dialect, inputs, right)
}

/// Appends the query of the table with that number; `widths` has the columns of the tables that are made.
pub fn push_query<A: Allocator>(
    text: &mut Vec<u8>,
    form: Form,
    epochs: Epochs,
    inputs: &[Input],
    widths: &[u64],
    number: u64,
    query: &Query<'_, A>,
) -> Result<(), NoMemory>
    ensures { OnOk result (text.new.items ≡ text.old.items ++ query_text form epochs (map plain_input inputs.now)
        (width_in (map plain_input inputs.now) widths.now) number (shown_query query.now)) }
{
    match query {
        Query::Select(scalars, from) => { push_select(text, form, epochs, inputs, scalars, *from) }
        Query::Where(from, condition) => { push_where(text, form, inputs, *from, condition) }
        Query::Join(left, right, pairs) => push_join(
            text,
            form.dialect(),
            epochs,
            inputs,
            *left,
            *right,
            pairs,
        ),
        Query::Group(keys, aggregates, from) => {
            push_group(text, form, epochs, inputs, keys, aggregates, *from)
        }
        Query::Distinct(from) => {
            push(text, b"SELECT DISTINCT * FROM ")?;
            push_table(text, form.dialect(), inputs, *from)
        }
        Query::SetOperation(operator, left, right) => {
            push_both(text, form.dialect(), inputs, *operator, *left, *right)
        }
        Query::Recursive(turns, start, term) => {
            let table = Recursive {
                number,
                turns: *turns,
                start: *start,
            };
            push_recursive(text, form, epochs, inputs, widths, table, term)
        }
    }
}
