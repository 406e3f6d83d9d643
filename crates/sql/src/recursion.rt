//! The text of recursive tables.

ghost use Rattle.std.specs.Prelude.{◌≡◌, ◌++◌, map, OnOk};
ghost use Rattle.expr_tree.specs.Plain.{plain_input};
ghost use Rattle.sql.specs.Shown.{shown_table, shown_term};
ghost use Rattle.sql.specs.Text.{alias_text, recursive_text, term_text, turns_text, union_text};
ghost use Rattle.sql.specs.Widths.{width_in};

use crate::columns::{push_columns, push_pairs};
use crate::condition::push_cond;
use crate::form::{Epochs, Form};
use crate::push::{push, push_number};
use crate::query::{push_made, push_table};
use crate::scalar::push_scalars;
use crate::table::{Table, Term};
use crate::widths::{table_width, term_width};
use expr_tree::Input;
use record_core::NoMemory;
use std::alloc::Allocator;

/// A table that is made, in whose query a term stands: its number, and how many columns it has.
#[derive(Clone, Copy)]
struct Around {
    number: u64,
    width: u64,
}

/// Appends a name for a subquery, and names for its columns.
fn push_alias(text: &mut Vec<u8>, epochs: Epochs, alias: &[u8], width: u64) -> Result<(), NoMemory>
    ensures { OnOk result (text.new.items ≡ text.old.items ++ alias_text epochs alias.now width) }
{
    push(text, alias)?;
    push_columns(text, epochs, width)
}

/// Appends a recursive term.
fn push_term<A: Allocator>(
    text: &mut Vec<u8>,
    form: Form,
    epochs: Epochs,
    inputs: &[Input],
    widths: &[u64],
    around: Around,
    term: &Term<'_, A>,
) -> Result<(), NoMemory>
    ensures { OnOk result (text.new.items ≡ text.old.items ++ term_text form epochs (map plain_input inputs.now)
        (width_in (map plain_input inputs.now) widths.now) around.number around.width (shown_term term.now)) }
{
    match term {
        Term::Latest => {
            push(text, b"SELECT * FROM ")?;
            push_made(text, form.dialect(), around.number)
        }
        Term::Select(scalars, of) => {
            let width = term_width(inputs, widths, around.width, of)?;
            push(text, b"SELECT ")?;
            push(text, epochs.epoch_text())?;
            push_scalars(text, form, scalars)?;
            push(text, b" FROM (")?;
            push_term(text, form, epochs, inputs, widths, around, of)?;
            push_alias(text, epochs, b") AS s (", width)?;
            push(text, b")")
        }
        Term::Where(of, condition) => {
            let width = term_width(inputs, widths, around.width, of)?;
            push(text, b"SELECT * FROM (")?;
            push_term(text, form, epochs, inputs, widths, around, of)?;
            push_alias(text, epochs, b") AS s (", width)?;
            push(text, b") WHERE ")?;
            push_cond(text, form, condition)
        }
        Term::JoinLeft(of, table, pairs) => {
            let width = term_width(inputs, widths, around.width, of)?;
            push(text, b"SELECT * FROM (")?;
            push_term(text, form, epochs, inputs, widths, around, of)?;
            push_alias(text, epochs, b") AS l (", width)?;
            push(text, b") INNER JOIN ")?;
            push_table(text, form.dialect(), inputs, *table)?;
            push(text, epochs.join_word())?;
            push_pairs(text, pairs)
        }
        Term::JoinRight(table, of, pairs) => {
            let width = term_width(inputs, widths, around.width, of)?;
            push(text, b"SELECT * FROM ")?;
            push_table(text, form.dialect(), inputs, *table)?;
            push(text, b" AS l INNER JOIN (")?;
            push_term(text, form, epochs, inputs, widths, around, of)?;
            push_alias(text, epochs, b") AS r (", width)?;
            push(text, epochs.inner_join_word())?;
            push_pairs(text, pairs)
        }
    }
}

/// Appends where a recursive table is right.
fn push_turns(text: &mut Vec<u8>, turns: u64) -> Result<(), NoMemory>
    ensures { OnOk result (text.new.items ≡ text.old.items ++ turns_text turns) }
{
    push(
        text,
        b"-- The answer is the query's where nothing is new after ",
    )?;
    push_number(text, turns)?;
    push(text, b" turns.\n")
}

/// Appends the recursive UNION of a table, after its columns.
fn push_union<A: Allocator>(
    text: &mut Vec<u8>,
    form: Form,
    epochs: Epochs,
    inputs: &[Input],
    widths: &[u64],
    table: Recursive,
    term: &Term<'_, A>,
) -> Result<(), NoMemory>
    ensures { OnOk result (text.new.items ≡ text.old.items ++ union_text form epochs (map plain_input inputs.now)
        (width_in (map plain_input inputs.now) widths.now) table.number (shown_table table.start) (shown_term term.now)) }
{
    let around = Around {
        number: table.number,
        width: table_width(inputs, widths, table.start),
    };
    push(text, b") AS (SELECT * FROM ")?;
    push_table(text, form.dialect(), inputs, table.start)?;
    push(text, b" UNION ")?;
    push_term(text, form, epochs, inputs, widths, around, term)?;
    push(text, b") SELECT * FROM ")?;
    push_made(text, form.dialect(), table.number)
}

/// A recursive table: its number, its turns, and its start.
#[derive(Clone, Copy)]
pub struct Recursive {
    pub number: u64,
    pub turns: u64,
    pub start: Table,
}

/// Appends the query of a recursive table; `widths` has the columns of the tables that are made.
pub fn push_recursive<A: Allocator>(
    text: &mut Vec<u8>,
    form: Form,
    epochs: Epochs,
    inputs: &[Input],
    widths: &[u64],
    table: Recursive,
    term: &Term<'_, A>,
) -> Result<(), NoMemory>
    ensures { OnOk result (text.new.items ≡ text.old.items ++ recursive_text form epochs (map plain_input inputs.now)
        (width_in (map plain_input inputs.now) widths.now) table.number table.turns (shown_table table.start) (shown_term term.now)) }
{
    push_turns(text, table.turns)?;
    push(text, b"WITH RECURSIVE ")?;
    push_made(text, form.dialect(), table.number)?;
    push(text, b" (")?;
    push_columns(text, epochs, table_width(inputs, widths, table.start))?;
    push_union(text, form, epochs, inputs, widths, table, term)
}
