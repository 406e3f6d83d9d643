//! How many columns tables have.

ghost use Rattle.std.specs.Prelude.{◌≡◌, ◌+◌, map, IfOk};
ghost use Rattle.expr_tree.specs.Plain.{plain_input};
ghost use Rattle.sql_meaning.specs.WellFormed.{query_width, term_width};
ghost use Rattle.sql.specs.Epochs.{places};
ghost use Rattle.sql.specs.Shown.{shown_query, shown_table, shown_term};
ghost use Rattle.sql.specs.Widths.{width_in};

use crate::form::Epochs;
use crate::table::{Query, Table, Term};
use expr_tree::Input;
use record_core::NoMemory;
use std::alloc::Allocator;

/// The columns of a table; `widths` has those of the tables that are made.
pub fn table_width(inputs: &[Input], widths: &[u64], table: Table) -> u64
    ensures { result ≡ width_in (map plain_input inputs.now) widths.now (shown_table table) }
{
    match table {
        Table::Given(place) => {
            if place < inputs.len() as u64 {
                inputs[place as usize].arity
            } else {
                0
            }
        }
        Table::Made(number) => {
            if number < widths.len() as u64 {
                widths[number as usize]
            } else {
                0
            }
        }
    }
}

/// The columns of the table that a query makes. More than memory could name are refused like lack of memory.
pub fn query_width<A: Allocator>(
    inputs: &[Input],
    widths: &[u64],
    query: &Query<'_, A>,
) -> Result<u64, NoMemory>
    ensures { IfOk result (λ w. w ≡ query_width (shown_query query.now) (width_in (map plain_input inputs.now) widths.now)) }
{
    match query {
        Query::Select(scalars, _) => Ok(scalars.len() as u64),
        Query::Join(left, right, _) => added(
            table_width(inputs, widths, *left),
            table_width(inputs, widths, *right),
        ),
        Query::Group(keys, aggregates, _) => added(keys.len() as u64, aggregates.len() as u64),
        Query::Where(from, _)
        | Query::Distinct(from)
        | Query::SetOperation(_, from, _)
        | Query::Recursive(_, from, _) => Ok(table_width(inputs, widths, *from)),
    }
}

/// The columns of a recursive term, in a table of `own` columns. More than memory could name are refused like lack of memory.
pub fn term_width<A: Allocator>(
    inputs: &[Input],
    widths: &[u64],
    own: u64,
    term: &Term<'_, A>,
) -> Result<u64, NoMemory>
    ensures { IfOk result (λ w. w ≡ term_width (shown_term term.now) own (width_in (map plain_input inputs.now) widths.now)) }
{
    match term {
        Term::Latest => Ok(own),
        Term::Select(scalars, _) => Ok(scalars.len() as u64),
        Term::Where(of, _) => term_width(inputs, widths, own, of),
        Term::JoinLeft(of, table, _) => {
            let left = term_width(inputs, widths, own, of)?;
            added(left, table_width(inputs, widths, *table))
        }
        Term::JoinRight(table, of, _) => {
            let right = term_width(inputs, widths, own, of)?;
            added(table_width(inputs, widths, *table), right)
        }
    }
}

/// By how many columns the rows of a table are sorted.
pub fn places(epochs: Epochs, width: u64) -> Result<u64, NoMemory>
    ensures { IfOk result (λ w. w ≡ places epochs width) }
{
    match epochs {
        Epochs::One => Ok(width),
        Epochs::Every => added(width, 1),
    }
}

/// The sum of two numbers of columns.
fn added(left: u64, right: u64) -> Result<u64, NoMemory>
    ensures { IfOk result (λ w. w ≡ left + right) }
{
    match left.checked_add(right) {
        Some(sum) => Ok(sum),
        None => Err(NoMemory),
    }
}
