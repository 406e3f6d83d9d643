//! The tables of a script.

ghost use Rattle.std.specs.Prelude.{IfOk};
ghost use Rattle.sql_meaning.specs.Translation.{then_query};
ghost use Rattle.sql.specs.Shown.{IsWritten, made_of, shown_query};

use expr_tree::{Agg, Column, Cond, Pair, Scalar, SetOperator};
use record_core::NoMemory;
use std::alloc::Allocator;

/// A table that a query reads: an input's by its place, or one that the script makes by its number, each from 0.
#[derive(Clone, Copy)]
pub enum Table {
    Given(u64),
    Made(u64),
}

/// What a turn of a recursive table makes of the rows that the turn before found, with the parts of the tree that it is written from.
#[derive(Drop)]
pub enum Term<'a, A: Allocator> {
    Latest,
    Select(&'a [Scalar<A>], Box<Term<'a, A>>),
    Where(Box<Term<'a, A>>, &'a Cond<A>),
    JoinLeft(Box<Term<'a, A>>, Table, &'a [Pair]),
    JoinRight(Table, Box<Term<'a, A>>, &'a [Pair]),
}

/// The query that makes a table, over tables before it, with the parts of the tree that it is written from.
#[derive(Drop)]
pub enum Query<'a, A: Allocator> {
    Select(&'a [Scalar<A>], Table),
    Where(Table, &'a Cond<A>),
    Join(Table, Table, &'a [Pair]),
    Group(&'a [Column], &'a [Agg], Table),
    Distinct(Table),
    SetOperation(SetOperator, Table, Table),
    /// The turns, the start and the recursive term.
    Recursive(u64, Table, Term<'a, A>),
}

/// The tables that a script makes, in order, and those that hold the outputs' rows.
#[derive(Drop)]
pub struct Script<'a, A: Allocator> {
    pub made: Vec<Query<'a, A>>,
    pub results: Vec<Table>,
}

/// One table more.
pub fn add_table<'a, A: Allocator>(
    query: Query<'a, A>,
    made: &mut Vec<Query<'a, A>>,
) -> Result<Table, NoMemory>
    ensures { IfOk result (IsWritten (then_query (made_of made.old.items) (shown_query query.entry)) made.new.items) }
{
    let number = made.len() as u64;
    made.push(query)?;
    Ok(Table::Made(number))
}
