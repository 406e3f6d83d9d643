//! Which tables are wanted: those of the outputs that are asked for, and those that one reads that is made.

ghost use Rattle.std.specs.Prelude.{◌≡◌, ◌++◌, map, option_map, OnOk};
ghost use Rattle.expr_tree.specs.PlainLists.{plain_outputs};
ghost use Rattle.sql_meaning.specs.Wanted.{is_in, number_of, reads, term_reads};
ghost use Rattle.sql.specs.Asked.{asked_tables, fits_layout, has_asked, has_output, has_several, is_asked};
ghost use Rattle.sql.specs.Shown.{shown_query, shown_table, shown_term};

use crate::form::Layout;
use crate::table::{Query, Table, Term};
use expr_tree::Output;
use record_core::{Name, NoMemory};
use std::alloc::Allocator;

/// The refusal of a name that no output has.
pub const NO_SUCH_OUTPUT: u8 = 25;

/// The refusal of one statement of several outputs.
pub const SEVERAL_OUTPUTS: u8 = 22;

/// Whether the output of that name is asked for.
pub fn is_asked(asked: Option<&[u8]>, name: &Name) -> bool
    ensures { result ≡ is_asked (option_map (λ s. s.now) asked.entry) name.now }
{
    match asked {
        None => true,
        Some(word) => word == name.bytes(),
    }
}

/// Whether an output is asked for, or all are.
pub fn has_output<A: Allocator>(asked: Option<&[u8]>, outputs: &[Output<A>]) -> bool
    ensures { result ≡ has_output (option_map (λ s. s.now) asked.entry) (plain_outputs outputs.now) }
{
    match outputs {
        [] => asked.is_none(),
        [output, rest @ ..] => is_asked(asked, &output.name) || has_output(asked, rest),
    }
}

/// Whether some of the outputs are asked for.
fn has_asked<A: Allocator>(asked: Option<&[u8]>, outputs: &[Output<A>]) -> bool
    ensures { result ≡ has_asked (option_map (λ s. s.now) asked.entry) (plain_outputs outputs.now) }
{
    match outputs {
        [] => false,
        [output, rest @ ..] => is_asked(asked, &output.name) || has_asked(asked, rest),
    }
}

/// Whether more than one of the outputs is asked for.
fn has_several<A: Allocator>(asked: Option<&[u8]>, outputs: &[Output<A>]) -> bool
    ensures { result ≡ has_several (option_map (λ s. s.now) asked.entry) (plain_outputs outputs.now) }
{
    match outputs {
        [] => false,
        [output, rest @ ..] => {
            is_asked(asked, &output.name) && has_asked(asked, rest) || has_several(asked, rest)
        }
    }
}

/// Whether no more outputs are asked for than the layout is of.
pub fn has_layout<A: Allocator>(layout: Layout, asked: Option<&[u8]>, outputs: &[Output<A>]) -> bool
    ensures { result ≡ fits_layout layout (has_several (option_map (λ s. s.now) asked.entry) (plain_outputs outputs.now)) }
{
    match layout {
        Layout::Script => true,
        Layout::Statement => !has_several(asked, outputs),
    }
}

/// Whether a number is in a list.
pub fn is_in(number: u64, numbers: &[u64]) -> bool
    ensures { result ≡ is_in number numbers.now }
{
    match numbers {
        [] => false,
        [first, rest @ ..] => *first == number || is_in(number, rest),
    }
}

/// Adds the number of a table, if the script makes it.
fn push_number_of(wanted: &mut Vec<u64>, table: Table) -> Result<(), NoMemory>
    ensures { OnOk result (wanted.new.items ≡ wanted.old.items ++ number_of (shown_table table)) }
{
    match table {
        Table::Given(_) => {}
        Table::Made(number) => wanted.push(number)?,
    }
    Ok(())
}

/// Adds the numbers of the tables that a recursive term reads, of those that the script makes.
fn push_term_reads<A: Allocator>(wanted: &mut Vec<u64>, term: &Term<'_, A>) -> Result<(), NoMemory>
    ensures { OnOk result (wanted.new.items ≡ wanted.old.items ++ term_reads (shown_term term.now)) }
{
    match term {
        Term::Latest => Ok(()),
        Term::Select(_, of) | Term::Where(of, _) => push_term_reads(wanted, of),
        Term::JoinLeft(of, table, _) => {
            push_term_reads(wanted, of)?;
            push_number_of(wanted, *table)
        }
        Term::JoinRight(table, of, _) => {
            push_number_of(wanted, *table)?;
            push_term_reads(wanted, of)
        }
    }
}

/// Adds the numbers of the tables that a query reads, of those that the script makes.
pub fn push_reads<A: Allocator>(wanted: &mut Vec<u64>, query: &Query<'_, A>) -> Result<(), NoMemory>
    ensures { OnOk result (wanted.new.items ≡ wanted.old.items ++ reads (shown_query query.now)) }
{
    match query {
        Query::Select(_, from)
        | Query::Where(from, _)
        | Query::Group(_, _, from)
        | Query::Distinct(from) => push_number_of(wanted, *from),
        Query::Join(left, right, _) | Query::SetOperation(_, left, right) => {
            push_number_of(wanted, *left)?;
            push_number_of(wanted, *right)
        }
        Query::Recursive(_, start, term) => {
            push_number_of(wanted, *start)?;
            push_term_reads(wanted, term)
        }
    }
}

/// Adds the numbers of the tables that hold the rows of the outputs that are asked for, of those that the script makes.
pub fn push_asked<A: Allocator>(
    wanted: &mut Vec<u64>,
    asked: Option<&[u8]>,
    results: &[Table],
    outputs: &[Output<A>],
) -> Result<(), NoMemory>
    ensures { OnOk result (wanted.new.items ≡ wanted.old.items
        ++ asked_tables (option_map (λ s. s.now) asked.entry) (map shown_table results.now) (plain_outputs outputs.now)) }
{
    match results {
        [] => Ok(()),
        [table, results @ ..] => match outputs {
            [] => Ok(()),
            [output, outputs @ ..] => {
                if is_asked(asked, &output.name) {
                    push_number_of(wanted, *table)?;
                }
                push_asked(wanted, asked, results, outputs)
            }
        },
    }
}
