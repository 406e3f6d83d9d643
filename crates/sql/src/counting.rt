//! How many tables a query takes.

ghost use Rattle.std.specs.Prelude.{◌≡◌, ◌≤◌, ◌<◌, ◌+◌, MatchOption, MatchResult};
ghost use Rattle.expr_tree.specs.Plain.{plain_form, plain_program, plain_rel};
ghost use Rattle.expr_tree.specs.PlainLists.{plain_lets, plain_outputs};
ghost use Rattle.expr_tree.specs.Views.{program_tree, rel_tree};
ghost use Rattle.sql_meaning.specs.Count.{lets_count, loop_count, outputs_count, program_count, side_count, table_count};
ghost use Rattle.sql.specs.Limits.{IsCount};

use crate::linear::{is_linear, is_recursion};
use expr_tree::{Let, LoopForm, Output, Program, Rel};
use record_core::{Name, Span};
use std::alloc::Allocator;

/// The most tables that a script may take.
pub const MAX_TABLES: u64 = 4096;

/// The refusal of a query that takes more.
pub const TOO_MANY_TABLES: u8 = 24;

/// The number, unless it is over the limit.
fn within(count: u64) -> Option<u64>
    ensures { IsCount result count }
{
    if count <= MAX_TABLES {
        Some(count)
    } else {
        None
    }
}

/// The tables of a loop's turns, by those of one.
fn count_turns(form: LoopForm, turns: u64, start: u64, body: u64) -> Option<u64>
    requires start { start ≤ MAX_TABLES }
    requires body { body ≤ MAX_TABLES }
    ensures { IsCount result (loop_count (plain_form form) turns start body) }
{
    let (first, turn) = match form {
        LoopForm::Iterate => (start, body.max(1)),
        LoopForm::Closure => (start + 1, body + 2),
    };
    match turns.checked_mul(turn) {
        Some(all) if all <= MAX_TABLES => within(first + all),
        _ => None,
    }
}

/// The tables that a relation takes at most; `None` where these are too many.
#[cycle(count)]
pub fn count_tables<A: Allocator>(recursive: bool, relation: &Rel<A>) -> Option<u64>
    ensures { IsCount result (table_count recursive (plain_rel (rel_tree relation.now))) }
{
    match relation {
        Rel::Named(_, _) => Some(0),
        Rel::Select(_, of, _)
        | Rel::Where(_, of, _)
        | Rel::Group(_, of, _, _)
        | Rel::Distinct(_, of) => within(count_tables(recursive, of)? + 1),
        Rel::SetOperation(_, _, left, right) => {
            within(count_tables(recursive, left)? + count_tables(recursive, right)? + 1)
        }
        Rel::Join(_, left, right, _) => {
            within(count_tables(recursive, left)? + count_tables(recursive, right)? + 1)
        }
        Rel::Loop {
            form,
            turns,
            name,
            start,
            body,
            ..
        } => {
            let first = count_tables(recursive, start)?;
            if is_recursion(recursive, *form, *turns, name, body) {
                return within(first + count_sides(recursive, name, body)? + 1);
            }
            if *turns == 0 {
                return count_turns(*form, 0, first, 0);
            }
            count_turns(*form, *turns, first, count_tables(recursive, body)?)
        }
    }
}

/// The tables that the other sides of the joins of a linear body take at most; `None` where these are too many.
#[cycle(count)]
fn count_sides<A: Allocator>(recursive: bool, name: &Name, relation: &Rel<A>) -> Option<u64>
    ensures { IsCount result (side_count recursive name.now (plain_rel (rel_tree relation.now))) }
{
    match relation {
        Rel::Select(_, of, _) | Rel::Where(_, of, _) => count_sides(recursive, name, of),
        Rel::Join(_, left, right, _) => {
            if is_linear(name, left) {
                within(count_sides(recursive, name, left)? + count_tables(recursive, right)?)
            } else {
                within(count_tables(recursive, left)? + count_sides(recursive, name, right)?)
            }
        }
        Rel::Named(_, _)
        | Rel::SetOperation(_, _, _, _)
        | Rel::Group(_, _, _, _)
        | Rel::Distinct(_, _)
        | Rel::Loop { .. } => Some(0),
    }
}

/// One relation more, of a let or an output: the tables so far and its own.
fn count_more<A: Allocator>(
    recursive: bool,
    so_far: u64,
    relation: &Rel<A>,
    place: Span,
) -> Result<u64, Span>
    requires { so_far ≤ MAX_TABLES }
    ensures { MatchResult result
        (λ n. (n ≡ so_far + table_count recursive (plain_rel (rel_tree relation.now))) × (n ≤ MAX_TABLES))
        (λ e. MAX_TABLES < so_far + table_count recursive (plain_rel (rel_tree relation.now))) }
{
    match count_tables(recursive, relation) {
        Some(count) if so_far + count <= MAX_TABLES => Ok(so_far + count),
        _ => Err(place),
    }
}

/// The tables of lets and outputs in order. Where they become too many, the place of that let's or output's name.
pub fn count_program<A: Allocator>(recursive: bool, program: &Program<A>) -> Result<u64, Span>
    ensures { MatchResult result
        (λ n. (n ≡ program_count recursive (plain_program (program_tree program.now))) × (n ≤ MAX_TABLES))
        (λ e. MAX_TABLES < program_count recursive (plain_program (program_tree program.now))) }
{
    let lets = count_lets(recursive, &program.lets)?;
    count_outputs(recursive, lets, &program.outputs)
}

/// The tables of lets.
fn count_lets<A: Allocator>(recursive: bool, lets: &[Let<A>]) -> Result<u64, Span>
    ensures { MatchResult result
        (λ n. (n ≡ lets_count recursive (plain_lets lets.now)) × (n ≤ MAX_TABLES))
        (λ e. MAX_TABLES < lets_count recursive (plain_lets lets.now)) }
{
    let mut so_far = 0;
    for i in 0..lets.len() {
        so_far = count_more(recursive, so_far, &lets[i].relation, lets[i].name_span)?;
    }
    Ok(so_far)
}

/// The tables of outputs, after so many.
fn count_outputs<A: Allocator>(
    recursive: bool,
    so_far: u64,
    outputs: &[Output<A>],
) -> Result<u64, Span>
    requires { so_far ≤ MAX_TABLES }
    ensures { MatchResult result
        (λ n. (n ≡ so_far + outputs_count recursive (plain_outputs outputs.now)) × (n ≤ MAX_TABLES))
        (λ e. MAX_TABLES < so_far + outputs_count recursive (plain_outputs outputs.now)) }
{
    match outputs {
        [] => Ok(so_far),
        [output, rest @ ..] => {
            let more = count_more(recursive, so_far, &output.relation, output.name_span)?;
            count_outputs(recursive, more, rest)
        }
    }
}
