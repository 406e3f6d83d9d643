//! Which trees have a text.
//!
//! Each function has `room` for phrases one within another, and goes no deeper than that: it takes no memory, and its recursion
//! is as deep as the highest text.

ghost use Rattle.std.specs.Prelude.{◌≤◌, ◌↔◌, IsTrue, map};
ghost use Rattle.record_core.specs.Names.{IsName};
ghost use Rattle.expr_tree.specs.Views.{cond_tree, let_tree, output_tree, program_tree, rel_tree, scalar_tree};
ghost use Rattle.grammar.specs.Texts.{max_height};
ghost use Rattle.writer.specs.Scalars as scalars;
ghost use Rattle.writer.specs.Scalars.{scalar_height};
ghost use Rattle.writer.specs.Conditions as conditions;
ghost use Rattle.writer.specs.Conditions.{cond_height};
ghost use Rattle.writer.specs.Relations.{heights, rel_height};
ghost use Rattle.writer.specs.Programs.{lets_height, output_height};
ghost use Rattle.writer.specs.Sources.{Each, Filled, IsAggSource, IsColumnSource, IsCondSource, IsInputSource, IsLetSource, IsLiteral};
ghost use Rattle.writer.specs.Sources.{IsNumber, IsOutputSource, IsPairSource, IsRelSource, IsScalarSource, IsSource};

use crate::rank::{CondRank, ScalarRank};
use expr_tree::{Agg, Column, Cond, Input, Let, Output, Pair, Program, Rel, Scalar};
use record_core::Name;
use std::alloc::Allocator;

/// The greatest height of a phrase.
const MAX_HEIGHT: u32 = 64;

fn is_number(number: u64) -> bool
    ensures { IsTrue result ↔ IsNumber number }
{
    number < 0x8000_0000_0000_0000
}

fn is_literal(number: i64) -> bool
    ensures { IsTrue result ↔ IsLiteral number }
{
    number >= 0
}

/// Whether a scalar has a text of at most that height.
#[cycle(fits)]
fn scalar_fits<A: Allocator>(scalar: &Scalar<A>, room: u32) -> bool
    ensures { IsTrue result ↔ (IsScalarSource (scalar_tree scalar.now) × (scalar_height (scalar_tree scalar.now) ≤ room)) }
{
    if room == 0 {
        return false;
    }
    match scalar {
        Scalar::Literal(_, number) => is_literal(*number),
        Scalar::Column(_, index) => is_number(*index),
        Scalar::Binary(_, operator, left, right) => {
            operand_fits(left, ScalarRank::left_of(*operator), room - 1)
                && operand_fits(right, ScalarRank::right_of(*operator), room - 1)
        }
        Scalar::Negate(_, inner) => operand_fits(inner, ScalarRank::Single, room - 1),
    }
}

/// The same of an operand, with the brackets that its place asks for.
#[cycle(fits)]
fn operand_fits<A: Allocator>(scalar: &Scalar<A>, least: ScalarRank, room: u32) -> bool
    ensures { IsTrue result ↔ (IsScalarSource (scalar_tree scalar.now) × (scalars.operand_height (scalar_tree scalar.now) least ≤ room)) }
{
    if ScalarRank::of(scalar).is_below(least) {
        room > 0 && scalar_fits(scalar, room - 1)
    } else {
        scalar_fits(scalar, room)
    }
}

/// Whether a condition has a text of at most that height.
#[cycle(fits_conditions)]
fn cond_fits<A: Allocator>(condition: &Cond<A>, room: u32) -> bool
    ensures { IsTrue result ↔ (IsCondSource (cond_tree condition.now) × (cond_height (cond_tree condition.now) ≤ room)) }
{
    if room == 0 {
        return false;
    }
    match condition {
        Cond::Compare(_, _, left, right) => {
            scalar_fits(left, room - 1) && scalar_fits(right, room - 1)
        }
        Cond::Logical(_, connective, left, right) => {
            side_fits(left, CondRank::left_of(*connective), room - 1)
                && side_fits(right, CondRank::right_of(*connective), room - 1)
        }
        Cond::Not(_, inner) => cond_fits(inner, room - 1),
    }
}

/// The same of an operand, with the brackets that its place asks for.
#[cycle(fits_conditions)]
fn side_fits<A: Allocator>(condition: &Cond<A>, least: CondRank, room: u32) -> bool
    ensures { IsTrue result ↔ (IsCondSource (cond_tree condition.now) × (conditions.operand_height (cond_tree condition.now) least ≤ room)) }
{
    if CondRank::of(condition).is_below(least) {
        room > 0 && cond_fits(condition, room - 1)
    } else {
        cond_fits(condition, room)
    }
}

/// Whether there are scalars, and each has a text of at most that height.
fn scalars_fit<A: Allocator>(scalars: &[Scalar<A>], room: u32) -> bool
    ensures { IsTrue result ↔ (Filled IsScalarSource (map scalar_tree scalars.now) × (heights scalar_height (map scalar_tree scalars.now) ≤ room)) }
{
    for scalar in scalars {
        if !scalar_fits(scalar, room) {
            return false;
        }
    }
    !scalars.is_empty()
}

fn is_column(column: &Column) -> bool
    ensures { IsTrue result ↔ IsColumnSource column.now }
{
    is_number(column.index)
}

fn is_pair(pair: &Pair) -> bool
    ensures { IsTrue result ↔ IsPairSource pair.now }
{
    is_column(&pair.left) && is_column(&pair.right)
}

fn is_aggregate(aggregate: &Agg) -> bool
    ensures { IsTrue result ↔ IsAggSource aggregate.now }
{
    match aggregate {
        Agg::Count(_) => true,
        Agg::Sum(_, column) | Agg::Min(_, column) | Agg::Max(_, column) => is_column(column),
    }
}

/// Whether there are columns, and none is too large.
fn are_columns(columns: &[Column]) -> bool
    ensures { IsTrue result ↔ Filled IsColumnSource columns.now }
{
    for column in columns {
        if !is_column(column) {
            return false;
        }
    }
    !columns.is_empty()
}

/// Whether there are pairs, and no column of them is too large.
fn are_pairs(pairs: &[Pair]) -> bool
    ensures { IsTrue result ↔ Filled IsPairSource pairs.now }
{
    for pair in pairs {
        if !is_pair(pair) {
            return false;
        }
    }
    !pairs.is_empty()
}

/// Whether there are aggregates, and no column of them is too large.
fn are_aggregates(aggregates: &[Agg]) -> bool
    ensures { IsTrue result ↔ Filled IsAggSource aggregates.now }
{
    for aggregate in aggregates {
        if !is_aggregate(aggregate) {
            return false;
        }
    }
    !aggregates.is_empty()
}

/// A `Name` is a name, whatever its bytes.
fn is_name(name: &Name) -> bool
    ensures { IsTrue result ↔ IsName name.now }
{
    !name.bytes().is_empty()
}

/// Whether a relation has a text of at most that height.
#[tactic(auto, using(crate::proofs::Sizes::rel_high))]
fn rel_fits<A: Allocator>(relation: &Rel<A>, room: u32) -> bool
    ensures { IsTrue result ↔ (IsRelSource (rel_tree relation.now) × (rel_height (rel_tree relation.now) ≤ room)) }
{
    if room == 0 {
        return false;
    }
    let inside = room - 1;
    match relation {
        Rel::Named(_, name) => is_name(name),
        Rel::Select(_, of, scalars) => rel_fits(of, inside) && scalars_fit(scalars, inside),
        Rel::Where(_, of, condition) => rel_fits(of, inside) && cond_fits(condition, inside),
        Rel::SetOperation(_, _, left, right) => rel_fits(left, inside) && rel_fits(right, inside),
        Rel::Join(_, left, right, pairs) => {
            rel_fits(left, inside) && rel_fits(right, inside) && are_pairs(pairs)
        }
        Rel::Group(_, of, keys, aggregates) => {
            rel_fits(of, inside) && are_columns(keys) && are_aggregates(aggregates)
        }
        Rel::Distinct(_, of) => rel_fits(of, inside),
        Rel::Loop {
            turns,
            name,
            start,
            body,
            ..
        } => {
            is_number(*turns) && is_name(name) && rel_fits(start, inside) && rel_fits(body, inside)
        }
    }
}

fn is_input(input: &Input) -> bool
    ensures { IsTrue result ↔ IsInputSource input.now }
{
    is_name(&input.name) && is_number(input.arity)
}

fn are_inputs(inputs: &[Input]) -> bool
    ensures { IsTrue result ↔ Each IsInputSource inputs.now }
{
    for input in inputs {
        if !is_input(input) {
            return false;
        }
    }
    true
}

fn let_fits<A: Allocator>(item: &Let<A>) -> bool
    ensures { IsTrue result ↔ (IsLetSource (let_tree item.now) × (rel_height (let_tree item.now).relation ≤ max_height)) }
{
    is_name(&item.name) && rel_fits(&item.relation, MAX_HEIGHT)
}

fn lets_fit<A: Allocator>(lets: &[Let<A>]) -> bool
    ensures { IsTrue result ↔ (Each IsLetSource (map let_tree lets.now) × (lets_height (map let_tree lets.now) ≤ max_height)) }
{
    for item in lets {
        if !let_fits(item) {
            return false;
        }
    }
    true
}

fn output_fits<A: Allocator>(output: &Output<A>) -> bool
    ensures { IsTrue result ↔ (IsOutputSource (output_tree output.now) × (output_height (output_tree output.now) ≤ max_height)) }
{
    is_name(&output.name) && rel_fits(&output.relation, MAX_HEIGHT)
}

/// Whether there are outputs, and each has a text of at most the greatest height.
fn outputs_fit<A: Allocator>(outputs: &[Output<A>]) -> bool
    ensures { IsTrue result ↔ (Filled IsOutputSource (map output_tree outputs.now) × (heights output_height (map output_tree outputs.now) ≤ max_height)) }
{
    for output in outputs {
        if !output_fits(output) {
            return false;
        }
    }
    !outputs.is_empty()
}

/// Whether a program has a text that reads as it: no literal is negative, no number is above 9223372036854775807, no list that
/// the grammar wants filled is empty, and no phrase of the canonical text is higher than 64. No memory is taken.
///
/// Every program that `parse` gives is a source.
pub fn is_source<A: Allocator>(program: &Program<A>) -> bool
    ensures { IsTrue result ↔ IsSource (program_tree program.now) }
{
    are_inputs(&program.inputs) && lets_fit(&program.lets) && outputs_fit(&program.outputs)
}
