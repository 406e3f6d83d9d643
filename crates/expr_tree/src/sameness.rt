//! Whether two trees are the same query: equal but for spans, whatever their allocators.

ghost use Rattle.std.specs.Prelude.{◌≡◌, ◌↔◌, IsTrue, map};
ghost use Rattle.expr_tree.specs.Plain.{plain_agg, plain_cond, plain_input, plain_let, plain_output, plain_pair, plain_program, plain_rel, plain_scalar};
ghost use Rattle.expr_tree.specs.Views.{cond_tree, let_tree, output_tree, program_tree, rel_tree, scalar_tree};

use crate::condition::Cond;
use crate::program::{Input, Let, Output, Program};
use crate::relation::{Agg, Column, Pair, Rel};
use crate::scalar::Scalar;
use record_core::Name;
use std::alloc::Allocator;

/// Whether two programs are equal, spans aside. No memory is taken.
pub fn same<A: Allocator, B: Allocator>(left: &Program<A>, right: &Program<B>) -> bool
    ensures { IsTrue result ↔ (plain_program (program_tree left.now) ≡ plain_program (program_tree right.now)) }
{
    same_inputs(&left.inputs, &right.inputs)
        && same_lets(&left.lets, &right.lets)
        && same_outputs(&left.outputs, &right.outputs)
}

/// Whether two relations are equal, spans aside. No memory is taken.
pub fn same_rel<A: Allocator, B: Allocator>(left: &Rel<A>, right: &Rel<B>) -> bool
    ensures { IsTrue result ↔ (plain_rel (rel_tree left.now) ≡ plain_rel (rel_tree right.now)) }
{
    match (left, right) {
        (Rel::Named(_, x), Rel::Named(_, y)) => same_name(x, y),
        (Rel::Select(_, p, ss), Rel::Select(_, q, ts)) => same_rel(p, q) && same_scalars(ss, ts),
        (Rel::Where(_, p, c), Rel::Where(_, q, d)) => same_rel(p, q) && same_cond(c, d),
        (Rel::SetOperation(_, o, p, q), Rel::SetOperation(_, n, r, s)) => {
            *o == *n && same_rel(p, r) && same_rel(q, s)
        }
        (Rel::Join(_, p, q, xs), Rel::Join(_, r, s, ys)) => {
            same_rel(p, r) && same_rel(q, s) && same_pairs(xs, ys)
        }
        (Rel::Group(_, p, ks, gs), Rel::Group(_, q, ls, hs)) => {
            same_rel(p, q) && same_columns(ks, ls) && same_aggs(gs, hs)
        }
        (Rel::Distinct(_, p), Rel::Distinct(_, q)) => same_rel(p, q),
        (
            Rel::Loop {
                form: e,
                turns: m,
                name: x,
                start: p,
                body: b,
                ..
            },
            Rel::Loop {
                form: f,
                turns: n,
                name: y,
                start: q,
                body: c,
                ..
            },
        ) => *e == *f && *m == *n && same_name(x, y) && same_rel(p, q) && same_rel(b, c),
        _ => false,
    }
}

/// Whether two conditions are equal, spans aside. No memory is taken.
pub fn same_cond<A: Allocator, B: Allocator>(left: &Cond<A>, right: &Cond<B>) -> bool
    ensures { IsTrue result ↔ (plain_cond (cond_tree left.now) ≡ plain_cond (cond_tree right.now)) }
{
    match (left, right) {
        (Cond::Compare(_, o, a, b), Cond::Compare(_, p, c, d)) => {
            *o == *p && same_scalar(a, c) && same_scalar(b, d)
        }
        (Cond::Logical(_, o, a, b), Cond::Logical(_, p, c, d)) => {
            *o == *p && same_cond(a, c) && same_cond(b, d)
        }
        (Cond::Not(_, a), Cond::Not(_, b)) => same_cond(a, b),
        _ => false,
    }
}

/// Whether two scalars are equal, spans aside. No memory is taken.
pub fn same_scalar<A: Allocator, B: Allocator>(left: &Scalar<A>, right: &Scalar<B>) -> bool
    ensures { IsTrue result ↔ (plain_scalar (scalar_tree left.now) ≡ plain_scalar (scalar_tree right.now)) }
{
    match (left, right) {
        (Scalar::Literal(_, x), Scalar::Literal(_, y)) => *x == *y,
        (Scalar::Column(_, x), Scalar::Column(_, y)) => *x == *y,
        (Scalar::Binary(_, o, a, b), Scalar::Binary(_, p, c, d)) => {
            *o == *p && same_scalar(a, c) && same_scalar(b, d)
        }
        (Scalar::Negate(_, a), Scalar::Negate(_, b)) => same_scalar(a, b),
        _ => false,
    }
}

/// Whether two names are equal.
fn same_name(left: &Name, right: &Name) -> bool
    ensures { IsTrue result ↔ (left.now ≡ right.now) }
{
    *left == *right
}

/// Whether the scalars are equal, one by one.
pub fn same_scalars<A: Allocator, B: Allocator>(left: &[Scalar<A>], right: &[Scalar<B>]) -> bool
    ensures { IsTrue result ↔ (map plain_scalar (map scalar_tree left.now) ≡ map plain_scalar (map scalar_tree right.now)) }
{
    left.len() == right.len()
        && left.iter().zip(right).all(
            |(x, y)|
                ensures { IsTrue result ↔ (plain_scalar (scalar_tree x.entry.now) ≡ plain_scalar (scalar_tree y.entry.now)) }
            { same_scalar(x, y) },
        )
}

/// Whether the columns are equal, one by one.
pub fn same_columns(left: &[Column], right: &[Column]) -> bool
    ensures { IsTrue result ↔ (map (λ k. k.index) left.now ≡ map (λ k. k.index) right.now) }
{
    left.len() == right.len() && left.iter().zip(right).all(|(x, y)| x.index == y.index)
}

/// Whether the pairs are equal, one by one.
pub fn same_pairs(left: &[Pair], right: &[Pair]) -> bool
    ensures { IsTrue result ↔ (map plain_pair left.now ≡ map plain_pair right.now) }
{
    left.len() == right.len()
        && left.iter().zip(right).all(|(x, y)| x.left.index == y.left.index
            && x.right.index == y.right.index)
}

/// Whether two aggregates are equal.
fn same_agg(left: Agg, right: Agg) -> bool
    ensures { IsTrue result ↔ (plain_agg left ≡ plain_agg right) }
{
    match (left, right) {
        (Agg::Count(_), Agg::Count(_)) => true,
        (Agg::Sum(_, x), Agg::Sum(_, y)) => x.index == y.index,
        (Agg::Min(_, x), Agg::Min(_, y)) => x.index == y.index,
        (Agg::Max(_, x), Agg::Max(_, y)) => x.index == y.index,
        _ => false,
    }
}

/// Whether the aggregates are equal, one by one.
pub fn same_aggs(left: &[Agg], right: &[Agg]) -> bool
    ensures { IsTrue result ↔ (map plain_agg left.now ≡ map plain_agg right.now) }
{
    left.len() == right.len() && left.iter().zip(right).all(|(x, y)| same_agg(*x, *y))
}

/// Whether the inputs are equal, one by one.
fn same_inputs(left: &[Input], right: &[Input]) -> bool
    ensures { IsTrue result ↔ (map plain_input left.now ≡ map plain_input right.now) }
{
    left.len() == right.len()
        && left
            .iter()
            .zip(right)
            .all(|(x, y)| x.arity == y.arity && same_name(&x.name, &y.name))
}

/// Whether the named relations are equal, one by one.
fn same_lets<A: Allocator, B: Allocator>(left: &[Let<A>], right: &[Let<B>]) -> bool
    ensures { IsTrue result ↔ (map plain_let (map let_tree left.now) ≡ map plain_let (map let_tree right.now)) }
{
    left.len() == right.len()
        && left.iter().zip(right).all(
            |(x, y)|
                ensures { IsTrue result ↔ (plain_let (let_tree x.entry.now) ≡ plain_let (let_tree y.entry.now)) }
            { same_name(&x.name, &y.name) && same_rel(&x.relation, &y.relation) },
        )
}

/// Whether the outputs are equal, one by one.
fn same_outputs<A: Allocator, B: Allocator>(left: &[Output<A>], right: &[Output<B>]) -> bool
    ensures { IsTrue result ↔ (map plain_output (map output_tree left.now) ≡ map plain_output (map output_tree right.now)) }
{
    left.len() == right.len()
        && left.iter().zip(right).all(
            |(x, y)|
                ensures { IsTrue result ↔ (plain_output (output_tree x.entry.now) ≡ plain_output (output_tree y.entry.now)) }
            { same_name(&x.name, &y.name) && same_rel(&x.relation, &y.relation) },
        )
}
