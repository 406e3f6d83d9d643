//! Relations: multisets of records of one arity.

ghost use Rattle.std.specs.Prelude.{◌≡◌, ◌<◌, ◌+◌, ◌*◌, IfOk, codes, map};
ghost use Rattle.semantics.specs.Query as query;
ghost use Rattle.expr_tree.specs.Parts.{IsRelLeaf, rel_weight, whole_rel};
ghost use Rattle.expr_tree.specs.Plain.{plain_rel};
ghost use Rattle.expr_tree.specs.Trees.{RelTree};
ghost use Rattle.expr_tree.specs.Views.{cond_tree, rel_tree, scalar_tree};

use crate::condition::Cond;
use crate::scalar::{NOWHERE, Scalar};
use record_core::{Name, NoMemory, Span};
use std::alloc::Allocator;
use std::mem;

/// A column by its number, from 0, where it is named outside a scalar.
#[derive(Clone, Copy)]
pub struct Column {
    pub span: Span,
    pub index: u64,
}

/// A pair of columns of a join: one of the left relation, one of the right.
#[derive(Clone, Copy)]
pub struct Pair {
    pub left: Column,
    pub right: Column,
}

/// An aggregate over the records of a group, with repeats.
#[derive(Clone, Copy)]
pub enum Agg {
    Count(Span),
    Sum(Span, Column),
    Min(Span, Column),
    Max(Span, Column),
}

/// How two relations of one arity are put together.
#[derive(Clone, Copy, PartialEq, Eq)]
pub enum SetOperator {
    /// All records of both, with repeats.
    Concat,
    /// Once each, what is present on the left and not on the right.
    Except,
    /// Once each, what is present on both sides.
    Intersect,
}

/// What a turn of a loop gets.
#[derive(Clone, Copy, PartialEq, Eq)]
pub enum LoopForm {
    /// All that the turn before gave. The loop gives what its last turn gives.
    Iterate,
    /// The different records of it that no turn gave before. The loop gives those of all turns.
    Closure,
}

/// A relation. It is let go in a loop, however deep it is.
pub enum Rel<A: Allocator> {
    /// An input, a let or a loop's variable.
    Named(Span, Name),
    /// Each record becomes the record of the scalars' values.
    Select(Span, Box<Rel<A>, A>, Vec<Scalar<A>, A>),
    /// The records at which the condition holds.
    Where(Span, Box<Rel<A>, A>, Cond<A>),
    SetOperation(Span, SetOperator, Box<Rel<A>, A>, Box<Rel<A>, A>),
    Join(Span, Box<Rel<A>, A>, Box<Rel<A>, A>, Vec<Pair, A>),
    /// One record for each key that is present: the key columns, then the aggregates.
    Group(Span, Box<Rel<A>, A>, Vec<Column, A>, Vec<Agg, A>),
    Distinct(Span, Box<Rel<A>, A>),
    /// The body, applied that many times beginning at the start.
    Loop {
        span: Span,
        form: LoopForm,
        turns_span: Span,
        turns: u64,
        name_span: Span,
        name: Name,
        start: Box<Rel<A>, A>,
        body: Box<Rel<A>, A>,
    },
}

/// A relation taken apart.
#[derive(Drop)]
pub enum RelParts<A: Allocator> {
    Named(Span, Name),
    Select(Span, Box<Rel<A>, A>, Vec<Scalar<A>, A>),
    Where(Span, Box<Rel<A>, A>, Cond<A>),
    SetOperation(Span, SetOperator, Box<Rel<A>, A>, Box<Rel<A>, A>),
    Join(Span, Box<Rel<A>, A>, Box<Rel<A>, A>, Vec<Pair, A>),
    Group(Span, Box<Rel<A>, A>, Vec<Column, A>, Vec<Agg, A>),
    Distinct(Span, Box<Rel<A>, A>),
    Loop {
        span: Span,
        form: LoopForm,
        turns_span: Span,
        turns: u64,
        name_span: Span,
        name: Name,
        start: Box<Rel<A>, A>,
        body: Box<Rel<A>, A>,
    },
}

impl<A: Allocator> RelParts<A> {
    /// The relation of the parts.
    pub fn whole(self) -> Rel<A>
        ensures { result ≡ whole_rel self }
    {
        match self {
            RelParts::Named(span, name) => Rel::Named(span, name),
            RelParts::Select(span, of, scalars) => Rel::Select(span, of, scalars),
            RelParts::Where(span, of, condition) => Rel::Where(span, of, condition),
            RelParts::SetOperation(span, operator, left, right) => {
                Rel::SetOperation(span, operator, left, right)
            }
            RelParts::Join(span, left, right, pairs) => Rel::Join(span, left, right, pairs),
            RelParts::Group(span, of, keys, aggregates) => Rel::Group(span, of, keys, aggregates),
            RelParts::Distinct(span, of) => Rel::Distinct(span, of),
            RelParts::Loop {
                span,
                form,
                turns_span,
                turns,
                name_span,
                name,
                start,
                body,
            } => Rel::Loop {
                span,
                form,
                turns_span,
                turns,
                name_span,
                name,
                start,
                body,
            },
        }
    }
}

impl<A: Allocator> Drop for Rel<A> {
    fn drop(mut self) {
        loop {
            match self {
                Rel::Named(_, _) => return,
                Rel::Select(_, of, _scalars) => self = Box::into_inner(of),
                Rel::Where(_, of, _condition) => self = Box::into_inner(of),
                Rel::Group(_, of, _keys, _aggregates) => self = Box::into_inner(of),
                Rel::Distinct(_, of) => self = Box::into_inner(of),
                Rel::SetOperation(_, _, left, right) => self = without_node(left, right),
                Rel::Join(_, left, right, _pairs) => self = without_node(left, right),
                Rel::Loop {
                    span: _,
                    form: _,
                    turns_span: _,
                    turns: _,
                    name_span: _,
                    name: _,
                    start,
                    body,
                } => self = without_node(start, body),
            }
        }
    }
}

/// What is left to let go of two relations put together. The left one is taken out of its box.
fn without_node<A: Allocator>(mut left: Box<Rel<A>, A>, right: Box<Rel<A>, A>) -> Rel<A>
    ensures { rel_weight result < 2 * rel_weight left.value + rel_weight right.value + 1 }
{
    let operand = mem::replace(&mut *left, Rel::Named(NOWHERE, letter_x()));
    operand.hung_up(left, right)
}

/// Two relations under one node.
fn pair_up<A: Allocator>(left: Box<Rel<A>, A>, right: Box<Rel<A>, A>) -> Rel<A>
    ensures { rel_weight result ≡ 2 * rel_weight left.value + rel_weight right.value + 1 }
{
    Rel::SetOperation(NOWHERE, SetOperator::Concat, left, right)
}

/// The pair of what is first and of the pair of the other two, which moves into the box.
fn turned<A: Allocator>(
    first: Box<Rel<A>, A>,
    second: Box<Rel<A>, A>,
    mut place: Box<Rel<A>, A>,
    right: Box<Rel<A>, A>,
) -> Rel<A>
    requires { IsRelLeaf place.value }
    ensures { rel_weight result ≡ 2 * rel_weight first.value + (2 * rel_weight second.value + rel_weight right.value + 1) + 1 }
{
    let rest = pair_up(second, right);
    mem::replace(&mut *place, rest).let_leaf_go();
    pair_up(first, place)
}

impl<A: Allocator + Copy> Rel<A> {
    /// A `select` of a relation, which is moved into a box.
    pub fn select(
        alloc: A,
        span: Span,
        of: Rel<A>,
        scalars: Vec<Scalar<A>, A>,
    ) -> Result<Rel<A>, NoMemory>
        ensures { IfOk result (λ made. rel_tree made ≡ RelTree.select span (rel_tree of) (map scalar_tree scalars.items)) }
    {
        let of = Box::new(alloc, of)?;
        Ok(Rel::Select(span, of, scalars))
    }

    /// A `where` of a relation, which is moved into a box.
    pub fn filter(alloc: A, span: Span, of: Rel<A>, condition: Cond<A>) -> Result<Rel<A>, NoMemory>
        ensures { IfOk result (λ made. rel_tree made ≡ RelTree.filter span (rel_tree of) (cond_tree condition)) }
    {
        let of = Box::new(alloc, of)?;
        Ok(Rel::Where(span, of, condition))
    }

    /// A `concat`, an `except` or an `intersect` of two relations, which are moved into boxes.
    pub fn set_operation(
        alloc: A,
        span: Span,
        operator: SetOperator,
        left: Rel<A>,
        right: Rel<A>,
    ) -> Result<Rel<A>, NoMemory>
        ensures { IfOk result (λ made. rel_tree made ≡ RelTree.set_operation span operator (rel_tree left) (rel_tree right)) }
    {
        let left = Box::new(alloc, left)?;
        let right = Box::new(alloc, right)?;
        Ok(Rel::SetOperation(span, operator, left, right))
    }

    /// A `join` of two relations, which are moved into boxes.
    pub fn join(
        alloc: A,
        span: Span,
        left: Rel<A>,
        right: Rel<A>,
        pairs: Vec<Pair, A>,
    ) -> Result<Rel<A>, NoMemory>
        ensures { IfOk result (λ made. rel_tree made ≡ RelTree.join span (rel_tree left) (rel_tree right) pairs.items) }
    {
        let left = Box::new(alloc, left)?;
        let right = Box::new(alloc, right)?;
        Ok(Rel::Join(span, left, right, pairs))
    }

    /// A `group` of a relation, which is moved into a box.
    pub fn group(
        alloc: A,
        span: Span,
        of: Rel<A>,
        keys: Vec<Column, A>,
        aggregates: Vec<Agg, A>,
    ) -> Result<Rel<A>, NoMemory>
        ensures { IfOk result (λ made. rel_tree made ≡ RelTree.group span (rel_tree of) keys.items aggregates.items) }
    {
        let of = Box::new(alloc, of)?;
        Ok(Rel::Group(span, of, keys, aggregates))
    }

    /// A `distinct` of a relation, which is moved into a box.
    pub fn distinct(alloc: A, span: Span, of: Rel<A>) -> Result<Rel<A>, NoMemory>
        ensures { IfOk result (λ made. rel_tree made ≡ RelTree.distinct span (rel_tree of)) }
    {
        let of = Box::new(alloc, of)?;
        Ok(Rel::Distinct(span, of))
    }
}

impl<A: Allocator> Rel<A> {
    /// The same nodes and those of `right`, but for one node: where the relation is of two, the first stays where it is, and what is
    /// right of it moves into the box.
    fn hung_up(self, place: Box<Rel<A>, A>, right: Box<Rel<A>, A>) -> Rel<A>
        requires { IsRelLeaf place.value }
        ensures { rel_weight result < 2 * rel_weight self + rel_weight right.value + 1 }
    {
        let of = match self {
            Rel::Named(_, _) => {
                Box::into_inner(place).let_leaf_go();
                return Box::into_inner(right);
            }
            Rel::SetOperation(_, _, first, second) => return turned(first, second, place, right),
            Rel::Join(_, first, second, _pairs) => return turned(first, second, place, right),
            Rel::Loop {
                span: _,
                form: _,
                turns_span: _,
                turns: _,
                name_span: _,
                name: _,
                start,
                body,
            } => return turned(start, body, place, right),
            Rel::Select(_, of, _scalars) => of,
            Rel::Where(_, of, _condition) => of,
            Rel::Group(_, of, _keys, _aggregates) => of,
            Rel::Distinct(_, of) => of,
        };
        Box::into_inner(place).let_leaf_go();
        pair_up(of, right)
    }

    /// Lets a name go, with no call of `drop`.
    fn let_leaf_go(self)
        requires { IsRelLeaf self }
    {
        match self {
            Rel::Named(_, _) => {}
            Rel::Select(_, _of, _scalars) => unreachable!(),
            Rel::Where(_, _of, _condition) => unreachable!(),
            Rel::SetOperation(_, _, _left, _right) => unreachable!(),
            Rel::Join(_, _left, _right, _pairs) => unreachable!(),
            Rel::Group(_, _of, _keys, _aggregates) => unreachable!(),
            Rel::Distinct(_, _of) => unreachable!(),
            Rel::Loop { .. } => unreachable!(),
        }
    }

    /// The relation's parts, moved out of it.
    pub fn into_parts(self) -> RelParts<A>
        ensures { self ≡ whole_rel result }
    {
        match self {
            Rel::Named(span, name) => RelParts::Named(span, name),
            Rel::Select(span, of, scalars) => RelParts::Select(span, of, scalars),
            Rel::Where(span, of, condition) => RelParts::Where(span, of, condition),
            Rel::SetOperation(span, operator, left, right) => {
                RelParts::SetOperation(span, operator, left, right)
            }
            Rel::Join(span, left, right, pairs) => RelParts::Join(span, left, right, pairs),
            Rel::Group(span, of, keys, aggregates) => RelParts::Group(span, of, keys, aggregates),
            Rel::Distinct(span, of) => RelParts::Distinct(span, of),
            Rel::Loop {
                span,
                form,
                turns_span,
                turns,
                name_span,
                name,
                start,
                body,
            } => RelParts::Loop {
                span,
                form,
                turns_span,
                turns,
                name_span,
                name,
                start,
                body,
            },
        }
    }

    /// Moves the relation out of its place, where the name `x` is left. No memory is taken.
    pub fn take(&mut self) -> Rel<A>
        ensures moved { result ≡ self.old }
        ensures left { plain_rel (rel_tree self.new) ≡ query.Rel.named (codes "x") }
    {
        mem::replace(self, Rel::Named(NOWHERE, letter_x()))
    }
}

/// The name `x`.
fn letter_x() -> Name
    ensures { result ≡ codes "x" }
{
    match Name::new(b"x") {
        Some(name) => name,
        None => unreachable!(),
    }
}
