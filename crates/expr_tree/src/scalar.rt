//! Scalars: what is computed of one record.

ghost use Rattle.std.specs.Prelude.{◌≡◌, ◌<◌, ◌+◌, ◌*◌, IfOk, pos};
ghost use Rattle.semantics.specs.Query as query;
ghost use Rattle.expr_tree.specs.Parts.{IsScalarLeaf, scalar_weight, whole_scalar};
ghost use Rattle.expr_tree.specs.Plain.{plain_scalar};
ghost use Rattle.expr_tree.specs.Trees.{ScalarTree};
ghost use Rattle.expr_tree.specs.Views.{scalar_tree};

use record_core::{NoMemory, Span};
use std::alloc::Allocator;
use std::mem;

/// An operator between two scalars.
#[derive(Clone, Copy, PartialEq, Eq)]
pub enum Operator {
    Add,
    Subtract,
    Multiply,
}

/// What is computed of one record. All operators wrap at 64 bits. A scalar is let go in a loop, however deep it is.
pub enum Scalar<A: Allocator> {
    /// Any signed 64-bit number; a query text has none below 0.
    Literal(Span, i64),
    /// A field by its number, from 0.
    Column(Span, u64),
    Binary(Span, Operator, Box<Scalar<A>, A>, Box<Scalar<A>, A>),
    Negate(Span, Box<Scalar<A>, A>),
}

/// A scalar taken apart.
#[derive(Drop)]
pub enum ScalarParts<A: Allocator> {
    Literal(Span, i64),
    Column(Span, u64),
    Binary(Span, Operator, Box<Scalar<A>, A>, Box<Scalar<A>, A>),
    Negate(Span, Box<Scalar<A>, A>),
}

impl<A: Allocator> Drop for Scalar<A> {
    fn drop(mut self) {
        loop {
            match self {
                Scalar::Literal(_, _) => return,
                Scalar::Column(_, _) => return,
                Scalar::Negate(_, inner) => self = Box::into_inner(inner),
                Scalar::Binary(_, _, left, right) => self = without_node(left, right),
            }
        }
    }
}

/// What is left to let go of an operator's operands. The left one is taken out of its box.
fn without_node<A: Allocator>(mut left: Box<Scalar<A>, A>, right: Box<Scalar<A>, A>) -> Scalar<A>
    ensures { scalar_weight result < 2 * scalar_weight left.value + scalar_weight right.value + 1 }
{
    let operand = mem::replace(&mut *left, Scalar::Literal(NOWHERE, 0));
    operand.hung_up(left, right)
}

/// The place of a node that no text has.
pub(crate) const NOWHERE: Span = Span { start: 0, end: 0 };

impl<A: Allocator + Copy> Scalar<A> {
    /// The operator between two scalars, which are moved into boxes.
    pub fn binary(
        alloc: A,
        span: Span,
        operator: Operator,
        left: Scalar<A>,
        right: Scalar<A>,
    ) -> Result<Scalar<A>, NoMemory>
        ensures { IfOk result (λ made. scalar_tree made ≡ ScalarTree.binary span operator (scalar_tree left) (scalar_tree right)) }
    {
        let left = Box::new(alloc, left)?;
        let right = Box::new(alloc, right)?;
        Ok(Scalar::Binary(span, operator, left, right))
    }

    /// The negation of a scalar, which is moved into a box.
    pub fn negate(alloc: A, span: Span, inner: Scalar<A>) -> Result<Scalar<A>, NoMemory>
        ensures { IfOk result (λ made. scalar_tree made ≡ ScalarTree.negate span (scalar_tree inner)) }
    {
        let inner = Box::new(alloc, inner)?;
        Ok(Scalar::Negate(span, inner))
    }
}

impl<A: Allocator> Scalar<A> {
    /// The same nodes and those of `right`, but for one node: where the scalar is an operator, its left operand stays where it is,
    /// and what is right of that moves into the box.
    fn hung_up(self, mut place: Box<Scalar<A>, A>, right: Box<Scalar<A>, A>) -> Scalar<A>
        requires { IsScalarLeaf place.value }
        ensures { scalar_weight result < 2 * scalar_weight self + scalar_weight right.value + 1 }
    {
        match self {
            Scalar::Literal(_, _) => {
                Box::into_inner(place).let_leaf_go();
                Box::into_inner(right)
            }
            Scalar::Column(_, _) => {
                Box::into_inner(place).let_leaf_go();
                Box::into_inner(right)
            }
            Scalar::Negate(span, inner) => {
                Box::into_inner(place).let_leaf_go();
                Scalar::Binary(span, Operator::Add, inner, right)
            }
            Scalar::Binary(span, operator, first, second) => {
                let rest = Scalar::Binary(span, operator, second, right);
                mem::replace(&mut *place, rest).let_leaf_go();
                Scalar::Binary(span, operator, first, place)
            }
        }
    }

    /// Lets a literal or a column go, with no call of `drop`.
    fn let_leaf_go(self)
        requires { IsScalarLeaf self }
    {
        match self {
            Scalar::Literal(_, _) => {}
            Scalar::Column(_, _) => {}
            Scalar::Negate(_, _inner) => unreachable!(),
            Scalar::Binary(_, _, _left, _right) => unreachable!(),
        }
    }

    /// The scalar's parts, moved out of it.
    pub fn into_parts(self) -> ScalarParts<A>
        ensures { self ≡ whole_scalar result }
    {
        match self {
            Scalar::Literal(span, number) => ScalarParts::Literal(span, number),
            Scalar::Column(span, column) => ScalarParts::Column(span, column),
            Scalar::Binary(span, operator, left, right) => {
                ScalarParts::Binary(span, operator, left, right)
            }
            Scalar::Negate(span, inner) => ScalarParts::Negate(span, inner),
        }
    }

    /// Moves the scalar out of its place, where the literal 0 is left. No memory is taken.
    pub fn take(&mut self) -> Scalar<A>
        ensures moved { result ≡ self.old }
        ensures left { plain_scalar (scalar_tree self.new) ≡ query.Scalar.literal (pos 0) }
    {
        mem::replace(self, Scalar::Literal(NOWHERE, 0))
    }
}
