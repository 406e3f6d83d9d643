//! Conditions: what is asked of one record.

ghost use Rattle.std.specs.Prelude.{◌≡◌, ◌<◌, ◌+◌, ◌*◌, IfOk, pos};
ghost use Rattle.semantics.specs.Query as query;
ghost use Rattle.expr_tree.specs.Parts.{IsCondLeaf, cond_weight, whole_cond};
ghost use Rattle.expr_tree.specs.Plain.{plain_cond};
ghost use Rattle.expr_tree.specs.Trees.{CondTree};
ghost use Rattle.expr_tree.specs.Views.{cond_tree};

use crate::scalar::{NOWHERE, Scalar};
use record_core::{NoMemory, Span};
use std::alloc::Allocator;
use std::mem;

/// How two scalars are compared, as signed numbers.
#[derive(Clone, Copy, PartialEq, Eq)]
pub enum Comparison {
    Equal,
    NotEqual,
    Less,
    AtMost,
    Greater,
    AtLeast,
}

/// What joins two conditions.
#[derive(Clone, Copy, PartialEq, Eq)]
pub enum Connective {
    And,
    Or,
}

/// What is asked of one record. A condition is let go in a loop, however deep it is.
pub enum Cond<A: Allocator> {
    Compare(Span, Comparison, Scalar<A>, Scalar<A>),
    Logical(Span, Connective, Box<Cond<A>, A>, Box<Cond<A>, A>),
    Not(Span, Box<Cond<A>, A>),
}

/// A condition taken apart.
#[derive(Drop)]
pub enum CondParts<A: Allocator> {
    Compare(Span, Comparison, Scalar<A>, Scalar<A>),
    Logical(Span, Connective, Box<Cond<A>, A>, Box<Cond<A>, A>),
    Not(Span, Box<Cond<A>, A>),
}

impl<A: Allocator> Drop for Cond<A> {
    fn drop(mut self) {
        loop {
            match self {
                Cond::Compare(_, _, _left, _right) => return,
                Cond::Not(_, inner) => self = Box::into_inner(inner),
                Cond::Logical(_, _, left, right) => self = without_node(left, right),
            }
        }
    }
}

/// What is left to let go of two joined conditions. The left one is taken out of its box.
fn without_node<A: Allocator>(mut left: Box<Cond<A>, A>, right: Box<Cond<A>, A>) -> Cond<A>
    ensures { cond_weight result < 2 * cond_weight left.value + cond_weight right.value + 1 }
{
    let operand = mem::replace(&mut *left, zeros());
    operand.hung_up(left, right)
}

impl<A: Allocator + Copy> Cond<A> {
    /// Two conditions joined; they are moved into boxes.
    pub fn logical(
        alloc: A,
        span: Span,
        connective: Connective,
        left: Cond<A>,
        right: Cond<A>,
    ) -> Result<Cond<A>, NoMemory>
        ensures { IfOk result (λ made. cond_tree made ≡ CondTree.logical span connective (cond_tree left) (cond_tree right)) }
    {
        let left = Box::new(alloc, left)?;
        let right = Box::new(alloc, right)?;
        Ok(Cond::Logical(span, connective, left, right))
    }

    /// The negation of a condition, which is moved into a box.
    pub fn negate(alloc: A, span: Span, inner: Cond<A>) -> Result<Cond<A>, NoMemory>
        ensures { IfOk result (λ made. cond_tree made ≡ CondTree.negate span (cond_tree inner)) }
    {
        let inner = Box::new(alloc, inner)?;
        Ok(Cond::Not(span, inner))
    }
}

impl<A: Allocator> Cond<A> {
    /// The same nodes and those of `right`, but for one node: where two conditions are joined, the left one stays where it is, and
    /// what is right of it moves into the box.
    fn hung_up(self, mut place: Box<Cond<A>, A>, right: Box<Cond<A>, A>) -> Cond<A>
        requires { IsCondLeaf place.value }
        ensures { cond_weight result < 2 * cond_weight self + cond_weight right.value + 1 }
    {
        match self {
            Cond::Compare(_, _, _left, _right) => {
                Box::into_inner(place).let_leaf_go();
                Box::into_inner(right)
            }
            Cond::Not(span, inner) => {
                Box::into_inner(place).let_leaf_go();
                Cond::Logical(span, Connective::And, inner, right)
            }
            Cond::Logical(span, connective, first, second) => {
                let rest = Cond::Logical(span, connective, second, right);
                mem::replace(&mut *place, rest).let_leaf_go();
                Cond::Logical(span, connective, first, place)
            }
        }
    }

    /// Lets a comparison go, with no call of `drop` on a condition.
    fn let_leaf_go(self)
        requires { IsCondLeaf self }
    {
        match self {
            Cond::Compare(_, _, _left, _right) => {}
            Cond::Not(_, _inner) => unreachable!(),
            Cond::Logical(_, _, _left, _right) => unreachable!(),
        }
    }

    /// The condition's parts, moved out of it.
    pub fn into_parts(self) -> CondParts<A>
        ensures { self ≡ whole_cond result }
    {
        match self {
            Cond::Compare(span, comparison, left, right) => {
                CondParts::Compare(span, comparison, left, right)
            }
            Cond::Logical(span, connective, left, right) => {
                CondParts::Logical(span, connective, left, right)
            }
            Cond::Not(span, inner) => CondParts::Not(span, inner),
        }
    }

    /// Moves the condition out of its place, where `0 = 0` is left. No memory is taken.
    pub fn take(&mut self) -> Cond<A>
        ensures moved { result ≡ self.old }
        ensures left { plain_cond (cond_tree self.new) ≡
            query.Cond.compare query.Comparison.equal (query.Scalar.literal (pos 0)) (query.Scalar.literal (pos 0)) }
    {
        mem::replace(self, zeros())
    }
}

/// The condition `0 = 0`.
fn zeros<A: Allocator>() -> Cond<A>
    ensures leaf { IsCondLeaf result }
    ensures plain { plain_cond (cond_tree result) ≡
        query.Cond.compare query.Comparison.equal (query.Scalar.literal (pos 0)) (query.Scalar.literal (pos 0)) }
{
    let zero = Scalar::Literal(NOWHERE, 0);
    Cond::Compare(
        NOWHERE,
        Comparison::Equal,
        zero,
        Scalar::Literal(NOWHERE, 0),
    )
}
