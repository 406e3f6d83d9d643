//! How tightly operators and connectives bind, and so where brackets come.

ghost use Rattle.std.specs.Prelude.{◌≡◌};
ghost use Rattle.expr_tree.specs.Views.{cond_tree, scalar_tree};
ghost use Rattle.writer.specs.Scalars as scalar;
ghost use Rattle.writer.specs.Conditions as condition;

use expr_tree::{Cond, Connective, Operator, Scalar};
use std::alloc::Allocator;

/// How tightly a scalar binds, the loosest first.
#[derive(Clone, Copy)]
pub enum ScalarRank {
    Sum,
    Product,
    Negation,
    Single,
}

/// How tightly a condition binds, the loosest first.
#[derive(Clone, Copy)]
pub enum CondRank {
    Disjunction,
    Conjunction,
    Test,
}

impl ScalarRank {
    /// Whether it binds less tightly.
    pub fn is_below(self, other: ScalarRank) -> bool
        ensures { result ≡ scalar.is_below self other }
    {
        match (self, other) {
            (ScalarRank::Sum, ScalarRank::Sum) => false,
            (ScalarRank::Sum, _) => true,
            (ScalarRank::Product, ScalarRank::Sum) => false,
            (ScalarRank::Product, ScalarRank::Product) => false,
            (ScalarRank::Product, _) => true,
            (ScalarRank::Negation, ScalarRank::Single) => true,
            _ => false,
        }
    }

    /// Of an operator, and what its left operand has to be at least.
    pub fn left_of(operator: Operator) -> ScalarRank
        ensures { result ≡ scalar.rank_of operator }
    {
        match operator {
            Operator::Add | Operator::Subtract => ScalarRank::Sum,
            Operator::Multiply => ScalarRank::Product,
        }
    }

    /// What the right operand has to be at least.
    pub fn right_of(operator: Operator) -> ScalarRank
        ensures { result ≡ scalar.right_of operator }
    {
        match operator {
            Operator::Add | Operator::Subtract => ScalarRank::Product,
            Operator::Multiply => ScalarRank::Negation,
        }
    }

    pub fn of<A: Allocator>(s: &Scalar<A>) -> ScalarRank
        ensures { result ≡ scalar.scalar_rank (scalar_tree s.now) }
    {
        match s {
            Scalar::Literal(_, _) | Scalar::Column(_, _) => ScalarRank::Single,
            Scalar::Binary(_, operator, _, _) => ScalarRank::left_of(*operator),
            Scalar::Negate(_, _) => ScalarRank::Negation,
        }
    }
}

impl CondRank {
    /// Whether it binds less tightly.
    pub fn is_below(self, other: CondRank) -> bool
        ensures { result ≡ condition.is_below self other }
    {
        match (self, other) {
            (CondRank::Disjunction, CondRank::Disjunction) => false,
            (CondRank::Disjunction, _) => true,
            (CondRank::Conjunction, CondRank::Test) => true,
            _ => false,
        }
    }

    /// Of a connective, and what its left operand has to be at least.
    pub fn left_of(connective: Connective) -> CondRank
        ensures { result ≡ condition.rank_of connective }
    {
        match connective {
            Connective::Or => CondRank::Disjunction,
            Connective::And => CondRank::Conjunction,
        }
    }

    /// What the right operand has to be at least.
    pub fn right_of(connective: Connective) -> CondRank
        ensures { result ≡ condition.right_of connective }
    {
        match connective {
            Connective::Or => CondRank::Conjunction,
            Connective::And => CondRank::Test,
        }
    }

    pub fn of<A: Allocator>(c: &Cond<A>) -> CondRank
        ensures { result ≡ condition.cond_rank (cond_tree c.now) }
    {
        match c {
            Cond::Compare(_, _, _, _) | Cond::Not(_, _) => CondRank::Test,
            Cond::Logical(_, connective, _, _) => CondRank::left_of(*connective),
        }
    }
}
