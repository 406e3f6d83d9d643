//! Values of scalars and conditions, and places that children are taken from.

use crate::held::boxed;
use crate::questions::found;
use crate::texts::{refused, word, yes_or_no};
use expr_tree::{
    Comparison, Cond, Operator, Rel, Scalar, cond_size, copy_cond, copy_rel, copy_scalar,
    eval_scalar, holds, negated, operate, rel_size, same_cond, same_rel, same_scalar, scalar_size,
};
use record_core::{Name, NoMemory, Refusal, Span};
use std::alloc::{AllocError, Global};

const HERE: Span = Span { start: 0, end: 1 };

/// A number, what a table has for a word, and a number, as `-1 < 0`.
fn parts_of<T: Copy>(rows: &[(&str, T)], text: &str) -> Option<(i64, T, i64)> {
    let (left, rest) = text.split_once(' ')?;
    let (word, right) = rest.split_once(' ')?;
    Some((left.parse().ok()?, found(rows, word)?, right.parse().ok()?))
}

const OPERATORS: [(&str, Operator); 3] = [
    ("+", Operator::Add),
    ("-", Operator::Subtract),
    ("*", Operator::Multiply),
];

/// The value of an operator between two literals.
fn value_of(alloc: Global, operator: Operator, left: i64, right: i64) -> Result<i64, NoMemory> {
    let left = Scalar::Literal(HERE, left);
    let right = Scalar::Literal(HERE, right);
    let scalar = Scalar::binary(alloc, HERE, operator, left, right)?;
    Ok(eval_scalar(&scalar, &[0]))
}

/// The value of `-9223372036854775808 - 1`, as an operation and as a scalar.
pub fn value(alloc: Global, text: &str) -> Result<String, AllocError> {
    let Some((left, operator, right)) = parts_of(&OPERATORS, text) else {
        return word(alloc, "no operation");
    };
    match value_of(alloc, operator, left, right) {
        Ok(value) if value == operate(operator, left, right) => format!(in alloc; "{value}"),
        Ok(_) => word(alloc, "two values"),
        Err(no_memory) => refused(alloc, Refusal::from(no_memory)),
    }
}

/// The value of the negation of column 0 of a record of one field.
fn negation_of(alloc: Global, number: i64) -> Result<i64, NoMemory> {
    let negation = Scalar::negate(alloc, HERE, Scalar::Column(HERE, 0))?;
    Ok(eval_scalar(&negation, &[number]))
}

/// The negation of a number, as an operation and as a scalar.
pub fn negation(alloc: Global, text: &str) -> Result<String, AllocError> {
    let Ok(number) = text.parse::<i64>() else {
        return word(alloc, "no number");
    };
    match negation_of(alloc, number) {
        Ok(value) if value == negated(number) => format!(in alloc; "{value}"),
        Ok(_) => word(alloc, "two values"),
        Err(no_memory) => refused(alloc, Refusal::from(no_memory)),
    }
}

const COMPARISONS: [(&str, Comparison); 6] = [
    ("=", Comparison::Equal),
    ("!=", Comparison::NotEqual),
    ("<", Comparison::Less),
    ("<=", Comparison::AtMost),
    (">", Comparison::Greater),
    (">=", Comparison::AtLeast),
];

/// Whether a comparison holds between two fields of a record, as `-1 < 0`.
pub fn comparison(alloc: Global, text: &str) -> Result<String, AllocError> {
    let Some((left, comparison, right)) = parts_of(&COMPARISONS, text) else {
        return word(alloc, "no comparison");
    };
    let condition = Cond::<Global>::Compare(
        HERE,
        comparison,
        Scalar::Column(HERE, 0),
        Scalar::Column(HERE, 1),
    );
    yes_or_no(alloc, holds(&condition, &[left, right]))
}

/// `#0 = 2`
fn is_two() -> Cond<Global> {
    Cond::Compare(
        HERE,
        Comparison::Equal,
        Scalar::Column(HERE, 0),
        Scalar::Literal(HERE, 2),
    )
}

/// What is taken from a place: the size before, whether it is the same as a copy, and the size that is left.
#[derive(Clone, Copy)]
struct Removed {
    before: u64,
    is_same: bool,
    after: u64,
}

fn removed_condition(condition: &mut Cond<Global>, whole: &Cond<Global>) -> Removed {
    let before = cond_size(whole);
    let is_same = same_cond(&condition.take(), whole);
    Removed {
        before,
        is_same,
        after: cond_size(condition),
    }
}

fn taken_condition(alloc: Global) -> Result<Removed, NoMemory> {
    let mut condition = boxed(alloc, Cond::negate(alloc, HERE, is_two()))?;
    let whole = boxed(alloc, copy_cond(alloc, &condition))?;
    Ok(removed_condition(&mut condition, &whole))
}

fn removed_relation(relation: &mut Rel<Global>, whole: &Rel<Global>) -> Removed {
    let before = rel_size(whole);
    let is_same = same_rel(&relation.take(), whole);
    Removed {
        before,
        is_same,
        after: rel_size(relation),
    }
}

fn taken_relation(alloc: Global) -> Result<Removed, NoMemory> {
    let Some(name) = Name::new(b"e") else {
        return Err(NoMemory);
    };
    let distinct = Rel::distinct(alloc, HERE, Rel::Named(HERE, name));
    let mut relation = boxed(alloc, distinct)?;
    let whole = boxed(alloc, copy_rel(alloc, &relation))?;
    Ok(removed_relation(&mut relation, &whole))
}

fn removed_scalar(scalar: &mut Scalar<Global>, whole: &Scalar<Global>) -> Removed {
    let before = scalar_size(whole);
    let is_same = same_scalar(&scalar.take(), whole);
    Removed {
        before,
        is_same,
        after: scalar_size(scalar),
    }
}

fn taken_scalar(alloc: Global) -> Result<Removed, NoMemory> {
    let scalar = Scalar::negate(alloc, HERE, Scalar::Literal(HERE, 2));
    let mut scalar = boxed(alloc, scalar)?;
    let whole = boxed(alloc, copy_scalar(alloc, &scalar))?;
    Ok(removed_scalar(&mut scalar, &whole))
}

/// What is taken from the place of a small tree.
pub fn taken(alloc: Global, form: &str) -> Result<String, AllocError> {
    let taken = match form {
        "condition" => taken_condition(alloc),
        "relation" => taken_relation(alloc),
        "scalar" => taken_scalar(alloc),
        _ => Err(NoMemory),
    };
    match taken {
        Ok(
            Removed {
                before,
                is_same,
                after,
            },
        ) if is_same => format!(in alloc; "{before}, and {after} left"),
        Ok(_) => word(alloc, "another tree"),
        Err(no_memory) => refused(alloc, Refusal::from(no_memory)),
    }
}
