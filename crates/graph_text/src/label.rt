//! The label of a vertex in a drawing: its kind with its parameters, written as a query writes them. It has no quote and no backslash,
//! so nothing is escaped.

use crate::text::{put_kind, put_number};
use expr_tree::{Agg, Column, Comparison, Cond, Connective, Operator, Pair, Scalar};
use graph::Kind;
use itoa::Buffer;
use record_core::NoMemory;
use std::alloc::Global;

/// Puts a kind at the end, with its scalars, condition, pairs, or keys and aggregates; of an input and an output with the name.
pub fn put_label(text: &mut Vec<u8>, kind: &Kind, name: &[u8]) -> Result<(), NoMemory> {
    match kind {
        Kind::Input => {
            text.extend_from_slice(b"input(")?;
            text.extend_from_slice(name)?;
        }
        Kind::Select(scalars) => {
            text.extend_from_slice(b"select(")?;
            put_scalars(text, scalars)?;
        }
        Kind::Where(condition) => {
            text.extend_from_slice(b"where(")?;
            put_cond(text, condition, false)?;
        }
        Kind::Join(pairs) => {
            text.extend_from_slice(b"join(")?;
            put_pairs(text, pairs)?;
        }
        Kind::Lookup(pairs) => {
            text.extend_from_slice(b"lookup(")?;
            put_pairs(text, pairs)?;
        }
        Kind::Group(keys, aggregates) => {
            text.extend_from_slice(b"group(")?;
            put_columns(text, keys)?;
            text.extend_from_slice(b"; ")?;
            put_aggregates(text, aggregates)?;
        }
        Kind::Output
        | Kind::Concat
        | Kind::Distinct
        | Kind::Except
        | Kind::Intersect
        | Kind::Ingress
        | Kind::Egress
        | Kind::Feedback
        | Kind::Gate(_)
        | Kind::Unseen(_)
        | Kind::Hold(_) => return put_kind(text, kind, name),
    }
    text.extend_from_slice(b")")?;
    Ok(())
}

fn put_scalars(text: &mut Vec<u8>, scalars: &[Scalar<Global>]) -> Result<(), NoMemory> {
    let mut between: &[u8] = b"";
    for scalar in scalars {
        text.extend_from_slice(between)?;
        put_scalar(text, scalar, false)?;
        between = b", ";
    }
    Ok(())
}

/// A scalar; an operand that has operands itself is in brackets.
fn put_scalar(text: &mut Vec<u8>, scalar: &Scalar<Global>, operand: bool) -> Result<(), NoMemory> {
    match scalar {
        Scalar::Literal(_, number) => put_literal(text, *number),
        Scalar::Column(_, index) => put_index(text, *index),
        Scalar::Negate(_, inner) => {
            text.extend_from_slice(b"-")?;
            put_scalar(text, inner, true)
        }
        Scalar::Binary(_, operator, left, right) => {
            put_if(text, operand, b"(")?;
            put_scalar(text, left, true)?;
            put_operator(text, *operator)?;
            put_scalar(text, right, true)?;
            put_if(text, operand, b")")
        }
    }
}

fn put_operator(text: &mut Vec<u8>, operator: Operator) -> Result<(), NoMemory> {
    match operator {
        Operator::Add => text.extend_from_slice(b" + ")?,
        Operator::Subtract => text.extend_from_slice(b" - ")?,
        Operator::Multiply => text.extend_from_slice(b" * ")?,
    }
    Ok(())
}

/// A condition; an operand that has operands itself is in brackets.
fn put_cond(text: &mut Vec<u8>, condition: &Cond<Global>, operand: bool) -> Result<(), NoMemory> {
    match condition {
        Cond::Compare(_, comparison, left, right) => {
            put_scalar(text, left, false)?;
            put_comparison(text, *comparison)?;
            put_scalar(text, right, false)
        }
        Cond::Not(_, inner) => {
            text.extend_from_slice(b"not [")?;
            put_cond(text, inner, false)?;
            text.extend_from_slice(b"]")?;
            Ok(())
        }
        Cond::Logical(_, connective, left, right) => {
            put_if(text, operand, b"[")?;
            put_cond(text, left, true)?;
            put_connective(text, *connective)?;
            put_cond(text, right, true)?;
            put_if(text, operand, b"]")
        }
    }
}

fn put_comparison(text: &mut Vec<u8>, comparison: Comparison) -> Result<(), NoMemory> {
    match comparison {
        Comparison::Equal => text.extend_from_slice(b" = ")?,
        Comparison::NotEqual => text.extend_from_slice(b" != ")?,
        Comparison::Less => text.extend_from_slice(b" < ")?,
        Comparison::AtMost => text.extend_from_slice(b" <= ")?,
        Comparison::Greater => text.extend_from_slice(b" > ")?,
        Comparison::AtLeast => text.extend_from_slice(b" >= ")?,
    }
    Ok(())
}

fn put_connective(text: &mut Vec<u8>, connective: Connective) -> Result<(), NoMemory> {
    match connective {
        Connective::And => text.extend_from_slice(b" and ")?,
        Connective::Or => text.extend_from_slice(b" or ")?,
    }
    Ok(())
}

fn put_pairs(text: &mut Vec<u8>, pairs: &[Pair]) -> Result<(), NoMemory> {
    let mut between: &[u8] = b"";
    for pair in pairs {
        text.extend_from_slice(between)?;
        put_index(text, pair.left.index)?;
        text.extend_from_slice(b" = ")?;
        put_index(text, pair.right.index)?;
        between = b", ";
    }
    Ok(())
}

fn put_columns(text: &mut Vec<u8>, columns: &[Column]) -> Result<(), NoMemory> {
    let mut between: &[u8] = b"";
    for column in columns {
        text.extend_from_slice(between)?;
        put_index(text, column.index)?;
        between = b", ";
    }
    Ok(())
}

fn put_aggregates(text: &mut Vec<u8>, aggregates: &[Agg]) -> Result<(), NoMemory> {
    let mut between: &[u8] = b"";
    for aggregate in aggregates {
        text.extend_from_slice(between)?;
        put_aggregate(text, *aggregate)?;
        between = b", ";
    }
    Ok(())
}

fn put_aggregate(text: &mut Vec<u8>, aggregate: Agg) -> Result<(), NoMemory> {
    match aggregate {
        Agg::Count(_) => {
            text.extend_from_slice(b"count")?;
            Ok(())
        }
        Agg::Sum(_, column) => put_word_of(text, b"sum ", column),
        Agg::Min(_, column) => put_word_of(text, b"min ", column),
        Agg::Max(_, column) => put_word_of(text, b"max ", column),
    }
}

fn put_word_of(text: &mut Vec<u8>, word: &[u8], column: Column) -> Result<(), NoMemory> {
    text.extend_from_slice(word)?;
    put_index(text, column.index)
}

/// A column by its number.
fn put_index(text: &mut Vec<u8>, index: u64) -> Result<(), NoMemory> {
    text.extend_from_slice(b"#")?;
    put_number(text, index)
}

fn put_literal(text: &mut Vec<u8>, number: i64) -> Result<(), NoMemory> {
    let mut buffer = Buffer::new();
    text.extend_from_slice(buffer.format(number).as_bytes())?;
    Ok(())
}

fn put_if(text: &mut Vec<u8>, wanted: bool, word: &[u8]) -> Result<(), NoMemory> {
    if wanted {
        text.extend_from_slice(word)?;
    }
    Ok(())
}
