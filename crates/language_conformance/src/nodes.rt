//! The nodes of the first output of a query, each before its parts and with its place in the text.

use crate::texts::{add, place, refused, word};
use expr_tree::{Comparison, Cond, Connective, Operator, Program, Rel, Scalar};
use parser::parse;
use record_core::Span;
use std::alloc::{AllocError, Global};

/// Puts a node at the end of the list.
fn node(alloc: Global, list: &mut String, name: &str, span: Span) -> Result<(), AllocError> {
    let place = place(alloc, span)?;
    let item = format!(in alloc; "{name} {place}")?;
    add(list, item.as_str())
}

fn operator_node(
    alloc: Global,
    list: &mut String,
    operator: Operator,
    span: Span,
) -> Result<(), AllocError> {
    match operator {
        Operator::Add => node(alloc, list, "+", span),
        Operator::Subtract => node(alloc, list, "-", span),
        Operator::Multiply => node(alloc, list, "*", span),
    }
}

fn scalar_nodes(
    alloc: Global,
    list: &mut String,
    scalar: &Scalar<Global>,
) -> Result<(), AllocError> {
    match scalar {
        Scalar::Literal(span, number) => {
            let number = format!(in alloc; "{number}")?;
            node(alloc, list, number.as_str(), *span)
        }
        Scalar::Column(span, index) => {
            let column = format!(in alloc; "#{index}")?;
            node(alloc, list, column.as_str(), *span)
        }
        Scalar::Binary(span, operator, left, right) => {
            operator_node(alloc, list, *operator, *span)?;
            scalar_nodes(alloc, list, left)?;
            scalar_nodes(alloc, list, right)
        }
        Scalar::Negate(span, inner) => {
            node(alloc, list, "negation", *span)?;
            scalar_nodes(alloc, list, inner)
        }
    }
}

fn comparison_node(
    alloc: Global,
    list: &mut String,
    comparison: Comparison,
    span: Span,
) -> Result<(), AllocError> {
    match comparison {
        Comparison::Equal => node(alloc, list, "=", span),
        Comparison::NotEqual => node(alloc, list, "!=", span),
        Comparison::Less => node(alloc, list, "<", span),
        Comparison::AtMost => node(alloc, list, "<=", span),
        Comparison::Greater => node(alloc, list, ">", span),
        Comparison::AtLeast => node(alloc, list, ">=", span),
    }
}

fn connective_node(
    alloc: Global,
    list: &mut String,
    connective: Connective,
    span: Span,
) -> Result<(), AllocError> {
    match connective {
        Connective::And => node(alloc, list, "and", span),
        Connective::Or => node(alloc, list, "or", span),
    }
}

fn cond_nodes(
    alloc: Global,
    list: &mut String,
    condition: &Cond<Global>,
) -> Result<(), AllocError> {
    match condition {
        Cond::Compare(span, comparison, left, right) => {
            comparison_node(alloc, list, *comparison, *span)?;
            scalar_nodes(alloc, list, left)?;
            scalar_nodes(alloc, list, right)
        }
        Cond::Logical(span, connective, left, right) => {
            connective_node(alloc, list, *connective, *span)?;
            cond_nodes(alloc, list, left)?;
            cond_nodes(alloc, list, right)
        }
        Cond::Not(span, inner) => {
            node(alloc, list, "not", *span)?;
            cond_nodes(alloc, list, inner)
        }
    }
}

fn relation_nodes(
    alloc: Global,
    list: &mut String,
    relation: &Rel<Global>,
) -> Result<(), AllocError> {
    match relation {
        Rel::Named(span, _) => node(alloc, list, "name", *span),
        Rel::Where(span, inner, condition) => {
            node(alloc, list, "where", *span)?;
            relation_nodes(alloc, list, inner)?;
            cond_nodes(alloc, list, condition)
        }
        _ => add(list, "another form"),
    }
}

/// The nodes of a text's first output.
pub fn nodes(alloc: Global, text: &[u8]) -> Result<String, AllocError> {
    match parse(alloc, text) {
        Ok(program) => nodes_of(alloc, &program),
        Err(refusal) => refused(alloc, refusal),
    }
}

fn nodes_of(alloc: Global, program: &Program<Global>) -> Result<String, AllocError> {
    let Some(output) = program.outputs.first() else {
        return word(alloc, "no output");
    };
    let mut list = String::new(alloc);
    relation_nodes(alloc, &mut list, &output.relation)?;
    Ok(list)
}
