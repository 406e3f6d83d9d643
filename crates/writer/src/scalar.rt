//! Scalars.

ghost use Rattle.std.specs.Prelude.{◌≡◌, ◌++◌, map, OnOk, OnErr};
ghost use Rattle.expr_tree.specs.Trees.{ScalarTree};
ghost use Rattle.expr_tree.specs.Views.{scalar_tree};
ghost use Rattle.writer.specs.Pieces.{Extends, in_round, listed, spaced, text_of};
ghost use Rattle.writer.specs.Scalars.{nowhere, scalar_pieces, sign_of};

use crate::push::{push, push_column, push_literal};
use crate::rank::ScalarRank;
use expr_tree::{Operator, Scalar};
use std::alloc::{AllocError, Allocator};

/// Appends an operator with a space on each side.
fn push_operator(out: &mut Vec<u8>, operator: Operator) -> Result<(), AllocError>
    ensures ok { OnOk result (out.new.items ≡ out.old.items ++ text_of (spaced (sign_of operator))) }
    ensures err { OnErr result (Extends out.old.items out.new.items) }
{
    match operator {
        Operator::Add => push(out, b" + "),
        Operator::Subtract => push(out, b" - "),
        Operator::Multiply => push(out, b" * "),
    }
}

/// Appends an operand, in brackets or not.
#[cycle(write)]
fn write_operand<A: Allocator>(
    out: &mut Vec<u8>,
    scalar: &Scalar<A>,
    bracketed: bool,
) -> Result<(), AllocError>
    ensures ok { OnOk result (out.new.items ≡ out.old.items ++ text_of (in_round bracketed (scalar_pieces (scalar_tree scalar.now)))) }
    ensures err { OnErr result (Extends out.old.items out.new.items) }
{
    if bracketed {
        push(out, b"(")?;
        write_scalar(out, scalar)?;
        push(out, b")")
    } else {
        write_scalar(out, scalar)
    }
}

/// Appends the text of a scalar.
#[cycle(write)]
pub fn write_scalar<A: Allocator>(out: &mut Vec<u8>, scalar: &Scalar<A>) -> Result<(), AllocError>
    ensures ok { OnOk result (out.new.items ≡ out.old.items ++ text_of (scalar_pieces (scalar_tree scalar.now))) }
    ensures err { OnErr result (Extends out.old.items out.new.items) }
{
    match scalar {
        Scalar::Literal(_, number) => push_literal(out, number),
        Scalar::Column(_, index) => write_column(out, *index),
        Scalar::Binary(_, operator, left, right) => write_binary(out, *operator, left, right),
        Scalar::Negate(_, inner) => write_negation(out, inner),
    }
}

/// Appends a column.
fn write_column(out: &mut Vec<u8>, index: u64) -> Result<(), AllocError>
    ensures ok { OnOk result (out.new.items ≡ out.old.items ++ text_of (scalar_pieces (ScalarTree.column nowhere index))) }
    ensures err { OnErr result (Extends out.old.items out.new.items) }
{
    push_column(out, index)
}

/// Appends two operands with their operator.
#[cycle(write)]
fn write_binary<A: Allocator>(
    out: &mut Vec<u8>,
    operator: Operator,
    left: &Scalar<A>,
    right: &Scalar<A>,
) -> Result<(), AllocError>
    ensures ok { OnOk result (out.new.items ≡ out.old.items
        ++ text_of (scalar_pieces (ScalarTree.binary nowhere operator (scalar_tree left.now) (scalar_tree right.now)))) }
    ensures err { OnErr result (Extends out.old.items out.new.items) }
{
    let least = ScalarRank::left_of(operator);
    write_operand(out, left, ScalarRank::of(left).is_below(least))?;
    push_operator(out, operator)?;
    let least = ScalarRank::right_of(operator);
    write_operand(out, right, ScalarRank::of(right).is_below(least))
}

/// Appends a minus and its operand.
#[cycle(write)]
fn write_negation<A: Allocator>(out: &mut Vec<u8>, inner: &Scalar<A>) -> Result<(), AllocError>
    ensures ok { OnOk result (out.new.items ≡ out.old.items ++ text_of (scalar_pieces (ScalarTree.negate nowhere (scalar_tree inner.now)))) }
    ensures err { OnErr result (Extends out.old.items out.new.items) }
{
    push(out, b"-")?;
    write_operand(
        out,
        inner,
        ScalarRank::of(inner).is_below(ScalarRank::Single),
    )
}

/// Appends scalars, with a comma and a space between each two.
pub fn write_scalars<A: Allocator>(
    out: &mut Vec<u8>,
    scalars: &[Scalar<A>],
) -> Result<(), AllocError>
    ensures ok { OnOk result (out.new.items ≡ out.old.items ++ text_of (listed scalar_pieces (map scalar_tree scalars.now))) }
    ensures err { OnErr result (Extends out.old.items out.new.items) }
{
    let Some((first, rest)) = scalars.split_first() else {
        return Ok(());
    };
    write_scalar(out, first)?;
    for scalar in rest {
        push(out, b", ")?;
        write_scalar(out, scalar)?;
    }
    Ok(())
}
