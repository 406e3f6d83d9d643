//! Conditions.

ghost use Rattle.std.specs.Prelude.{◌≡◌, ◌++◌, ◌∷◌, [], OnOk, OnErr};
ghost use Rattle.expr_tree.specs.Trees.{CondTree};
ghost use Rattle.expr_tree.specs.Views.{cond_tree, scalar_tree};
ghost use Rattle.writer.specs.Pieces.{Extends, in_square, of_keyword, space, spaced, text_of};
ghost use Rattle.writer.specs.Scalars.{nowhere};
ghost use Rattle.writer.specs.Conditions.{cond_pieces, sign_of, word_of};

use crate::push::push;
use crate::rank::CondRank;
use crate::scalar::write_scalar;
use expr_tree::{Comparison, Cond, Connective, Scalar};
use std::alloc::{AllocError, Allocator};

/// Appends a comparison's sign with a space on each side.
fn push_comparison(out: &mut Vec<u8>, comparison: Comparison) -> Result<(), AllocError>
    ensures ok { OnOk result (out.new.items ≡ out.old.items ++ text_of (spaced (sign_of comparison))) }
    ensures err { OnErr result (Extends out.old.items out.new.items) }
{
    match comparison {
        Comparison::Equal => push(out, b" = "),
        Comparison::NotEqual => push(out, b" != "),
        Comparison::Less => push(out, b" < "),
        Comparison::AtMost => push(out, b" <= "),
        Comparison::Greater => push(out, b" > "),
        Comparison::AtLeast => push(out, b" >= "),
    }
}

/// Appends a connective with a space on each side.
fn push_connective(out: &mut Vec<u8>, connective: Connective) -> Result<(), AllocError>
    ensures ok { OnOk result (out.new.items ≡ out.old.items ++ text_of (space ∷ of_keyword (word_of connective) ∷ space ∷ [])) }
    ensures err { OnErr result (Extends out.old.items out.new.items) }
{
    match connective {
        Connective::And => push(out, b" and "),
        Connective::Or => push(out, b" or "),
    }
}

/// Appends an operand, in square brackets or not.
#[cycle(write)]
fn write_operand<A: Allocator>(
    out: &mut Vec<u8>,
    condition: &Cond<A>,
    bracketed: bool,
) -> Result<(), AllocError>
    ensures ok { OnOk result (out.new.items ≡ out.old.items ++ text_of (in_square bracketed (cond_pieces (cond_tree condition.now)))) }
    ensures err { OnErr result (Extends out.old.items out.new.items) }
{
    if bracketed {
        push(out, b"[")?;
        write_cond(out, condition)?;
        push(out, b"]")
    } else {
        write_cond(out, condition)
    }
}

/// Appends the text of a condition.
#[cycle(write)]
pub fn write_cond<A: Allocator>(out: &mut Vec<u8>, condition: &Cond<A>) -> Result<(), AllocError>
    ensures ok { OnOk result (out.new.items ≡ out.old.items ++ text_of (cond_pieces (cond_tree condition.now))) }
    ensures err { OnErr result (Extends out.old.items out.new.items) }
{
    match condition {
        Cond::Compare(_, comparison, left, right) => write_compare(out, *comparison, left, right),
        Cond::Logical(_, connective, left, right) => write_logical(out, *connective, left, right),
        Cond::Not(_, inner) => write_not(out, inner),
    }
}

/// Appends two scalars with what compares them.
fn write_compare<A: Allocator>(
    out: &mut Vec<u8>,
    comparison: Comparison,
    left: &Scalar<A>,
    right: &Scalar<A>,
) -> Result<(), AllocError>
    ensures ok { OnOk result (out.new.items ≡ out.old.items
        ++ text_of (cond_pieces (CondTree.compare nowhere comparison (scalar_tree left.now) (scalar_tree right.now)))) }
    ensures err { OnErr result (Extends out.old.items out.new.items) }
{
    write_scalar(out, left)?;
    push_comparison(out, comparison)?;
    write_scalar(out, right)
}

/// Appends two operands with their connective.
#[cycle(write)]
fn write_logical<A: Allocator>(
    out: &mut Vec<u8>,
    connective: Connective,
    left: &Cond<A>,
    right: &Cond<A>,
) -> Result<(), AllocError>
    ensures ok { OnOk result (out.new.items ≡ out.old.items
        ++ text_of (cond_pieces (CondTree.logical nowhere connective (cond_tree left.now) (cond_tree right.now)))) }
    ensures err { OnErr result (Extends out.old.items out.new.items) }
{
    let least = CondRank::left_of(connective);
    write_operand(out, left, CondRank::of(left).is_below(least))?;
    push_connective(out, connective)?;
    let least = CondRank::right_of(connective);
    write_operand(out, right, CondRank::of(right).is_below(least))
}

/// Appends the negation of a condition.
#[cycle(write)]
fn write_not<A: Allocator>(out: &mut Vec<u8>, inner: &Cond<A>) -> Result<(), AllocError>
    ensures ok { OnOk result (out.new.items ≡ out.old.items ++ text_of (cond_pieces (CondTree.negate nowhere (cond_tree inner.now)))) }
    ensures err { OnErr result (Extends out.old.items out.new.items) }
{
    push(out, b"not ")?;
    write_operand(out, inner, true)
}
