//! The text of scalars.

ghost use Rattle.std.specs.Prelude.{◌≡◌, ◌++◌, codes, map, OnOk};
ghost use Rattle.std.specs.Int.{int_wrap};
ghost use mir.Syntax.{w64};
ghost use Rattle.expr_tree.specs.Plain.{plain_scalar};
ghost use Rattle.expr_tree.specs.PlainLists.{plain_scalars};
ghost use Rattle.expr_tree.specs.Views.{scalar_tree};
ghost use Rattle.sql_meaning.specs.Translation.{expression};
ghost use Rattle.sql.specs.Signs.{operator_text};
ghost use Rattle.sql.specs.Dialects.{arithmetic_of, operand_close, operand_open, wrap_close, wrap_open};
ghost use Rattle.sql.specs.Text.{continued, expression_text, joined, number_text};

use crate::form::Form;
use crate::push::{push, push_column, push_signed};
use expr_tree::{Operator, Scalar};
use record_core::NoMemory;
use std::alloc::Allocator;

/// An operator with a space on each side.
fn sign_of(operator: Operator) -> &'static [u8]
    ensures { result.now ≡ operator_text operator }
{
    match operator {
        Operator::Add => b" + ",
        Operator::Subtract => b" - ",
        Operator::Multiply => b" * ",
    }
}

/// Appends a number.
fn push_literal(text: &mut Vec<u8>, number: i64) -> Result<(), NoMemory>
    ensures { OnOk result (text.new.items ≡ text.old.items ++ number_text (int_wrap w64 number)) }
{
    push(text, b"CAST(")?;
    push_signed(text, number)?;
    push(text, b" AS BIGINT)")
}

/// Appends what stands before the first operand of an operation.
fn push_open(text: &mut Vec<u8>, form: Form, bracket: &[u8]) -> Result<(), NoMemory>
    ensures { OnOk result (text.new.items ≡ text.old.items ++ (wrap_open (arithmetic_of form) ++ (bracket.now ++ operand_open form))) }
{
    push(text, form.arithmetic().wrap_open())?;
    push(text, bracket)?;
    push(text, form.operand_open())
}

/// Appends what stands between two operands.
fn push_between(text: &mut Vec<u8>, form: Form, operator: Operator) -> Result<(), NoMemory>
    ensures { OnOk result (text.new.items ≡ text.old.items ++ (operand_close form ++ (operator_text operator ++ operand_open form))) }
{
    push(text, form.operand_close())?;
    push(text, sign_of(operator))?;
    push(text, form.operand_open())
}

/// Appends what stands after the last operand.
fn push_close(text: &mut Vec<u8>, form: Form) -> Result<(), NoMemory>
    ensures { OnOk result (text.new.items ≡ text.old.items ++ (operand_close form ++ (codes ")" ++ wrap_close (arithmetic_of form)))) }
{
    push(text, form.operand_close())?;
    push(text, b")")?;
    push(text, form.arithmetic().wrap_close())
}

/// Appends a scalar.
pub fn push_scalar<A: Allocator>(
    text: &mut Vec<u8>,
    form: Form,
    scalar: &Scalar<A>,
) -> Result<(), NoMemory>
    ensures { OnOk result (text.new.items ≡ text.old.items ++ expression_text form (expression (plain_scalar (scalar_tree scalar.now)))) }
{
    match scalar {
        Scalar::Literal(_, number) => push_literal(text, *number),
        Scalar::Column(_, index) => push_column(text, *index),
        Scalar::Binary(_, operator, left, right) => {
            push_open(text, form, b"(")?;
            push_scalar(text, form, left)?;
            push_between(text, form, *operator)?;
            push_scalar(text, form, right)?;
            push_close(text, form)
        }
        Scalar::Negate(_, inner) => {
            push_open(text, form, b"(- ")?;
            push_scalar(text, form, inner)?;
            push_close(text, form)
        }
    }
}

/// Appends scalars, each after a comma.
fn push_more_scalars<A: Allocator>(
    text: &mut Vec<u8>,
    form: Form,
    scalars: &[Scalar<A>],
) -> Result<(), NoMemory>
    ensures { OnOk result (text.new.items ≡ text.old.items ++ continued (codes ", ") (map (expression_text form) (map expression (plain_scalars scalars.now)))) }
{
    match scalars {
        [] => Ok(()),
        [scalar, rest @ ..] => {
            push(text, b", ")?;
            push_scalar(text, form, scalar)?;
            push_more_scalars(text, form, rest)
        }
    }
}

/// Appends scalars, with a comma between each two.
pub fn push_scalars<A: Allocator>(
    text: &mut Vec<u8>,
    form: Form,
    scalars: &[Scalar<A>],
) -> Result<(), NoMemory>
    ensures { OnOk result (text.new.items ≡ text.old.items ++ joined (codes ", ") (map (expression_text form) (map expression (plain_scalars scalars.now)))) }
{
    match scalars {
        [] => Ok(()),
        [scalar, rest @ ..] => {
            push_scalar(text, form, scalar)?;
            push_more_scalars(text, form, rest)
        }
    }
}
