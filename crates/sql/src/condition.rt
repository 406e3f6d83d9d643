//! The text of conditions.

ghost use Rattle.std.specs.Prelude.{◌≡◌, ◌++◌, OnOk};
ghost use Rattle.expr_tree.specs.Plain.{plain_comparison, plain_cond, plain_scalar};
ghost use Rattle.expr_tree.specs.Views.{cond_tree, scalar_tree};
ghost use Rattle.sql_meaning.specs.Translation.{expression, search};
ghost use Rattle.sql.specs.Signs.{connective_text};
ghost use Rattle.sql_meaning.specs.Script.{Search};
ghost use Rattle.sql.specs.Text.{between_text, bracketed, comparison_text, expression_text, guarded_text, integer_text, is_simple, needs_guard, search_text};

use crate::form::{Dialect, Form};
use crate::push::push;
use crate::scalar::push_scalar;
use expr_tree::{Comparison, Cond, Connective, Scalar};
use record_core::NoMemory;
use std::alloc::Allocator;

/// A comparison with a space on each side.
fn comparison_sign(comparison: Comparison) -> &'static [u8]
    ensures { result.now ≡ comparison_text (plain_comparison comparison) }
{
    match comparison {
        Comparison::Equal => b" = ",
        Comparison::NotEqual => b" <> ",
        Comparison::Less => b" < ",
        Comparison::AtMost => b" <= ",
        Comparison::Greater => b" > ",
        Comparison::AtLeast => b" >= ",
    }
}

/// A connective with a space on each side.
fn connective_word(connective: Connective) -> &'static [u8]
    ensures { result.now ≡ connective_text connective }
{
    match connective {
        Connective::And => b" AND ",
        Connective::Or => b" OR ",
    }
}

/// Whether a scalar is a column or a number.
fn is_simple<A: Allocator>(scalar: &Scalar<A>) -> bool
    ensures { result ≡ is_simple (expression (plain_scalar (scalar_tree scalar.now))) }
{
    matches!(scalar, Scalar::Literal(_, _) | Scalar::Column(_, _))
}

/// Whether a comparison is to be made only of integers.
fn needs_guard(dialect: Dialect, both_simple: bool) -> bool
    ensures { result ≡ needs_guard dialect both_simple }
{
    match dialect {
        Dialect::Sqlite => !both_simple,
        Dialect::Postgres | Dialect::Spark => false,
    }
}

/// Appends a comparison.
fn push_between<A: Allocator>(
    text: &mut Vec<u8>,
    form: Form,
    comparison: Comparison,
    left: &Scalar<A>,
    right: &Scalar<A>,
) -> Result<(), NoMemory>
    ensures { OnOk result (text.new.items ≡ text.old.items ++ between_text (comparison_text (plain_comparison comparison))
        (expression_text form (expression (plain_scalar (scalar_tree left.now))))
        (expression_text form (expression (plain_scalar (scalar_tree right.now))))) }
{
    push_scalar(text, form, left)?;
    push(text, comparison_sign(comparison))?;
    push_scalar(text, form, right)
}

/// Appends that a scalar's value is an integer.
fn push_integer<A: Allocator>(
    text: &mut Vec<u8>,
    form: Form,
    scalar: &Scalar<A>,
) -> Result<(), NoMemory>
    ensures { OnOk result (text.new.items ≡ text.old.items ++ integer_text (expression_text form (expression (plain_scalar (scalar_tree scalar.now))))) }
{
    push(text, b"typeof(")?;
    push_scalar(text, form, scalar)?;
    push(text, b") = 'integer'")
}

/// Appends a comparison of integers alone.
fn push_guarded<A: Allocator>(
    text: &mut Vec<u8>,
    form: Form,
    comparison: Comparison,
    left: &Scalar<A>,
    right: &Scalar<A>,
) -> Result<(), NoMemory>
    ensures { OnOk result (text.new.items ≡ text.old.items ++ guarded_text (comparison_text (plain_comparison comparison))
        (expression_text form (expression (plain_scalar (scalar_tree left.now))))
        (expression_text form (expression (plain_scalar (scalar_tree right.now))))) }
{
    push(text, b"(CASE WHEN ")?;
    push_integer(text, form, left)?;
    push(text, b" AND ")?;
    push_integer(text, form, right)?;
    push(text, b" THEN ")?;
    push_between(text, form, comparison, left, right)?;
    push(text, b" ELSE abs(-9223372036854775807 - 1) END)")
}

/// Appends a comparison, in brackets.
fn push_bracketed<A: Allocator>(
    text: &mut Vec<u8>,
    form: Form,
    comparison: Comparison,
    left: &Scalar<A>,
    right: &Scalar<A>,
) -> Result<(), NoMemory>
    ensures { OnOk result (text.new.items ≡ text.old.items ++ bracketed (comparison_text (plain_comparison comparison))
        (expression_text form (expression (plain_scalar (scalar_tree left.now))))
        (expression_text form (expression (plain_scalar (scalar_tree right.now))))) }
{
    push(text, b"(")?;
    push_scalar(text, form, left)?;
    push(text, comparison_sign(comparison))?;
    push_scalar(text, form, right)?;
    push(text, b")")
}

/// Appends a comparison, by which none is made of anything but integers.
fn push_comparison<A: Allocator>(
    text: &mut Vec<u8>,
    form: Form,
    comparison: Comparison,
    left: &Scalar<A>,
    right: &Scalar<A>,
) -> Result<(), NoMemory>
    ensures { OnOk result (text.new.items ≡ text.old.items ++ search_text form (Search.compare (plain_comparison comparison)
        (expression (plain_scalar (scalar_tree left.now)))
        (expression (plain_scalar (scalar_tree right.now))))) }
{
    if needs_guard(form.dialect(), is_simple(left) && is_simple(right)) {
        return push_guarded(text, form, comparison, left, right);
    }
    push_bracketed(text, form, comparison, left, right)
}

/// Appends a condition.
pub fn push_cond<A: Allocator>(
    text: &mut Vec<u8>,
    form: Form,
    condition: &Cond<A>,
) -> Result<(), NoMemory>
    ensures { OnOk result (text.new.items ≡ text.old.items ++ search_text form (search (plain_cond (cond_tree condition.now)))) }
{
    match condition {
        Cond::Compare(_, comparison, left, right) => {
            push_comparison(text, form, *comparison, left, right)
        }
        Cond::Logical(_, connective, left, right) => {
            push(text, b"(")?;
            push_cond(text, form, left)?;
            push(text, connective_word(*connective))?;
            push_cond(text, form, right)?;
            push(text, b")")
        }
        Cond::Not(_, inner) => {
            push(text, b"(NOT ")?;
            push_cond(text, form, inner)?;
            push(text, b")")
        }
    }
}
