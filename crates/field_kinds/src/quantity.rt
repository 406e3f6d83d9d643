//! What comes of two quantities.

ghost use Rattle.std.specs.Prelude.{◌≡◌};
ghost use Rattle.kinds.specs.Kinds as spec;
ghost use Rattle.kinds.specs.Relations as relations;
ghost use Rattle.kinds.specs.declared.kind.Quantity.TheVariants as quantity;
ghost use Rattle.field_kinds.specs.Operators.{of_operator};

use expr_tree::Operator;
use kinds::{Kind, Quantity};

/// The most digits after the point.
const MOST_DIGITS: u8 = 18;

/// Whether the quantities are the same.
pub(crate) fn same_quantity(a: Quantity, b: Quantity) -> bool
    ensures { result ≡ spec.same_quantity a b }
{
    match (a, b) {
        (Quantity::Whole, Quantity::Whole)
        | (Quantity::Date, Quantity::Date)
        | (Quantity::Time, Quantity::Time)
        | (Quantity::Bare, Quantity::Bare) => true,
        (Quantity::Decimal(m), Quantity::Decimal(n)) => m == n,
        _ => false,
    }
}

/// What two have in common.
pub(crate) fn common(a: Quantity, b: Quantity) -> Option<Quantity>
    ensures { result ≡ spec.common a b }
{
    match (a, b) {
        (Quantity::Bare, b) => Some(b),
        (a, Quantity::Bare) => Some(a),
        (a, b) if same_quantity(a, b) => Some(a),
        _ => None,
    }
}

/// Of a sum.
fn sum(a: Quantity, b: Quantity) -> Option<Quantity>
    ensures { result ≡ spec.sum a b }
{
    match (a, b) {
        (Quantity::Date, Quantity::Date) | (Quantity::Time, Quantity::Time) => None,
        (Quantity::Date, Quantity::Whole) | (Quantity::Whole, Quantity::Date) => Some(
            Quantity::Date,
        ),
        (Quantity::Time, Quantity::Whole) | (Quantity::Whole, Quantity::Time) => Some(
            Quantity::Time,
        ),
        (a, b) => common(a, b),
    }
}

/// Of a difference.
fn difference(a: Quantity, b: Quantity) -> Option<Quantity>
    ensures { result ≡ spec.difference a b }
{
    match (a, b) {
        (Quantity::Date, Quantity::Date) | (Quantity::Time, Quantity::Time) => Some(
            Quantity::Whole,
        ),
        (Quantity::Date, Quantity::Whole) => Some(Quantity::Date),
        (Quantity::Time, Quantity::Whole) => Some(Quantity::Time),
        (Quantity::Bare, Quantity::Date | Quantity::Time) => None,
        (a, b) => common(a, b),
    }
}

/// Of a product.
fn product(a: Quantity, b: Quantity) -> Option<Quantity>
    ensures { result ≡ spec.product a b }
{
    match (a, b) {
        (Quantity::Date | Quantity::Time, _) | (_, Quantity::Date | Quantity::Time) => None,
        (Quantity::Bare, b) => Some(b),
        (a, Quantity::Bare) => Some(a),
        (Quantity::Whole, b) => Some(b),
        (a, Quantity::Whole) => Some(a),
        (Quantity::Decimal(m), Quantity::Decimal(n)) => digits(m, n),
    }
}

/// A decimal number with the digits of both, if they are few.
fn digits(m: u8, n: u8) -> Option<Quantity>
    ensures { result ≡ spec.product (quantity.Decimal m) (quantity.Decimal n) }
{
    match m.checked_add(n) {
        Some(digits) if digits <= MOST_DIGITS => Some(Quantity::Decimal(digits)),
        _ => None,
    }
}

/// Of the number with the other sign.
pub(crate) fn opposite(a: Quantity) -> Option<Quantity>
    ensures { result ≡ spec.opposite a }
{
    match a {
        Quantity::Date | Quantity::Time => None,
        Quantity::Whole | Quantity::Decimal(_) | Quantity::Bare => Some(a),
    }
}

/// Of two quantities under an operator.
pub(crate) fn under(operator: Operator, a: Quantity, b: Quantity) -> Option<Quantity>
    ensures { result ≡ of_operator operator a b }
{
    match operator {
        Operator::Add => sum(a, b),
        Operator::Subtract => difference(a, b),
        Operator::Multiply => product(a, b),
    }
}

/// What two kinds have in common.
pub(crate) fn merged_kind(a: Kind, b: Kind) -> Option<Kind>
    ensures { result ≡ relations.merged_kind a b }
{
    match (a, b) {
        (Kind::Text, Kind::Text) => Some(Kind::Text),
        (Kind::Number(a), Kind::Number(b)) => match common(a, b) {
            Some(quantity) => Some(Kind::Number(quantity)),
            None => None,
        },
        _ => None,
    }
}

/// Whether the kinds are the same.
pub(crate) fn same_kind(a: Kind, b: Kind) -> bool
    ensures { result ≡ relations.same_kind a b }
{
    match (a, b) {
        (Kind::Text, Kind::Text) => true,
        (Kind::Number(a), Kind::Number(b)) => same_quantity(a, b),
        _ => false,
    }
}
