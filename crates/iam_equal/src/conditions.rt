// Whether two conditions are the same, entry by entry.
ghost use Rattle.std.specs.Prelude.{◌≡◌, ◌↔◌, IsTrue};

use crate::texts::is_same_text;
use iam_condition::{Base, Entry, Operand, Operator, Quantifier};
use iam_value::Range;

/// Whether both lists have the same entries in the same order.
pub fn are_same_entries(ones: &[Entry], others: &[Entry]) -> bool
    ensures { IsTrue result ↔ ones.now ≡ others.now }
{
    if ones.len() != others.len() {
        return false;
    }
    for i in 0..ones.len() {
        if !is_same_entry(&ones[i], &others[i]) {
            return false;
        }
    }
    true
}

fn is_same_entry(one: &Entry, other: &Entry) -> bool
    ensures { IsTrue result ↔ one.now ≡ other.now }
{
    if !is_same_operator(one.operator(), other.operator()) || one.key() != other.key() {
        return false;
    }
    are_same_values(one.values(), other.values())
}

/// Whether both are the same operator.
pub fn is_same_operator(one: Operator, other: Operator) -> bool
    ensures { IsTrue result ↔ one ≡ other }
{
    if one.is_negated != other.is_negated || one.if_exists != other.if_exists {
        return false;
    }
    is_same_quantifier(one.quantifier, other.quantifier) && is_same_base(one.base, other.base)
}

fn is_same_quantifier(one: Option<Quantifier>, other: Option<Quantifier>) -> bool
    ensures { IsTrue result ↔ one ≡ other }
{
    one == other
}

fn is_same_base(one: Base, other: Base) -> bool
    ensures { IsTrue result ↔ one ≡ other }
{
    one == other
}

/// Whether both lists have the same values in the same order.
fn are_same_values(ones: &[Operand], others: &[Operand]) -> bool
    ensures { IsTrue result ↔ ones.now ≡ others.now }
{
    if ones.len() != others.len() {
        return false;
    }
    for i in 0..ones.len() {
        if !is_same_value(&ones[i], &others[i]) {
            return false;
        }
    }
    true
}

/// Whether both values are the same.
pub fn is_same_value(one: &Operand, other: &Operand) -> bool
    ensures { IsTrue result ↔ one.now ≡ other.now }
{
    match (one, other) {
        (Operand::Text(one), Operand::Text(other)) => is_same_text(one, other),
        (Operand::Number(one), Operand::Number(other)) => one == other,
        (Operand::Instant(one), Operand::Instant(other)) => one.get() == other.get(),
        (Operand::Truth(one), Operand::Truth(other)) => one == other,
        (Operand::Bytes(one), Operand::Bytes(other)) => one.as_slice() == other.as_slice(),
        (Operand::Range(one), Operand::Range(other)) => is_same_range(one.get(), other.get()),
        _ => false,
    }
}

/// Whether both ranges have the same address, and as many of its bits count.
fn is_same_range(one: &Range, other: &Range) -> bool
    ensures { IsTrue result ↔ one.now ≡ other.now }
{
    one.width() == other.width() && one.number() == other.number() && one.prefix() == other.prefix()
}
