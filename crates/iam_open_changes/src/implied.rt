// Whether an entry of a condition holds wherever another one does.
ghost use Rattle.std.specs.Prelude.{◌≡◌, Any, IfOk, IsTrue};
ghost use Rattle.iam_match.specs.Entry.{is_null};
ghost use Rattle.iam_open_changes.specs.Code.Implied.{AreWithin, AreWithinBy, Covers, Implies, IsHeld, IsWithin};

use crate::network::{are_held, network_of};
use crate::wider::is_wider;
use iam_condition::{Base, Entry, Operand, Operator};
use iam_equal::{is_same_operator, is_same_value};
use iam_layers::OutOfMemory;
use std::alloc::Global;

/// `true` only where the second entry holds in each context in which the first one does: both ask the same of one key, the second by values
/// around those of the first, or the other way round where the operator is negated.
///
/// AWS IAM User Guide, "IAM JSON policy elements: Condition operators".
pub fn implies(alloc: Global, one: &Entry, other: &Entry) -> Result<bool, OutOfMemory>
    ensures { IfOk result (λ yes. IsTrue yes → Implies one.now other.now) }
{
    if !is_same_operator(one.operator(), other.operator()) || one.key() != other.key() {
        return Ok(false);
    }
    are_within_by(alloc, one.operator(), one.values(), other.values())
}

/// `true` only where the operator holds of the second values wherever it holds of the first ones.
fn are_within_by(
    alloc: Global,
    operator: Operator,
    ones: &[Operand],
    others: &[Operand],
) -> Result<bool, OutOfMemory>
    ensures { IfOk result (λ yes. IsTrue yes
        → AreWithinBy operator.base (is_null operator.base) operator.is_negated ones.now others.now) }
{
    if is_null(operator.base) {
        return are_within(alloc, operator.base, ones, others);
    }
    if operator.is_negated {
        are_within(alloc, operator.base, others, ones)
    } else {
        are_within(alloc, operator.base, ones, others)
    }
}

fn is_null(base: Base) -> bool
    ensures { result ≡ is_null base }
{
    matches!(base, Base::Null)
}

/// `true` only where each of the first values is within the second ones.
fn are_within(
    alloc: Global,
    base: Base,
    ones: &[Operand],
    others: &[Operand],
) -> Result<bool, OutOfMemory>
    ensures { IfOk result (λ yes. IsTrue yes → AreWithin base ones.now others.now) }
{
    for one in ones {
        if !is_within(alloc, base, one, others)? {
            return Ok(false);
        }
    }
    Ok(true)
}

/// `true` only where one of these covers the value, or it is a range whose addresses are held by ranges among them.
fn is_within(
    alloc: Global,
    base: Base,
    one: &Operand,
    others: &[Operand],
) -> Result<bool, OutOfMemory>
    ensures { IfOk result (λ yes. IsTrue yes → IsWithin base others.now one.now) }
{
    if is_held(one, others) {
        return Ok(true);
    }
    is_covered(alloc, base, one, others)
}

/// `true` only where one of these covers the value.
fn is_covered(
    alloc: Global,
    base: Base,
    one: &Operand,
    others: &[Operand],
) -> Result<bool, OutOfMemory>
    ensures { IfOk result (λ yes. IsTrue yes → Any (Covers base one.now) others.now) }
{
    for other in others {
        if covers(alloc, base, one, other)? {
            return Ok(true);
        }
    }
    Ok(false)
}

/// `true` only where the second value is the first one, or a wider one.
fn covers(alloc: Global, base: Base, one: &Operand, other: &Operand) -> Result<bool, OutOfMemory>
    ensures { IfOk result (λ yes. IsTrue yes → Covers base one.now other.now) }
{
    if is_same_value(one, other) {
        return Ok(true);
    }
    is_wider(alloc, base, one, other)
}

/// `true` only where the value is a range whose addresses are held by ranges among these.
fn is_held(one: &Operand, others: &[Operand]) -> bool
    ensures { IsTrue result → IsHeld others.now one.now }
{
    match one {
        Operand::Range(range) => are_held(network_of(range.get()), others),
        _ => false,
    }
}
