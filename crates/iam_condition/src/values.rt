//! Whether the values of a `Condition` are on the grammars of their operators.
ghost use Rattle.std.specs.Prelude.{◌↔◌, IfOk, IsTrue, map};
ghost use Rattle.serde_json.specs.View.{view};
ghost use Rattle.iam_condition.specs.Code.Walks.{AnyOf, IsBadMember, IsBadUnder};
ghost use Rattle.iam_condition.specs.Condition.{HasBadValue, IsBadValue, members_of};
ghost use Rattle.iam_condition.specs.Operand.{IsOffGrammar};

use crate::form::values_under;
use crate::names::operator_of;
use crate::operand::Operand;
use crate::operator::Base;
use iam_json::scalar_text;
use iam_text::OutOfMemory;
use serde_json::{Map, Value};
use std::alloc::Global;

/// Whether a text is off the grammar of the operator's values.
fn is_off_grammar(alloc: Global, base: Base, text: &str) -> Result<bool, OutOfMemory>
    ensures { IfOk result (λ bad. IsTrue bad ↔ IsOffGrammar base text.now) }
{
    if base.has_texts() {
        return Ok(false);
    }
    Ok(Operand::read_value(alloc, base, text)?.is_none())
}

/// Whether a value is not a text, a Boolean or a whole number, or its text is off the grammar. A text is not copied.
fn is_bad_value(alloc: Global, base: Base, value: &Value) -> Result<bool, OutOfMemory>
    ensures { IfOk result (λ bad. IsTrue bad ↔ IsBadValue base (view value.now)) }
{
    if let Some(text) = value.as_str() {
        return is_off_grammar(alloc, base, text);
    }
    match scalar_text(alloc, value)? {
        Some(text) => is_off_grammar(alloc, base, text.as_str()),
        None => Ok(true),
    }
}

fn is_some_value_bad(alloc: Global, base: Base, values: &[Value]) -> Result<bool, OutOfMemory>
    ensures { IfOk result (λ bad. IsTrue bad ↔ AnyOf (IsBadValue base) (map view values.now)) }
{
    for value in values {
        if is_bad_value(alloc, base, value)? {
            return Ok(true);
        }
    }
    Ok(false)
}

/// Whether some key of an operator has a bad value.
fn are_keys_bad(alloc: Global, base: Base, keys: &Value) -> Result<bool, OutOfMemory>
    ensures { IfOk result (λ bad. IsTrue bad ↔ AnyOf (IsBadUnder base) (members_of (view keys.now))) }
{
    let Some(members) = keys.as_object() else {
        return Ok(false);
    };
    for (_, value) in members.iter() {
        if is_some_value_bad(alloc, base, values_under(value))? {
            return Ok(true);
        }
    }
    Ok(false)
}

/// Whether a name is that of an operator, of whose keys some has a bad value.
fn is_bad_member(alloc: Global, name: &str, keys: &Value) -> Result<bool, OutOfMemory>
    ensures { IfOk result (λ bad. IsTrue bad ↔ IsBadMember (name.now, view keys.now)) }
{
    match operator_of(name) {
        Some(operator) => are_keys_bad(alloc, operator.base, keys),
        None => Ok(false),
    }
}

/// Whether a value of the `Condition` is not a text, a Boolean or a whole number, or its text is off the grammar of its
/// operator. Memory is asked for base64 and for the texts of numbers and Booleans alone.
pub fn has_bad_value(alloc: Global, condition: &Value) -> Result<bool, OutOfMemory>
    ensures { IfOk result (λ bad. IsTrue bad ↔ HasBadValue (view condition.now)) }
{
    let Some(members) = condition.as_object() else {
        return Ok(false);
    };
    for (name, keys) in members.iter() {
        if is_bad_member(alloc, name.as_str(), keys)? {
            return Ok(true);
        }
    }
    Ok(false)
}
