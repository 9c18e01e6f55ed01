//! Tests on a `Condition`; none takes memory.
ghost use Rattle.std.specs.Prelude.{◌≡◌, is_none, map};
ghost use Rattle.std.specs.List.{list_any};
ghost use Rattle.serde_json.specs.View.{view};
ghost use Rattle.iam_condition.specs.Code.Walks.{given_has, is_bad_key, is_bad_member, key_has, member_has};
ghost use Rattle.iam_condition.specs.Condition.{given_in, has_bad_text, has_many_values, has_unknown_operator, is_bad_form, is_bad_keys, is_bad_text, is_no_value, members_of, values_under};
ghost use Rattle.iam_condition.specs.Operator.{operator_of};

use crate::names::operator_of;
use crate::operator::Base;
use iam_json::values;
use iam_text::{Version, has_draft};
use serde_json::{Map, Value};
use std::slice;

/// How many values a key may have.
const MOST: usize = 4096;

/// What may be wrong with the values of a key.
#[derive(Clone, Copy)]
enum KeyFault {
    BadText(Version),
    ManyValues,
}

/// The values of a key: those of a list, or the one value.
pub fn values_under(value: &Value) -> &[Value]
    ensures { map view result.now ≡ values_under (view value.entry.now) }
{
    match values(value) {
        Some(list) => list,
        None => slice::from_ref(value),
    }
}

/// Whether a member of the `Condition` is no operator.
pub fn has_unknown_operator(condition: &Value) -> bool
    ensures { result ≡ has_unknown_operator (view condition.now) }
{
    let Some(members) = condition.as_object() else {
        return false;
    };
    for (name, _) in members.iter() {
        if operator_of(name.as_str()).is_none() {
            return true;
        }
    }
    false
}

/// Whether it is null or an object.
fn is_no_value(value: &Value) -> bool
    ensures { result ≡ is_no_value (view value.now) }
{
    value.is_null() || value.is_object()
}

fn is_bad_key(key: &str, value: &Value) -> bool
    ensures { result ≡ is_bad_key (key.now, view value.now) }
{
    key.is_empty() || is_no_value(value)
}

/// Whether the keys of an operator are no object, or one of them is empty or has no value.
fn is_bad_keys(keys: &Value) -> bool
    ensures { result ≡ is_bad_keys (view keys.now) }
{
    let Some(members) = keys.as_object() else {
        return true;
    };
    for (key, value) in members.iter() {
        if is_bad_key(key.as_str(), value) {
            return true;
        }
    }
    false
}

fn is_bad_member(name: &str, keys: &Value) -> bool
    ensures { result ≡ is_bad_member (name.now, view keys.now) }
{
    operator_of(name).is_some() && is_bad_keys(keys)
}

/// Whether the `Condition` is no object, or has an operator that is none, or an empty key, or a key whose value is null
/// or an object.
pub fn is_bad_form(condition: &Value) -> bool
    ensures { result ≡ is_bad_form (view condition.now) }
{
    let Some(members) = condition.as_object() else {
        return true;
    };
    for (name, keys) in members.iter() {
        if is_bad_member(name.as_str(), keys) {
            return true;
        }
    }
    false
}

/// Whether it is a text off the variable grammar of the version.
fn is_bad_text(value: &Value, version: Version) -> bool
    ensures { result ≡ is_bad_text version (view value.now) }
{
    match value.as_str() {
        Some(text) => !has_draft(text, version),
        None => false,
    }
}

fn is_some_text_bad(values: &[Value], version: Version) -> bool
    ensures { result ≡ list_any (λ v. is_bad_text version (view v)) values.now }
{
    values.iter().any(|value| is_bad_text(value, version))
}

/// Whether a key of an operator has the fault.
fn key_has(fault: KeyFault, base: Base, value: &Value) -> bool
    ensures { result ≡ key_has fault base (view value.now) }
{
    let values = values_under(value);
    match fault {
        KeyFault::BadText(version) => base.has_texts() && is_some_text_bad(values, version),
        KeyFault::ManyValues => values.len() > MOST,
    }
}

fn keys_have(fault: KeyFault, base: Base, keys: &Value) -> bool
    ensures { result ≡ list_any (λ k. key_has fault base k.1) (members_of (view keys.now)) }
{
    let Some(members) = keys.as_object() else {
        return false;
    };
    for (_, value) in members.iter() {
        if key_has(fault, base, value) {
            return true;
        }
    }
    false
}

/// Whether a key under the name has the fault, where the name is that of an operator.
fn member_has(fault: KeyFault, name: &str, keys: &Value) -> bool
    ensures { result ≡ member_has fault (name.now, view keys.now) }
{
    match operator_of(name) {
        Some(operator) => keys_have(fault, operator.base, keys),
        None => false,
    }
}

/// Whether a key of the `Condition` has the fault.
fn has(fault: KeyFault, condition: &Value) -> bool
    ensures { result ≡ list_any (given_has fault) (given_in (view condition.now)) }
{
    let Some(members) = condition.as_object() else {
        return false;
    };
    for (name, keys) in members.iter() {
        if member_has(fault, name.as_str(), keys) {
            return true;
        }
    }
    false
}

/// Whether a value of a string or an ARN operator is a text off the variable grammar of the version.
pub fn has_bad_text(condition: &Value, version: Version) -> bool
    ensures { result ≡ has_bad_text version (view condition.now) }
{
    has(KeyFault::BadText(version), condition)
}

/// Whether a key has over 4,096 values.
pub fn has_many_values(condition: &Value) -> bool
    ensures { result ≡ has_many_values (view condition.now) }
{
    has(KeyFault::ManyValues, condition)
}
