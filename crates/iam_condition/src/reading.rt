//! Reading the entries of a `Condition`.
ghost use Rattle.std.specs.Prelude.{◌≡◌, ◌++◌, false, map, IfOk, OnOk};
ghost use Rattle.std.specs.List.{AllByRecursion, AllZip};
ghost use Rattle.serde_json.specs.View.{view};
ghost use Rattle.iam_condition.specs.Code.Reading.{IsFine, IsFineGiven, IsFineText, given_of};
ghost use Rattle.iam_condition.specs.Code.Walks.{given};
ghost use Rattle.iam_condition.specs.Condition.{HasBadValue, ReadsCondition, ReadsEntry, ReadsValue, given_in, given_under, has_bad_text, members_of, values_under};
ghost use Rattle.iam_condition.specs.Operand.{IsOperand};

use crate::entry::Entry;
use crate::form::values_under;
use crate::names::operator_of;
use crate::operand::Operand;
use crate::operator::{Base, Operator};
use iam_json::scalar_text;
use iam_text::{OutOfMemory, Template, Version};
use serde_json::{Map, Value};
use std::alloc::Global;

/// A key under an operator, and what stands there.
#[derive(Clone, Copy)]
struct Key<'v> {
    operator: Operator,
    name: &'v str,
    value: &'v Value,
}

/// Adds the keys under an operator.
fn add_under<'v>(
    keys: &mut Vec<Key<'v>>,
    operator: Operator,
    under: &'v Value,
) -> Result<(), OutOfMemory>
    ensures { OnOk result (map given_of keys.new.items
        ≡ map given_of keys.old.items ++ map (given operator) (members_of (view under.now))) }
{
    let Some(members) = under.as_object() else {
        return Ok(());
    };
    for (name, value) in members.iter() {
        keys.push(Key {
            operator,
            name: name.as_str(),
            value,
        })?;
    }
    Ok(())
}

/// Adds the keys under a name, where it is that of an operator.
fn add_member<'v>(keys: &mut Vec<Key<'v>>, name: &str, under: &'v Value) -> Result<(), OutOfMemory>
    ensures { OnOk result (map given_of keys.new.items
        ≡ map given_of keys.old.items ++ given_under (name.now, view under.now)) }
{
    match operator_of(name) {
        Some(operator) => add_under(keys, operator, under),
        None => Ok(()),
    }
}

/// The keys of a `Condition`, under the operators in the order of their names.
fn keys_in(alloc: Global, condition: &Value) -> Result<Vec<Key<'_>>, OutOfMemory>
    ensures { IfOk result (λ keys. map given_of keys.items ≡ given_in (view condition.now)) }
{
    let mut keys = Vec::new(alloc);
    let Some(members) = condition.as_object() else {
        return Ok(keys);
    };
    for (name, under) in members.iter() {
        add_member(&mut keys, name.as_str(), under)?;
    }
    Ok(keys)
}

/// The value of a text that has one.
fn read_text(
    alloc: Global,
    base: Base,
    text: &str,
    version: Version,
) -> Result<Operand, OutOfMemory>
    requires { IsFineText version base text.now }
    ensures { IfOk result (IsOperand version base text.now) }
{
    match base.text_form() {
        Some(wild) => Ok(Operand::Text(Template::of(alloc, text, wild, version)?)),
        None => Ok(Operand::read_value(alloc, base, text)?.unwrap()),
    }
}

fn read_value(
    alloc: Global,
    base: Base,
    value: &Value,
    version: Version,
) -> Result<Operand, OutOfMemory>
    requires { IsFine version base (view value.now) }
    ensures { IfOk result (ReadsValue version base (view value.now)) }
{
    if let Some(text) = value.as_str() {
        return read_text(alloc, base, text, version);
    }
    let text = scalar_text(alloc, value)?.unwrap();
    read_text(alloc, base, text.as_str(), version)
}

fn read_values(
    alloc: Global,
    base: Base,
    values: &[Value],
    version: Version,
) -> Result<Vec<Operand>, OutOfMemory>
    requires { AllByRecursion (IsFine version base) (map view values.now) }
    ensures { IfOk result (λ read. AllZip (ReadsValue version base) (map view values.now) read.items) }
{
    let mut read = Vec::with_capacity(alloc, values.len())?;
    for value in values {
        read.push(read_value(alloc, base, value, version)?)?;
    }
    Ok(read)
}

fn read_key(alloc: Global, key: &Key<'_>, version: Version) -> Result<Entry, OutOfMemory>
    requires { IsFineGiven version (given_of key.now) }
    ensures { IfOk result (ReadsEntry version (given_of key.now)) }
{
    let values = read_values(alloc, key.operator.base, values_under(key.value), version)?;
    Entry::new(alloc, key.operator, key.name, values)
}

fn read_keys(alloc: Global, keys: &[Key<'_>], version: Version) -> Result<Vec<Entry>, OutOfMemory>
    requires { AllByRecursion (IsFineGiven version) (map given_of keys.now) }
    ensures { IfOk result (λ entries. AllZip (ReadsEntry version) (map given_of keys.now) entries.items) }
{
    let mut entries = Vec::new(alloc);
    for key in keys {
        entries.push(read_key(alloc, key, version)?)?;
    }
    Ok(entries)
}

/// The entries of a `Condition` whose texts and values are on their grammars, in the order of their operators' and keys'
/// bytes. A member that is no operator has none.
pub fn read_entries(
    alloc: Global,
    condition: &Value,
    version: Version,
) -> Result<Vec<Entry>, OutOfMemory>
    requires texts { has_bad_text version (view condition.now) ≡ false }
    requires values { ¬ HasBadValue (view condition.now) }
    ensures { IfOk result (λ entries. ReadsCondition version (view condition.now) entries.items) }
{
    let keys = keys_in(alloc, condition)?;
    read_keys(alloc, keys.as_slice(), version)
}
