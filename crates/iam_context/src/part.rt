// Parts of a context: keys that stand twice, and derived keys that are given.
ghost use Rattle.std.specs.Prelude.{◌≡◌, ◌≢◌, ◌||◌, ℕ, List, MatchOption, IfOk, false, map};
ghost use Rattle.std.specs.Char.{to_ascii_lowercase};
ghost use Rattle.std.specs.List.{list_any};
ghost use Rattle.iam_context.specs.Context.{all_of, derived_names, has_derived, has_key, has_twice, is_same_key, keys_of};
ghost use Rattle.iam_context.specs.Keys.{HasKeys};
ghost use Rattle.iam_context.specs.ContextFault.{IsClean, IsPartFault};
ghost use Rattle.iam_context.specs.Code.Entries.{derived_name};

use crate::OutOfMemory;
use crate::fault::ContextFault;
use crate::keys::Keys;
use crate::values::{DerivedKey, KeyName, Values};
use std::alloc::Global;

/// Keys of a context, each with its values.
pub type Part = Vec<(KeyName, Values)>;

/// The keys that follow from requester, resource and moment, each with its values.
pub type Derived = Vec<(KeyName, Values)>;

/// The keys that follow from requester, resource and moment.
const DERIVED: [DerivedKey; 7] = [
    DerivedKey::PrincipalArn,
    DerivedKey::Username,
    DerivedKey::PrincipalType,
    DerivedKey::PrincipalAccount,
    DerivedKey::ResourceAccount,
    DerivedKey::CurrentTime,
    DerivedKey::EpochTime,
];

/// The first fault of a part beside other parts that have these keys: `KeyTwice` where a key of it is one of theirs or
/// stands twice in it, then `DerivedKeyGiven` where a key of it follows from requester, resource or moment; `None` where
/// it has neither fault.
pub fn part_fault<'a>(
    alloc: Global,
    part: &'a Part,
    others: &Keys<'a>,
) -> Result<Option<ContextFault>, OutOfMemory>
    ensures { (keys : List (List ℕ)) → HasKeys others.now keys
        → IfOk result (λ found. MatchOption found (IsClean keys part.now.items) (IsPartFault keys part.now.items)) }
{
    if is_shared(part, others) || has_twice(alloc, part)? {
        return Ok(Some(ContextFault::KeyTwice));
    }
    if has_derived(part) {
        return Ok(Some(ContextFault::DerivedKeyGiven));
    }
    Ok(None)
}

/// Whether some key of the part is one of these.
fn is_shared<'a>(part: &'a Part, others: &Keys<'a>) -> bool
    ensures { (keys : List (List ℕ)) → HasKeys others.now keys → result ≡ list_any (has_key keys) (keys_of part.now.items) }
{
    for (key, _) in part {
        if others.contains(key.as_str()) {
            return true;
        }
    }
    false
}

/// Whether some key of the part stands twice in it.
fn has_twice(alloc: Global, part: &Part) -> Result<bool, OutOfMemory>
    ensures { IfOk result (λ found. found ≡ has_twice (keys_of part.now.items)) }
{
    Keys::new(alloc).add_new(part)
}

/// Whether some key stands twice in the parts.
pub fn stand_twice(alloc: Global, parts: &[&Part]) -> Result<bool, OutOfMemory>
    ensures { IfOk result (λ found. found ≡ has_twice (keys_of (all_of (map (λ part. part.now.items) parts.now)))) }
{
    let mut seen = Keys::new(alloc);
    for part in parts {
        if seen.add_new(part)? {
            return Ok(true);
        }
    }
    Ok(false)
}

/// Whether some key of the part follows from requester, resource or moment.
pub fn has_derived(part: &Part) -> bool
    ensures { result ≡ has_derived (keys_of part.now.items) }
{
    for (key, _) in part {
        if is_derived(key.as_str()) {
            return true;
        }
    }
    false
}

/// Whether the key follows from requester, resource or moment.
fn is_derived(key: &str) -> bool
    ensures { result ≡ has_key derived_names key.now }
{
    is_one_of(&DERIVED, key)
}

/// Whether the key is one of these.
fn is_one_of(derived: &[DerivedKey], key: &str) -> bool
    ensures { result ≡ list_any (λ it. is_same_key (derived_name it) key.now) derived.now }
{
    derived.iter().any(|it| is_same_key(it.name(), key))
}

/// Whether the keys differ in the case of ASCII letters alone.
pub fn is_same_key(key: &str, other: &str) -> bool
    ensures { result ≡ is_same_key key.now other.now }
{
    if key.len() != other.len() {
        return false;
    }
    // Keys are mostly written alike, or differ in their last characters.
    if key == other {
        return true;
    }
    ends_alike(key.as_bytes(), other.as_bytes()) && key.eq_ignore_ascii_case(other)
}

/// `false` only where the last characters tell the keys apart.
fn ends_alike(key: &[u8], other: &[u8]) -> bool
    ensures { result ≡ false → map to_ascii_lowercase key.now ≢ map to_ascii_lowercase other.now }
{
    match (key.last(), other.last()) {
        (Some(one), Some(two)) => one.eq_ignore_ascii_case(two),
        _ => true,
    }
}
