// The derived keys of a request.
ghost use Rattle.std.specs.Prelude.{◌≡◌, ◌≤◌, ◌++◌, pos, string_bytes, option_map, IfOk, OnOk};
ghost use Rattle.iam_value.specs.Moment.{IsStamp};
ghost use Rattle.iam_context.specs.Code.Entries.{derived_name};
ghost use Rattle.iam_layers.specs.Derived.{derived_of, key, moment_keys, requester_keys, username_key, word_of};

use iam_context::{Derived, DerivedKey, KeyName, Values};
use iam_match::{OutOfMemory, Requester};
use iam_text::Text;
use iam_value::stamp;
use std::alloc::Global;

/// So many keys follow at most.
const MOST: usize = 7;

/// Adds a key with one value.
fn add(alloc: Global, keys: &mut Derived, name: DerivedKey, value: &str) -> Result<(), OutOfMemory>
    ensures { OnOk result (keys.new.items ≡ keys.old.items ++ key (derived_name name) value.now) }
{
    let value = Text::read(alloc, value)?;
    keys.push((KeyName::derived(name), Values::one(value)))?;
    Ok(())
}

/// Adds the user name, which a session has not.
fn add_username(
    alloc: Global,
    keys: &mut Derived,
    username: Option<&str>,
) -> Result<(), OutOfMemory>
    ensures { OnOk result (keys.new.items ≡ keys.old.items ++ username_key (option_map (λ name. name.now) username.entry)) }
{
    match username {
        Some(name) => add(alloc, keys, DerivedKey::Username, name),
        None => Ok(()),
    }
}

/// What a requester is, by its user name.
fn type_word(username: Option<&str>) -> &'static str
    ensures { result.now ≡ word_of (option_map (λ name. name.now) username.entry) }
{
    match username {
        Some(_) => "User",
        None => "AssumedRole",
    }
}

/// Adds the keys of a requester.
fn add_requester(
    alloc: Global,
    keys: &mut Derived,
    requester: &Requester,
) -> Result<(), OutOfMemory>
    ensures { OnOk result (keys.new.items ≡ keys.old.items ++ requester_keys requester.now) }
{
    let username = requester.username();
    add(alloc, keys, DerivedKey::PrincipalArn, requester.arn())?;
    add_username(alloc, keys, username)?;
    add(alloc, keys, DerivedKey::PrincipalType, type_word(username))?;
    add(
        alloc,
        keys,
        DerivedKey::PrincipalAccount,
        requester.account(),
    )
}

/// Adds the keys of a moment, which is written so.
fn add_moment(
    alloc: Global,
    keys: &mut Derived,
    moment: u64,
    stamp: &str,
) -> Result<(), OutOfMemory>
    ensures { OnOk result (keys.new.items ≡ keys.old.items ++ moment_keys moment stamp.now) }
{
    let seconds = moment.to_string(alloc)?;
    add(alloc, keys, DerivedKey::CurrentTime, stamp)?;
    add(alloc, keys, DerivedKey::EpochTime, seconds.as_str())
}

/// The keys that follow from a requester, an account of a resource and a moment, which is written so.
pub fn keys_with(
    alloc: Global,
    requester: &Requester,
    account: &str,
    moment: u64,
    stamp: &str,
) -> Result<Derived, OutOfMemory>
    ensures { IfOk result (λ keys. keys.items ≡ derived_of requester.now account.now moment stamp.now) }
{
    let mut keys = Vec::with_capacity(alloc, MOST)?;
    add_requester(alloc, &mut keys, requester)?;
    add(alloc, &mut keys, DerivedKey::ResourceAccount, account)?;
    add_moment(alloc, &mut keys, moment, stamp)?;
    Ok(keys)
}

/// The moment as `aws:CurrentTime` says it.
pub fn stamp_of(alloc: Global, moment: u64) -> Result<String, OutOfMemory>
    requires { moment ≤ 253402300799 }
    ensures { IfOk result (λ text. IsStamp (pos moment) (string_bytes text)) }
{
    stamp(alloc, moment as i64)
}
