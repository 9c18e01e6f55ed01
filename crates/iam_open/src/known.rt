// The keys whose values are known.
ghost use Rattle.std.specs.Prelude.{◌≡◌, map};
ghost use Rattle.std.specs.List.{list_any};
ghost use Rattle.iam_context.specs.Code.Entries.{derived_name};
ghost use Rattle.iam_context.specs.Context.{has_key, is_same_key, keys_of};

use iam_context::{DerivedKey, Part};
use std::marker::Model;

/// Keys whose values are known, compared without regard to case: those of four parts, and some of those that are derived. They are lent.
#[derive(Drop)]
pub struct Known<'a> {
    pub world: &'a Part,
    pub principal: &'a Part,
    pub resource: &'a Part,
    /// What is tried for keys that nothing gives.
    pub own: &'a Part,
    pub derived: &'a [DerivedKey],
}

impl<'a> Model for Known<'a> {
    ghost use Rattle.std.specs.Prelude.{List, ℕ};
    ghost use Rattle.iam_open.specs.Code.Known.{keys_in};

    ghost Value = { List (List ℕ) };

    ghost view = { λ known. keys_in known.world.now.items known.principal.now.items known.resource.now.items known.own.now.items known.derived.now };
}

impl Known<'_> {
    /// Whether the key is one of these.
    pub fn has(&self, key: &str) -> bool
        ensures { result ≡ has_key self.now key.now }
    {
        has_key(self.world, key)
            || has_key(self.principal, key)
            || has_key(self.resource, key)
            || has_key(self.own, key)
            || is_one_of(self.derived, key)
    }
}

/// Whether the part has the key.
fn has_key(part: &Part, key: &str) -> bool
    ensures { result ≡ has_key (keys_of part.now.items) key.now }
{
    for (name, _) in part {
        if is_same(name.as_str(), key) {
            return true;
        }
    }
    false
}

/// Whether the key is one of these.
fn is_one_of(derived: &[DerivedKey], key: &str) -> bool
    ensures { result ≡ list_any (λ it. is_same_key it key.now) (map derived_name derived.now) }
{
    for it in derived {
        if is_same(it.name(), key) {
            return true;
        }
    }
    false
}

/// Whether the keys differ in the case of ASCII letters alone.
pub fn is_same(one: &str, other: &str) -> bool
    ensures { result ≡ is_same_key one.now other.now }
{
    one.eq_ignore_ascii_case(other)
}
