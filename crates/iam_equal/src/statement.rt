// Whether two statements are the same, element by element.
ghost use Rattle.std.specs.Prelude.{◌≡◌, ◌↔◌, IsTrue};
ghost use Rattle.std.specs.Option.{option_copied};
ghost use Rattle.iam_equal.specs.Said.{without_sid};

use crate::conditions::are_same_entries;
use crate::patterns::are_same_actions;
use crate::principals::are_same_principals;
use crate::texts::are_same_resources;
use iam_policy::Statement;

/// Whether both statements are the same, element by element.
pub fn are_equal(one: &Statement, other: &Statement) -> bool
    ensures { IsTrue result ↔ one.now ≡ other.now }
{
    are_same_sids(one.sid(), other.sid()) && say_same(one, other)
}

/// Whether both statements say the same: all their elements but the `Sid` are the same.
pub fn say_same(one: &Statement, other: &Statement) -> bool
    ensures { IsTrue result ↔ without_sid one.now ≡ without_sid other.now }
{
    if one.effect() != other.effect() || !are_same_actions(one.action(), other.action()) {
        return false;
    }
    if !are_same_resources(one.resource(), other.resource()) {
        return false;
    }
    are_same_principals(one.principal(), other.principal())
        && are_same_entries(one.conditions(), other.conditions())
}

/// Whether both ids are the same, or neither stands there.
fn are_same_sids(one: Option<&str>, other: Option<&str>) -> bool
    ensures { IsTrue result ↔ option_copied one.entry ≡ option_copied other.entry }
{
    match (one, other) {
        (None, None) => true,
        (Some(one), Some(other)) => one == other,
        _ => false,
    }
}
