// The members of an account.
ghost use Rattle.std.specs.Prelude.{◌≡◌, MatchOption, false, is_some};
ghost use Rattle.serde_json.specs.Data.{Members, member, no_members};
ghost use Rattle.serde_json.specs.Find.{as_object};
ghost use Rattle.serde_json.specs.View.{members_view, view};
ghost use Rattle.iam_shape.specs.Code.Members.{AreFound, AreMembers};

use serde_json::{Map, Value};

/// What was found of the members of an account, and whether it has others.
#[derive(Clone, Copy)]
pub struct Found<'v> {
    pub id: Option<&'v Value>,
    pub management: Option<&'v Value>,
    pub org: Option<&'v Value>,
    pub has_other: bool,
}

/// What was found, and one member more.
#[inline(always)]
fn keep<'v>(found: Found<'v>, name: &str, value: &'v Value) -> Found<'v>
    ensures { (all rest : Members) → AreFound all (member name.now (view value.entry.now) rest) found.entry
        → AreFound all rest result }
{
    match name {
        "id" => Found {
            id: found.id.or(Some(value)),
            ..found
        },
        "management" => Found {
            management: found.management.or(Some(value)),
            ..found
        },
        "org" => Found {
            org: found.org.or(Some(value)),
            ..found
        },
        _ => Found {
            has_other: true,
            ..found
        },
    }
}

/// What was found of the members of an account among these.
fn among(members: &Map<String, Value>) -> Found<'_>
    ensures { AreFound (members_view members.entry.now.entries) no_members result }
{
    let mut found = Found {
        id: None,
        management: None,
        org: None,
        has_other: false,
    };
    for (name, value) in members.iter() {
        found = keep(found, name.as_str(), value);
    }
    found
}

/// The members of an account, found in one walk over them; `None` of a value that is no object.
pub fn members_of(account: &Value) -> Option<Found<'_>>
    ensures { MatchOption result (is_some (as_object (view account.entry.now)) ≡ false)
        (λ found. AreMembers (view account.entry.now) found) }
{
    match account.as_object() {
        Some(members) => Some(among(members)),
        None => None,
    }
}
