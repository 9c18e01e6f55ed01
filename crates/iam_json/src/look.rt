// A value as a list, and the members of an object.
ghost use Rattle.std.specs.Prelude.{◌≡◌, map, option_map};
ghost use Rattle.std.specs.List.{list_any};
ghost use Rattle.std.specs.Str.{bytes_eq};
ghost use Rattle.serde_json.specs.View.{members_view, view};
ghost use Rattle.iam_json.specs.Look.{has_other, has_unknown, is_one_of, values};

use serde_json::{Map, Value};

/// The values of a list; `None` of any other value.
pub fn values(of: &Value) -> Option<&[Value]>
    ensures { option_map (λ list. map view list.now) result ≡ values (view of.entry.now) }
{
    match of.as_array() {
        Some(list) => Some(list.as_slice()),
        None => None,
    }
}

fn any_is(names: &[&str], name: &str) -> bool
    ensures { result ≡ list_any (λ known. bytes_eq name.now known.now) names.now }
{
    names.iter().any(|&known| name == known)
}

fn is_one_of(names: &[&str], name: &str) -> bool
    ensures { result ≡ is_one_of (map (λ n. n.now) names.now) name.now }
{
    any_is(names, name)
}

fn has_other(members: &Map<String, Value>, names: &[&str]) -> bool
    ensures { result ≡ has_other (is_one_of (map (λ n. n.now) names.now)) (members_view members.now.entries) }
{
    for (name, _) in members.iter() {
        if !is_one_of(names, name.as_str()) {
            return true;
        }
    }
    false
}

/// Whether it is an object with a member of none of these names.
pub fn has_unknown(of: &Value, names: &[&str]) -> bool
    ensures { result ≡ has_unknown (map (λ n. n.now) names.now) (view of.now) }
{
    match of.as_object() {
        Some(members) => has_other(members, names),
        None => false,
    }
}
