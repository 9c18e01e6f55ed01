// The members of an object, each of its kind.
ghost use Rattle.std.specs.Prelude.{◌≡◌, map, option_and_then, option_map, unwrap_or, MatchOption, true, false};
ghost use Rattle.std.specs.Option.{option_map_or};
ghost use Rattle.serde_json.specs.Find.{as_bool, as_str};
ghost use Rattle.serde_json.specs.View.{view};
ghost use Rattle.iam_shape.specs.Code.Members.{data_of};
ghost use Rattle.iam_shape.specs.Shape.{is_absent_or, is_bool, is_list, list_at, member, number_at, text_at};
ghost use Rattle.iam_shape.specs.View.{HasListOrNone, is_true_at};

use crate::path::Name;
use iam_json::values;
use serde_json::Value;

/// The member of this name.
pub fn member(of: &Value, name: Name) -> Option<&Value>
    ensures { option_map (λ v. view v.now) result ≡ member name (view of.entry.now) }
{
    of.get(name.as_str())
}

/// The text that a member is.
pub fn text_of(member: Option<&Value>) -> Option<&str>
    ensures { option_map (λ text. text.now) result ≡ option_and_then as_str (data_of member.entry) }
{
    member?.as_str()
}

/// The text that stands under this name.
pub fn text_at(of: &Value, name: Name) -> Option<&str>
    ensures { option_map (λ text. text.now) result ≡ text_at name (view of.entry.now) }
{
    text_of(member(of, name))
}

/// The whole number, not negative, that stands under this name.
pub fn number_at(of: &Value, name: Name) -> Option<u64>
    ensures { result ≡ number_at name (view of.now) }
{
    member(of, name)?.as_u64()
}

/// The values of the list that stands under this name.
pub fn list_at(of: &Value, name: Name) -> Option<&[Value]>
    ensures { option_map (λ list. map view list.now) result ≡ list_at name (view of.entry.now) }
{
    values(member(of, name)?)
}

/// The values of the list that stands under this name, or none where nothing does; `None` for another value.
pub fn list_or_none(of: &Value, name: Name) -> Option<&[Value]>
    ensures { MatchOption result (is_absent_or is_list name (view of.entry.now) ≡ false)
        (λ list. (is_absent_or is_list name (view of.entry.now) ≡ true)
        × HasListOrNone name (view of.entry.now) (map view list.now)) }
{
    match member(of, name) {
        Some(value) => values(value),
        None => Some(&[]),
    }
}

/// Whether a member is `true`, `false` where there is none; `None` for another value.
pub fn truth_of(member: Option<&Value>) -> Option<bool>
    ensures { MatchOption result (option_map_or is_bool (data_of member.entry) true ≡ false)
        (λ truth. (option_map_or is_bool (data_of member.entry) true ≡ true)
        × (truth ≡ unwrap_or (option_and_then as_bool (data_of member.entry)) false)) }
{
    match member {
        Some(value) => value.as_bool(),
        None => Some(false),
    }
}

/// Whether `true` stands under this name, `false` where nothing does; `None` for another value.
pub fn truth_at(of: &Value, name: Name) -> Option<bool>
    ensures { MatchOption result (is_absent_or is_bool name (view of.now) ≡ false)
        (λ truth. (is_absent_or is_bool name (view of.now) ≡ true) × (truth ≡ is_true_at name (view of.now))) }
{
    truth_of(member(of, name))
}
