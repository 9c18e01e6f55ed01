// Whether a value has the shape of a context.
ghost use Rattle.std.specs.Prelude.{◌≡◌, map, option_map, true};
ghost use Rattle.std.specs.List.{list_all};
ghost use Rattle.std.specs.Option.{option_map_or};
ghost use Rattle.serde_json.specs.View.{members_view, view};
ghost use Rattle.iam_json.specs.Scalar.{all_members, is_scalar};
ghost use Rattle.iam_shape.specs.Code.Walk.{is_context_value};
ghost use Rattle.iam_shape.specs.Shape.{is_context};

use iam_json::{is_scalar, values};
use serde_json::{Map, Value};

fn all_scalars(list: &[Value]) -> bool
    ensures { result ≡ list_all is_scalar (map view list.now) }
{
    for value in list {
        if !is_scalar(value) {
            return false;
        }
    }
    true
}

/// Whether it is a text, a Boolean or a whole number, or a list of these.
fn is_context_value(value: &Value) -> bool
    ensures { result ≡ is_context_value (view value.now) }
{
    is_scalar(value) || values(value).is_some_and(|list| all_scalars(list))
}

fn all_context_values(members: &Map<String, Value>) -> bool
    ensures { result ≡ all_members is_context_value (members_view members.now.entries) }
{
    for (_, value) in members.iter() {
        if !is_context_value(value) {
            return false;
        }
    }
    true
}

/// Whether it is an object of such values: the keys of a context.
pub fn is_context(value: &Value) -> bool
    ensures { result ≡ is_context (view value.now) }
{
    match value.as_object() {
        Some(members) => all_context_values(members),
        None => false,
    }
}

/// Whether it is such an object, or nothing.
pub fn is_context_or_none(value: Option<&Value>) -> bool
    ensures { result ≡ option_map_or is_context (option_map (λ v. view v.now) value.entry) true }
{
    match value {
        Some(value) => is_context(value),
        None => true,
    }
}
