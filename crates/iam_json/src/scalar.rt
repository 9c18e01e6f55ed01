// The text of a single value.
ghost use Rattle.std.specs.Prelude.{◌≡◌, option_map, option_and_then, string_bytes, IfOk};
ghost use Rattle.serde_json.specs.Find.{as_number};
ghost use Rattle.serde_json.specs.View.{view};
ghost use Rattle.iam_json.specs.Scalar.{is_scalar, scalar_text, whole_text};

use serde_json::Value;
use std::alloc::{AllocError, Global};

/// Whether it stands for a text: it is a text, a Boolean or a whole number.
pub fn is_scalar(value: &Value) -> bool
    ensures { result ≡ is_scalar (view value.now) }
{
    value.is_string() || value.is_boolean() || value.is_u64() || value.is_i64()
}

/// The decimal text of a whole number; `None` of any other value.
fn whole_text(alloc: Global, value: &Value) -> Result<Option<String>, AllocError>
    ensures { IfOk result (λ o. option_map string_bytes o ≡ option_and_then whole_text (as_number (view value.now))) }
{
    if let Some(number) = value.as_u64() {
        return Ok(Some(number.to_string(alloc)?));
    }
    match value.as_i64() {
        Some(number) => Ok(Some(number.to_string(alloc)?)),
        None => Ok(None),
    }
}

/// The text that it stands for: a text itself, a Boolean `true` or `false`, a whole number its decimal text. `None`
/// of any other value.
pub fn scalar_text(alloc: Global, value: &Value) -> Result<Option<String>, AllocError>
    ensures { IfOk result (λ o. option_map string_bytes o ≡ scalar_text (view value.now)) }
{
    if let Some(text) = value.as_str() {
        return Ok(Some(String::from_str(alloc, text)?));
    }
    if let Some(truth) = value.as_bool() {
        return Ok(Some(truth.to_string(alloc)?));
    }
    whole_text(alloc, value)
}
