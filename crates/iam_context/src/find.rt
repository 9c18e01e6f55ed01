// Keys sought one by one.
ghost use Rattle.std.specs.Prelude.{◌≡◌, map, option_map};
ghost use Rattle.iam_context.specs.Context.{all_of};
ghost use Rattle.iam_context.specs.Code.Values.{first_values};

use crate::part::{Part, is_same_key};
use iam_text::Text;

/// The values of the first entry of the parts with the key.
pub fn find_in_parts<'a>(parts: &[&'a Part], key: &str) -> Option<&'a [Text]>
    ensures { option_map (λ values. values.now) result
        ≡ first_values (all_of (map (λ part. part.now.items) parts.now)) key.now }
{
    for part in parts {
        if let Some(values) = find_in_part(part, key) {
            return Some(values);
        }
    }
    None
}

/// The values of the first entry of the part with the key.
pub fn find_in_part<'a>(part: &'a Part, key: &str) -> Option<&'a [Text]>
    ensures { option_map (λ values. values.now) result ≡ first_values part.entry.now.items key.now }
{
    for (name, values) in part {
        if is_same_key(name.as_str(), key) {
            return Some(values.as_slice());
        }
    }
    None
}
