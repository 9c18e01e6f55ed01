// The lent parts of a context: four without taking memory, three of them by the places of their keys, or any number.
ghost use Rattle.std.specs.Prelude.{◌≡◌, [], ◌∷◌, option_map};
ghost use Rattle.iam_context.specs.Context.{all_of};
ghost use Rattle.iam_context.specs.Code.Values.{first_values};

use crate::find::{find_in_part, find_in_parts};
use crate::part::{Derived, Part};
use crate::sought::Lent;
use iam_text::Text;

/// As many parts as the context of a request has. A variant of an enum cannot hold the array itself.
#[derive(Clone, Copy)]
pub struct Four<'a> {
    pub parts: [&'a Part; 4],
}

/// Three given parts in which keys are sought by their places, and the derived keys.
#[derive(Drop)]
pub struct Three<'a> {
    pub first: Lent<'a>,
    pub second: Lent<'a>,
    pub third: Lent<'a>,
    pub derived: &'a Derived,
}

/// Parts of a context, the derived keys last.
#[derive(Drop)]
pub enum Parts<'a> {
    Four(Four<'a>),
    Three(Three<'a>),
    Any(Vec<&'a Part>),
}

impl<'a> Parts<'a> {
    ghost use Rattle.iam_context.specs.Code.Parts.{parts_of};

    /// The values of the first entry with the key.
    pub fn find(&self, key: &str) -> Option<&'a [Text]>
        ensures { option_map (λ values. values.now) result ≡ first_values (all_of (parts_of self.now)) key.now }
    {
        match self {
            Parts::Four(four) => find_in_parts(&four.parts, key),
            Parts::Three(three) => three.find(key),
            Parts::Any(parts) => find_in_parts(parts.as_slice(), key),
        }
    }
}

impl<'a> Three<'a> {
    /// The values of the first entry with the key.
    fn find(&self, key: &str) -> Option<&'a [Text]>
        ensures { option_map (λ values. values.now) result ≡ first_values
            (all_of (self.now.first ∷ (self.now.second ∷ (self.now.third ∷ (self.now.derived.now.items ∷ []))))) key.now }
    {
        if let Some(values) = self.first.find(key) {
            return Some(values);
        }
        if let Some(values) = self.second.find(key) {
            return Some(values);
        }
        if let Some(values) = self.third.find(key) {
            return Some(values);
        }
        find_in_part(self.derived, key)
    }
}
