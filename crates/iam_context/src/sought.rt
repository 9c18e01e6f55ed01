// A part of a context, with the places of its keys where it has many.
ghost use Rattle.std.specs.Prelude.{◌≡◌, IfOk, option_map};
ghost use Rattle.iam_context.specs.Code.Values.{first_values};

use crate::OutOfMemory;
use crate::find::find_in_part;
use crate::part::Part;
use crate::places::{Places, find_by_place, places_of};
use iam_text::Text;
use std::alloc::Global;
use std::marker::Model;

/// A part of a context in which keys are sought: where it has many, by their places. It is made once and lent to the contexts
/// of many requests. Contracts see it as the entries of the part.
#[derive(Drop)]
pub struct Sought<'a> {
    part: &'a Part,
    // Where the keys stand, if they are many.
    places: Option<Places>,
}

impl<'a> Model for Sought<'a> {
    ghost use Rattle.std.specs.Option.{ForSome};
    ghost use Rattle.iam_context.specs.Context.{ContextValue};
    ghost use Rattle.iam_context.specs.Code.Places.{HasPlaces};

    ghost Value = { ContextValue };

    ghost view = { λ sought. sought.part.now.items };

    ghost invariant = { λ sought. ForSome sought.places (λ places. HasPlaces places sought.part.now.items) };
}

impl<'a> Sought<'a> {
    /// The part, with the places of its keys where it has more than a few.
    pub fn of(alloc: Global, part: &'a Part) -> Result<Sought<'a>, OutOfMemory>
        ensures { IfOk result (λ sought. sought ≡ part.entry.now.items) }
    {
        let places = places_of(alloc, part)?;
        Ok(Sought { part, places })
    }

    /// The same, lent.
    pub(crate) fn lend<'c>(&'c self) -> Lent<'c>
        ensures { result ≡ self.entry.now }
    {
        Lent {
            part: self.part,
            places: self.places.as_ref(),
        }
    }
}

/// A part in which keys are sought, lent.
#[derive(Drop)]
pub struct Lent<'a> {
    part: &'a Part,
    places: Option<&'a Places>,
}

impl<'a> Model for Lent<'a> {
    ghost use Rattle.std.specs.Option.{ForSome};
    ghost use Rattle.iam_context.specs.Context.{ContextValue};
    ghost use Rattle.iam_context.specs.Code.Places.{HasPlaces};

    ghost Value = { ContextValue };

    ghost view = { λ lent. lent.part.now.items };

    ghost invariant = { λ lent. ForSome lent.places (λ places. HasPlaces places.now lent.part.now.items) };
}

impl<'a> Lent<'a> {
    /// The values of the first entry with the key.
    pub fn find(&self, key: &str) -> Option<&'a [Text]>
        ensures { option_map (λ values. values.now) result ≡ first_values self.now key.now }
    {
        match self.places {
            Some(places) => find_by_place(places, self.part, key),
            None => find_in_part(self.part, key),
        }
    }
}
