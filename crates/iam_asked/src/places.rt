// Maps from texts to the places where they stand.
ghost use Rattle.std.specs.Prelude.{◌≡◌, ◌∷◌, ◌++◌, [], ℕ, List, IfOk, MatchResult, OnOk, length, map, string_bytes};
ghost use Rattle.std.specs.Option.{option_copied};
ghost use Rattle.iam_asked.specs.Code.Found.{AreOwnedPlaces, ArePlaces, IsOnlyOr, IsPlaceOf, place_behind};
ghost use Rattle.iam_asked.specs.Texts.{IsOnlyAt, folded, principal_texts, resource_texts};

use crate::fault::LineFault;
use iam_layers::World;
use iam_text::OutOfMemory;
use std::alloc::Global;
use std::collections::HashMap;

/// Where a text stands among others.
#[derive(Clone, Copy, Debug)]
pub struct Place {
    /// Its first place.
    pub first: u64,
    /// Whether it has another one.
    pub again: bool,
}

/// The place of a text that stands at n, and maybe before.
fn place_behind(known: Option<&Place>, n: u64) -> Place
    ensures { result ≡ place_behind (option_copied known.entry) n }
{
    match known {
        Some(place) => Place {
            first: place.first,
            again: true,
        },
        None => Place {
            first: n,
            again: false,
        },
    }
}

/// Adds text n behind the others.
fn add<'a>(places: &mut HashMap<&'a str, Place>, text: &'a str, n: u64) -> Result<(), OutOfMemory>
    ensures { OnOk result ((texts : List (List ℕ)) → length texts ≡ n → ArePlaces texts places.old → ArePlaces (texts ++ text.now ∷ []) places.new) }
{
    let place = place_behind(places.get(text), n);
    places.insert(text, place)?;
    Ok(())
}

/// Adds text n behind the others.
fn add_owned(places: &mut HashMap<String, Place>, text: String, n: u64) -> Result<(), OutOfMemory>
    ensures { OnOk result ((texts : List (List ℕ)) → length texts ≡ n → AreOwnedPlaces texts places.old → AreOwnedPlaces (texts ++ string_bytes text ∷ []) places.new) }
{
    let place = place_behind(places.get(text.as_str()), n);
    places.insert(text, place)?;
    Ok(())
}

/// A text without regard to the case of ASCII letters.
pub fn folded(alloc: Global, text: &str) -> Result<String, OutOfMemory>
    ensures { IfOk result (λ it. string_bytes it ≡ folded text.now) }
{
    text.to_ascii_lowercase(alloc)
}

/// The places of the principals of a world.
pub fn principal_places(alloc: Global, world: &World) -> Result<HashMap<&str, Place>, OutOfMemory>
    ensures { IfOk result (ArePlaces (principal_texts world.entry.now)) }
{
    let mut places = HashMap::new(alloc);
    for p in 0..world.principals() {
        add(&mut places, world.principal_text(p), p)?;
    }
    Ok(places)
}

/// The places of the actions of a world.
pub fn action_places(alloc: Global, world: &World) -> Result<HashMap<&str, Place>, OutOfMemory>
    ensures { IfOk result (ArePlaces world.entry.now.actions) }
{
    let mut places = HashMap::new(alloc);
    for a in 0..world.actions() {
        add(&mut places, world.action_text(a), a)?;
    }
    Ok(places)
}

/// The places of the actions of a world, without regard to case.
pub fn folded_places(alloc: Global, world: &World) -> Result<HashMap<String, Place>, OutOfMemory>
    ensures { IfOk result (AreOwnedPlaces (map folded world.now.actions)) }
{
    let mut places = HashMap::new(alloc);
    for a in 0..world.actions() {
        add_owned(&mut places, folded(alloc, world.action_text(a))?, a)?;
    }
    Ok(places)
}

/// The places of the resources of a world.
pub fn resource_places(alloc: Global, world: &World) -> Result<HashMap<&str, Place>, OutOfMemory>
    ensures { IfOk result (ArePlaces (resource_texts world.entry.now)) }
{
    let mut places = HashMap::new(alloc);
    for r in 0..world.resources() {
        add(&mut places, world.resource_text(r), r)?;
    }
    Ok(places)
}

/// The only place of a text, or which of two faults it has: it stands nowhere, or several times.
pub fn only_place(
    place: Option<&Place>,
    none: LineFault,
    several: LineFault,
) -> Result<u64, LineFault>
    ensures { (texts : List (List ℕ)) (text : List ℕ) → IsPlaceOf texts text (option_copied place.entry)
        → MatchResult result (IsOnlyAt texts text) (IsOnlyOr none several texts text) }
{
    match place {
        None => Err(none),
        Some(place) if place.again => Err(several),
        Some(place) => Ok(place.first),
    }
}
