// Where the keys of a part stand.
ghost use Rattle.std.specs.Prelude.{◌≡◌, ◌∷◌, ◌++◌, [], length, IfOk, IfSome, OnOk, option_map};
ghost use Rattle.iam_context.specs.Context.{ContextValue};
ghost use Rattle.iam_context.specs.Code.Places.{Entry, HasPlaces, key_print};
ghost use Rattle.iam_context.specs.Code.Values.{first_values};

use crate::OutOfMemory;
use crate::find::find_in_part;
use crate::part::{Part, is_same_key};
use iam_text::Text;
use std::alloc::Global;
use std::collections::BTreeMap;

/// The place of the first key that has a print, by the prints of keys.
pub type Places = BTreeMap<u64, usize>;

/// How many keys of a part are sought one by one.
const MOST_SOUGHT: usize = 16;

/// A prime by which the prints of most keys differ.
const FACTOR: u64 = 1_099_511_628_211;

/// A number that tells most keys apart. Keys that differ in the case of ASCII letters alone have the same.
fn key_print(key: &[u8]) -> u64
    ensures { result ≡ key_print key.now }
{
    let mut print = 0u64;
    for byte in key {
        print = print
            .wrapping_mul(FACTOR)
            .wrapping_add(u64::from(byte.to_ascii_lowercase()));
    }
    print
}

/// The places of the keys of the part, where it has many keys.
pub fn places_of(alloc: Global, part: &Part) -> Result<Option<Places>, OutOfMemory>
    ensures { IfOk result (λ found. IfSome found (λ places. HasPlaces places part.now.items)) }
{
    if part.len() <= MOST_SOUGHT {
        return Ok(None);
    }
    Ok(Some(fill(alloc, part)?))
}

/// The places of the keys of the part.
fn fill(alloc: Global, part: &Part) -> Result<Places, OutOfMemory>
    ensures { IfOk result (λ places. HasPlaces places part.now.items) }
{
    let mut places = BTreeMap::new(alloc);
    for (i, entry) in part.iter().enumerate() {
        let (key, _) = entry;
        put(&mut places, key_print(key.as_str().as_bytes()), i)?;
    }
    Ok(places)
}

/// Puts the place of a print, unless the print has one.
fn put(places: &mut Places, print: u64, place: usize) -> Result<(), OutOfMemory>
    ensures { OnOk result ((before : ContextValue) (entry : Entry) → HasPlaces places.old before → place ≡ length before
        → print ≡ key_print entry.0 → HasPlaces places.new (before ++ entry ∷ [])) }
{
    if places.contains_key(&print) {
        return Ok(());
    }
    places.insert(print, place)?;
    Ok(())
}

/// The values of the first entry of the part with the key, by the places of its keys.
pub fn find_by_place<'a>(places: &Places, part: &'a Part, key: &str) -> Option<&'a [Text]>
    requires { HasPlaces places.now part.now.items }
    ensures { option_map (λ values. values.now) result ≡ first_values part.entry.now.items key.now }
{
    let place = *places.get(&key_print(key.as_bytes()))?;
    let (name, values) = &part[place];
    if is_same_key(name.as_str(), key) {
        Some(values.as_slice())
    } else {
        find_in_part(part, key)
    }
}
