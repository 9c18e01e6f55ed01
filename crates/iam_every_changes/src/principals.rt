// The principals of two worlds.
ghost use Rattle.std.specs.Prelude.{◌++◌, ℕ, IfOk, List, OnOk, map};
ghost use Rattle.std.specs.Option.{option_copied};
ghost use Rattle.iam_world.specs.World.{WorldValue};
ghost use Rattle.iam_asked.specs.Code.Found.{ArePlaces, IsPlaceOf};
ghost use Rattle.iam_asked.specs.Texts.{principal_texts};
ghost use Rattle.iam_every_changes.specs.Code.Principals.{AddsAlone, AddsAll};
ghost use Rattle.iam_every_changes.specs.Compared.{ArePrincipals, IsNumberIn, IsWho, who_of};

use crate::compared::Who;
use iam_asked::{Place, principal_places};
use iam_layers::World;
use iam_match::OutOfMemory;
use std::alloc::Global;
use std::collections::HashMap;

/// The number of the principal at this place.
fn number_at(place: Option<&Place>) -> Option<u64>
    ensures { (world : WorldValue) (text : List ℕ) → IsPlaceOf (principal_texts world) text (option_copied place.entry)
        → IsNumberIn world text result }
{
    match place {
        Some(place) => Some(place.first),
        None => None,
    }
}

/// The principal of the text.
fn who<'a>(was: &HashMap<&str, Place>, now: &HashMap<&str, Place>, text: &'a str) -> Who<'a>
    ensures { (before after : WorldValue) → ArePlaces (principal_texts before) was.now → ArePlaces (principal_texts after) now.now
        → IsWho before after text.entry.now (who_of result) }
{
    Who {
        text,
        before: number_at(was.get(text)),
        after: number_at(now.get(text)),
    }
}

/// Adds the principals after.
fn add_all<'a>(
    whos: &mut Vec<Who<'a>>,
    was: &HashMap<&str, Place>,
    now: &HashMap<&str, Place>,
    after: &'a World,
) -> Result<(), OutOfMemory>
    ensures { OnOk result ((before : WorldValue) → ArePlaces (principal_texts before) was.now
        → ArePlaces (principal_texts after.entry.now) now.now → AddsAll before after.entry.now whos.old.items whos.new.items) }
{
    for p in 0..after.principals() {
        whos.push(who(was, now, after.principal_text(p)))?;
    }
    Ok(())
}

/// Adds those that the world before alone has.
fn add_alone<'a>(
    whos: &mut Vec<Who<'a>>,
    was: &HashMap<&str, Place>,
    now: &HashMap<&str, Place>,
    before: &'a World,
) -> Result<(), OutOfMemory>
    ensures { OnOk result ((after : WorldValue) → ArePlaces (principal_texts before.entry.now) was.now
        → ArePlaces (principal_texts after) now.now → AddsAlone before.entry.now after whos.old.items whos.new.items) }
{
    for p in 0..before.principals() {
        let text = before.principal_text(p);
        if now.get(text).is_none() {
            whos.push(who(was, now, text))?;
        }
    }
    Ok(())
}

/// The principals of two worlds, each by its text: those after in their order, then those that the world before alone has.
///
/// AWS IAM User Guide, "IAM JSON policy elements: Principal".
pub fn principals_of<'a>(
    alloc: Global,
    before: &'a World,
    after: &'a World,
) -> Result<Vec<Who<'a>>, OutOfMemory>
    ensures { IfOk result (λ whos. ArePrincipals before.entry.now after.entry.now (map who_of whos.items)) }
{
    let was = principal_places(alloc, before)?;
    let now = principal_places(alloc, after)?;
    let mut whos = Vec::new(alloc);
    add_all(&mut whos, &was, &now, after)?;
    add_alone(&mut whos, &was, &now, before)?;
    Ok(whos)
}
