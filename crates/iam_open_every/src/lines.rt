// What can be shown of the texts of a line.
ghost use Rattle.std.specs.Prelude.{◌≡◌, ◌<◌, IfOk, length};
ghost use Rattle.iam_every.specs.Code.Rows.{AreWalksOf, IsGiven};
ghost use Rattle.iam_every.specs.Every.{every_of};
ghost use Rattle.iam_layers.specs.Unnamed.{IsThere};
ghost use Rattle.iam_open.specs.declared.scene.Target.TheVariants as target;
ghost use Rattle.iam_open_every.specs.Lines.{AreLineTexts};

use crate::scene::scene_groups;
use crate::texts::all_texts;
use iam_every::Given;
use iam_kinds::Walks;
use iam_layers::Unnamed;
use iam_match::OutOfMemory;
use iam_open::{Scene, Target};
use std::alloc::Global;

/// What can be shown of the texts of a line.
#[derive(Drop)]
pub enum LineTexts {
    /// One text like each of them.
    Shown(Vec<String>),
    /// There are too many kinds of texts.
    TooMany,
    /// A text of the resource element of a statement that may concern it asks for a key that is not known.
    Beyond,
}

/// What can be shown of the texts of ARNs that no resource of the world has, of which line k is the first to speak, whatever the action.
///
/// AWS IAM User Guide, "IAM JSON policy elements: Resource" and "NotResource".
pub fn line_texts(
    alloc: Global,
    walks: &mut Walks,
    given: Given<'_>,
    k: usize,
) -> Result<LineTexts, OutOfMemory>
    requires given { IsGiven given }
    requires line { k < length given.asked.lines.now }
    requires walks { AreWalksOf given.asked.world.now walks.old }
    ensures walks { AreWalksOf given.entry.asked.world.now walks.new }
    ensures texts { IfOk result (AreLineTexts (every_of given.entry.asked) given.entry.p k) }
{
    let scene = scene_of(given, given.asked.lines[k].unnamed, "*");
    let derived = scene.derived(alloc, scene.world.moment())?;
    // The parts of a world's contexts can be joined, so that nothing is refused but memory.
    let Ok(context) = scene.context(alloc, given.none, &derived) else {
        return Err(OutOfMemory);
    };
    let Some(groups) = scene_groups(alloc, scene, &context, given.none)? else {
        return Ok(LineTexts::Beyond);
    };
    match all_texts(alloc, walks, given, k, groups.as_slice())? {
        Some(texts) => Ok(LineTexts::Shown(texts)),
        None => Ok(LineTexts::TooMany),
    }
}

/// The principal, and the resource of this text that the world does not name, of which this is said.
pub fn scene_of<'a>(given: Given<'a>, unnamed: Unnamed<'a>, text: &'a str) -> Scene<'a, 'a>
    requires given { IsGiven given }
    requires there { IsThere given.asked.world.now unnamed }
    ensures world { result.world.now ≡ given.entry.asked.world.now }
    ensures principal { result.p ≡ given.entry.p }
    ensures target { result.target ≡ target.Unnamed unnamed.entry text.entry }
{
    Scene {
        world: given.asked.world,
        p: given.p,
        target: Target::Unnamed(unnamed, text),
        none: given.none,
    }
}
