// What is looked at for a line.
ghost use Rattle.std.specs.Prelude.{◌≡◌, ◌<◌, ◌∷◌, [], ℕ, IfOk, List, None, OnOk, Some, length, map, string_bytes};
ghost use Rattle.std.specs.List.{slice_get};
ghost use Rattle.iam_layers.specs.Unnamed.{IsThere};
ghost use Rattle.iam_every.specs.Every.{LineValue};
ghost use Rattle.iam_every_changes.specs.Code.Given.{AreWalksIn, IsGiven, target_of};
ghost use Rattle.iam_every_changes.specs.Code.Looked.{Adds};
ghost use Rattle.iam_every_changes.specs.Code.Scenes.{AreKindsOf, AreLineScenes, AreScenesOf};
ghost use Rattle.iam_every_changes.specs.Made.{AreJoined, AreOfLine, AreOfTarget, AreOfText};
ghost use Rattle.iam_every_changes.specs.States.{AreBoth, both_of};

use crate::distinct::distinct_groups;
use crate::given::Given;
use crate::looked::{Looked, Verdicts};
use crate::own::Target;
use crate::scene::{Scenes, groups_in, keys_of, scenes_of, verdict_in};
use crate::states::Both;
use iam_every::{is_first_line, text_kinds};
use iam_kinds::{Kinds, Walks};
use iam_match::OutOfMemory;
use std::alloc::Global;

/// Looks at the request for the action on the resource of the target.
pub fn look_at(
    alloc: Global,
    looked: &mut Looked,
    both: Both<'_>,
    scenes: &Scenes<'_>,
    target: Target<'_>,
    action: &str,
) -> Result<(), OutOfMemory>
    requires both { AreBoth (both_of both) }
    requires was { IsThere both.before.asked.world.now target.was }
    requires now { IsThere both.after.asked.world.now target.now }
    requires scenes { AreScenesOf (both_of both) target.was target.now scenes.now }
    ensures { OnOk result (Adds looked.old (AreOfTarget (both_of both.entry) action.now (target_of target.entry)) looked.new) }
{
    let before = verdict_in(
        alloc,
        both.before,
        &scenes.before,
        target.was,
        action,
        target.text,
    )?;
    let after = verdict_in(
        alloc,
        both.after,
        &scenes.after,
        target.now,
        action,
        target.text,
    )?;
    looked.add(alloc, action, target.text, Some(Verdicts { before, after }))
}

/// Looks at one text of each kind of texts of which line k is the first to speak, or tells that they are too many.
pub fn look_at_line(
    alloc: Global,
    looked: &mut Looked,
    walks: &mut Walks,
    given: Given<'_>,
    k: usize,
    action: &str,
) -> Result<(), OutOfMemory>
    requires given { IsGiven given }
    requires line { k < length given.both.after.asked.lines.now }
    requires walks { AreWalksIn (both_of given.both) walks.old }
    ensures walks { AreWalksIn (both_of given.entry.both) walks.new }
    ensures looked { OnOk result (Adds looked.old (AreOfLine (both_of given.entry.both) action.now k) looked.new) }
{
    let both = given.both;
    let was = both.before.asked.lines[k].unnamed;
    let line = both.after.asked.lines[k];
    let keys = keys_of(alloc, both, was, line.unnamed)?;
    let scenes = scenes_of(alloc, both, was, line.unnamed, given.none, &keys)?;
    match line_kinds(alloc, walks, given, k, &scenes, action)? {
        Kinds::Shown(texts) => {
            look_at_texts(alloc, looked, given, k, &scenes, action, texts.as_slice())
        }
        Kinds::NotShown => looked.add(alloc, action, line.text, None),
    }
}

/// One text of each kind of texts that line k speaks of.
fn line_kinds(
    alloc: Global,
    walks: &mut Walks,
    given: Given<'_>,
    k: usize,
    scenes: &Scenes<'_>,
    action: &str,
) -> Result<Kinds, OutOfMemory>
    requires given { IsGiven given }
    requires line { k < length given.both.after.asked.lines.now }
    requires scenes { AreLineScenes given k scenes.now }
    requires walks { AreWalksIn (both_of given.both) walks.old }
    ensures walks { AreWalksIn (both_of given.entry.both) walks.new }
    ensures kinds { IfOk result (AreKindsOf (both_of given.entry.both) action.now k) }
{
    let both = given.both;
    let was = both.before.asked.lines[k].unnamed;
    let line = both.after.asked.lines[k];
    let mut all = groups_in(alloc, both.before, &scenes.before, was, action)?;
    let mut more = groups_in(alloc, both.after, &scenes.after, line.unnamed, action)?;
    all.append(&mut more)?;
    let groups = distinct_groups(alloc, all)?;
    text_kinds(
        alloc,
        walks,
        groups.as_slice(),
        line.pattern.signs(),
        given.arn,
        &given.patterns[..k],
    )
}

/// Looks at those of the texts of which line k is the first to speak, in order.
fn look_at_texts(
    alloc: Global,
    looked: &mut Looked,
    given: Given<'_>,
    k: usize,
    scenes: &Scenes<'_>,
    action: &str,
    texts: &[String],
) -> Result<(), OutOfMemory>
    requires given { IsGiven given }
    requires line { k < length given.both.after.asked.lines.now }
    requires scenes { AreLineScenes given k scenes.now }
    ensures { OnOk result ((was now : LineValue) → slice_get (both_of given.entry.both).before.every.lines k ≡ Some was
        → slice_get (both_of given.entry.both).after.every.lines k ≡ Some now
        → Adds looked.old (AreJoined (AreOfText (both_of given.entry.both) action.now k was now) (map string_bytes texts.now)) looked.new) }
{
    for text in texts {
        look_at_text(alloc, looked, given, k, scenes, action, text.as_str())?;
    }
    Ok(())
}

/// Looks at the text, if line k is the first to speak of it.
fn look_at_text(
    alloc: Global,
    looked: &mut Looked,
    given: Given<'_>,
    k: usize,
    scenes: &Scenes<'_>,
    action: &str,
    text: &str,
) -> Result<(), OutOfMemory>
    requires given { IsGiven given }
    requires line { k < length given.both.after.asked.lines.now }
    requires scenes { AreLineScenes given k scenes.now }
    ensures { OnOk result ((was now : LineValue) → slice_get (both_of given.entry.both).before.every.lines k ≡ Some was
        → slice_get (both_of given.entry.both).after.every.lines k ≡ Some now
        → Adds looked.old (AreOfText (both_of given.entry.both) action.now k was now text.now) looked.new) }
{
    let both = given.both;
    if !is_first_line(both.after.asked.lines, text, k) {
        return Ok(());
    }
    let target = Target {
        text,
        was: both.before.asked.lines[k].unnamed,
        now: both.after.asked.lines[k].unnamed,
    };
    look_at(alloc, looked, both, scenes, target, action)
}
