// What is told where the access of a principal is compared in two states.
ghost use Rattle.std.specs.Prelude.{◌≡◌, IfOk, OnOk, length, map, string_bytes};
ghost use Rattle.std.specs.List.{range_with_len};
ghost use Rattle.iam_every.specs.Every.{line_of, written_in};
ghost use Rattle.iam_every_changes.specs.Changes.{changed_of};
ghost use Rattle.iam_every_changes.specs.Code.Given.{AreWalksIn, IsGiven, target_of};
ghost use Rattle.iam_every_changes.specs.Code.Looked.{Adds};
ghost use Rattle.iam_every_changes.specs.Made.{AreEveryChanges, AreJoined, AreOfAction, AreOfLine, AreOfTarget, AreTargets, unshown_row};
ghost use Rattle.iam_every_changes.specs.States.{AreBoth, both_of};

use crate::actions::asked_actions;
use crate::given::Given;
use crate::lines::{look_at, look_at_line};
use crate::looked::Looked;
use crate::own::{Target, targets};
use crate::scene::{keys_of, scenes_of};
use crate::states::Both;
use iam_every::{Line, Which, line_patterns, names_of, own_groups_tell_apart};
use iam_glob::Glob;
use iam_kinds::Walks;
use iam_layers::{one_decision_at, one_request};
use iam_match::OutOfMemory;
use std::alloc::Global;

/// Where kinds of texts are sought, beside the resources of both worlds.
pub fn walks_of(alloc: Global, both: Both<'_>) -> Result<Walks, OutOfMemory>
    ensures { IfOk result (AreWalksIn (both_of both.entry)) }
{
    let mut names = names_of(alloc, both.after.asked.world)?;
    let mut more = names_of(alloc, both.before.asked.world)?;
    names.append(&mut more)?;
    let walks = Walks::new(alloc, names.as_slice())?;
    Ok(walks)
}

/// Where the access of the principal differs, action by action: each request that is looked at and that one of the states alone allows,
/// and each line, or all, of which there are too many kinds to look at. Requests that no row tells have the same access.
///
/// AWS IAM User Guide, "Policy evaluation logic".
pub fn changes_of(alloc: Global, walks: &mut Walks, both: Both<'_>) -> Result<Looked, OutOfMemory>
    requires both { AreBoth (both_of both) }
    requires walks { AreWalksIn (both_of both) walks.old }
    ensures walks { AreWalksIn (both_of both.entry) walks.new }
    ensures changes { IfOk result (λ looked. AreEveryChanges (both_of both.entry) (map changed_of looked.rows.items) looked.some) }
{
    one_request();
    one_decision_at();
    own_groups_tell_apart();
    let mut looked = Looked::nothing(alloc);
    let targets = targets(alloc, both)?;
    let Some(actions) = asked_actions(alloc, both)? else {
        let asked = both.after.asked;
        tell_lines(alloc, &mut looked, asked.lines, action_text(asked.actions))?;
        return Ok(looked);
    };
    let arn = Glob::read(alloc, "arn:*:*:*:*:*")?;
    let none = Vec::new(alloc);
    let patterns = line_patterns(alloc, both.after.asked.lines)?;
    let given = Given {
        both,
        arn: arn.signs(),
        none: &none,
        patterns: patterns.as_slice(),
        targets: targets.as_slice(),
    };
    look_at_all(alloc, &mut looked, walks, given, actions.as_slice())?;
    Ok(looked)
}

/// Which actions are in question, as it is written.
fn action_text(actions: Which<'_>) -> &str
    ensures { result.now ≡ written_in actions.entry }
{
    match actions {
        Which::OfWorld => "*",
        Which::Matching(_, text) => text,
    }
}

/// Tells of each line that the actions that are written so are too many.
fn tell_lines(
    alloc: Global,
    looked: &mut Looked,
    lines: &[Line<'_>],
    actions: &str,
) -> Result<(), OutOfMemory>
    ensures { OnOk result (Adds looked.old (λ rows. rows ≡ map (unshown_row actions.now) (map line_of lines.now)) looked.new) }
{
    for line in lines {
        looked.add(alloc, actions, line.text, None)?;
    }
    Ok(())
}

/// Looks at the requests for each of the actions.
fn look_at_all(
    alloc: Global,
    looked: &mut Looked,
    walks: &mut Walks,
    given: Given<'_>,
    actions: &[String],
) -> Result<(), OutOfMemory>
    requires given { IsGiven given }
    requires walks { AreWalksIn (both_of given.both) walks.old }
    ensures walks { AreWalksIn (both_of given.entry.both) walks.new }
    ensures looked { OnOk result (Adds looked.old
        (AreJoined (AreOfAction (both_of given.entry.both) (map target_of given.entry.targets.now)) (map string_bytes actions.now)) looked.new) }
{
    for action in actions {
        look_at_action(alloc, looked, walks, given, action.as_str())?;
    }
    Ok(())
}

/// Looks at the requests for the action: on the texts that are looked at one by one, and on those of each line.
fn look_at_action(
    alloc: Global,
    looked: &mut Looked,
    walks: &mut Walks,
    given: Given<'_>,
    action: &str,
) -> Result<(), OutOfMemory>
    requires given { IsGiven given }
    requires walks { AreWalksIn (both_of given.both) walks.old }
    ensures walks { AreWalksIn (both_of given.entry.both) walks.new }
    ensures looked { OnOk result (Adds looked.old
        (AreOfAction (both_of given.entry.both) (map target_of given.entry.targets.now) action.now) looked.new) }
{
    look_at_targets(alloc, looked, given, given.targets, action)?;
    look_at_lines(alloc, looked, walks, given, action)
}

/// Looks at the texts that are looked at one by one.
fn look_at_targets(
    alloc: Global,
    looked: &mut Looked,
    given: Given<'_>,
    targets: &[Target<'_>],
    action: &str,
) -> Result<(), OutOfMemory>
    requires given { IsGiven given }
    requires targets { AreTargets (both_of given.both) (map target_of targets.now) }
    ensures { OnOk result (Adds looked.old (AreJoined (AreOfTarget (both_of given.entry.both) action.now) (map target_of targets.now))
        looked.new) }
{
    for &target in targets {
        let keys = keys_of(alloc, given.both, target.was, target.now)?;
        let scenes = scenes_of(alloc, given.both, target.was, target.now, given.none, &keys)?;
        look_at(alloc, looked, given.both, &scenes, target, action)?;
    }
    Ok(())
}

/// Looks at the texts of each line.
fn look_at_lines(
    alloc: Global,
    looked: &mut Looked,
    walks: &mut Walks,
    given: Given<'_>,
    action: &str,
) -> Result<(), OutOfMemory>
    requires given { IsGiven given }
    requires walks { AreWalksIn (both_of given.both) walks.old }
    ensures walks { AreWalksIn (both_of given.entry.both) walks.new }
    ensures looked { OnOk result (Adds looked.old
        (AreJoined (AreOfLine (both_of given.entry.both) action.now) (range_with_len 0 (length given.entry.both.after.asked.lines.now))) looked.new) }
{
    for k in 0..given.both.after.asked.lines.len() {
        look_at_line(alloc, looked, walks, given, k, action)?;
    }
    Ok(())
}
