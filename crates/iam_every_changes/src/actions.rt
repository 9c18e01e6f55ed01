// The actions that are looked at.
ghost use Rattle.std.specs.Prelude.{◌≡◌, ◌++◌, [], All, IfOk, MatchOption, OnOk, Some, map, string_bytes};
ghost use Rattle.iam_decision.specs.Applicable.{IsNumbered, value_of};
ghost use Rattle.iam_every.specs.OwnGroups.{AreFirsts};
ghost use Rattle.iam_every_changes.specs.Changes.{ActionsPassIn, AreStatePolicies};
ghost use Rattle.iam_every_changes.specs.Made.{AreAsked};
ghost use Rattle.iam_every_changes.specs.States.{AreBoth, IsState, both_of, state_of};

use crate::distinct::distinct_texts;
use crate::states::{Both, State};
use iam_decision::Applicable;
use iam_every::{Which, action_groups, action_kinds, all_said, policies_of};
use iam_glob::Glob;
use iam_kinds::Kinds;
use iam_layers::World;
use iam_match::OutOfMemory;
use std::alloc::Global;

/// The actions that are looked at: those of both worlds, or one of each kind that the pattern matches; `None` where there are too many
/// kinds.
///
/// AWS IAM User Guide, "IAM JSON policy elements: Action" and "NotAction".
pub fn asked_actions(alloc: Global, both: Both<'_>) -> Result<Option<Vec<String>>, OutOfMemory>
    requires { AreBoth (both_of both) }
    ensures { IfOk result (λ found. MatchOption found (ActionsPassIn (both_of both.entry))
        (λ actions. AreAsked (both_of both.entry) (map string_bytes actions.items))) }
{
    match both.after.asked.actions {
        Which::OfWorld => {
            let actions = world_actions(alloc, both)?;
            Ok(Some(actions))
        }
        Which::Matching(pattern, _) => kinds_of(alloc, both, pattern),
    }
}

/// Adds the actions of the world.
fn add_actions<'a>(texts: &mut Vec<&'a str>, world: &'a World) -> Result<(), OutOfMemory>
    ensures { OnOk result (map (λ text. text.now) texts.new.items ≡ map (λ text. text.now) texts.old.items ++ world.now.actions) }
{
    for a in 0..world.actions() {
        texts.push(world.action_text(a))?;
    }
    Ok(())
}

/// The actions of both worlds, each once.
fn world_actions(alloc: Global, both: Both<'_>) -> Result<Vec<String>, OutOfMemory>
    ensures { IfOk result (λ actions. AreFirsts [] ((both_of both.entry).after.every.world.actions ++ (both_of both.entry).before.every.world.actions)
        (map string_bytes actions.items)) }
{
    let mut texts = Vec::new(alloc);
    add_actions(&mut texts, both.after.asked.world)?;
    add_actions(&mut texts, both.before.asked.world)?;
    let texts = distinct_texts(alloc, texts.as_slice())?;
    owned(alloc, texts.as_slice())
}

/// The texts, each its own.
fn owned(alloc: Global, texts: &[&str]) -> Result<Vec<String>, OutOfMemory>
    ensures { IfOk result (λ copies. map string_bytes copies.items ≡ map (λ text. text.now) texts.now) }
{
    let mut copies = Vec::with_capacity(alloc, texts.len())?;
    for text in texts {
        copies.push(String::from_str(alloc, text)?)?;
    }
    Ok(copies)
}

/// The policies by which the state tells actions apart for the principal, if there is one.
fn policies_in<'a>(alloc: Global, state: State<'a>) -> Result<Vec<Applicable<'a>>, OutOfMemory>
    requires { IsState (state_of state) }
    ensures numbered { IfOk result (λ policies. All IsNumbered (map value_of policies.items)) }
    ensures own { IfOk result (λ policies. AreStatePolicies (state_of state.entry) (map value_of policies.items)) }
{
    let Some(p) = state.principal else {
        return Ok(Vec::new(alloc));
    };
    let said = all_said(alloc, state.asked)?;
    policies_of(alloc, state.asked.world, p, said.as_slice())
}

/// One action of each kind that the pattern matches, which has to be that of what is asked; `None` where there are too many kinds.
fn kinds_of(
    alloc: Global,
    both: Both<'_>,
    pattern: &Glob,
) -> Result<Option<Vec<String>>, OutOfMemory>
    requires both { AreBoth (both_of both) }
    requires pattern { (both_of both).after.every.actions ≡ Some pattern.now }
    ensures { IfOk result (λ found. MatchOption found (ActionsPassIn (both_of both.entry))
        (λ actions. AreAsked (both_of both.entry) (map string_bytes actions.items))) }
{
    let mut policies = policies_in(alloc, both.before)?;
    let mut more = policies_in(alloc, both.after)?;
    policies.append(&mut more)?;
    let groups = action_groups(alloc, policies.as_slice())?;
    match action_kinds(alloc, groups.as_slice(), pattern.signs())? {
        Kinds::Shown(actions) => Ok(Some(actions)),
        Kinds::NotShown => Ok(None),
    }
}
