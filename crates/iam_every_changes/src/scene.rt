// What requests of a principal share for resources of which the same is said.
ghost use Rattle.std.specs.Prelude.{◌≡◌, [], IfOk, option_map};
ghost use Rattle.iam_layers.specs.Unnamed.{IsThere};
ghost use Rattle.iam_every.specs.Groups.{groups_of};
ghost use Rattle.iam_every_changes.specs.Changes.{Answers};
ghost use Rattle.iam_every_changes.specs.Code.Scenes.{AreGroupsIn, AreKeysIn, AreKeysOf, AreScenesOf, IsSceneIn};
ghost use Rattle.iam_every_changes.specs.States.{AreBoth, IsState, both_of, state_of};

use crate::states::{Both, State};
use iam_context::{Context, Part};
use iam_decision::{Applicable, Verdict};
use iam_every::{Pattern, text_groups, verdict_on};
use iam_layers::{Derived, Unnamed};
use iam_match::OutOfMemory;
use std::alloc::Global;

/// The policies that apply, and the context.
#[derive(Drop)]
pub struct Scene<'c> {
    applicable: Applicable<'c>,
    context: Context<'c>,
}

/// The keys that follow for requests of the principal, if there is one, for a resource of which this is said.
pub fn keys_in(
    alloc: Global,
    state: State<'_>,
    unnamed: Unnamed<'_>,
) -> Result<Option<Derived>, OutOfMemory>
    requires state { IsState (state_of state) }
    requires there { IsThere state.asked.world.now unnamed }
    ensures { IfOk result (λ keys. AreKeysIn (state_of state.entry) unnamed.entry (option_map (λ derived. derived.items) keys)) }
{
    let Some(p) = state.principal else {
        return Ok(None);
    };
    let keys = state.asked.world.unnamed_derived(alloc, p, unnamed)?;
    Ok(Some(keys))
}

/// What requests of the principal share, if there is one, with these keys.
pub fn scene_in<'c>(
    alloc: Global,
    state: State<'c>,
    unnamed: Unnamed<'_>,
    none: &'c Part,
    keys: &'c Option<Derived>,
) -> Result<Option<Scene<'c>>, OutOfMemory>
    requires state { IsState (state_of state) }
    requires there { IsThere state.asked.world.now unnamed }
    requires none { none.now.items ≡ [] }
    requires keys { AreKeysIn (state_of state) unnamed (option_map (λ derived. derived.items) keys.now) }
    ensures { IfOk result (IsSceneIn (state_of state.entry) unnamed.entry) }
{
    let (Some(p), Some(keys)) = (state.principal, keys) else {
        return Ok(None);
    };
    let world = state.asked.world;
    let applicable = world.unnamed_applicable(p, unnamed);
    let context = world.unnamed_context(alloc, p, unnamed, none, keys)?;
    Ok(Some(Scene {
        applicable,
        context,
    }))
}

/// The verdict of the state on the principal's request for the action on the resource of the text, if there is one.
pub fn verdict_in(
    alloc: Global,
    state: State<'_>,
    scene: &Option<Scene<'_>>,
    unnamed: Unnamed<'_>,
    action: &str,
    text: &str,
) -> Result<Option<Verdict>, OutOfMemory>
    requires state { IsState (state_of state) }
    requires there { IsThere state.asked.world.now unnamed }
    requires scene { IsSceneIn (state_of state) unnamed scene.now }
    ensures { IfOk result (Answers (state_of state.entry) unnamed.entry action.now text.now) }
{
    let (Some(p), Some(scene)) = (state.principal, scene) else {
        return Ok(None);
    };
    let access = state
        .asked
        .world
        .unnamed_access(p, unnamed, text, &scene.context);
    let verdict = verdict_on(alloc, &scene.applicable, access, action)?;
    Ok(Some(verdict))
}

/// The groups of patterns by which the state tells texts apart on the principal's requests for the action, if there is one.
pub fn groups_in<'c>(
    alloc: Global,
    state: State<'c>,
    scene: &Option<Scene<'c>>,
    unnamed: Unnamed<'_>,
    action: &str,
) -> Result<Vec<Vec<Pattern<'c>>>, OutOfMemory>
    requires state { IsState (state_of state) }
    requires there { IsThere state.asked.world.now unnamed }
    requires scene { IsSceneIn (state_of state) unnamed scene.now }
    ensures { IfOk result (λ groups. AreGroupsIn (state_of state.entry) unnamed.entry action.now (groups_of groups.items)) }
{
    let (Some(p), Some(scene)) = (state.principal, scene) else {
        return Ok(Vec::new(alloc));
    };
    let access = state
        .asked
        .world
        .unnamed_access(p, unnamed, "*", &scene.context);
    text_groups(alloc, &scene.applicable, access, action)
}

/// The derived keys of a request before and after.
#[derive(Drop)]
pub struct Keys {
    pub before: Option<Derived>,
    pub after: Option<Derived>,
}

/// What requests share before and after.
#[derive(Drop)]
pub struct Scenes<'c> {
    pub before: Option<Scene<'c>>,
    pub after: Option<Scene<'c>>,
}

/// The derived keys where this is said of a resource before, and this after.
pub fn keys_of(
    alloc: Global,
    both: Both<'_>,
    was: Unnamed<'_>,
    now: Unnamed<'_>,
) -> Result<Keys, OutOfMemory>
    requires both { AreBoth (both_of both) }
    requires was { IsThere both.before.asked.world.now was }
    requires now { IsThere both.after.asked.world.now now }
    ensures { IfOk result (AreKeysOf (both_of both.entry) was.entry now.entry) }
{
    Ok(Keys {
        before: keys_in(alloc, both.before, was)?,
        after: keys_in(alloc, both.after, now)?,
    })
}

/// What requests share there, with these keys.
pub fn scenes_of<'c>(
    alloc: Global,
    both: Both<'c>,
    was: Unnamed<'_>,
    now: Unnamed<'_>,
    none: &'c Part,
    keys: &'c Keys,
) -> Result<Scenes<'c>, OutOfMemory>
    requires both { AreBoth (both_of both) }
    requires was { IsThere both.before.asked.world.now was }
    requires now { IsThere both.after.asked.world.now now }
    requires none { none.now.items ≡ [] }
    requires keys { AreKeysOf (both_of both) was now keys.now }
    ensures { IfOk result (AreScenesOf (both_of both.entry) was.entry now.entry) }
{
    Ok(Scenes {
        before: scene_in(alloc, both.before, was, none, &keys.before)?,
        after: scene_in(alloc, both.after, now, none, &keys.after)?,
    })
}
