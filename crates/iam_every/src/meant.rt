// Actions of which one is decided like each that is in question.
ghost use Rattle.std.specs.Prelude.{◌≡◌, ◌⊎◌, ◌++◌, ◌<◌, [], All, IfOk, IsTrue, MatchOption, OnOk, Some, false, length, map, string_bytes};
ghost use Rattle.iam_decision.specs.Applicable.{IsNumbered, value_of};
ghost use Rattle.iam_layers.specs.Unnamed.{IsThere};
ghost use Rattle.iam_layers.specs.declared.unnamed.Unnamed.TheVariants.{Like};
ghost use Rattle.iam_every.specs.Code.Meant.{CoverAll};
ghost use Rattle.iam_every.specs.Every.{ActionsPass, AreActions, AreSaid, AreThere, every_of, pattern_in};
ghost use Rattle.iam_every.specs.Made.{AreAsked};
ghost use Rattle.iam_every.specs.OwnActions.{AreOwnPolicies, IsPlain};

use crate::actions::{action_groups, action_kinds};
use crate::asked::{Asked, Line, Which};
use crate::given::matched_resources;
use iam_decision::Applicable;
use iam_glob::Glob;
use iam_kinds::Kinds;
use iam_layers::{Unnamed, World};
use iam_match::OutOfMemory;
use std::alloc::Global;

/// Actions of which one is decided like each that is in question, whatever the resource, where principal p asks, which has to be below
/// `principals()`: those of the world, or one of each kind that the pattern matches; `None` where there are too many kinds.
///
/// AWS IAM User Guide, "IAM JSON policy elements: Action" and "NotAction".
pub fn meant_actions(
    alloc: Global,
    asked: Asked<'_>,
    p: u64,
) -> Result<Option<Vec<String>>, OutOfMemory>
    requires principal { p < length asked.world.now.principals }
    requires there { AreThere (every_of asked) }
    ensures alike { IfOk result (λ found. MatchOption found (ActionsPass (every_of asked.entry) p)
        (λ actions. AreActions (every_of asked.entry) p (map string_bytes actions.items))) }
    ensures asked { IfOk result (λ found. MatchOption found (ActionsPass (every_of asked.entry) p)
        (λ actions. AreAsked (every_of asked.entry) p (map string_bytes actions.items))) }
{
    match asked.actions {
        Which::OfWorld => Ok(Some(world_actions(alloc, asked.world)?)),
        Which::Matching(pattern, _) => kinds_of(alloc, asked, p, pattern),
    }
}

/// The actions of the world.
fn world_actions(alloc: Global, world: &World) -> Result<Vec<String>, OutOfMemory>
    ensures { IfOk result (λ actions. map string_bytes actions.items ≡ world.now.actions) }
{
    let mut actions = Vec::new(alloc);
    for a in 0..world.actions() {
        actions.push(String::from_str(alloc, world.action_text(a))?)?;
    }
    Ok(actions)
}

/// One action of each kind that the pattern matches, which has to be that of what is asked; `None` where there are too many kinds.
fn kinds_of(
    alloc: Global,
    asked: Asked<'_>,
    p: u64,
    pattern: &Glob,
) -> Result<Option<Vec<String>>, OutOfMemory>
    requires principal { p < length asked.world.now.principals }
    requires there { AreThere (every_of asked) }
    requires pattern { pattern_in asked.actions ≡ Some pattern.now }
    ensures alike { IfOk result (λ found. MatchOption found (ActionsPass (every_of asked.entry) p)
        (λ actions. AreActions (every_of asked.entry) p (map string_bytes actions.items))) }
    ensures asked { IfOk result (λ found. MatchOption found (ActionsPass (every_of asked.entry) p)
        (λ actions. AreAsked (every_of asked.entry) p (map string_bytes actions.items))) }
{
    let said = all_said(alloc, asked)?;
    let policies = policies_of(alloc, asked.world, p, said.as_slice())?;
    let groups = action_groups(alloc, policies.as_slice())?;
    match action_kinds(alloc, groups.as_slice(), pattern.signs())? {
        Kinds::Shown(actions) => Ok(Some(actions)),
        Kinds::NotShown => Ok(None),
    }
}

/// What the lines say, and what is said of the resources of the world that some line matches, in order.
pub fn all_said<'a>(alloc: Global, asked: Asked<'a>) -> Result<Vec<Unnamed<'a>>, OutOfMemory>
    ensures { IfOk result (λ said. AreSaid (every_of asked.entry) said.items) }
{
    let matched = matched_resources(alloc, asked.world, asked.lines)?;
    let mut said = of_lines(alloc, asked.lines)?;
    add_resources(&mut said, matched.as_slice())?;
    Ok(said)
}

/// What each line says.
fn of_lines<'a>(alloc: Global, lines: &[Line<'a>]) -> Result<Vec<Unnamed<'a>>, OutOfMemory>
    ensures { IfOk result (λ said. said.items ≡ map (λ line. line.unnamed) lines.now) }
{
    lines.iter().map(|line| line.unnamed).collect(alloc)
}

/// Adds what is said of these resources of the world.
fn add_resources(said: &mut Vec<Unnamed<'_>>, resources: &[u64]) -> Result<(), OutOfMemory>
    ensures { OnOk result (said.new.items ≡ said.old.items ++ map (λ r. Like r) resources.now) }
{
    for &r in resources {
        said.push(Unnamed::Like(r))?;
    }
    Ok(())
}

/// Policies that tell apart all actions that those do which apply where principal p asks for a resource of which some of this is said:
/// those of the first, and of each further one with which policies stand; p has to be below `principals()`.
pub fn policies_of<'a>(
    alloc: Global,
    world: &'a World,
    p: u64,
    said: &[Unnamed<'_>],
) -> Result<Vec<Applicable<'a>>, OutOfMemory>
    requires principal { p < length world.now.principals }
    requires there { All (IsThere world.now) said.now }
    ensures numbered { IfOk result (λ policies. All IsNumbered (map value_of policies.items)) }
    ensures own { IfOk result (λ policies. AreOwnPolicies world.entry.now p said.now (map value_of policies.items)) }
    ensures cover { IfOk result (λ policies. CoverAll world.entry.now p said.now (map value_of policies.items)) }
{
    let mut policies = Vec::new(alloc);
    for &unnamed in said {
        let applicable = world.unnamed_applicable(p, unnamed);
        if is_needed(policies.as_slice(), &applicable) {
            policies.push(applicable)?;
        }
    }
    Ok(policies)
}

/// Whether none are there or policies stand with the resource: the statements of the organisation and of the principal stand in each.
fn is_needed(policies: &[Applicable<'_>], applicable: &Applicable<'_>) -> bool
    ensures needed { IsTrue result → (policies.now ≡ []) ⊎ ¬ IsPlain (value_of applicable.now) }
    ensures needless { result ≡ false → (0 < length policies.now) × IsPlain (value_of applicable.now) }
{
    policies.is_empty() || !applicable.control.is_empty() || applicable.resource.is_some()
}
