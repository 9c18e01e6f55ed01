// The groups of patterns by which the statements that concern a request read the text of a resource.
ghost use Rattle.std.specs.Prelude.{◌≡◌, ◌↔◌, ◌++◌, ℕ, Contains, IfOk, IfSome, IsTrue, List, None, OnOk, false, map, true};
ghost use Rattle.iam_match.specs.Request.{access_of};
ghost use Rattle.iam_decision.specs.declared.place.Place.{Place};
ghost use Rattle.iam_decision.specs.Applicable.{ApplicableValue, IsNumbered, value_of};
ghost use Rattle.iam_decision.specs.Matched.{Selects, placed};
ghost use Rattle.iam_every.specs.Alike.{Concerns};
ghost use Rattle.iam_decision.specs.Code.Scan.{placed_value};
ghost use Rattle.iam_every.specs.Groups.{AreGroups, groups_of, side_of, signs_of};
ghost use Rattle.iam_every.specs.OwnGroups.{AreNegatedGroups, AreOwnGroups, AreSideGroups, HasElement, IsSideGroup, patterns_in};

use crate::concerned::concerned;
use crate::pattern::{Pattern, add_patterns};
use iam_decision::{Applicable, Layer, Standing};
use iam_match::{Access, Context, Grant, OutOfMemory, Requester, Statement, grant_kind};
use iam_policy::Effect;
use std::alloc::Global;

/// On which side of a decision a statement counts.
#[derive(Clone, Copy, Debug, PartialEq, Eq)]
pub enum Side {
    /// Among the denies.
    Denies,
    /// Among the allows of a level of a layer.
    Allows(Layer, u32),
    /// Among the allows of the resource's policy that grant this.
    Grants(Grant),
}

/// The groups of patterns by which the statements that concern requests for the action read the text of a resource: of those that
/// count on one side of a decision the patterns of all elements `Resource`; of each element `NotResource` its own. Texts on which all
/// groups agree are decided alike.
///
/// AWS IAM User Guide, "IAM JSON policy elements: Resource" and "NotResource".
pub fn text_groups<'a: 'c, 'c>(
    alloc: Global,
    applicable: &Applicable<'a>,
    access: Access<'_, 'c>,
    action: &str,
) -> Result<Vec<Vec<Pattern<'c>>>, OutOfMemory>
    requires { IsNumbered (value_of applicable.now) }
    ensures own { IfOk result (λ groups.
        AreOwnGroups (value_of applicable.now) (access_of access.entry) action.now (groups_of groups.items)) }
    ensures groups { IfOk result (λ groups.
        AreGroups (value_of applicable.now) (access_of access.entry) action.now (groups_of groups.items)) }
{
    let statements = concerned(alloc, applicable, access, action)?;
    groups_among(alloc, statements.as_slice(), access)
}

/// The groups where these are the statements that concern the requests.
pub fn groups_among<'a: 'c, 'c>(
    alloc: Global,
    statements: &[Standing<'a>],
    access: Access<'_, 'c>,
) -> Result<Vec<Vec<Pattern<'c>>>, OutOfMemory>
    ensures { IfOk result (λ groups. (a : ApplicableValue) (action : List ℕ)
        → Selects (Concerns (access_of access.entry) action) (placed a) (map placed_value statements.now)
        → AreOwnGroups a (access_of access.entry) action (groups_of groups.items)) }
{
    let mut groups = side_groups(alloc, statements, access)?;
    let mut negated = negated_groups(alloc, statements, access.context)?;
    groups.append(&mut negated)?;
    Ok(groups)
}

/// Of each side on which one of the statements has an element `Resource`, the patterns of all these elements.
fn side_groups<'a: 'c, 'c>(
    alloc: Global,
    statements: &[Standing<'a>],
    access: Access<'_, 'c>,
) -> Result<Vec<Vec<Pattern<'c>>>, OutOfMemory>
    ensures { IfOk result (λ groups.
        AreSideGroups (access_of access.entry) (map placed_value statements.now) (groups_of groups.items)) }
{
    let mut sides = Vec::new(alloc);
    let mut groups = Vec::new(alloc);
    for &standing in statements {
        if let Some(side) = new_side(sides.as_slice(), standing, access.requester) {
            sides.push(side)?;
            groups.push(side_group(alloc, statements, side, access)?)?;
        }
    }
    Ok(groups)
}

/// The side of a statement with an element `Resource`, if it is none of these.
fn new_side(sides: &[Side], standing: Standing<'_>, requester: &Requester) -> Option<Side>
    ensures none { result ≡ None → HasElement false (placed_value standing.entry)
        → Contains sides.now (side_of requester.now (placed_value standing.entry)) }
    ensures some { IfSome result (λ side. (side ≡ side_of requester.now (placed_value standing.entry))
        × HasElement false (placed_value standing.entry) × ¬ Contains sides.now side) }
{
    if !has_element(standing.statement, false) {
        return None;
    }
    let side = side_of(standing, requester);
    if is_among(sides, side) {
        None
    } else {
        Some(side)
    }
}

/// Whether the side is one of these.
fn is_among(sides: &[Side], side: Side) -> bool
    ensures { IsTrue result ↔ Contains sides.now side }
{
    sides.contains(&side)
}

/// The patterns of the elements `Resource` of those of the statements that are on the side.
fn side_group<'a: 'c, 'c>(
    alloc: Global,
    statements: &[Standing<'a>],
    side: Side,
    access: Access<'_, 'c>,
) -> Result<Vec<Pattern<'c>>, OutOfMemory>
    ensures { IfOk result (λ group.
        IsSideGroup (access_of access.entry) (map placed_value statements.now) side (map signs_of group.items)) }
{
    let mut group = Vec::with_capacity(alloc, statements.len())?;
    for &standing in statements {
        if is_on(standing, side, access.requester) {
            add_texts(alloc, &mut group, standing.statement, access.context)?;
        }
    }
    Ok(group)
}

/// Of each element `NotResource` of the statements its patterns.
fn negated_groups<'a: 'c, 'c>(
    alloc: Global,
    statements: &[Standing<'a>],
    context: &Context<'c>,
) -> Result<Vec<Vec<Pattern<'c>>>, OutOfMemory>
    ensures { IfOk result (λ groups. AreNegatedGroups context.now (map placed_value statements.now) (groups_of groups.items)) }
{
    let mut groups = Vec::new(alloc);
    for &standing in statements {
        if has_element(standing.statement, true) {
            let mut group = Vec::new(alloc);
            add_texts(alloc, &mut group, standing.statement, context)?;
            groups.push(group)?;
        }
    }
    Ok(groups)
}

/// Whether the statement has an element `Resource` and counts on the side.
fn is_on(standing: Standing<'_>, side: Side, requester: &Requester) -> bool
    ensures { IsTrue result
        ↔ (HasElement false (placed_value standing.entry) × (side_of requester.now (placed_value standing.entry) ≡ side)) }
{
    has_element(standing.statement, false) && counts_on(standing, side, requester)
}

/// Whether the statement counts on the side.
fn counts_on(standing: Standing<'_>, side: Side, requester: &Requester) -> bool
    ensures { IsTrue result ↔ side_of requester.now (placed_value standing.entry) ≡ side }
{
    side_of(standing, requester) == side
}

/// The side on which the statement counts.
fn side_of(standing: Standing<'_>, requester: &Requester) -> Side
    ensures { result ≡ side_of requester.now (placed_value standing.entry) }
{
    let place = standing.place;
    match (standing.statement.effect(), place.layer) {
        (Effect::Deny, _) => Side::Denies,
        (Effect::Allow, Layer::Resource) => {
            Side::Grants(grant_kind(standing.statement, requester))
        }
        (Effect::Allow, layer) => Side::Allows(layer, place.level),
    }
}

/// Whether the statement has an element `Resource`, or where `negated` says so `NotResource`.
fn has_element(statement: &Statement, negated: bool) -> bool
    ensures { (place : Place) → IsTrue result ↔ HasElement negated (record { place = place; statement = statement.now }) }
{
    match statement.resource() {
        Some(element) => element.is_negated() == negated,
        None => false,
    }
}

/// Adds the patterns of the element of the statement.
fn add_texts<'c>(
    alloc: Global,
    patterns: &mut Vec<Pattern<'c>>,
    statement: &'c Statement,
    context: &Context<'c>,
) -> Result<(), OutOfMemory>
    ensures { OnOk result (map signs_of patterns.new.items
        ≡ map signs_of patterns.old.items ++ patterns_in context.now statement.now.resource) }
{
    match statement.resource() {
        Some(element) => add_patterns(alloc, patterns, element.texts(), context),
        None => Ok(()),
    }
}
