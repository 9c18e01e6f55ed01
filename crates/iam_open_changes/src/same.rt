// Whether the statements by which two worlds decide a request exclude that it is gained, or lost.
ghost use Rattle.std.specs.Prelude.{◌≡◌, ◌≤◌, All, Any, IfOk, IsTrue, Some, map, option_map};
ghost use Rattle.iam_decision.specs.Code.Scan.{placed_value};
ghost use Rattle.iam_match.specs.Principal.{rank};
ghost use Rattle.iam_match.specs.Requester.{requester_arn, requester_name};
ghost use Rattle.iam_open_changes.specs.Code.Implied.{Implies};
ghost use Rattle.iam_open_changes.specs.Code.Same.{AllowNoMore, AreOfOneKind, Excludes, HaveSameDerived, HaveSameFrame, HaveSameKnown, HaveSameTexts, HaveSameWho, IsReached, ReachOthers, StandAlike};
ghost use Rattle.iam_open_changes.specs.Same.{AskSame};
ghost use Rattle.iam_open_changes.specs.Sides.{OfRequests, OfSides};

use crate::implied::implies;
use crate::kept::{Kept, kept_at};
use crate::laws::no_more_is_not_turned;
use crate::side::{Request, Side, Sides};
use iam_condition::Entry;
use iam_context::{KeyName, Requester, Text, Values};
use iam_decision::{Effect, Frame, Standing};
use iam_layers::OutOfMemory;
use iam_match::Grant;
use iam_policy::Statement;
use std::alloc::Global;

/// What does not come about in any of the contexts in question.
#[derive(Clone, Copy, Debug, PartialEq, Eq)]
pub struct Excluded {
    /// That the request is gained.
    pub gains: bool,
    /// That it is lost.
    pub losses: bool,
}

/// What is excluded since wherever an allow of the one world matches, one of the other does too, and wherever a deny of the other does, one
/// of the first.
pub fn exclusions(alloc: Global, sides: Sides<'_, '_>) -> Result<Excluded, OutOfMemory>
    ensures { IfOk result (λ excluded. OfSides sides.entry (λ one other was now. Excludes one other was now excluded)) }
{
    match (sides.before, sides.after) {
        (Side::Has(before), Side::Has(after)) => excluded_of(alloc, before, after),
        _ => Ok(Excluded {
            gains: false,
            losses: false,
        }),
    }
}

/// The same, of a request that both worlds have.
fn excluded_of(
    alloc: Global,
    before: Request<'_, '_>,
    after: Request<'_, '_>,
) -> Result<Excluded, OutOfMemory>
    ensures { IfOk result (λ excluded. OfRequests before.entry after.entry (λ one other was now. Excludes one other (Some was) (Some now) excluded)) }
{
    no_more_is_not_turned();
    let same = ask_same(alloc, before, after)?;
    if !same {
        return Ok(Excluded {
            gains: false,
            losses: false,
        });
    }
    let one = kept_at(alloc, before)?;
    let other = kept_at(alloc, after)?;
    let gains = allow_no_more(alloc, other.as_slice(), one.as_slice())?;
    let losses = allow_no_more(alloc, one.as_slice(), other.as_slice())?;
    Ok(Excluded { gains, losses })
}

/// `true` only where the first of these statements allow no more than the second ones.
fn allow_no_more(alloc: Global, ones: &[Kept<'_>], others: &[Kept<'_>]) -> Result<bool, OutOfMemory>
    ensures { IfOk result (λ yes. IsTrue yes → AllowNoMore ones.now others.now) }
{
    if !reach_others(alloc, Effect::Allow, ones, others)? {
        return Ok(false);
    }
    reach_others(alloc, Effect::Deny, others, ones)
}

/// `true` only where each of the first statements that has this effect reaches one of the second ones.
fn reach_others(
    alloc: Global,
    effect: Effect,
    ones: &[Kept<'_>],
    others: &[Kept<'_>],
) -> Result<bool, OutOfMemory>
    ensures { IfOk result (λ yes. IsTrue yes → ReachOthers effect ones.now others.now) }
{
    for one in ones {
        if !reaches_if(alloc, effect, one, others)? {
            return Ok(false);
        }
    }
    Ok(true)
}

/// `true` only where the statement has another effect or reaches one of these.
fn reaches_if(
    alloc: Global,
    effect: Effect,
    one: &Kept<'_>,
    others: &[Kept<'_>],
) -> Result<bool, OutOfMemory>
    ensures { IfOk result (λ yes. IsTrue yes → one.now.standing.statement.effect ≡ effect → Any (IsReached one.now) others.now) }
{
    if one.standing.statement.effect() != effect {
        return Ok(true);
    }
    reaches_one(alloc, one, others)
}

/// `true` only where the statement reaches one of these.
fn reaches_one(alloc: Global, one: &Kept<'_>, others: &[Kept<'_>]) -> Result<bool, OutOfMemory>
    ensures { IfOk result (λ yes. IsTrue yes → Any (IsReached one.now) others.now) }
{
    for other in others {
        if is_reached(alloc, one, other)? {
            return Ok(true);
        }
    }
    Ok(false)
}

/// `true` only where the second statement says as much as the first one, wherever that matches.
fn is_reached(alloc: Global, one: &Kept<'_>, other: &Kept<'_>) -> Result<bool, OutOfMemory>
    ensures { IfOk result (λ yes. IsTrue yes → IsReached one.now other.now) }
{
    if !stand_alike(one, other) {
        return Ok(false);
    }
    if !grants_as_much(one, other) {
        return Ok(false);
    }
    if !keeps_resource(one, other) {
        return Ok(false);
    }
    keeps_entries(alloc, one, other)
}

/// Whether both statements have the same effect, and stand at the same level of the same layer.
fn stand_alike(one: &Kept<'_>, other: &Kept<'_>) -> bool
    ensures { IsTrue result → StandAlike one.now.standing other.now.standing }
{
    let (one, other) = (one.standing, other.standing);
    one.statement.effect() == other.statement.effect()
        && one.place.layer == other.place.layer
        && one.place.level == other.place.level
}

/// Whether the second statement grants no less than the first one.
fn grants_as_much(one: &Kept<'_>, other: &Kept<'_>) -> bool
    ensures { IsTrue result → rank one.now.grant ≤ rank other.now.grant }
{
    one.grant <= other.grant
}

/// `true` only where the resource element of the second statement matches wherever that of the first one does.
fn keeps_resource(one: &Kept<'_>, other: &Kept<'_>) -> bool
    ensures { IsTrue result → IsTrue other.now.resource → one.now.standing.statement.resource ≡ other.now.standing.statement.resource }
{
    !other.is_resource_open || have_same_resource(one.standing.statement, other.standing.statement)
}

/// `true` only where the open entries of the second statement hold wherever the entries of the first one do.
fn keeps_entries(alloc: Global, one: &Kept<'_>, other: &Kept<'_>) -> Result<bool, OutOfMemory>
    ensures { IfOk result (λ yes. IsTrue yes
        → All (λ entry. Any (λ it. Implies it entry) one.now.standing.statement.conditions) other.now.entries) }
{
    are_implied(
        alloc,
        one.standing.statement.conditions(),
        other.entries.as_slice(),
    )
}

/// `true` only where both have the same resource element, or neither has one.
fn have_same_resource(one: &Statement, other: &Statement) -> bool
    ensures { IsTrue result → one.now.resource ≡ other.now.resource }
{
    match (one.resource(), other.resource()) {
        (None, None) => true,
        (Some(one), Some(other)) => one.equals(other),
        _ => false,
    }
}

/// `true` only where each of these holds wherever all of the first entries do.
fn are_implied(alloc: Global, entries: &[Entry], others: &[&Entry]) -> Result<bool, OutOfMemory>
    ensures { IfOk result (λ yes. IsTrue yes
        → All (λ entry. Any (λ it. Implies it entry) entries.now) (map (λ entry. entry.now) others.now)) }
{
    for other in others {
        if !is_implied(alloc, entries, other)? {
            return Ok(false);
        }
    }
    Ok(true)
}

/// `true` only where one of the entries implies this one.
fn is_implied(alloc: Global, entries: &[Entry], other: &Entry) -> Result<bool, OutOfMemory>
    ensures { IfOk result (λ yes. IsTrue yes → Any (λ it. Implies it other.now) entries.now) }
{
    for entry in entries {
        if implies(alloc, entry, other)? {
            return Ok(true);
        }
    }
    Ok(false)
}

/// `true` only where the same is asked in both worlds.
fn ask_same(
    alloc: Global,
    before: Request<'_, '_>,
    after: Request<'_, '_>,
) -> Result<bool, OutOfMemory>
    ensures { IfOk result (λ same. IsTrue same → OfRequests before.entry after.entry AskSame) }
{
    if !has_same_who(before, after) {
        return Ok(false);
    }
    if !has_same_texts(before, after) {
        return Ok(false);
    }
    if !has_same_known(before, after) {
        return Ok(false);
    }
    if !has_same_frame(before, after) {
        return Ok(false);
    }
    has_same_derived(alloc, before, after)
}

/// `true` only where the same requester asks.
fn has_same_who(before: Request<'_, '_>, after: Request<'_, '_>) -> bool
    ensures { IsTrue result → OfRequests before.entry after.entry HaveSameWho }
{
    is_same_requester(before.scene.requester(), after.scene.requester())
}

/// `true` only where both are the same requester.
fn is_same_requester(one: &Requester, other: &Requester) -> bool
    ensures { IsTrue result → one.now ≡ other.now }
{
    if !have_same_names(one, other) {
        return false;
    }
    are_of_one_kind(one.username(), other.username())
}

/// Whether both have the same partition, account, ARN and name.
fn have_same_names(one: &Requester, other: &Requester) -> bool
    ensures { IsTrue result → (one.now.partition ≡ other.now.partition) × (one.now.account ≡ other.now.account)
        × (requester_arn one.now ≡ requester_arn other.now) × (requester_name one.now ≡ requester_name other.now) }
{
    one.partition() == other.partition()
        && one.account() == other.account()
        && one.arn() == other.arn()
        && one.name() == other.name()
}

/// Whether both are users, or neither is, by the names of users.
fn are_of_one_kind(one: Option<&str>, other: Option<&str>) -> bool
    ensures { IsTrue result → AreOfOneKind (option_map (λ name. name.now) one.entry) (option_map (λ name. name.now) other.entry) }
{
    match (one, other) {
        (None, None) | (Some(_), Some(_)) => true,
        _ => false,
    }
}

/// `true` only where both ask for an action and a resource of the same texts.
fn has_same_texts(before: Request<'_, '_>, after: Request<'_, '_>) -> bool
    ensures { IsTrue result → OfRequests before.entry after.entry HaveSameTexts }
{
    if before.action != after.action {
        return false;
    }
    before.scene.text() == after.scene.text()
}

/// `true` only where both worlds, principals and resources give the same keys with the same values.
fn has_same_known(before: Request<'_, '_>, after: Request<'_, '_>) -> bool
    ensures { IsTrue result → OfRequests before.entry after.entry HaveSameKnown }
{
    let (one, other) = (before.scene, after.scene);
    if !are_same_entries(
        one.world.world_part().as_slice(),
        other.world.world_part().as_slice(),
    ) {
        return false;
    }
    if !are_same_entries(
        one.world.principal_part(one.p).as_slice(),
        other.world.principal_part(other.p).as_slice(),
    ) {
        return false;
    }
    are_same_entries(one.part().as_slice(), other.part().as_slice())
}

/// `true` only where the decision asks the same beside the statements.
fn has_same_frame(before: Request<'_, '_>, after: Request<'_, '_>) -> bool
    ensures { IsTrue result → OfRequests before.entry after.entry HaveSameFrame }
{
    is_same_frame(before.scene.frame(), after.scene.frame())
}

fn is_same_frame(one: Frame, other: Frame) -> bool
    ensures { IsTrue result → one ≡ other }
{
    one == other
}

/// `true` only where the same keys follow from requester, resource and the moment of the world before.
fn has_same_derived(
    alloc: Global,
    before: Request<'_, '_>,
    after: Request<'_, '_>,
) -> Result<bool, OutOfMemory>
    ensures { IfOk result (λ same. IsTrue same → OfRequests before.entry after.entry HaveSameDerived) }
{
    let moment = before.scene.world.moment();
    let one = before.scene.derived(alloc, moment)?;
    let other = after.scene.derived(alloc, moment)?;
    Ok(are_same_entries(one.as_slice(), other.as_slice()))
}

/// `true` only where both lists have the same keys with the same values, in the same order.
fn are_same_entries(ones: &[(KeyName, Values)], others: &[(KeyName, Values)]) -> bool
    ensures { IsTrue result → ones.now ≡ others.now }
{
    if ones.len() != others.len() {
        return false;
    }
    for i in 0..ones.len() {
        if !is_same_entry(&ones[i], &others[i]) {
            return false;
        }
    }
    true
}

fn is_same_entry(one: &(KeyName, Values), other: &(KeyName, Values)) -> bool
    ensures { IsTrue result → one.now ≡ other.now }
{
    one.0.as_str() == other.0.as_str() && are_same_values(one.1.as_slice(), other.1.as_slice())
}

fn are_same_values(ones: &[Text], others: &[Text]) -> bool
    ensures { IsTrue result → ones.now ≡ others.now }
{
    if ones.len() != others.len() {
        return false;
    }
    for i in 0..ones.len() {
        if !is_same_text(&ones[i], &others[i]) {
            return false;
        }
    }
    true
}

fn is_same_text(one: &Text, other: &Text) -> bool
    ensures { IsTrue result → one.now ≡ other.now }
{
    one.as_str() == other.as_str()
}
