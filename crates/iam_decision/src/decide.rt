// The decision and the lacking layers that follow from the matched statements.
ghost use Rattle.std.specs.Prelude.{◌≡◌, ◌↔◌, IsTrue, IfOk};
ghost use Rattle.iam_match.specs.Statement.{RequestValue};
ghost use Rattle.iam_decision.specs.Applicable.{ApplicableValue, frame_of};
ghost use Rattle.iam_decision.specs.Early.{Suffices, Tells};
ghost use Rattle.iam_decision.specs.Matched.{Selects, placed};
ghost use Rattle.iam_decision.specs.Code.Found.{AllowsIn, ArePlaces, DeniesIn, GrantsIn};
ghost use Rattle.iam_decision.specs.Decision.{AllHold, AreLacking, deciding_effect, BoundaryHolds, Fails, GrantSuffices, IsAllowed, IsDecided, IsDecision, IsVerdict, LevelsHold, MustGrant, SessionHolds};

use crate::frame::Frame;
use crate::living::Matched;
use crate::place::{Layer, Place};
use crate::verdict::{Decision, Verdict};
use iam_match::{Grant, OutOfMemory};
use iam_policy::Effect;
use iam_text::Items;
use std::alloc::Global;

const LAYERS: [Layer; 6] = [
    Layer::Org,
    Layer::Control,
    Layer::Resource,
    Layer::Identity,
    Layer::Boundary,
    Layer::Session,
];

/// Whether a deny was found.
fn denies(found: &[Matched]) -> bool
    ensures { IsTrue result ↔ DeniesIn found.now }
{
    found.iter().any(|matched| matched.effect == Effect::Deny)
}

/// Whether an allow of this level of the layer was found.
pub(crate) fn allows(found: &[Matched], layer: Layer, level: u32) -> bool
    ensures { IsTrue result ↔ AllowsIn found.now layer level }
{
    found.iter().any(|m| m.effect == Effect::Allow
        && m.place.layer == layer
        && m.place.level == level)
}

/// Whether each level of the layer allows.
fn levels_hold(found: &[Matched], layer: Layer, levels: u32) -> bool
    ensures { IsTrue result ↔ LevelsHold (AllowsIn found.now) layer levels }
{
    for level in 0..levels {
        if !allows(found, layer, level) {
            return false;
        }
    }
    true
}

fn boundary_holds(found: &[Matched], frame: Frame) -> bool
    ensures { IsTrue result ↔ BoundaryHolds (AllowsIn found.now) frame }
{
    !frame.boundary || allows(found, Layer::Boundary, 0)
}

fn session_holds(found: &[Matched], frame: Frame) -> bool
    ensures { IsTrue result ↔ SessionHolds (AllowsIn found.now) frame }
{
    !frame.session || allows(found, Layer::Session, 0)
}

/// Whether an allow of the resource's policy grants at least this.
pub(crate) fn grants(found: &[Matched], least: Grant) -> bool
    ensures { IsTrue result ↔ GrantsIn found.now least }
{
    found.iter().any(|m| m.effect == Effect::Allow
        && m.place.layer == Layer::Resource
        && m.grant >= least)
}

fn must_grant(frame: Frame) -> bool
    ensures { IsTrue result ↔ MustGrant frame }
{
    !frame.same_account || frame.sealed
}

/// Whether the check of the layer fails.
fn fails(found: &[Matched], frame: Frame, layer: Layer) -> bool
    ensures { IsTrue result ↔ Fails (AllowsIn found.now) (GrantsIn found.now) frame layer }
{
    match layer {
        Layer::Org => !levels_hold(found, Layer::Org, frame.org),
        Layer::Control => !levels_hold(found, Layer::Control, frame.control),
        Layer::Resource => must_grant(frame) && !grants(found, Grant::Account),
        Layer::Identity => !allows(found, Layer::Identity, 0),
        Layer::Boundary => !boundary_holds(found, frame),
        Layer::Session => !session_holds(found, frame),
    }
}

fn all_hold(found: &[Matched], frame: Frame) -> bool
    ensures { IsTrue result ↔ AllHold (AllowsIn found.now) (GrantsIn found.now) frame }
{
    allows(found, Layer::Identity, 0)
        && boundary_holds(found, frame)
        && session_holds(found, frame)
        && (!must_grant(frame) || grants(found, Grant::Account))
}

fn grant_suffices(found: &[Matched], frame: Frame) -> bool
    ensures { IsTrue result ↔ GrantSuffices (AllowsIn found.now) (GrantsIn found.now) frame }
{
    frame.same_account
        && (grants(found, Grant::Direct)
            || grants(found, Grant::Role)
                && boundary_holds(found, frame)
                && session_holds(found, frame))
}

fn is_allowed(found: &[Matched], frame: Frame) -> bool
    ensures { IsTrue result ↔ IsAllowed (AllowsIn found.now) (GrantsIn found.now) frame }
{
    levels_hold(found, Layer::Org, frame.org)
        && levels_hold(found, Layer::Control, frame.control)
        && (grant_suffices(found, frame) || all_hold(found, frame))
}

/// The decision that follows where these statements match a request that asks this beside them. It takes no memory.
///
/// AWS IAM User Guide, "Policy evaluation logic".
pub fn decision_of(found: &[Matched], frame: Frame) -> Decision
    ensures { IsDecided (DeniesIn found.now) (AllowsIn found.now) (GrantsIn found.now) frame result }
{
    if denies(found) {
        Decision::ExplicitDeny
    } else if is_allowed(found, frame) {
        Decision::Allowed
    } else {
        Decision::ImplicitDeny
    }
}

/// The verdict on a request, where these are all statements of the applicable policies that match it and deny and, unless one of
/// them does, all that match it and allow.
///
/// AWS IAM User Guide, "Policy evaluation logic"; the deciding statements and the lacks are our choices.
pub fn early_verdict(alloc: Global, frame: Frame, found: &[Matched]) -> Result<Verdict, OutOfMemory>
    ensures { (a : ApplicableValue) (q : RequestValue) → frame ≡ frame_of a → Suffices q (placed a) found.now
        → IfOk result (IsVerdict a q) }
{
    let decision = decision_of(found, frame);
    let statements = places_of(alloc, found, deciding_effect(decision))?;
    let lacks = lacking(alloc, decision, found, frame)?;
    Ok(Verdict {
        decision,
        statements: Items::from_vec(statements),
        lacks: Items::from_vec(lacks),
    })
}

/// The decision on a request that no statement of the applicable policies denies, where these allow and grant whatever those do
/// that match it.
///
/// AWS IAM User Guide, "Policy evaluation logic".
pub fn early_decision(frame: Frame, found: &[Matched]) -> Decision
    ensures { (a : ApplicableValue) (q : RequestValue) → frame ≡ frame_of a → Tells q (placed a) found.now
        → IsDecision a q result }
{
    if is_allowed(found, frame) {
        Decision::Allowed
    } else {
        Decision::ImplicitDeny
    }
}

/// What an implicit deny lacks; the other decisions lack nothing.
fn lacking(
    alloc: Global,
    decision: Decision,
    found: &[Matched],
    frame: Frame,
) -> Result<Vec<Layer>, OutOfMemory>
    ensures { IfOk result (λ lacks. AreLacking (AllowsIn found.now) (GrantsIn found.now) frame decision lacks.items) }
{
    match decision {
        Decision::ImplicitDeny => failing(alloc, found, frame, LAYERS.as_slice()),
        Decision::Allowed => Ok(Vec::new(alloc)),
        Decision::ExplicitDeny => Ok(Vec::new(alloc)),
    }
}

/// The effect of the statements that decide.
fn deciding_effect(decision: Decision) -> Effect
    ensures { result ≡ deciding_effect decision }
{
    match decision {
        Decision::ExplicitDeny => Effect::Deny,
        Decision::Allowed | Decision::ImplicitDeny => Effect::Allow,
    }
}

/// Those of the layers whose checks fail.
fn failing(
    alloc: Global,
    found: &[Matched],
    frame: Frame,
    layers: &[Layer],
) -> Result<Vec<Layer>, OutOfMemory>
    ensures { IfOk result (λ failing. Selects (Fails (AllowsIn found.now) (GrantsIn found.now) frame) layers.now
        failing.items) }
{
    let mut failing = Vec::new(alloc);
    for &layer in layers {
        if fails(found, frame, layer) {
            failing.push(layer)?;
        }
    }
    Ok(failing)
}

fn has_effect(matched: Matched, effect: Effect) -> bool
    ensures { IsTrue result ↔ (matched.effect ≡ effect) }
{
    matched.effect == effect
}

/// The places of those with the effect, in order.
fn places_of(alloc: Global, found: &[Matched], effect: Effect) -> Result<Vec<Place>, OutOfMemory>
    ensures { IfOk result (λ places. ArePlaces effect found.now places.items) }
{
    let mut places = Vec::new(alloc);
    for &matched in found {
        if has_effect(matched, effect) {
            places.push(matched.place)?;
        }
    }
    Ok(places)
}
