// Contexts in question in which a request is gained or lost.
ghost use Rattle.std.specs.Prelude.{◌≤◌, ◌∷◌, [], IfOk, IfSome, IsTrue};
ghost use Rattle.iam_open.specs.InQuestion.{MayBeGiven, last_moment};
ghost use Rattle.iam_open_changes.specs.InBoth.{IsVerdictIn};
ghost use Rattle.iam_open_changes.specs.Sides.{OfSide, OfSides};
ghost use Rattle.iam_open_changes.specs.Told.{IsShown};

use crate::certain::is_clean_in;
use crate::side::{Side, Sides};
use crate::turn::{Turn, is_turned};
use iam_context::Part;
use iam_layers::{OutOfMemory, Verdict};
use iam_open::{LAST_MOMENT, are_single, scene_verdict};
use std::alloc::Global;

/// A context in question in which a request is gained or lost: the values of keys that nothing gives, the moment, and the verdicts of both
/// worlds, of which one that does not have the request has none.
#[derive(Debug, Drop)]
pub struct Example {
    pub own: Part,
    pub moment: u64,
    pub before: Option<Verdict>,
    pub after: Option<Verdict>,
}

/// The example that these keys and this moment are for this turn: where they are in question, and the request is gained or lost with them.
pub fn example_of(
    alloc: Global,
    sides: Sides<'_, '_>,
    turn: Turn,
    own: Part,
    moment: u64,
) -> Result<Option<Example>, OutOfMemory>
    ensures { IfOk result (λ found. IfSome found (λ shown. OfSides sides.entry (λ one other was now. IsShown turn one other was now shown))) }
{
    if !may_be_given(sides, &own, moment) {
        return Ok(None);
    }
    if !is_clean_in(alloc, sides.before, &own)? {
        return Ok(None);
    }
    if !is_clean_in(alloc, sides.after, &own)? {
        return Ok(None);
    }
    let before = said_in(alloc, sides.before, &own, moment)?;
    let after = said_in(alloc, sides.after, &own, moment)?;
    if !is_turned(turn, &before, &after) {
        return Ok(None);
    }
    Ok(Some(Example {
        own,
        moment,
        before,
        after,
    }))
}

/// The verdict on the request that gives these keys at this moment; none where the world does not have it.
fn said_in(
    alloc: Global,
    side: Side<'_, '_>,
    own: &Part,
    moment: u64,
) -> Result<Option<Verdict>, OutOfMemory>
    requires { moment ≤ last_moment }
    ensures { IfOk result (λ said. OfSide side.entry (λ other at. IsVerdictIn other at own.now.items moment said)) }
{
    match side {
        Side::Has(request) => {
            let verdict = scene_verdict(alloc, request.scene, request.action, own, moment)?;
            Ok(Some(verdict))
        }
        Side::Lacks(_) => Ok(None),
    }
}

/// `true` only where requests may have these keys at this moment where both worlds are asked about.
fn may_be_given(sides: Sides<'_, '_>, own: &Part, moment: u64) -> bool
    ensures given { IsTrue result → OfSides sides.entry (λ one other was now. MayBeGiven (one ∷ (other ∷ [])) own.now.items moment) }
    ensures to { IsTrue result → moment ≤ last_moment }
{
    if moment < sides.before.moment() || moment < sides.after.moment() {
        return false;
    }
    if moment > LAST_MOMENT {
        return false;
    }
    are_single(own)
}
