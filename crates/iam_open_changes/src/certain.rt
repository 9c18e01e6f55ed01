// What is certain of a request in each of two worlds.
ghost use Rattle.std.specs.Prelude.{◌≤◌, ℕ, IfOk, IsTrue};
ghost use Rattle.iam_layers.specs.Own.{IsCleanAt};
ghost use Rattle.iam_open.specs.InQuestion.{last_moment};
ghost use Rattle.iam_open.specs.Seat.{IsSeat};
ghost use Rattle.iam_open_changes.specs.Code.Certain.{CannotTurn, IsCertainOf};
ghost use Rattle.iam_open_changes.specs.InBoth.{IsCleanIn};
ghost use Rattle.iam_open_changes.specs.Sides.{OfSide};
ghost use Rattle.iam_world.specs.World.{WorldValue};

use crate::side::Side;
use crate::turn::Turn;
use iam_context::{ContextFault, Part};
use iam_layers::OutOfMemory;
use iam_open::{Certain, Scene, pair_certain, pair_of, scene_certain};
use std::alloc::Global;

/// What is certain of the request in a world, in all contexts in question; never, where the world does not have it.
pub fn certain_in(alloc: Global, side: Side<'_, '_>) -> Result<Certain, OutOfMemory>
    ensures { IfOk result (IsCertainOf side.entry) }
{
    match side {
        Side::Has(request) => scene_certain(alloc, request.scene, request.action),
        Side::Lacks(_) => Ok(Certain::Never),
    }
}

/// `true` only where by what is certain before and after a request does not become so in any of the contexts.
pub fn cannot_turn(turn: Turn, before: Certain, after: Certain) -> bool
    ensures { IsTrue result → CannotTurn turn before after }
{
    match turn {
        Turn::Gained => before == Certain::Always || after == Certain::Never,
        Turn::Lost => before == Certain::Never || after == Certain::Always,
    }
}

/// `true` only where the request may give these keys in the world, or the world does not have it.
pub fn is_clean_in(alloc: Global, side: Side<'_, '_>, own: &Part) -> Result<bool, OutOfMemory>
    ensures { IfOk result (λ clean. IsTrue clean → OfSide side.entry (λ other at. IsCleanIn other at own.now.items)) }
{
    match side {
        Side::Has(request) => may_give(alloc, request.scene, own),
        Side::Lacks(_) => Ok(true),
    }
}

/// `true` only where who asks may give these keys.
fn may_give(alloc: Global, scene: Scene<'_, '_>, own: &Part) -> Result<bool, OutOfMemory>
    ensures { IfOk result (λ may. IsTrue may → (other : WorldValue) (r : ℕ) → IsSeat scene.entry.world.now scene.entry.target other r
        → IsCleanAt other scene.entry.p r own.now.items) }
{
    match scene.check(alloc, own) {
        Ok(()) => Ok(true),
        Err(ContextFault::OutOfMemory) => Err(OutOfMemory),
        Err(_) => Ok(false),
    }
}

/// Whether the world allows the request in the contexts in which these keys have these values at this moment. Nothing is claimed of it.
pub fn certain_where(
    alloc: Global,
    side: Side<'_, '_>,
    own: &Part,
    moment: u64,
) -> Result<Certain, OutOfMemory>
    requires { moment ≤ last_moment }
{
    match side {
        Side::Has(request) => {
            let pair = pair_of(alloc, request.scene, own, Some(moment))?;
            pair_certain(alloc, &pair, request.action)
        }
        Side::Lacks(_) => Ok(Certain::Never),
    }
}
