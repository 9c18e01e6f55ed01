// The verdict on a request in a context in question.
ghost use Rattle.std.specs.Prelude.{◌<◌, ◌≤◌, ℕ, IfOk, length};
ghost use Rattle.iam_layers.specs.Cell.{IsAction};
ghost use Rattle.iam_layers.specs.Own.{IsCleanAt, IsOwnVerdict};
ghost use Rattle.iam_open.specs.InQuestion.{at_moment, last_moment};
ghost use Rattle.iam_open.specs.Seat.{IsSeat};
ghost use Rattle.iam_world.specs.World.{WorldValue};

use crate::scene::Scene;
use iam_context::Part;
use iam_layers::{OutOfMemory, Verdict, World};
use iam_match::Access;
use std::alloc::Global;

/// The verdict on the request of principal p for action a on resource r, each below the number of its kind, that gives these keys of its
/// own at this moment.
///
/// AWS IAM User Guide, "Policy evaluation logic".
pub fn verdict_in(
    alloc: Global,
    world: &World,
    p: u64,
    a: u64,
    r: u64,
    own: &Part,
    moment: u64,
) -> Result<Verdict, OutOfMemory>
    requires principal { p < length world.now.principals }
    requires action { a < length world.now.actions }
    requires resource { r < length world.now.resources }
    requires clean { IsCleanAt world.now p r own.now.items }
    requires moment { moment ≤ last_moment }
    ensures { IfOk result (IsOwnVerdict (at_moment world.now moment) p a r own.now.items) }
{
    let none = Vec::new(alloc);
    let scene = Scene::named(world, p, r, &none);
    scene_verdict(alloc, scene, world.action_text(a), own, moment)
}

/// The same on a request for an action and for what may be no resource of the world. The keys have to be open there: where they are not,
/// it is as if there were no memory.
///
/// AWS IAM User Guide, "Policy evaluation logic".
pub fn scene_verdict<'s>(
    alloc: Global,
    scene: Scene<'_, 's>,
    action: &str,
    own: &'s Part,
    moment: u64,
) -> Result<Verdict, OutOfMemory>
    requires { moment ≤ last_moment }
    ensures { IfOk result (λ verdict. (other : WorldValue) (a r : ℕ) → IsSeat scene.entry.world.now scene.entry.target other r
        → IsAction other a action.now → IsOwnVerdict (at_moment other moment) scene.entry.p a r own.entry.now.items verdict) }
{
    let derived = scene.derived(alloc, moment)?;
    let Ok(context) = scene.context(alloc, own, &derived) else {
        return Err(OutOfMemory);
    };
    let access = Access {
        requester: scene.requester(),
        resource: scene.text(),
        context: &context,
    };
    let shared = scene.applicable().shared(alloc, access)?;
    shared.verdict(alloc, action)
}
