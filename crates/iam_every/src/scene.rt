// What the requests of a principal share for resources of which the same is said.
ghost use Rattle.std.specs.Prelude.{◌≡◌, ℕ, IfOk, List, map};
ghost use Rattle.iam_match.specs.Request.{access_of};
ghost use Rattle.iam_decision.specs.Code.Scan.{placed_value};
ghost use Rattle.iam_decision.specs.Living.{Lives};
ghost use Rattle.iam_world.specs.World.{WorldValue};
ghost use Rattle.iam_layers.specs.Unnamed.{IsUnnamedVerdict};
ghost use Rattle.iam_layers.specs.declared.unnamed.Unnamed.{Unnamed};
ghost use Rattle.iam_every.specs.Code.Picked.{ActsOn, TellEach};
ghost use Rattle.iam_every.specs.Code.Told.{IsScene, access_at, eligible_in};

use crate::eligible::{found, lives};
use iam_decision::{Frame, Standing, Verdict, early_verdict};
use iam_match::{Access, OutOfMemory};
use std::alloc::Global;

/// Who asks, in which context, for one of these resources; what a decision asks beside the statements; and those of them that concern
/// requests for some action, whatever the resource.
#[derive(Clone, Copy)]
pub struct Scene<'s, 'e, 'a, 'c> {
    pub access: Access<'s, 'c>,
    pub frame: Frame,
    pub eligible: &'e [Standing<'a>],
}

/// Of each of the statements whether it matches requests for the resource of this text once its action element does.
pub fn lives_on<'a: 'c, 'c>(
    alloc: Global,
    scene: Scene<'_, '_, 'a, 'c>,
    text: &str,
) -> Result<Vec<bool>, OutOfMemory>
    ensures { IfOk result (λ lives. TellEach (Lives (access_at (access_of scene.entry.access) text.now)) (eligible_in scene.entry) lives.items) }
{
    let access = Access {
        requester: scene.access.requester,
        resource: text,
        context: scene.access.context,
    };
    lives(alloc, scene.eligible, access)
}

/// The verdict on requests for actions that these of the statements match, for a resource on which those live.
pub fn verdict_by(
    alloc: Global,
    scene: Scene<'_, '_, '_, '_>,
    acts: &[bool],
    lives: &[bool],
) -> Result<Verdict, OutOfMemory>
    ensures { IfOk result (λ verdict. (world : WorldValue) (p : ℕ) (unnamed : Unnamed) (action text : List ℕ)
        → IsScene world p unnamed scene.entry → TellEach (ActsOn action) (eligible_in scene.entry) acts.now
        → TellEach (Lives (access_at (access_of scene.entry.access) text)) (eligible_in scene.entry) lives.now
        → IsUnnamedVerdict world p unnamed action text verdict) }
{
    let found = found(alloc, scene.eligible, acts, lives, scene.access.requester)?;
    early_verdict(alloc, scene.frame, found.as_slice())
}
