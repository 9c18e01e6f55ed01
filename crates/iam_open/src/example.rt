// Contexts in question in which a request is allowed.
ghost use Rattle.std.specs.Prelude.{◌≡◌, ◌≤◌, ◌∷◌, [], ℕ, All, IfOk, IfSome, IsTrue, length};
ghost use Rattle.std.specs.Str.{IsUtf8};
ghost use Rattle.iam_layers.specs.Cell.{IsAction};
ghost use Rattle.iam_open.specs.InQuestion.{MayBeGiven};
ghost use Rattle.iam_open.specs.Seat.{IsSeat};
ghost use Rattle.iam_open.specs.Turned.{IsShown};
ghost use Rattle.iam_world.specs.World.{WorldValue};

use crate::decide::scene_verdict;
use crate::scene::Scene;
use iam_context::{ContextFault, Part, Values};
use iam_layers::{Decision, OutOfMemory, Verdict, World};
use std::alloc::Global;

/// The last second of the year 9999, the last moment that a world may have.
pub const LAST_MOMENT: u64 = 253_402_300_799;

/// A context in question in which a request is allowed: the values of keys that nothing gives, the moment, and the verdict.
#[derive(Debug, Drop)]
pub struct Example {
    pub own: Part,
    pub moment: u64,
    pub verdict: Verdict,
}

/// The example that these keys and this moment are for the request for this action: where they are in question, and the request is allowed
/// with them.
pub fn example_of(
    alloc: Global,
    scene: Scene<'_, '_>,
    action: &str,
    own: Part,
    moment: u64,
) -> Result<Option<Example>, OutOfMemory>
    ensures { IfOk result (λ found. IfSome found (λ shown. (other : WorldValue) (a r : ℕ)
        → IsSeat scene.entry.world.now scene.entry.target other r → IsAction other a action.now
        → IsShown (other ∷ []) other scene.entry.p a r shown)) }
{
    if !may_be_given(scene.world, &own, moment) {
        return Ok(None);
    }
    match scene.check(alloc, &own) {
        Ok(()) => {}
        Err(ContextFault::OutOfMemory) => return Err(OutOfMemory),
        Err(_) => return Ok(None),
    }
    let verdict = scene_verdict(alloc, scene, action, &own, moment)?;
    if verdict.decision != Decision::Allowed {
        return Ok(None);
    }
    Ok(Some(Example {
        own,
        moment,
        verdict,
    }))
}

/// `true` only where requests may have these keys at this moment where the world, or another one of its moment, is asked about.
fn may_be_given(world: &World, own: &Part, moment: u64) -> bool
    ensures { IsTrue result → (other : WorldValue) → other.moment ≡ world.now.moment → MayBeGiven (other ∷ []) own.now.items moment }
{
    if moment < world.moment() {
        return false;
    }
    if moment > LAST_MOMENT {
        return false;
    }
    are_single(own)
}

/// Whether each key has one value at most. Names and values are texts.
pub fn are_single(own: &Part) -> bool
    ensures { IsTrue result → All (λ entry. IsUtf8 entry.0 × All IsUtf8 entry.1 × (length entry.1 ≤ 1)) own.now.items }
{
    for (name, values) in own {
        let _name = name.as_str();
        if !is_single(values) {
            return false;
        }
    }
    true
}

fn is_single(values: &Values) -> bool
    ensures { IsTrue result → All IsUtf8 values.now × (length values.now ≤ 1) }
{
    match values.as_slice() {
        [] => true,
        [value] => {
            let _value = value.as_str();
            true
        }
        _ => false,
    }
}
