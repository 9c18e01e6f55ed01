// What is said of a request, whatever values the keys have that nothing gives.
ghost use Rattle.std.specs.Prelude.{◌<◌, ◌∷◌, [], IfOk, IfSome, length, ℕ};
ghost use Rattle.iam_layers.specs.Cell.{IsAction};
ghost use Rattle.iam_open.specs.Code.Pairs.{AreKept};
ghost use Rattle.iam_open.specs.Seat.{IsSeat};
ghost use Rattle.iam_open.specs.Turned.{IsShown, IsTurned};
ghost use Rattle.iam_world.specs.World.{WorldValue};

use crate::certain::Certain;
use crate::example::Example;
use crate::kept::Kept;
use crate::pair::scene_certain;
use crate::scene::Scene;
use crate::seek::example;
use iam_layers::{OutOfMemory, World};
use std::alloc::Global;

/// Whether a request is allowed in the contexts in question.
#[derive(Debug, Drop)]
pub enum Turned {
    /// In each of them.
    Always,
    /// In none of them.
    Never,
    /// In this one.
    Possible(Example),
    /// It is not known.
    Open,
}

/// Whether the request of principal p for action a on resource r, each below the number of its kind, is allowed in the contexts in
/// question: those in which the keys that nothing gives have whatever values, at whatever moment from the world's on. An example is
/// sought where neither is seen.
///
/// AWS IAM User Guide, "AWS global condition context keys" and "Policy evaluation logic".
pub fn turned_of(
    alloc: Global,
    world: &World,
    p: u64,
    a: u64,
    r: u64,
) -> Result<Turned, OutOfMemory>
    requires principal { p < length world.now.principals }
    requires action { a < length world.now.actions }
    requires resource { r < length world.now.resources }
    ensures { IfOk result (IsTurned (world.now ∷ []) world.now p a r) }
{
    let none = Vec::new(alloc);
    let scene = Scene::named(world, p, r, &none);
    scene_turned(alloc, scene, world.action_text(a))
}

/// The same of a request for an action and for what may be no resource of the world.
///
/// AWS IAM User Guide, "AWS global condition context keys" and "Policy evaluation logic".
pub fn scene_turned(
    alloc: Global,
    scene: Scene<'_, '_>,
    action: &str,
) -> Result<Turned, OutOfMemory>
    ensures { IfOk result (λ turned. (other : WorldValue) (a r : ℕ) → IsSeat scene.entry.world.now scene.entry.target other r
        → IsAction other a action.now → IsTurned (other ∷ []) other scene.entry.p a r turned) }
{
    match scene_certain(alloc, scene, action)? {
        Certain::Always => Ok(Turned::Always),
        Certain::Never => Ok(Turned::Never),
        Certain::Open => Ok(shown_by(example(alloc, scene, action)?)),
    }
}

/// The same, with pairs that are kept.
pub fn kept_turned<'a>(
    alloc: Global,
    kept: &mut Kept<'a>,
    world: &'a World,
    p: u64,
    a: u64,
    r: u64,
) -> Result<Turned, OutOfMemory>
    requires principal { p < length world.now.principals }
    requires action { a < length world.now.actions }
    requires resource { r < length world.now.resources }
    requires kept { AreKept world.now kept.old }
    ensures turned { IfOk result (IsTurned (world.entry.now ∷ []) world.entry.now p a r) }
    ensures kept { AreKept world.entry.now kept.new }
{
    match kept.certainly(alloc, world, p, a, r)? {
        Certain::Always => Ok(Turned::Always),
        Certain::Never => Ok(Turned::Never),
        Certain::Open => Ok(shown_by(kept.example(alloc, world, p, a, r)?)),
    }
}

/// What an example shows, if there is one.
fn shown_by(found: Option<Example>) -> Turned
    ensures { (world : WorldValue) (p a r : ℕ) → IfSome found (IsShown (world ∷ []) world p a r) → IsTurned (world ∷ []) world p a r result }
{
    match found {
        Some(shown) => Turned::Possible(shown),
        None => Turned::Open,
    }
}
