// What is said of one request, whatever values the keys have that nothing gives.
ghost use Rattle.std.specs.Prelude.{ℕ, IfOk, false};
ghost use Rattle.iam_layers.specs.Cell.{IsAction, IsVerdictAt};
ghost use Rattle.iam_open.specs.Report.{IsSaid};
ghost use Rattle.iam_open.specs.Seat.{IsSeat};
ghost use Rattle.iam_open_every.specs.Said.{AreSaid};
ghost use Rattle.iam_world.specs.World.{WorldValue};

use iam_decision::{Decision, Verdict};
use iam_layers::no_keys_change_nothing;
use iam_match::OutOfMemory;
use iam_open::{Hangs, Scene, Turned, scene_hangs, scene_turned, scene_verdict};
use iam_row::bare;
use std::alloc::Global;

/// What is said of a request, a verdict on it, and what it hangs on.
#[derive(Drop)]
pub struct Said {
    pub turned: Turned,
    /// That of the example; where there is none, that on the request as the world has it. In brief it says nothing.
    pub verdict: Verdict,
    /// In brief there are none.
    pub hangs: Hangs,
}

/// What is said of the request for this action in the scene.
///
/// AWS IAM User Guide, "AWS global condition context keys" and "Policy evaluation logic".
pub fn said_on(
    alloc: Global,
    scene: Scene<'_, '_>,
    action: &str,
    brief: bool,
) -> Result<Said, OutOfMemory>
    ensures { IfOk result (λ said. (other : WorldValue) (a r : ℕ) → IsSeat scene.entry.world.now scene.entry.target other r → IsAction other a action.now
        → AreSaid brief other scene.entry.p a r said) }
{
    let turned = scene_turned(alloc, scene, action)?;
    if brief {
        return Ok(Said {
            turned,
            verdict: bare(alloc, Decision::ImplicitDeny),
            hangs: Hangs {
                places: Vec::new(alloc),
                keys: Vec::new(alloc),
            },
        });
    }
    let hangs = scene_hangs(alloc, scene, action, &turned)?;
    let verdict = verdict_of(alloc, scene, action, &turned)?;
    Ok(Said {
        turned,
        verdict,
        hangs,
    })
}

/// The verdict of the example; where there is none, that on the request as the world has it.
fn verdict_of(
    alloc: Global,
    scene: Scene<'_, '_>,
    action: &str,
    turned: &Turned,
) -> Result<Verdict, OutOfMemory>
    ensures { IfOk result (λ verdict. (other : WorldValue) (a r : ℕ) → IsSeat scene.entry.world.now scene.entry.target other r
        → IsAction other a action.now → IsSaid false other scene.entry.p a r turned.now verdict) }
{
    match turned {
        Turned::Possible(shown) => shown.verdict.copy(alloc),
        _ => given_verdict(alloc, scene, action),
    }
}

/// The verdict on the request as the world has it.
fn given_verdict(alloc: Global, scene: Scene<'_, '_>, action: &str) -> Result<Verdict, OutOfMemory>
    ensures { IfOk result (λ verdict. (other : WorldValue) (a r : ℕ) → IsSeat scene.entry.world.now scene.entry.target other r
        → IsAction other a action.now → IsVerdictAt other scene.entry.p a r verdict) }
{
    no_keys_change_nothing();
    let none = Vec::new(alloc);
    scene_verdict(alloc, scene, action, &none, scene.world.moment())
}
