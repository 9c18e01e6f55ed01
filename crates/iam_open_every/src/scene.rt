// The groups of patterns that tell apart the texts of resources that a world does not name, whatever values the keys have that nothing gives.
ghost use Rattle.std.specs.Prelude.{◌≡◌, [], ℕ, IfOk, IfSome, None};
ghost use Rattle.iam_every.specs.Groups.{groups_of};
ghost use Rattle.iam_layers.specs.declared.unnamed.Unnamed.{Unnamed};
ghost use Rattle.iam_open.specs.Seat.{IsSeat};
ghost use Rattle.iam_open.specs.declared.scene.Target.TheVariants as target;
ghost use Rattle.iam_open_every.specs.Looked.{AreGroupsSeen, AreOpenGroupsAt, AsksBeyondAt, IsContextSeen};
ghost use Rattle.iam_world.specs.World.{WorldValue};

use crate::concerned::concerns;
use crate::groups::open_groups;
use crate::laws::agreeing_texts_are_turned_alike;
use iam_context::{Context, Part};
use iam_every::Pattern;
use iam_match::{Access, OutOfMemory};
use iam_open::Scene;
use std::alloc::Global;

/// The groups of patterns of the statements that may concern requests in the scene, where the context is that of the scene in which nothing
/// gives further keys, at the moment of the world, and `none` is empty. Where the world does not name the resource, whatever two texts all
/// groups agree on are decided alike in each context in question, whatever the action. `None` where a text of the resource element of
/// one of these statements asks for a key that is not known.
///
/// AWS IAM User Guide, "IAM JSON policy elements: Resource", "NotResource", and "AWS global condition context keys".
pub fn scene_groups<'c>(
    alloc: Global,
    scene: Scene<'c, 'c>,
    context: &Context<'c>,
    none: &'c Part,
) -> Result<Option<Vec<Vec<Pattern<'c>>>>, OutOfMemory>
    requires none { none.now.items ≡ [] }
    requires context { (other : WorldValue) (r : ℕ) → IsSeat scene.world.now scene.target other r → IsContextSeen other scene.p r context.now }
    ensures apart { (unnamed : Unnamed) (text : _) → scene.entry.target ≡ target.Unnamed unnamed text
        → IfOk result (λ found. IfSome found (λ groups. AreOpenGroupsAt scene.entry.world.now scene.entry.p unnamed (groups_of groups.items))) }
    ensures seen { (other : WorldValue) (r : ℕ) → IsSeat scene.entry.world.now scene.entry.target other r
        → IfOk result (λ found. IfSome found (λ groups. AreGroupsSeen other scene.entry.p r (groups_of groups.items))) }
    ensures beyond { (other : WorldValue) (r : ℕ) → IsSeat scene.entry.world.now scene.entry.target other r
        → IfOk result (λ found. found ≡ None → AsksBeyondAt other scene.entry.p r) }
{
    agreeing_texts_are_turned_alike();
    let access = Access {
        requester: scene.requester(),
        resource: scene.text(),
        context,
    };
    let known = scene.known(none, None);
    let applicable = scene.applicable();
    let statements = applicable.statements(alloc)?;
    let found = concerns(alloc, statements.as_slice(), access, &known)?;
    open_groups(alloc, found.as_slice(), context, &known)
}
