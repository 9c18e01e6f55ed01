// Actions that policies do not tell apart, whatever values the keys have that nothing gives.
ghost use Rattle.std.specs.Prelude.{◌<◌, IfOk, MatchOption, length, map, string_bytes};
ghost use Rattle.iam_every.specs.Every.{ActionsPass, AreThere, every_of};
ghost use Rattle.iam_open_every.specs.Actions.{AlikeActionsAreTurnedAlike, AreAllActions};

use iam_every::{Asked, alike_actions_decide_alike, meant_actions, own_groups_tell_apart};
use iam_match::OutOfMemory;
use std::alloc::Global;

/// Where the action elements of all statements that apply match two actions or neither, whatever is decided on the one in a context in
/// question is decided on the other in the same one.
///
/// AWS IAM User Guide, "IAM JSON policy elements: Action" and "NotAction".
pub fn alike_actions_are_turned_alike()
    ensures { AlikeActionsAreTurnedAlike }
{
    alike_actions_decide_alike()
}

/// Actions of which one is like each that is in question, whatever the resource, where principal p asks, which has to be below
/// `principals()`: those of the world, or one of each kind that the pattern matches; `None` where there are too many kinds.
///
/// AWS IAM User Guide, "IAM JSON policy elements: Action" and "NotAction".
pub fn all_actions(
    alloc: Global,
    asked: Asked<'_>,
    p: u64,
) -> Result<Option<Vec<String>>, OutOfMemory>
    requires principal { p < length asked.world.now.principals }
    requires there { AreThere (every_of asked) }
    ensures { IfOk result (λ found. MatchOption found (ActionsPass (every_of asked.entry) p)
        (λ actions. AreAllActions (every_of asked.entry) p (map string_bytes actions.items))) }
{
    own_groups_tell_apart();
    meant_actions(alloc, asked, p)
}
