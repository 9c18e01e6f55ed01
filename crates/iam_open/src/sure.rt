// What is known where a principal asks for a resource: keys, and the statements that apply.
ghost use Rattle.std.specs.Prelude.{◌≡◌, ◌<◌, IfOk, length, map};
ghost use Rattle.iam_context.specs.Code.Entries.{derived_name};
ghost use Rattle.iam_decision.specs.Applicable.{ApplicableValue};
ghost use Rattle.iam_decision.specs.Code.Scan.{placed_value};
ghost use Rattle.iam_decision.specs.Matched.{placed};
ghost use Rattle.iam_layers.specs.Cell.{IsApplicableAt};
ghost use Rattle.iam_open.specs.Code.Tried.{AreKnownAt, derived_known};

use crate::known::Known;
use crate::scene::Scene;
use iam_context::{DerivedKey, Part};
use iam_decision::Standing;
use iam_layers::{OutOfMemory, World};
use std::alloc::Global;

/// The keys that follow from requester and resource, and then those that follow from the moment.
const DERIVED: [DerivedKey; 7] = [
    DerivedKey::PrincipalArn,
    DerivedKey::Username,
    DerivedKey::PrincipalType,
    DerivedKey::PrincipalAccount,
    DerivedKey::ResourceAccount,
    DerivedKey::CurrentTime,
    DerivedKey::EpochTime,
];

/// So many of them do not follow from the moment.
const TIMELESS: usize = 5;

/// The keys that are known where principal p asks for resource r and these are tried, and a moment or none.
pub fn known_of<'a>(
    world: &'a World,
    p: u64,
    r: u64,
    own: &'a Part,
    moment: Option<u64>,
) -> Known<'a>
    requires principal { p < length world.now.principals }
    requires resource { r < length world.now.resources }
    ensures { AreKnownAt world.entry.now p r own.entry.now.items moment result }
{
    Scene::named(world, p, r, own).known(own, moment)
}

/// The derived keys that are known: all, where the moment is.
pub fn known_derived(moment: Option<u64>) -> &'static [DerivedKey]
    ensures { map derived_name result.now ≡ derived_known moment }
{
    match moment {
        Some(_) => &DERIVED,
        None => &DERIVED[..TIMELESS],
    }
}

/// All statements that apply where principal p asks for resource r, in place order.
pub fn statements_at(
    alloc: Global,
    world: &World,
    p: u64,
    r: u64,
) -> Result<Vec<Standing<'_>>, OutOfMemory>
    requires principal { p < length world.now.principals }
    requires resource { r < length world.now.resources }
    ensures { IfOk result (λ statements. (a : ApplicableValue) → IsApplicableAt world.entry.now p r a
        → map placed_value statements.items ≡ placed a) }
{
    world.applicable(p, r).statements(alloc)
}
