// The kinds of texts of a line.
ghost use Rattle.std.specs.Prelude.{◌≡◌, ◌<◌, ℕ, IfOk, List, Some, length, map};
ghost use Rattle.std.specs.List.{slice_get};
ghost use Rattle.iam_match.specs.Request.{access_of};
ghost use Rattle.iam_decision.specs.Applicable.{ApplicableValue};
ghost use Rattle.iam_decision.specs.Code.Scan.{placed_value};
ghost use Rattle.iam_decision.specs.Matched.{Selects, placed};
ghost use Rattle.iam_layers.specs.Unnamed.{IsUnnamedAccess};
ghost use Rattle.iam_every.specs.Alike.{Concerns};
ghost use Rattle.iam_every.specs.Code.Rows.{AreLineKinds, AreWalksOf, IsGiven};
ghost use Rattle.iam_every.specs.Every.{LineValue, every_of};

use crate::given::Given;
use crate::groups::groups_among;
use crate::texts::text_kinds;
use iam_decision::Standing;
use iam_kinds::{Kinds, Walks};
use iam_layers::one_request;
use iam_match::{Access, OutOfMemory};
use std::alloc::Global;

/// One text of each kind of texts that line k speaks of.
pub fn line_kinds<'a: 'c, 'c>(
    alloc: Global,
    walks: &mut Walks,
    given: Given<'_>,
    k: usize,
    access: Access<'_, 'c>,
    concerned: &[Standing<'a>],
) -> Result<Kinds, OutOfMemory>
    requires given { IsGiven given }
    requires line { k < length given.asked.lines.now }
    requires walks { AreWalksOf given.asked.world.now walks.old }
    ensures walks { AreWalksOf given.entry.asked.world.now walks.new }
    ensures kinds { IfOk result (λ kinds. (line : LineValue) (a : ApplicableValue) (action : List ℕ)
        → slice_get (every_of given.entry.asked).lines k ≡ Some line
        → IsUnnamedAccess given.entry.asked.world.now given.entry.p line.unnamed action access.entry.resource.now a (access_of access.entry)
        → Selects (Concerns (access_of access.entry) action) (placed a) (map placed_value concerned.now)
        → AreLineKinds (every_of given.entry.asked) given.entry.p action k line kinds) }
{
    one_request();
    let line = given.asked.lines[k];
    let groups = groups_among(alloc, concerned, access)?;
    text_kinds(
        alloc,
        walks,
        groups.as_slice(),
        line.pattern.signs(),
        given.arn,
        &given.patterns[..k],
    )
}
