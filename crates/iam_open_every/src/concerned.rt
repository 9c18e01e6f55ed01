// The statements that may concern requests in contexts that agree on what is known, whatever the action and the resource.
ghost use Rattle.std.specs.Prelude.{◌≡◌, All, IfOk, IsTrue, false, map};
ghost use Rattle.iam_decision.specs.Code.Scan.{placed_value};
ghost use Rattle.iam_decision.specs.declared.place.Place.{Place};
ghost use Rattle.iam_match.specs.Request.{access_of};
ghost use Rattle.iam_open_every.specs.Concerned.{AreConcerned, IsTellingConcern};

use iam_decision::Standing;
use iam_match::{Access, OutOfMemory, Statement, principal_matches};
use iam_open::{Certain, Known, conditions_certain};
use std::alloc::Global;

/// Those of the statements that may concern the requester, whatever action on whatever resource, in the contexts that agree with its own
/// on the keys that are known and are at no earlier moment: whose principal element matches, and whose conditions are not known to fail.
///
/// AWS IAM User Guide, "Policy evaluation logic".
pub fn concerns<'a: 'c, 'c>(
    alloc: Global,
    statements: &[Standing<'a>],
    access: Access<'_, 'c>,
    known: &Known<'_>,
) -> Result<Vec<Standing<'a>>, OutOfMemory>
    ensures { IfOk result (λ found. AreConcerned (access_of access.entry) known.now
        (map placed_value statements.now) (map placed_value found.items)) }
{
    let mut found = Vec::new(alloc);
    for &standing in statements {
        if may_concern(alloc, standing.statement, access, known)? {
            found.push(standing)?;
        }
    }
    Ok(found)
}

/// Whether the statement may.
fn may_concern<'c>(
    alloc: Global,
    statement: &'c Statement,
    access: Access<'_, 'c>,
    known: &Known<'_>,
) -> Result<bool, OutOfMemory>
    ensures { IfOk result (λ may. (place : Place) → IsTellingConcern (access_of access.entry) known.now
        (record { place = place; statement = statement.now }) may) }
{
    if !principal_matches(statement, access.requester) {
        return Ok(false);
    }
    let conditions = conditions_certain(alloc, statement.conditions(), access.context, known)?;
    Ok(conditions != Certain::Never)
}
