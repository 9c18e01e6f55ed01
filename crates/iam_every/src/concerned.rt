// The statements that concern requests for an action, whatever the resource.
ghost use Rattle.std.specs.Prelude.{◌≡◌, ◌↔◌, All, IfOk, IsTrue, map};
ghost use Rattle.iam_match.specs.Entry.{EntryHolds};
ghost use Rattle.iam_match.specs.Request.{access_of};
ghost use Rattle.iam_decision.specs.declared.place.Place.{Place};
ghost use Rattle.iam_decision.specs.Applicable.{IsNumbered, value_of};
ghost use Rattle.iam_decision.specs.Code.Scan.{placed_value};
ghost use Rattle.iam_decision.specs.Matched.{Selects, placed};
ghost use Rattle.iam_every.specs.Alike.{Concerns};

use iam_decision::{Applicable, Standing};
use iam_match::{
    Access, Context, Entry, OutOfMemory, Statement, action_matches, holds, principal_matches,
};
use std::alloc::Global;

/// The statements that concern requests for the action, in place order.
pub fn concerned<'a: 'c, 'c>(
    alloc: Global,
    applicable: &Applicable<'a>,
    access: Access<'_, 'c>,
    action: &str,
) -> Result<Vec<Standing<'a>>, OutOfMemory>
    requires { IsNumbered (value_of applicable.now) }
    ensures { IfOk result (λ found. Selects (Concerns (access_of access.entry) action.now)
        (placed (value_of applicable.now)) (map placed_value found.items)) }
{
    let statements = applicable.statements(alloc)?;
    let mut found = Vec::with_capacity(alloc, statements.len())?;
    for &standing in statements.as_slice() {
        if concerns(alloc, standing.statement, access, action)? {
            found.push(standing)?;
        }
    }
    Ok(found)
}

/// Whether the statement concerns requests for the action, whatever the resource: all its elements match but `Resource` and
/// `NotResource`.
fn concerns<'c>(
    alloc: Global,
    statement: &'c Statement,
    access: Access<'_, 'c>,
    action: &str,
) -> Result<bool, OutOfMemory>
    ensures { IfOk result (λ concerned. (place : Place)
        → IsTrue concerned ↔ Concerns (access_of access.entry) action.now (record { place = place; statement = statement.now })) }
{
    if !action_matches(statement.action(), action) {
        return Ok(false);
    }
    if !principal_matches(statement, access.requester) {
        return Ok(false);
    }
    conditions_hold(alloc, statement.conditions(), access.context)
}

/// Whether every entry holds.
pub fn conditions_hold<'c>(
    alloc: Global,
    entries: &'c [Entry],
    context: &Context<'c>,
) -> Result<bool, OutOfMemory>
    ensures { IfOk result (λ held. IsTrue held ↔ All (EntryHolds context.now) entries.now) }
{
    for entry in entries {
        if !holds(alloc, entry, context)? {
            return Ok(false);
        }
    }
    Ok(true)
}
