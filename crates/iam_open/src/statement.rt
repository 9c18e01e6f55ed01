// Whether a statement matches requests in contexts that agree on what is known.
ghost use Rattle.std.specs.Prelude.{All, IfOk};
ghost use Rattle.iam_match.specs.Entry.{EntryHolds};
ghost use Rattle.iam_match.specs.Principal.{PrincipalMatches};
ghost use Rattle.iam_match.specs.Request.{access_of};
ghost use Rattle.iam_match.specs.Statement.{ResourceMatches, RestMatches, StatementMatches};
ghost use Rattle.iam_open.specs.Code.Certain.{IfOpen, Tells};
ghost use Rattle.iam_open.specs.Code.Known.{Follows, access_at, request_in};
ghost use Rattle.iam_open.specs.Hangs.{AreAsking, IsAsking};

use crate::certain::Certain;
use crate::entry::conditions_certain;
use crate::known::Known;
use crate::resource::resource_certain;
use iam_match::{Access, OutOfMemory, Statement, action_matches, principal_matches};
use std::alloc::Global;

/// Whether the statement matches the request for this action by who asks for this, in the contexts that agree with its own on the keys
/// that are known.
///
/// AWS IAM User Guide, "Policy evaluation logic".
pub fn statement_certain<'c>(
    alloc: Global,
    statement: &'c Statement,
    access: Access<'_, 'c>,
    action: &str,
    known: &Known<'_>,
) -> Result<Certain, OutOfMemory>
    ensures told { IfOk result (λ certain. Tells certain (Follows known.now access.entry.context.now)
        (λ other. StatementMatches statement.now (request_in (access_of access.entry) action.now other))) }
    ensures asks { IfOk result (λ certain. IfOpen certain (IsAsking known.now (access_of access.entry) action.now statement.now)) }
{
    if !action_matches(statement.action(), action) {
        return Ok(Certain::Never);
    }
    rest_certain(alloc, statement, access, known)
}

/// Whether all its elements match but its action element, which alone sees the action.
pub fn rest_certain<'c>(
    alloc: Global,
    statement: &'c Statement,
    access: Access<'_, 'c>,
    known: &Known<'_>,
) -> Result<Certain, OutOfMemory>
    ensures told { IfOk result (λ certain. Tells certain (Follows known.now access.entry.context.now)
        (λ other. RestMatches statement.now (access_at (access_of access.entry) other))) }
    ensures asks { IfOk result (λ certain. IfOpen certain (PrincipalMatches statement.now.principal access.entry.requester.now
        × AreAsking known.now (access_of access.entry) statement.now)) }
{
    if !principal_matches(statement, access.requester) {
        return Ok(Certain::Never);
    }
    elements_certain(alloc, statement, access, known)
}

/// Whether its resource element matches, and its conditions hold.
fn elements_certain<'c>(
    alloc: Global,
    statement: &'c Statement,
    access: Access<'_, 'c>,
    known: &Known<'_>,
) -> Result<Certain, OutOfMemory>
    ensures told { IfOk result (λ certain. Tells certain (Follows known.now access.entry.context.now)
        (λ other. ResourceMatches statement.now.resource access.entry.resource.now other
        × All (EntryHolds other) statement.now.conditions)) }
    ensures asks { IfOk result (λ certain. IfOpen certain (AreAsking known.now (access_of access.entry) statement.now)) }
{
    let resource = resource_certain(
        alloc,
        statement.resource(),
        access.resource,
        access.context,
        known,
    )?;
    if resource == Certain::Never {
        return Ok(Certain::Never);
    }
    let conditions = conditions_certain(alloc, statement.conditions(), access.context, known)?;
    Ok(resource.and(conditions))
}
