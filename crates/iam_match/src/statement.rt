// Whether a statement matches, with its action and without.
ghost use Rattle.std.specs.Prelude.{◌↔◌, All, IsTrue, IfOk, IfSome};
ghost use Rattle.iam_match.specs.Request.{access_of, request_of};
ghost use Rattle.iam_match.specs.Entry.{EntryHolds};
ghost use Rattle.iam_match.specs.Statement.{ActionMatches, ResourceMatches, RestMatches, StatementMatches};

use crate::entry::holds;
use crate::principal::principal_matches;
use crate::request::{Access, Request};
use crate::resource::resource_matches;
use iam_condition::Entry;
use iam_context::Context;
use iam_policy::{Actions, Statement};
use iam_text::OutOfMemory;
use std::alloc::Global;

/// Whether the statement matches the request. It takes the allocator for the patterns that texts with variables become,
/// and for the bytes of a text under `BinaryEquals`; nothing else takes memory.
///
/// AWS IAM User Guide, "Policy evaluation logic".
pub fn statement_matches<'c>(
    alloc: Global,
    statement: &'c Statement,
    request: &Request<'_, 'c>,
) -> Result<bool, OutOfMemory>
    ensures { IfOk result (λ matched. IsTrue matched ↔ StatementMatches statement.now (request_of request.now)) }
{
    if action_matches(statement.action(), request.action) {
        rest_matches(alloc, statement, request.access())
    } else {
        Ok(false)
    }
}

/// Whether the statement matches requests for this access, whose action its action element matches.
pub fn rest_matches<'c>(
    alloc: Global,
    statement: &'c Statement,
    access: Access<'_, 'c>,
) -> Result<bool, OutOfMemory>
    ensures { IfOk result (λ matched. IsTrue matched ↔ RestMatches statement.now (access_of access.entry)) }
{
    rest_matches_with(alloc, statement, access, None)
}

/// As [`rest_matches`], where it may be known already whether the resource element matches.
#[inline(always)]
pub fn rest_matches_with<'c>(
    alloc: Global,
    statement: &'c Statement,
    access: Access<'_, 'c>,
    resource: Option<bool>,
) -> Result<bool, OutOfMemory>
    requires { IfSome resource (λ known. IsTrue known ↔ ResourceMatches statement.now.resource access.resource.now access.context.now) }
    ensures { IfOk result (λ matched. IsTrue matched ↔ RestMatches statement.now (access_of access.entry)) }
{
    if resource == Some(false) {
        return Ok(false);
    }
    all_match(alloc, statement, access, resource)
}

/// The same, where each element but the action element is looked at in turn.
fn all_match<'c>(
    alloc: Global,
    statement: &'c Statement,
    access: Access<'_, 'c>,
    resource: Option<bool>,
) -> Result<bool, OutOfMemory>
    requires { IfSome resource (λ known. IsTrue known ↔ ResourceMatches statement.now.resource access.resource.now access.context.now) }
    ensures { IfOk result (λ matched. IsTrue matched ↔ RestMatches statement.now (access_of access.entry)) }
{
    if !principal_matches(statement, access.requester) {
        return Ok(false);
    }
    if !resource_matches_with(alloc, statement, access, resource)? {
        return Ok(false);
    }
    conditions_hold(alloc, statement.conditions(), access.context)
}

/// Whether the resource element, if there is one, matches the resource, where that may be known already.
fn resource_matches_with<'c>(
    alloc: Global,
    statement: &'c Statement,
    access: Access<'_, 'c>,
    resource: Option<bool>,
) -> Result<bool, OutOfMemory>
    requires { IfSome resource (λ known. IsTrue known ↔ ResourceMatches statement.now.resource access.resource.now access.context.now) }
    ensures { IfOk result (λ matched.
        IsTrue matched ↔ ResourceMatches statement.now.resource access.entry.resource.now access.entry.context.now) }
{
    match resource {
        Some(known) => Ok(known),
        None => resource_matches(alloc, statement, access.resource, access.context),
    }
}

/// Whether the action element matches the action. It takes no memory.
///
/// AWS IAM User Guide, "IAM JSON policy elements: Action" and "NotAction".
pub fn action_matches(element: &Actions, action: &str) -> bool
    ensures { IsTrue result ↔ ActionMatches element.now action.now }
{
    let patterns = element.patterns();
    element.is_negated() != patterns.iter().any(|pattern| pattern.matches_fold(action))
}

/// Whether every entry holds.
fn conditions_hold<'c>(
    alloc: Global,
    entries: &'c [Entry],
    context: &Context<'c>,
) -> Result<bool, OutOfMemory>
    ensures { IfOk result (λ held. IsTrue held ↔ All (EntryHolds context.now) entries.now) }
{
    for entry in entries {
        if !holds(alloc, entry, context)? {
            return Ok(false);
        }
    }
    Ok(true)
}
