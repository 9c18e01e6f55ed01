// The statements of which it is not certain that they do not match a request, and what of each is open.
ghost use Rattle.std.specs.Prelude.{◌≡◌, All, IfOk, MatchOption, map};
ghost use Rattle.iam_condition.specs.Entry.{EntryValue};
ghost use Rattle.iam_context.specs.Context.{ContextValue};
ghost use Rattle.iam_decision.specs.Code.Scan.{placed_value};
ghost use Rattle.iam_decision.specs.Matched.{IsMatched};
ghost use Rattle.iam_match.specs.Entry.{EntryHolds};
ghost use Rattle.iam_match.specs.Request.{access_of};
ghost use Rattle.iam_open.specs.Code.Known.{AgreeOn, request_in};
ghost use Rattle.iam_open_changes.specs.Code.Kept.{AreKept, AreKeptOf, IsKept, KeptValue};
ghost use Rattle.iam_open_changes.specs.Sides.{OfRequest};

use crate::side::Request;
use iam_condition::Entry;
use iam_context::Context;
use iam_decision::Standing;
use iam_layers::OutOfMemory;
use iam_match::{Access, Grant, action_matches, grant_kind, principal_matches};
use iam_open::{Certain, Known, entry_certain, resource_certain};
use iam_value::one_stamp;
use std::alloc::Global;
use std::marker::Model;

/// A statement that may match a request in some of the contexts in question, and what of it is open: whatever else it asks holds in all of
/// them.
#[derive(Drop)]
pub struct Kept<'a> {
    pub standing: Standing<'a>,
    /// What it grants the requester.
    pub grant: Grant,
    /// Whether it is open that its resource element matches.
    pub is_resource_open: bool,
    /// Those of its entries that are open.
    pub entries: Vec<&'a Entry>,
}

impl<'a> Model for Kept<'a> {
    ghost use Rattle.std.specs.Prelude.{map};
    ghost use Rattle.iam_decision.specs.Code.Scan.{placed_value};
    ghost use Rattle.iam_open_changes.specs.Code.Kept.{KeptValue};

    ghost Value = { KeptValue };

    ghost view = { λ kept. record {
      standing = placed_value kept.standing;
      grant = kept.grant;
      resource = kept.is_resource_open;
      entries = map (λ entry. entry.now) kept.entries.items;
    } };
}

/// The statements that apply to the request, without those of which it is certain that they match in none of the contexts in question.
pub fn kept_at<'a>(alloc: Global, request: Request<'a, '_>) -> Result<Vec<Kept<'a>>, OutOfMemory>
    ensures { IfOk result (λ kept. OfRequest request.entry (λ other at. AreKept other at kept.items)) }
{
    one_stamp();
    let scene = request.scene;
    let none = Vec::new(alloc);
    let derived = scene.derived(alloc, scene.world.moment())?;
    // The parts of a world's contexts can be joined, so that nothing is refused but memory.
    let Ok(context) = scene.context(alloc, &none, &derived) else {
        return Err(OutOfMemory);
    };
    let access = Access {
        requester: scene.requester(),
        resource: scene.text(),
        context: &context,
    };
    let known = scene.known(&none, None);
    let statements = scene.statements(alloc)?;
    kept_of(alloc, statements.as_slice(), access, request.action, &known)
}

/// Those of these statements, for the requests of who asks for this whose contexts agree with its own on the keys that are known.
fn kept_of<'a: 'c, 'c>(
    alloc: Global,
    statements: &[Standing<'a>],
    access: Access<'_, 'c>,
    action: &str,
    known: &Known<'_>,
) -> Result<Vec<Kept<'a>>, OutOfMemory>
    ensures { IfOk result (λ kept. AreKeptOf (access_of access.entry) action.now (AgreeOn known.now access.entry.context.now)
        (map placed_value statements.now) kept.items) }
{
    let mut kept = Vec::new(alloc);
    for &standing in statements {
        let Some(it) = kept_if(alloc, standing, access, action, known)? else {
            continue;
        };
        kept.push(it)?;
    }
    Ok(kept)
}

/// The statement with what of it is open; `None` only where it matches in none of these contexts.
fn kept_if<'a: 'c, 'c>(
    alloc: Global,
    standing: Standing<'a>,
    access: Access<'_, 'c>,
    action: &str,
    known: &Known<'_>,
) -> Result<Option<Kept<'a>>, OutOfMemory>
    ensures { IfOk result (λ found. MatchOption found
        ((context : ContextValue) → AgreeOn known.now access.entry.context.now context
        → ¬ IsMatched (request_in (access_of access.entry) action.now context) (placed_value standing.entry))
        (λ it. (it.standing ≡ placed_value standing.entry)
        × IsKept (access_of access.entry) action.now (AgreeOn known.now access.entry.context.now) it)) }
{
    let statement = standing.statement;
    if !action_matches(statement.action(), action) {
        return Ok(None);
    }
    if !principal_matches(statement, access.requester) {
        return Ok(None);
    }
    let resource = resource_certain(
        alloc,
        statement.resource(),
        access.resource,
        access.context,
        known,
    )?;
    if resource == Certain::Never {
        return Ok(None);
    }
    let Some(entries) = open_entries(alloc, statement.conditions(), access.context, known)? else {
        return Ok(None);
    };
    Ok(Some(Kept {
        standing,
        grant: grant_kind(statement, access.requester),
        is_resource_open: resource == Certain::Open,
        entries,
    }))
}

/// Those of the entries that are open; `None` only where some entry holds in none of these contexts.
fn open_entries<'a: 'c, 'c>(
    alloc: Global,
    entries: &'a [Entry],
    context: &Context<'c>,
    known: &Known<'_>,
) -> Result<Option<Vec<&'a Entry>>, OutOfMemory>
    ensures { IfOk result (λ found. MatchOption found
        ((other : ContextValue) → AgreeOn known.now context.now other → ¬ All (EntryHolds other) entries.now)
        (λ left. (other : ContextValue) → AgreeOn known.now context.now other → All (EntryHolds other) (map (λ entry. entry.now) left.items)
        → All (EntryHolds other) entries.now)) }
{
    let mut left = Vec::new(alloc);
    for entry in entries {
        match entry_certain(alloc, entry, context, known)? {
            Certain::Never => return Ok(None),
            Certain::Always => continue,
            Certain::Open => (),
        }
        left.push(entry)?;
    }
    Ok(Some(left))
}
