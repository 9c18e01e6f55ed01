// The statements that live in requests of a principal for a resource.
ghost use Rattle.std.specs.Prelude.{ℕ, All, ◌≡◌, ◌↔◌, ◌<◌, IfOk, IsTrue, OnOk, Some, length, map};
ghost use Rattle.std.specs.List.{slice_get};
ghost use Rattle.iam_match.specs.Entry.{EntryHolds};
ghost use Rattle.iam_match.specs.Principal.{PrincipalMatches};
ghost use Rattle.iam_match.specs.Request.{access_of};
ghost use Rattle.iam_decision.specs.Applicable.{ApplicableValue};
ghost use Rattle.iam_decision.specs.Code.Scan.{placed_value};
ghost use Rattle.iam_decision.specs.Living.{Lives, living_value};
ghost use Rattle.iam_decision.specs.declared.scan.Standing.{Standing};
ghost use Rattle.iam_context.specs.Context.{ContextValue};
ghost use Rattle.iam_layers.specs.Cell.{IsApplicableAt, IsContextAt, IsResource};
ghost use Rattle.iam_living.specs.Marks.{AreMarks};
ghost use Rattle.iam_living.specs.Living.{AddsLiving, AreLivingAt, ConcernNone};

use crate::marks::{Marks, conditions_hold};
use iam_decision::{add_living, push_living};
use iam_index::{Index, Known};
use iam_layers::{Living, Standing};
use iam_match::{Access, Requester, principal_matches, rest_matches_with};
use iam_text::OutOfMemory;
use std::alloc::Global;

/// Those of the candidates of requests of principal p for resource r, for actions of the world, that live, in place order.
pub fn living<'a: 'c, 'c>(
    alloc: Global,
    index: &'a Index<'a>,
    p: u64,
    r: u64,
    access: Access<'_, 'c>,
) -> Result<Vec<Living<'a>>, OutOfMemory>
    requires principal { p < length index.now.principals }
    requires resource { IsResource index.now r (λ resource. access.resource.now ≡ resource.arn) }
    requires context { (derived : ContextValue) × IsContextAt index.now p r derived access.context.now }
    ensures { (applicable : ApplicableValue) → IsApplicableAt index.entry.now p r applicable
        → IfOk result (λ living. AreLivingAt index.entry.now applicable (access_of access.entry) (map living_value living.items)) }
{
    let mut living = Vec::new(alloc);
    let theirs = index.theirs(p);
    let mut told = Vec::new(alloc);
    add_known(alloc, &mut living, &theirs.org, &mut told, r, access)?;
    add_all(alloc, &mut living, index.resource_statements(r), access)?;
    let mut told = Vec::new(alloc);
    add_known(alloc, &mut living, &theirs.own, &mut told, r, access)?;
    Ok(living)
}

/// Adds those of the statements that live to the living ones of those before them.
pub fn add_all<'a: 'c, 'c>(
    alloc: Global,
    living: &mut Vec<Living<'a>>,
    statements: &[Standing<'a>],
    access: Access<'_, 'c>,
) -> Result<(), OutOfMemory>
    ensures { OnOk result (AddsLiving (access_of access.entry) (map placed_value statements.now) (map living_value living.old.items)
        (map living_value living.new.items)) }
{
    for &standing in statements {
        add_living(alloc, living, standing, access, None)?;
    }
    Ok(())
}

/// The same of a request for resource r of the world, where it may be known whether resource elements match.
pub fn add_known<'a: 'c, 'c>(
    alloc: Global,
    living: &mut Vec<Living<'a>>,
    known: &Known<'a>,
    told: &mut Marks,
    r: u64,
    access: Access<'_, 'c>,
) -> Result<(), OutOfMemory>
    requires resource { IsResource known.now.world r (λ resource. access.resource.now ≡ resource.arn) }
    requires told { (p : ℕ) × (derived : ContextValue) × IsContextAt known.now.world p r derived access.context.now
        × AreMarks known.now.world p derived (map placed_value known.now.statements) told.old.items }
    ensures told { (p : ℕ) (derived : ContextValue) → IsContextAt known.now.world p r derived access.entry.context.now
        → AreMarks known.now.world p derived (map placed_value known.now.statements) told.old.items
        → AreMarks known.now.world p derived (map placed_value known.now.statements) told.new.items }
    ensures living { OnOk result (AddsLiving (access_of access.entry) (map placed_value known.now.statements) (map living_value living.old.items)
        (map living_value living.new.items)) }
{
    let statements = known.statements();
    for i in 0..statements.len() {
        if lives(alloc, known, told, i, r, access)? {
            push_living(living, statements[i], access.requester)?;
        }
    }
    Ok(())
}

/// Whether statement i of these lives in a request for resource r of the world.
#[inline(always)]
pub fn lives<'a: 'c, 'c>(
    alloc: Global,
    known: &Known<'a>,
    told: &mut Marks,
    i: usize,
    r: u64,
    access: Access<'_, 'c>,
) -> Result<bool, OutOfMemory>
    requires statement { i < length known.now.statements }
    requires resource { IsResource known.now.world r (λ resource. access.resource.now ≡ resource.arn) }
    requires told { (p : ℕ) × (derived : ContextValue) × IsContextAt known.now.world p r derived access.context.now
        × AreMarks known.now.world p derived (map placed_value known.now.statements) told.old.items }
    ensures told { (p : ℕ) (derived : ContextValue) → IsContextAt known.now.world p r derived access.entry.context.now
        → AreMarks known.now.world p derived (map placed_value known.now.statements) told.old.items
        → AreMarks known.now.world p derived (map placed_value known.now.statements) told.new.items }
    ensures lives { (standing : Standing) → slice_get known.now.statements i ≡ Some standing
        → IfOk result (λ lives. IsTrue lives ↔ Lives (access_of access.entry) (placed_value standing)) }
{
    let statement = known.statements()[i].statement;
    let matched = known.matches(i, r);
    if matched == Some(true) && !statement.conditions().is_empty() {
        return lives_by_conditions(alloc, known, told, i, access);
    }
    rest_matches_with(alloc, statement, access, matched)
}

/// The same where the resource element is known to match, and there are conditions.
fn lives_by_conditions<'a: 'c, 'c>(
    alloc: Global,
    known: &Known<'a>,
    told: &mut Marks,
    i: usize,
    access: Access<'_, 'c>,
) -> Result<bool, OutOfMemory>
    requires { i < length known.now.statements }
    ensures told { (p r : ℕ) (derived : ContextValue) → IsContextAt known.now.world p r derived access.entry.context.now
        → AreMarks known.now.world p derived (map placed_value known.now.statements) told.old.items
        → AreMarks known.now.world p derived (map placed_value known.now.statements) told.new.items }
    ensures lives { (p r : ℕ) (derived : ContextValue) (standing : Standing)
        → IsContextAt known.now.world p r derived access.entry.context.now
        → AreMarks known.now.world p derived (map placed_value known.now.statements) told.old.items
        → slice_get known.now.statements i ≡ Some standing
        → IfOk result (λ lives. IsTrue lives ↔ (PrincipalMatches standing.statement.now.principal access.entry.requester.now
        × All (EntryHolds access.entry.context.now) standing.statement.now.conditions)) }
{
    if !principal_matches(known.statements()[i].statement, access.requester) {
        return Ok(false);
    }
    conditions_hold(alloc, known, told, i, access.context)
}

/// `true` only where none of these statements is about the requester, by its principal element: then none of them lives in its
/// requests, in whatever context.
pub fn concern_none(statements: &[Standing<'_>], requester: &Requester) -> bool
    ensures { IsTrue result → ConcernNone requester.now (map placed_value statements.now) }
{
    for &standing in statements {
        if principal_matches(standing.statement, requester) {
            return false;
        }
    }
    true
}
