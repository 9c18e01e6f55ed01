// Statements that concern requests for some action, whatever the resource, and which of them match.
ghost use Rattle.std.specs.Prelude.{◌≡◌, ◌↔◌, ◌&&◌, IfOk, IsTrue, false, get_or, map};
ghost use Rattle.iam_match.specs.Request.{access_of};
ghost use Rattle.iam_decision.specs.declared.place.Place.{Place};
ghost use Rattle.iam_decision.specs.Applicable.{IsNumbered, value_of};
ghost use Rattle.iam_decision.specs.Code.Scan.{placed_value};
ghost use Rattle.iam_decision.specs.Living.{Lives, item_of};
ghost use Rattle.iam_decision.specs.Matched.{Selects, placed};
ghost use Rattle.iam_every.specs.Code.Picked.{IsEligible, TellEach, both, picked};

use crate::concerned::conditions_hold;
use iam_decision::{Applicable, Matched, Standing};
use iam_match::{
    Access, OutOfMemory, Requester, Statement, grant_kind, principal_matches, rest_matches,
};
use std::alloc::Global;

/// The statements of which all elements match but those about actions and resources, in place order.
pub fn eligible<'a: 'c, 'c>(
    alloc: Global,
    applicable: &Applicable<'a>,
    access: Access<'_, 'c>,
) -> Result<Vec<Standing<'a>>, OutOfMemory>
    requires { IsNumbered (value_of applicable.now) }
    ensures { IfOk result (λ found. Selects (IsEligible (access_of access.entry))
        (placed (value_of applicable.now)) (map placed_value found.items)) }
{
    let statements = applicable.statements(alloc)?;
    let mut found = Vec::with_capacity(alloc, statements.len())?;
    for &standing in statements.as_slice() {
        if is_eligible(alloc, standing.statement, access)? {
            found.push(standing)?;
        }
    }
    Ok(found)
}

/// Whether all elements of the statement match but those about actions and resources.
fn is_eligible<'c>(
    alloc: Global,
    statement: &'c Statement,
    access: Access<'_, 'c>,
) -> Result<bool, OutOfMemory>
    ensures { IfOk result (λ eligible. (place : Place)
        → IsTrue eligible ↔ IsEligible (access_of access.entry) (record { place = place; statement = statement.now })) }
{
    if !principal_matches(statement, access.requester) {
        return Ok(false);
    }
    conditions_hold(alloc, statement.conditions(), access.context)
}

/// Of each of the statements whether it matches requests for this access once its action element does.
pub fn lives<'a: 'c, 'c>(
    alloc: Global,
    statements: &[Standing<'a>],
    access: Access<'_, 'c>,
) -> Result<Vec<bool>, OutOfMemory>
    ensures { IfOk result (λ lives. TellEach (Lives (access_of access.entry)) (map placed_value statements.now) lives.items) }
{
    let mut lives = Vec::with_capacity(alloc, statements.len())?;
    for &standing in statements {
        lives.push(rest_matches(alloc, standing.statement, access)?)?;
    }
    Ok(lives)
}

/// Bit i; where there is none it is not set.
pub fn bit_at(bits: &[bool], i: usize) -> bool
    ensures { result ≡ get_or bits.now i false }
{
    match bits.get(i) {
        Some(&bit) => bit,
        None => false,
    }
}

/// Those of the statements that are picked.
pub fn picked<'a>(
    alloc: Global,
    statements: &[Standing<'a>],
    bits: &[bool],
) -> Result<Vec<Standing<'a>>, OutOfMemory>
    ensures { IfOk result (λ chosen. map placed_value chosen.items ≡ picked (map placed_value statements.now) bits.now) }
{
    let mut chosen = Vec::with_capacity(alloc, statements.len())?;
    for i in 0..statements.len() {
        if bit_at(bits, i) {
            chosen.push(statements[i])?;
        }
    }
    Ok(chosen)
}

/// Whether both bits i are set.
fn are_both(bits: &[bool], others: &[bool], i: usize) -> bool
    ensures { result ≡ (get_or bits.now i false && get_or others.now i false) }
{
    bit_at(bits, i) && bit_at(others, i)
}

/// What is kept of those of the statements that both pick.
pub fn found(
    alloc: Global,
    statements: &[Standing<'_>],
    acts: &[bool],
    lives: &[bool],
    requester: &Requester,
) -> Result<Vec<Matched>, OutOfMemory>
    ensures { IfOk result (λ found. found.items
        ≡ map (item_of requester.now) (picked (map placed_value statements.now) (both acts.now lives.now))) }
{
    let mut found = Vec::with_capacity(alloc, statements.len())?;
    for i in 0..statements.len() {
        if are_both(acts, lives, i) {
            found.push(matched(statements[i], requester))?;
        }
    }
    Ok(found)
}

/// What is kept of the statement.
fn matched(standing: Standing<'_>, requester: &Requester) -> Matched
    ensures { result ≡ item_of requester.now (placed_value standing.entry) }
{
    Matched {
        place: standing.place,
        effect: standing.statement.effect(),
        grant: grant_kind(standing.statement, requester),
    }
}
