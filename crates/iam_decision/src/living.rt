// Statements that match but for their action, and which of them act on an action.
ghost use Rattle.std.specs.Prelude.{[], ◌∷◌, ◌≡◌, ◌↔◌, ◌++◌, IfOk, IfSome, IsTrue, List, OnOk, map};
ghost use Rattle.iam_match.specs.Request.{access_of};
ghost use Rattle.iam_match.specs.Statement.{ResourceMatches};
ghost use Rattle.iam_decision.specs.Code.Scan.{placed_value};
ghost use Rattle.iam_decision.specs.Living.{AreActing, AreLiving, living_of, living_value};
ghost use Rattle.iam_decision.specs.Matched.{Placed};

use crate::place::Place;
use crate::scan::Standing;
use iam_match::{
    Access, Grant, OutOfMemory, Requester, action_matches, grant_kind, rest_matches_with,
};
use iam_policy::{Actions, Effect};
use std::alloc::Global;

/// A statement that matches a request: where it stands, its effect, and what its principals grant the requester.
#[derive(Clone, Copy, Debug, PartialEq, Eq)]
pub struct Matched {
    pub place: Place,
    pub effect: Effect,
    pub grant: Grant,
}

/// A statement that matches a request once its action element does.
#[derive(Clone, Copy)]
pub struct Living<'a> {
    pub matched: Matched,
    pub action: &'a Actions,
}

/// Adds the statement to the living ones of those before it, if it lives: if it matches requests for this access once its action
/// element does. It may be known already whether its resource element matches.
#[inline(always)]
pub fn add_living<'a: 'c, 'c>(
    alloc: Global,
    living: &mut Vec<Living<'a>>,
    standing: Standing<'a>,
    access: Access<'_, 'c>,
    resource: Option<bool>,
) -> Result<(), OutOfMemory>
    requires { IfSome resource (λ known.
        IsTrue known ↔ ResourceMatches standing.statement.now.resource access.resource.now access.context.now) }
    ensures { OnOk result ((before : List Placed) → AreLiving (access_of access.entry) before (map living_value living.old.items)
        → AreLiving (access_of access.entry) (before ++ placed_value standing.entry ∷ []) (map living_value living.new.items)) }
{
    if !rest_matches_with(alloc, standing.statement, access, resource)? {
        return Ok(());
    }
    push_living(living, standing, access.requester)?;
    Ok(())
}

/// Adds the statement, which lives, with what its principals grant the requester.
pub fn push_living<'a>(
    living: &mut Vec<Living<'a>>,
    standing: Standing<'a>,
    requester: &Requester,
) -> Result<(), OutOfMemory>
    ensures { OnOk result (map living_value living.new.items
        ≡ map living_value living.old.items ++ living_of requester.now (placed_value standing.entry) ∷ []) }
{
    let statement = standing.statement;
    let matched = Matched {
        place: standing.place,
        effect: statement.effect(),
        grant: grant_kind(statement, requester),
    };
    living.push(Living {
        matched,
        action: statement.action(),
    })?;
    Ok(())
}

/// Those of the statements that live, in their order.
pub fn living_among<'a: 'c, 'c>(
    alloc: Global,
    statements: &[Standing<'a>],
    access: Access<'_, 'c>,
) -> Result<Vec<Living<'a>>, OutOfMemory>
    ensures { IfOk result (λ living. AreLiving (access_of access.entry) (map placed_value statements.now) (map living_value living.items)) }
{
    let mut living = Vec::new(alloc);
    for &statement in statements {
        add_living(alloc, &mut living, statement, access, None)?;
    }
    Ok(living)
}

/// Those of the living statements whose action elements match the action.
pub fn acting(
    alloc: Global,
    living: &[Living<'_>],
    action: &str,
) -> Result<Vec<Matched>, OutOfMemory>
    ensures { IfOk result (λ found. AreActing action.now (map living_value living.now) found.items) }
{
    let mut found = Vec::new(alloc);
    for statement in living {
        if action_matches(statement.action, action) {
            found.push(statement.matched)?;
        }
    }
    Ok(found)
}

/// Whether both statements are the same.
fn is_same(one: &Living<'_>, other: &Living<'_>) -> bool
    ensures { IsTrue result → living_value one.now ≡ living_value other.now }
{
    one.matched == other.matched && one.action.equals(other.action)
}

/// `true` only where both lists have the same statements in the same order.
pub fn are_same(ones: &[Living<'_>], others: &[Living<'_>]) -> bool
    ensures { IsTrue result → map living_value ones.now ≡ map living_value others.now }
{
    if ones.len() != others.len() {
        return false;
    }
    for i in 0..ones.len() {
        if !is_same(&ones[i], &others[i]) {
            return false;
        }
    }
    true
}
