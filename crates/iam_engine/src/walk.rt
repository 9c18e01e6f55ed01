// Walks over the candidates of a request that leave untested what no longer matters.
ghost use Rattle.std.specs.Prelude.{◌≡◌, ◌↔◌, ◌<◌, ℕ, IfOk, IsTrue, List, MatchBool, OnOk, length, map};
ghost use Rattle.std.specs.List.{Any};
ghost use Rattle.iam_match.specs.Request.{access_of};
ghost use Rattle.iam_match.specs.Statement.{request_for};
ghost use Rattle.iam_policy.specs.declared.effect.Effect.TheVariants.{Deny};
ghost use Rattle.iam_decision.specs.Applicable.{ApplicableValue};
ghost use Rattle.iam_decision.specs.Code.Scan.{placed_value};
ghost use Rattle.iam_decision.specs.Decision.{IsDecision, IsVerdict, Says};
ghost use Rattle.iam_decision.specs.Early.{Suffices, Tells};
ghost use Rattle.iam_decision.specs.Living.{item_of};
ghost use Rattle.iam_layers.specs.Cell.{IsAction, IsApplicableAt};
ghost use Rattle.iam_index.specs.Index.{AllAct};
ghost use Rattle.iam_engine.specs.Cache.{HasArn};
ghost use Rattle.iam_engine.specs.Walk.{Finds, FindsAsked, FindsDeny, FindsOpen};

use crate::cache::{MatchCache, rest_matches};
use iam_decision::{
    Findings, candidates_suffice, deny_decides, early_decision, early_verdict, is_open,
    suffices_one_by_one, tells_one_by_one,
};
use iam_index::Index;
use iam_layers::{Decision, Matched, Standing, Verdict};
use iam_match::{Access, Requester, grant_kind};
use iam_policy::Effect;
use iam_text::OutOfMemory;
use std::alloc::Global;

/// The verdict on the request for action a that is so accessed, of principal p for resource r: of its candidates alone.
pub fn verdict<'a>(
    alloc: Global,
    index: &Index<'a>,
    cache: &mut MatchCache<'_>,
    findings: &mut Findings,
    access: Access<'_, '_>,
    p: u64,
    a: u64,
    r: u64,
) -> Result<Verdict, OutOfMemory>
    requires principal { p < length index.now.principals }
    requires action { a < length index.now.actions }
    requires resource { r < length index.now.resources }
    requires arn { HasArn cache.old r access.resource.now }
    ensures verdict { (applicable : ApplicableValue) (action : List ℕ) → IsApplicableAt index.now p r applicable → IsAction index.now a action
        → IfOk result (IsVerdict applicable (request_for (access_of access.entry) action)) }
    ensures same { cache.new ≡ cache.old }
{
    candidates_suffice();
    let candidates = index.candidates_at(alloc, p, a, r)?;
    find_all(alloc, cache, findings, candidates.as_slice(), access, r)?;
    early_verdict(alloc, index.frame(p, r), findings.as_slice())
}

/// The decision on such a request.
pub fn decision<'a>(
    alloc: Global,
    index: &Index<'a>,
    cache: &mut MatchCache<'_>,
    findings: &mut Findings,
    access: Access<'_, '_>,
    p: u64,
    a: u64,
    r: u64,
) -> Result<Decision, OutOfMemory>
    requires principal { p < length index.now.principals }
    requires action { a < length index.now.actions }
    requires resource { r < length index.now.resources }
    requires arn { HasArn cache.old r access.resource.now }
    ensures decision { (applicable : ApplicableValue) (action : List ℕ) → IsApplicableAt index.now p r applicable → IsAction index.now a action
        → IfOk result (IsDecision applicable (request_for (access_of access.entry) action)) }
    ensures same { cache.new ≡ cache.old }
{
    candidates_suffice();
    deny_decides();
    let candidates = index.candidates_at(alloc, p, a, r)?;
    if is_denied(alloc, cache, findings, candidates.as_slice(), access, r)? {
        return Ok(Decision::ExplicitDeny);
    }
    Ok(early_decision(index.frame(p, r), findings.as_slice()))
}

/// Puts into `findings`, in place of what is there, what the verdict on a request asks for, of these candidates for its action:
/// once a deny matches, allows are not tested. The request is for resource r.
fn find_all<'a: 'c, 'c>(
    alloc: Global,
    cache: &mut MatchCache<'_>,
    findings: &mut Findings,
    candidates: &[Standing<'a>],
    access: Access<'_, 'c>,
    r: u64,
) -> Result<(), OutOfMemory>
    requires { HasArn cache.old r access.resource.now }
    ensures enough { OnOk result ((action : List ℕ) → AllAct action candidates.now
        → Suffices (request_for (access_of access.entry) action) (map placed_value candidates.now) findings.new) }
    ensures same { cache.new ≡ cache.old }
{
    suffices_one_by_one();
    findings.clear();
    for &standing in candidates {
        add_asked(alloc, cache, findings, standing, access, r)?;
    }
    Ok(())
}

/// Whether one of these candidates for a request's action matches and denies: the walk ends at the first. Where none does, what
/// is then in `findings` tells the decision: an allow is tested only where it still matters. The request is for resource r.
fn is_denied<'a: 'c, 'c>(
    alloc: Global,
    cache: &mut MatchCache<'_>,
    findings: &mut Findings,
    candidates: &[Standing<'a>],
    access: Access<'_, 'c>,
    r: u64,
) -> Result<bool, OutOfMemory>
    requires { HasArn cache.old r access.resource.now }
    ensures told { IfOk result (λ denied. (action : List ℕ) → AllAct action candidates.now
        → MatchBool denied (Any (Says (request_for (access_of access.entry) action) Deny) (map placed_value candidates.now))
        (Tells (request_for (access_of access.entry) action) (map placed_value candidates.now) findings.new)) }
    ensures same { cache.new ≡ cache.old }
{
    tells_one_by_one();
    findings.clear();
    for &standing in candidates {
        if denies(alloc, cache, findings, standing, access, r)? {
            return Ok(true);
        }
    }
    Ok(false)
}

/// Adds the candidate if it matches, and the verdict still asks for it.
fn add_asked<'a: 'c, 'c>(
    alloc: Global,
    cache: &mut MatchCache<'_>,
    findings: &mut Findings,
    standing: Standing<'a>,
    access: Access<'_, 'c>,
    r: u64,
) -> Result<(), OutOfMemory>
    requires { HasArn cache.old r access.resource.now }
    ensures found { OnOk result (FindsAsked (access_of access.entry) (placed_value standing.entry) findings.old findings.new) }
    ensures same { cache.new ≡ cache.old }
{
    if !findings.asks(standing.statement.effect()) {
        return Ok(());
    }
    add_match(alloc, cache, findings, standing, access, r)?;
    Ok(())
}

/// Whether the candidate matches and denies. One that allows is added if it matches, and still matters.
fn denies<'a: 'c, 'c>(
    alloc: Global,
    cache: &mut MatchCache<'_>,
    findings: &mut Findings,
    standing: Standing<'a>,
    access: Access<'_, 'c>,
    r: u64,
) -> Result<bool, OutOfMemory>
    requires { HasArn cache.old r access.resource.now }
    ensures told { IfOk result (FindsDeny (access_of access.entry) (placed_value standing.entry) findings.old findings.new) }
    ensures same { cache.new ≡ cache.old }
{
    match standing.statement.effect() {
        Effect::Deny => rest_matches(alloc, cache, standing.statement, access, r),
        Effect::Allow => {
            add_open(alloc, cache, findings, standing, access, r)?;
            Ok(false)
        }
    }
}

/// Adds the candidate, which allows, if it matches, and the decision is still open to it.
fn add_open<'a: 'c, 'c>(
    alloc: Global,
    cache: &mut MatchCache<'_>,
    findings: &mut Findings,
    standing: Standing<'a>,
    access: Access<'_, 'c>,
    r: u64,
) -> Result<(), OutOfMemory>
    requires { HasArn cache.old r access.resource.now }
    ensures found { OnOk result (FindsOpen (access_of access.entry) (placed_value standing.entry) findings.old findings.new) }
    ensures same { cache.new ≡ cache.old }
{
    let grant = grant_kind(standing.statement, access.requester);
    if !is_open(findings.as_slice(), standing.place, grant) {
        return Ok(());
    }
    add_match(alloc, cache, findings, standing, access, r)?;
    Ok(())
}

/// Adds the candidate if it matches.
fn add_match<'a: 'c, 'c>(
    alloc: Global,
    cache: &mut MatchCache<'_>,
    findings: &mut Findings,
    standing: Standing<'a>,
    access: Access<'_, 'c>,
    r: u64,
) -> Result<(), OutOfMemory>
    requires { HasArn cache.old r access.resource.now }
    ensures found { OnOk result (Finds (access_of access.entry) (placed_value standing.entry) findings.old findings.new) }
    ensures same { cache.new ≡ cache.old }
{
    if !rest_matches(alloc, cache, standing.statement, access, r)? {
        return Ok(());
    }
    findings.add(matched_of(standing, access.requester))?;
    Ok(())
}

/// What is kept of a statement that matches.
fn matched_of(standing: Standing<'_>, requester: &Requester) -> Matched
    ensures { result ≡ item_of requester.now (placed_value standing.entry) }
{
    Matched {
        place: standing.place,
        effect: standing.statement.effect(),
        grant: grant_kind(standing.statement, requester),
    }
}
