// An engine of single cells, asked in any order, in full and in brief, with a small cache and a large one, and refused memory.
ghost use Rattle.std.specs.Prelude.{◌≤◌};

use crate::engine::{Decides, EACH, Way, answers_all};
use crate::matrix::HOME;
use iam_context::{ContextFault, KeyName, Part, Values};
use iam_engine::{Engine, Index};
use iam_layers::{Decision, Layer, Place, Verdict, World};
use iam_text::Text;
use std::alloc::Global;
use std::test::Fail;

/// One text in a document of either version, which reads it as its own.
const VERSIONS: &str = r#"{"moment":0,"accounts":[{"id":"111122223333"}],"principals":[
    {"user":"arn:aws:iam::111122223333:user/ann","identity":[
        {"Version":"2012-10-17","Statement":{"Effect":"Allow","Action":"s3:GetObject","Resource":"arn:aws:s3:::b/${*}"}},
        {"Statement":{"Effect":"Allow","Action":"s3:GetObject","Resource":"arn:aws:s3:::b/${*}"}}]}],
    "actions":["s3:GetObject"],"resources":[
    {"arn":"arn:aws:s3:::b/*","account":"111122223333"},{"arn":"arn:aws:s3:::b/${q}","account":"111122223333"}]}"#;

/// One text with a variable, in a document whose version has variables and in one whose version has none; the resource has it as
/// the first reads it, and as the second.
const NAMES: &str = r#"{"moment":0,"accounts":[{"id":"111122223333"}],"principals":[
    {"user":"arn:aws:iam::111122223333:user/ann","identity":[
        {"Version":"2012-10-17","Statement":{"Effect":"Allow","Action":"s3:GetObject","Resource":"arn:aws:s3:::home/${aws:username}/*"}},
        {"Statement":{"Effect":"Allow","Action":"s3:GetObject","Resource":"arn:aws:s3:::home/${aws:username}/*"}}]}],
    "actions":["s3:GetObject"],"resources":[
    {"arn":"arn:aws:s3:::home/ann/x","account":"111122223333"},
    {"arn":"arn:aws:s3:::home/${aws:username}/x","account":"111122223333"}]}"#;

/// An allow, and two denies behind it.
const DENIES: &str = r#"{"moment":0,"accounts":[{"id":"111122223333"}],"principals":[
    {"user":"arn:aws:iam::111122223333:user/ann","identity":[{"Version":"2012-10-17","Statement":[
        {"Effect":"Allow","Action":"s3:*","Resource":"*"},{"Effect":"Deny","Action":"s3:GetObject","Resource":"*"},
        {"Effect":"Deny","Action":"s3:*","Resource":"arn:aws:s3:::b/*"}]}]}],
    "actions":["s3:GetObject"],"resources":[{"arn":"arn:aws:s3:::b/k","account":"111122223333"}]}"#;

/// Two accounts, one with levels, the other with control policies; variables, conditions, a boundary, session policies, policies of
/// resources and a sealed one; elements that are negated, and texts that many statements have.
const OFFICE: &str = r#"{"moment":1767225600,"context":{"office":"north"},"accounts":[
    {"id":"111122223333","org":[[{"Version":"2012-10-17","Statement":{"Effect":"Allow","Action":"*","Resource":"*"}}],
        [{"Version":"2012-10-17","Statement":[{"Effect":"Allow","NotAction":"iam:*","Resource":"*"},
            {"Effect":"Deny","Action":"s3:Put*","NotResource":["arn:aws:s3:::*/team-?/*","arn:aws:s3:::open/*"]}]}]]},
    {"id":"444455556666"}],
"principals":[
    {"user":"arn:aws:iam::111122223333:user/ann","context":{"team":"team-1"},"identity":[
        {"Version":"2012-10-17","Statement":[
            {"Effect":"Allow","Action":"s3:*","Resource":"arn:aws:s3:::*/team-?/*"},
            {"Effect":"Allow","Action":"s3:GetObject","Resource":"arn:aws:s3:::*/${team}/?"},
            {"Effect":"Deny","Action":"s3:*","Resource":"arn:aws:s3:::*/team-?/*","Condition":{"StringEquals":{"closed":"true"}}}]}],
        "boundary":{"Version":"2012-10-17","Statement":{"Effect":"Allow","Action":"s3:Get*","Resource":"*"}}},
    {"role":"arn:aws:iam::111122223333:role/app/dev","session":"s1","identity":[
        {"Statement":{"Effect":"Allow","Action":["s3:*","kms:*"],"Resource":["arn:aws:s3:::*/team-?/*","arn:aws:kms:*:key/?"]}}],
        "sessionPolicies":[{"Version":"2012-10-17","Statement":{"Effect":"Allow","Action":"*","NotResource":"arn:aws:s3:::*/team-2/*"}}]},
    {"user":"arn:aws:iam::444455556666:user/eve","context":{"team":"team-2"},"identity":[
        {"Version":"2012-10-17","Statement":{"Effect":"Allow","Action":"*","Resource":"arn:aws:s3:::*/team-?/*",
            "Condition":{"StringEquals":{"office":"north"}}}}]}],
"actions":["s3:GetObject","s3:PutObject","kms:Decrypt"],
"resources":[
    {"arn":"arn:aws:s3:::b/team-1/x","account":"111122223333","policy":{"Version":"2012-10-17","Statement":[
        {"Effect":"Allow","Principal":{"AWS":"444455556666"},"Action":"s3:GetObject","Resource":"arn:aws:s3:::*/team-?/*"},
        {"Effect":"Allow","Principal":{"AWS":"arn:aws:iam::111122223333:role/app/dev"},"Action":"s3:*","Resource":"arn:aws:s3:::b/*"}]}},
    {"arn":"arn:aws:s3:::b/team-2/x","account":"444455556666","control":[[
        {"Version":"2012-10-17","Statement":[{"Effect":"Allow","Principal":"*","Action":"*","Resource":"*"},
        {"Effect":"Deny","Principal":"*","Action":"s3:Put*","Resource":"arn:aws:s3:::*/team-?/*"}]}]]},
    {"arn":"arn:aws:s3:::b/team-1/y","account":"111122223333","context":{"closed":true}},
    {"arn":"arn:aws:kms:eu:111122223333:key/7","account":"111122223333","sealed":true,"policy":{"Version":"2012-10-17",
        "Statement":{"Effect":"Allow","Principal":{"AWS":"arn:aws:iam::111122223333:root"},"Action":"kms:*"}}}]}"#;

/// Whether the engine answers a cell as a scan of all statements does.
fn is_plain(alloc: Global, engine: &mut Engine<'_>, cell: u64) -> Result<bool, Fail> {
    let world = engine.world();
    if cell >= world.cells() {
        return Ok(false);
    }
    let (p, a, r) = world.triple(cell);
    let plain = world.decide_plain(alloc, p, a, r)?;
    let decision = engine.decide_brief(alloc, cell)?;
    let verdict = engine.decide(alloc, cell)?;
    Ok(decision == plain.decision && is_same(&verdict, &plain))
}

fn is_same(one: &Verdict, other: &Verdict) -> bool {
    one.decision == other.decision
        && one.statements.as_slice() == other.statements.as_slice()
        && one.lacks.as_slice() == other.lacks.as_slice()
}

/// Whether a world has so many cells, and one engine answers them all, from this one on and so many apart, one after the other and
/// round again.
fn are_plain(
    alloc: Global,
    document: &str,
    cells: u64,
    capacity: usize,
    from: u64,
    apart: u64,
) -> Result<bool, Fail>
    requires some { 1 ≤ capacity }
    requires few { capacity ≤ 65536 }
{
    let world = World::read(alloc, document.as_bytes())?;
    let built = Index::build(alloc, &world)?;
    let numbered = Index::numbered(alloc, &world)?;
    Ok(
        are_plain_by(alloc, &built, cells, capacity, from, apart)?
            && are_plain_by(alloc, &numbered, cells, capacity, from, apart)?,
    )
}

fn are_plain_by(
    alloc: Global,
    index: &Index<'_>,
    cells: u64,
    capacity: usize,
    from: u64,
    apart: u64,
) -> Result<bool, Fail>
    requires some { 1 ≤ capacity }
    requires few { capacity ≤ 65536 }
{
    if cells == 0 || index.world().cells() != cells {
        return Ok(false);
    }
    let mut engine = Engine::new(alloc, index.world(), index, capacity)?;
    for turn in 0..cells.saturating_mul(2) {
        let cell = turn.wrapping_mul(apart).wrapping_add(from) % cells;
        if !is_plain(alloc, &mut engine, cell)? {
            return Ok(false);
        }
    }
    Ok(true)
}

#[test]
fn all_cells_in_many_orders(rt: HostRuntime) -> Result<(), Fail> {
    // The world, its cells, the first one, and a step that has no factor with their number: up, down, and to and fro.
    let orders = [
        (OFFICE, 36, 0, 1),
        (OFFICE, 36, 0, 35),
        (OFFICE, 36, 0, 7),
        (VERSIONS, 2, 0, 1),
        (VERSIONS, 2, 1, 1),
        (NAMES, 2, 0, 1),
        (NAMES, 2, 1, 1),
        (DENIES, 1, 0, 1),
    ];
    for (document, cells, from, apart) in orders {
        for capacity in [1, 1024] {
            assert!(rt; are_plain(rt.alloc(), document, cells, capacity, from, apart)?);
        }
    }
    Ok(())
}

impl<'a> Decides for Engine<'a> {
    fn verdict_on(&mut self, alloc: Global, cell: u64) -> Result<Option<Verdict>, Fail> {
        if cell >= self.world().cells() {
            return Ok(None);
        }
        match self.decide(alloc, cell) {
            Ok(verdict) => Ok(Some(verdict)),
            Err(_) => Ok(Some(self.decide(alloc, cell)?)),
        }
    }

    fn decision_on(&mut self, alloc: Global, cell: u64) -> Result<Option<Decision>, Fail> {
        if cell >= self.world().cells() {
            return Ok(None);
        }
        match self.decide_brief(alloc, cell) {
            Ok(decision) => Ok(Some(decision)),
            Err(_) => Ok(Some(self.decide_brief(alloc, cell)?)),
        }
    }
}

/// Whether an engine of the twelve cells, which remembers one text on one resource, answers these as the policies say.
fn answers(alloc: Global, way: Way, cells: &[u64]) -> Result<bool, Fail> {
    let world = World::read(alloc, HOME.as_bytes())?;
    let index = Index::build(alloc, &world)?;
    answers_by(alloc, &index, way, cells)
}

fn answers_by(alloc: Global, index: &Index<'_>, way: Way, cells: &[u64]) -> Result<bool, Fail> {
    let mut engine = Engine::new(alloc, index.world(), index, 1)?;
    answers_all(alloc, &mut engine, way, cells)
}

#[test]
fn cells_in_any_order_with_a_cache_of_one(rt: HostRuntime) -> Result<(), Fail> {
    for way in [Way::Full, Way::Brief, Way::Both] {
        assert!(rt; answers(rt.alloc(), way, &[11, 8, 0, 5, 11, 9, 8, 0])?);
        assert!(rt; answers(rt.alloc(), way, &EACH)?);
    }
    Ok(())
}

// tools/tests/test_refused.py refuses this each call of the allocator.
#[test]
fn cells_asked_again(rt: HostRuntime) -> Result<(), Fail> {
    assert!(rt; answers(rt.alloc(), Way::Both, &EACH)?);
    Ok(())
}

/// What a new engine, which is asked for nothing else, says of the first cell of a world: its verdict, or its decision alone.
fn first_verdict(alloc: Global, index: &Index<'_>) -> Result<Option<Verdict>, Fail> {
    let mut engine = Engine::new(alloc, index.world(), index, 1024)?;
    engine.verdict_on(alloc, 0)
}

fn first_decision(alloc: Global, index: &Index<'_>) -> Result<Option<Decision>, Fail> {
    let mut engine = Engine::new(alloc, index.world(), index, 1024)?;
    engine.decision_on(alloc, 0)
}

/// Whether a verdict is an explicit deny by the second and the third statement of the first identity policy.
fn is_denied_twice(verdict: &Verdict) -> bool {
    let places = verdict.statements.as_slice();
    verdict.decision == Decision::ExplicitDeny
        && verdict.lacks.as_slice().is_empty()
        && places.len() == 2
        && is_identity(places[0], 1)
        && is_identity(places[1], 2)
}

fn is_identity(place: Place, statement: u32) -> bool {
    place.layer == Layer::Identity && place.policy == 0 && place.statement == statement
}

#[test]
fn a_deny_decides_in_full_and_in_brief(rt: HostRuntime) -> Result<(), Fail> {
    let alloc = rt.alloc();
    let world = World::read(alloc, DENIES.as_bytes())?;
    for index in [
        Index::build(alloc, &world)?,
        Index::numbered(alloc, &world)?,
    ] {
        assert!(rt; first_verdict(alloc, &index)?.is_some_and(|verdict| is_denied_twice(&verdict)));
        assert!(rt; first_decision(alloc, &index)? == Some(Decision::ExplicitDeny));
    }
    Ok(())
}

/// A key with one value.
fn one_key(alloc: Global, key: &str, value: &str) -> Result<Part, Fail> {
    let mut own: Part = Vec::new(alloc);
    own.push((
        KeyName::given(Text::read(alloc, key)?),
        Values::one(Text::read(alloc, value)?),
    ))?;
    Ok(own)
}

#[test]
fn keys_that_are_given_already_or_follow(rt: HostRuntime) -> Result<(), Fail> {
    let alloc = rt.alloc();
    let world = World::read(alloc, OFFICE.as_bytes())?;
    let rows = [
        ("Office", Err(ContextFault::KeyTwice)),
        ("TEAM", Err(ContextFault::KeyTwice)),
        ("aws:UserName", Err(ContextFault::DerivedKeyGiven)),
        ("closed", Ok(())),
    ];
    for (key, want) in rows {
        let own = one_key(alloc, key, "north")?;
        if world.cells() != 36 {
            return Err("the office has other cells".into());
        }
        let (p, _, r) = world.triple(0);
        assert_eq!(rt; world.check_own(alloc, p, r, &own), want, "at {key}");
    }
    Ok(())
}
