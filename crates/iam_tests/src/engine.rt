// Engines that are asked for the same cells again and again, in any order, and that were refused memory.
ghost use Rattle.std.specs.Prelude.{◌≡◌, IfOk, length};

use crate::matrix::{HOME, is_decision, is_verdict};
use iam_classes::{ClassEngine, Index};
use iam_layers::{Decision, Layer, Place, Verdict, World};
use iam_living::{Survey, Surveyor};
use std::alloc::Global;
use std::test::Fail;

/// An engine that decides cells of a world, each asked for once more where memory was refused.
pub trait Decides {
    /// The verdict on a cell, where the world has it.
    fn verdict_on(&mut self, alloc: Global, cell: u64) -> Result<Option<Verdict>, Fail>;

    /// The decision on a cell, where the world has it.
    fn decision_on(&mut self, alloc: Global, cell: u64) -> Result<Option<Decision>, Fail>;
}

impl<'a> Decides for ClassEngine<'a> {
    fn verdict_on(&mut self, alloc: Global, cell: u64) -> Result<Option<Verdict>, Fail> {
        if cell >= self.world().cells() {
            return Ok(None);
        }
        match self.decide(alloc, cell) {
            Ok(verdict) => Ok(Some(verdict)),
            Err(_) => Ok(Some(self.decide(alloc, cell)?)),
        }
    }

    fn decision_on(&mut self, alloc: Global, cell: u64) -> Result<Option<Decision>, Fail> {
        if cell >= self.world().cells() {
            return Ok(None);
        }
        match self.decide_brief(alloc, cell) {
            Ok(decision) => Ok(Some(decision)),
            Err(_) => Ok(Some(self.decide_brief(alloc, cell)?)),
        }
    }
}

/// How an engine is asked for a cell.
#[derive(Clone, Copy)]
pub enum Way {
    Full,
    Brief,
    /// In brief, and then in full.
    Both,
}

/// Whether the engine says of a cell what the policies say.
fn says<E: Decides>(alloc: Global, engine: &mut E, cell: u64) -> Result<bool, Fail> {
    match engine.verdict_on(alloc, cell)? {
        Some(verdict) => Ok(is_verdict(cell as usize, &verdict)),
        None => Ok(false),
    }
}

/// Whether the engine says it in brief.
fn says_briefly<E: Decides>(alloc: Global, engine: &mut E, cell: u64) -> Result<bool, Fail> {
    match engine.decision_on(alloc, cell)? {
        Some(decision) => Ok(is_decision(cell as usize, decision)),
        None => Ok(false),
    }
}

/// Whether the engine answers each of these cells, one after the other, as the policies say.
pub fn answers_all<E: Decides>(
    alloc: Global,
    engine: &mut E,
    way: Way,
    cells: &[u64],
) -> Result<bool, Fail> {
    for &cell in cells {
        let is_right = match way {
            Way::Full => says(alloc, engine, cell)?,
            Way::Brief => says_briefly(alloc, engine, cell)?,
            Way::Both => says_briefly(alloc, engine, cell)? && says(alloc, engine, cell)?,
        };
        if !is_right {
            return Ok(false);
        }
    }
    Ok(true)
}

/// All cells of the world of twelve.
pub const EACH: [u64; 12] = [0, 1, 2, 3, 4, 5, 6, 7, 8, 9, 10, 11];

/// What is asked of the index of a world.
#[derive(Clone, Copy)]
enum Asked<'c> {
    /// Whether one engine, of so many, answers each of these cells as the policies say.
    Answers(u32, &'c [u64]),
    /// Whether one engine, of so many, allows of these cells just those that are to be allowed.
    AllowsJust(u32, &'c [u64], &'c [u64]),
    /// Whether a survey finds each of the six pairs and no other, and an engine that begins with it answers all twelve cells.
    Survey,
    /// Whether the candidates for the first action are the first four statements of a user's policy.
    Candidates,
}

/// Whether it is so in the world of a document.
fn is_so(alloc: Global, document: &str, asked: Asked<'_>) -> Result<bool, Fail> {
    let world = World::read(alloc, document.as_bytes())?;
    let index = Index::build(alloc, &world)?;
    is_so_by(alloc, &index, asked)
}

fn is_so_by(alloc: Global, index: &Index<'_>, asked: Asked<'_>) -> Result<bool, Fail> {
    match asked {
        Asked::Answers(engines, cells) => answers_by(alloc, index, engines, cells),
        Asked::AllowsJust(engines, cells, allowed) => {
            allows_just(alloc, index, engines, cells, allowed)
        }
        Asked::Survey => is_surveyed(alloc, index),
        Asked::Candidates => are_candidates(alloc, index),
    }
}

fn answers_by(alloc: Global, index: &Index<'_>, engines: u32, cells: &[u64]) -> Result<bool, Fail> {
    let mut engine = ClassEngine::new(alloc, index, engines)?;
    answers_all(alloc, &mut engine, Way::Both, cells)
}

#[test]
fn cells_in_any_order_by_one_engine(rt: HostRuntime) -> Result<(), Fail> {
    let orders: [&[u64]; 3] = [
        &[11, 8, 0, 5, 11, 9, 8, 0],
        &EACH,
        &[11, 10, 9, 8, 7, 6, 5, 4, 3, 2, 1, 0, 3, 7, 11, 2, 6, 10],
    ];
    for cells in orders {
        // Where engines are many, each keeps nothing.
        for engines in [1, 4_000_000] {
            assert!(rt; is_so(rt.alloc(), HOME, Asked::Answers(engines, cells))?);
        }
    }
    Ok(())
}

/// Two users, of whom ann may get what is in b; of its objects one is of another account, and one of that account has a policy that
/// names ann.
const SHARES: &str =
    r#"{"moment":0,"accounts":[{"id":"111122223333"},{"id":"444455556666"}],"principals":[
{"user":"arn:aws:iam::111122223333:user/ann","identity":[{"Version":"2012-10-17","Statement":
{"Effect":"Allow","Action":"s3:GetObject","Resource":"arn:aws:s3:::b/*"}}]},
{"user":"arn:aws:iam::111122223333:user/bob","identity":[]}],
"actions":["s3:GetObject","s3:PutObject"],"resources":[{"arn":"arn:aws:s3:::b/1","account":"111122223333"},
{"arn":"arn:aws:s3:::b/2","account":"111122223333"},{"arn":"arn:aws:s3:::b/3","account":"444455556666"},
{"arn":"arn:aws:s3:::b/4","account":"444455556666","policy":{"Version":"2012-10-17","Statement":{"Effect":"Allow",
"Principal":{"AWS":"arn:aws:iam::111122223333:user/ann"},"Action":"s3:GetObject","Resource":"arn:aws:s3:::b/4"}}},
{"arn":"arn:aws:s3:::c/5","account":"111122223333"}]}"#;

fn allows_just(
    alloc: Global,
    index: &Index<'_>,
    engines: u32,
    cells: &[u64],
    allowed: &[u64],
) -> Result<bool, Fail> {
    let mut engine = ClassEngine::new(alloc, index, engines)?;
    for &cell in cells {
        let Some(decision) = engine.decision_on(alloc, cell)? else {
            return Ok(false);
        };
        if (decision == Decision::Allowed) != allowed.contains(&cell) {
            return Ok(false);
        }
    }
    Ok(true)
}

#[test]
fn the_same_statements_live_in_requests_that_are_decided_otherwise(
    rt: HostRuntime,
) -> Result<(), Fail> {
    let orders: [&[u64]; 3] = [
        &[
            0, 1, 2, 3, 4, 5, 6, 7, 8, 9, 10, 11, 12, 13, 14, 15, 16, 17, 18, 19,
        ],
        &[13, 3, 12, 2, 11, 1, 10, 0, 14, 4],
        &[2, 0, 3, 1, 4, 10, 0, 12, 2],
    ];
    for cells in orders {
        for engines in [1, 4_000_000] {
            let asked = Asked::AllowsJust(engines, cells, &[0, 1, 3]);
            assert!(rt; is_so(rt.alloc(), SHARES, asked)?);
        }
    }
    Ok(())
}

// Of itself this shows nothing that the test of cells in any order does not: tools/tests/test_refused.py refuses it each call of
// the allocator.
#[test]
fn cells_asked_again(rt: HostRuntime) -> Result<(), Fail> {
    assert!(rt; is_so(rt.alloc(), HOME, Asked::Answers(1, &EACH))?);
    Ok(())
}

/// A survey of the six pairs of a world.
fn survey_of<'a>(alloc: Global, index: &'a Index<'a>) -> Result<Survey<'a>, Fail>
    ensures { IfOk result (λ survey. survey ≡ index.entry.now) }
{
    let mut surveyor = Surveyor::new(alloc, index, 1)?;
    let block = surveyor.block(alloc, 0, 6)?;
    let mut blocks = Vec::new(alloc);
    blocks.push(block)?;
    Ok(Survey::of(index, 6, blocks))
}

fn is_surveyed(alloc: Global, index: &Index<'_>) -> Result<bool, Fail> {
    let survey = survey_of(alloc, index)?;
    for pair in 0..8 {
        if pair % 2 >= resources_of(&survey) {
            return Ok(false);
        }
        if survey.shared(pair / 2, pair % 2).is_some() != (pair < 6) {
            return Ok(false);
        }
    }
    let mut engine = ClassEngine::surveyed(alloc, &survey, 1)?;
    answers_all(alloc, &mut engine, Way::Both, &EACH)
}

fn resources_of(survey: &Survey<'_>) -> u64
    ensures { result ≡ length survey.now.resources }
{
    survey.index().world().resources()
}

#[test]
fn a_survey_finds_each_pair_and_an_engine_begins_with_it(rt: HostRuntime) -> Result<(), Fail> {
    assert!(rt; is_so(rt.alloc(), HOME, Asked::Survey)?);
    Ok(())
}

/// One document of five statements for one action.
const FIVE: &str =
    r#"{"moment":0,"accounts":[{"id":"111122223333"}],"principals":[{"user":"arn:aws:iam::111122223333:user/ann",
"identity":[{"Version":"2012-10-17","Statement":[
{"Effect":"Allow","Action":["S3:Get*","s3:getobject"],"Resource":"*"},{"Effect":"Allow","Action":"s*:GetObject","Resource":"*"},
{"Effect":"Allow","Action":"*","Resource":"*"},{"Effect":"Allow","NotAction":"iam:*","Resource":"*"},
{"Effect":"Allow","Action":"ec2:*","Resource":"*"}]}]}],
"actions":["S3:getobject"],"resources":[{"arn":"arn:aws:s3:::b/k","account":"111122223333"}]}"#;

fn are_candidates(alloc: Global, index: &Index<'_>) -> Result<bool, Fail> {
    if index.world().cells() == 0 {
        return Ok(false);
    }
    let candidates = index.candidates(alloc, 0)?;
    let mut places = candidates.iter().enumerate();
    let is_each = places.all(|(statement, place)| is_identity(*place, statement));
    Ok(is_each && candidates.len() == 4)
}

/// Whether a place is this statement of the first identity policy.
fn is_identity(place: Place, statement: usize) -> bool {
    place.layer == Layer::Identity
        && place.level == 0
        && place.policy == 0
        && place.statement as usize == statement
}

#[test]
fn candidates_are_the_statements_that_act(rt: HostRuntime) -> Result<(), Fail> {
    assert!(rt; is_so(rt.alloc(), FIVE, Asked::Candidates)?);
    Ok(())
}
