// Cuts, and the matrix by many workers.
ghost use Rattle.std.specs.Prelude.{◌≡◌, sum};
ghost use Rattle.iam_world.specs.World.{world_cells};

use iam_layers::{Decision, Layer, Place, Verdict, World};
use iam_matrix::{
    Cut, CutFault, MatrixFault, Open, csv_brief, csv_text, first, json_brief, json_text, matrix,
    matrix_brief,
};
use std::alloc::Global;
use std::test::Fail;
use std::thread::Threads;

#[test]
fn cuts_of_given_lengths(rt: HostRuntime) -> Result<(), Fail> {
    let alloc = rt.alloc();
    let many = vec![in alloc; 1; 4097]?;
    let refused: [(&[u64], u64, CutFault); 4] = [
        (&[5, 6], 12, CutFault::WrongSum),
        (&[0, 12], 12, CutFault::ZeroTile),
        (&[18_446_744_073_709_551_615, 1], 0, CutFault::WrongSum),
        (many.as_slice(), 4097, CutFault::TooMany),
    ];
    for (lengths, cells, fault) in refused {
        assert_eq!(rt; Cut::new(alloc, lengths, cells).err(), Some(fault));
    }
    let accepted: [&[u64]; 2] = [&[12], &[5, 7]];
    for lengths in accepted {
        assert_eq!(rt; Cut::new(alloc, lengths, 12)?.lengths(), lengths);
    }
    Ok(())
}

/// Ann and bob may get what is in their own homes, and the role may do all of S3 to what is in bob's.
pub const HOME: &str = r#"{"moment":0,"accounts":[{"id":"111122223333"}],"principals":[
    {"user":"arn:aws:iam::111122223333:user/ann","identity":[{"Version":"2012-10-17","Statement":
        {"Effect":"Allow","Action":"s3:GetObject","Resource":"arn:aws:s3:::home/${aws:username}/*"}}]},
    {"user":"arn:aws:iam::111122223333:user/bob","identity":[{"Version":"2012-10-17","Statement":
        {"Effect":"Allow","Action":"s3:GetObject","Resource":"arn:aws:s3:::home/${aws:username}/*"}}]},
    {"role":"arn:aws:iam::111122223333:role/app/dev","session":"s1","identity":[{"Version":"2012-10-17","Statement":
        [{"Effect":"Allow","Action":["s3:*"],"Resource":"arn:aws:s3:::home/bob/?"}]}]}],
    "actions":["s3:GetObject","s3:PutObject"],"resources":[
    {"arn":"arn:aws:s3:::home/ann/x","account":"111122223333"},
    {"arn":"arn:aws:s3:::home/bob/x","account":"111122223333"}]}"#;

/// Its allowed cells: ann gets from her home, bob from his, and the role gets from bob's and puts there.
const ALLOWED: [usize; 4] = [0, 5, 9, 11];

/// Its report.
pub const CSV: &str = "cell,principal,action,resource,decision,statements,lacks\n\
    0,arn:aws:iam::111122223333:user/ann,s3:GetObject,arn:aws:s3:::home/ann/x,allowed,identity/0/0,\n\
    1,arn:aws:iam::111122223333:user/ann,s3:GetObject,arn:aws:s3:::home/bob/x,implicitDeny,,identity\n\
    2,arn:aws:iam::111122223333:user/ann,s3:PutObject,arn:aws:s3:::home/ann/x,implicitDeny,,identity\n\
    3,arn:aws:iam::111122223333:user/ann,s3:PutObject,arn:aws:s3:::home/bob/x,implicitDeny,,identity\n\
    4,arn:aws:iam::111122223333:user/bob,s3:GetObject,arn:aws:s3:::home/ann/x,implicitDeny,,identity\n\
    5,arn:aws:iam::111122223333:user/bob,s3:GetObject,arn:aws:s3:::home/bob/x,allowed,identity/0/0,\n\
    6,arn:aws:iam::111122223333:user/bob,s3:PutObject,arn:aws:s3:::home/ann/x,implicitDeny,,identity\n\
    7,arn:aws:iam::111122223333:user/bob,s3:PutObject,arn:aws:s3:::home/bob/x,implicitDeny,,identity\n\
    8,arn:aws:sts::111122223333:assumed-role/dev/s1,s3:GetObject,arn:aws:s3:::home/ann/x,implicitDeny,,identity\n\
    9,arn:aws:sts::111122223333:assumed-role/dev/s1,s3:GetObject,arn:aws:s3:::home/bob/x,allowed,identity/0/0,\n\
    10,arn:aws:sts::111122223333:assumed-role/dev/s1,s3:PutObject,arn:aws:s3:::home/ann/x,implicitDeny,,identity\n\
    11,arn:aws:sts::111122223333:assumed-role/dev/s1,s3:PutObject,arn:aws:s3:::home/bob/x,allowed,identity/0/0,\n";

/// Ann and what she may get, and may not.
const PAIR: &str = r#"{"moment":0,"accounts":[{"id":"111122223333"}],"principals":[
    {"user":"arn:aws:iam::111122223333:user/ann","identity":[{"Version":"2012-10-17","Statement":
        {"Effect":"Allow","Action":"s3:GetObject","Resource":"arn:aws:s3:::home/${aws:username}/*"}}]}],
    "actions":["s3:GetObject"],"resources":[
    {"arn":"arn:aws:s3:::home/ann/x","account":"111122223333"},
    {"arn":"arn:aws:s3:::home/bob/x","account":"111122223333"}]}"#;

/// Its report as JSON.
const PAIR_JSON: &str =
    r#"[{"action":"s3:GetObject","cell":0,"decision":"allowed","lacks":[],"principal":"arn:aws:iam::111122223333:user/ann","resource":"arn:aws:s3:::home/ann/x","statements":["identity/0/0"]},{"action":"s3:GetObject","cell":1,"decision":"implicitDeny","lacks":["identity"],"principal":"arn:aws:iam::111122223333:user/ann","resource":"arn:aws:s3:::home/bob/x","statements":[]}]
"#;

/// Its reports in brief.
const PAIR_CSV_BRIEF: &str = "cell,principal,action,resource,decision\n\
    0,arn:aws:iam::111122223333:user/ann,s3:GetObject,arn:aws:s3:::home/ann/x,allowed\n\
    1,arn:aws:iam::111122223333:user/ann,s3:GetObject,arn:aws:s3:::home/bob/x,implicitDeny\n";

const PAIR_JSON_BRIEF: &str =
    r#"[{"action":"s3:GetObject","cell":0,"decision":"allowed","principal":"arn:aws:iam::111122223333:user/ann","resource":"arn:aws:s3:::home/ann/x"},{"action":"s3:GetObject","cell":1,"decision":"implicitDeny","principal":"arn:aws:iam::111122223333:user/ann","resource":"arn:aws:s3:::home/bob/x"}]
"#;

/// The twelve cells again, but nobody has a policy.
pub const DENIED: &str = r#"{"moment":0,"accounts":[{"id":"111122223333"}],"principals":[
    {"user":"arn:aws:iam::111122223333:user/ann"},{"user":"arn:aws:iam::111122223333:user/bob"},
    {"role":"arn:aws:iam::111122223333:role/app/dev","session":"s1"}],
    "actions":["s3:GetObject","s3:PutObject"],"resources":[
    {"arn":"arn:aws:s3:::home/ann/x","account":"111122223333"},
    {"arn":"arn:aws:s3:::home/bob/x","account":"111122223333"}]}"#;

/// Where the statement stands that allows a cell.
const PLACE: Place = Place {
    layer: Layer::Identity,
    level: 0,
    policy: 0,
    statement: 0,
};

/// Whether it is what the policies say of the cell.
pub fn is_verdict(cell: usize, verdict: &Verdict) -> bool {
    let is_allowed = ALLOWED.contains(&cell);
    let statements = verdict.statements.as_slice();
    let lacks = verdict.lacks.as_slice();
    match verdict.decision {
        Decision::Allowed => is_allowed && statements == [PLACE].as_slice() && lacks.is_empty(),
        Decision::ExplicitDeny => false,
        Decision::ImplicitDeny => {
            !is_allowed && statements.is_empty() && lacks == [Layer::Identity].as_slice()
        }
    }
}

pub fn is_decision(cell: usize, decision: Decision) -> bool {
    match decision {
        Decision::Allowed => ALLOWED.contains(&cell),
        Decision::ExplicitDeny => false,
        Decision::ImplicitDeny => !ALLOWED.contains(&cell),
    }
}

pub fn are_verdicts(verdicts: &[Verdict]) -> bool {
    let mut cells = verdicts.iter().enumerate();
    verdicts.len() == 12 && cells.all(|(cell, verdict)| is_verdict(cell, verdict))
}

pub fn are_decisions(decisions: &[Decision]) -> bool {
    let mut cells = decisions.iter().enumerate();
    decisions.len() == 12 && cells.all(|(cell, decision)| is_decision(cell, *decision))
}

/// Whether so many workers find what the policies of the twelve cells say.
fn is_right<R: Threads + Sync>(
    rt: &R,
    alloc: Global,
    world: &World,
    cut: &Cut,
    workers: u32,
) -> Result<bool, MatrixFault>
    requires { sum cut.now ≡ world_cells world.now }
{
    let verdicts = matrix(rt, alloc, world, cut, workers, &Open)?;
    let decisions = matrix_brief(rt, alloc, world, cut, workers, &Open)?;
    let cell = first(rt, alloc, world, cut, workers, &Open)?;
    Ok(are_verdicts(&verdicts) && are_decisions(&decisions) && cell == Some(0))
}

/// Whether 1, 4 and 64 workers do so in tiles of these lengths.
fn are_right<R: Threads + Sync>(rt: &R, alloc: Global, lengths: &[u64]) -> Result<bool, Fail> {
    let world = World::read(alloc, HOME.as_bytes())?;
    let cut = Cut::new(alloc, lengths, world.cells())?;
    for workers in [1, 4, 64] {
        if !is_right(rt, alloc, &world, &cut, workers)? {
            return Ok(false);
        }
    }
    Ok(true)
}

#[test]
fn the_matrix_by_each_cut_and_number_of_workers(rt: HostRuntime) -> Result<(), Fail> {
    let cuts: [&[u64]; 3] = [&[12], &[5, 7], &[1, 1, 1, 1, 1, 1, 1, 1, 1, 1, 1, 1]];
    for lengths in cuts {
        assert!(rt; are_right(&rt, rt.alloc(), lengths)?);
    }
    Ok(())
}

/// Whether what two workers bring, in tiles of this length, has this text, in full or in brief.
fn has_text<R: Threads + Sync>(
    rt: &R,
    alloc: Global,
    document: &str,
    tile: u64,
    json: bool,
    brief: bool,
    text: &str,
) -> Result<bool, Fail> {
    let world = World::read(alloc, document.as_bytes())?;
    let cut = Cut::even(alloc, tile, world.cells())?;
    let found = if brief {
        brief_text(rt, alloc, &world, &cut, json)?
    } else {
        full_text(rt, alloc, &world, &cut, json)?
    };
    Ok(found.as_slice() == text.as_bytes())
}

fn full_text<R: Threads + Sync>(
    rt: &R,
    alloc: Global,
    world: &World,
    cut: &Cut,
    json: bool,
) -> Result<Vec<u8>, MatrixFault>
    requires { sum cut.now ≡ world_cells world.now }
{
    let verdicts = matrix(rt, alloc, world, cut, 2, &Open)?;
    if json {
        Ok(json_text(alloc, world, &verdicts)?)
    } else {
        Ok(csv_text(alloc, world, &verdicts)?)
    }
}

fn brief_text<R: Threads + Sync>(
    rt: &R,
    alloc: Global,
    world: &World,
    cut: &Cut,
    json: bool,
) -> Result<Vec<u8>, MatrixFault>
    requires { sum cut.now ≡ world_cells world.now }
{
    let decisions = matrix_brief(rt, alloc, world, cut, 2, &Open)?;
    if json {
        Ok(json_brief(alloc, world, &decisions)?)
    } else {
        Ok(csv_brief(alloc, world, &decisions)?)
    }
}

// The program makes its reports of pieces.
#[test]
fn the_texts_of_lists(rt: HostRuntime) -> Result<(), Fail> {
    let texts = [
        (HOME, 5, false, false, CSV),
        (PAIR, 1, true, false, PAIR_JSON),
        (PAIR, 1, false, true, PAIR_CSV_BRIEF),
        (PAIR, 1, true, true, PAIR_JSON_BRIEF),
    ];
    for (document, tile, json, brief, text) in texts {
        assert!(rt; has_text(&rt, rt.alloc(), document, tile, json, brief, text)?);
    }
    Ok(())
}
