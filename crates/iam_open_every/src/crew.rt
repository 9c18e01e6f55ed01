// The rows of principals that are asked for, found by many workers.
ghost use Rattle.std.specs.Prelude.{◌≡◌, ◌↔◌, ◌<◌, ◌≤◌, [], All, IfOk, IsTrue, MatchBool, is_none, length, map, slice_index};
ghost use Rattle.std.specs.List.{AllZip, list_any};
ghost use Rattle.iam_decision.specs.Matched.{Selects};
ghost use Rattle.iam_every.specs.Every.{AreThere, every_of, line_of};
ghost use Rattle.iam_every.specs.Code.Rows.{AreMatched, AreWalksOf};
ghost use Rattle.iam_open_every.specs.Code.Texts.{IsChosen, IsTile};
ghost use Rattle.iam_open_every.specs.Report.{IsWanted};
ghost use Rattle.iam_open_every.specs.Row.{row_of};

use crate::rows::{Row, rows_of};
use iam_crew::{Bound, Crew, Gate, gather};
use iam_every::{Asked, matched_resources, names_of};
use iam_kinds::Walks;
use iam_match::OutOfMemory;
use iam_open::{Word, word_of};
use iam_text::Items;
use std::alloc::Global;
use std::thread::Threads;

/// How many principals a crew works off at most.
const TILES: usize = 4096;

/// A principal, and those of its rows that are asked for.
#[derive(Drop)]
pub struct Chosen {
    pub principal: u64,
    pub rows: Items<Row>,
    /// Whether it has rows, whatever is asked for.
    pub some: bool,
    /// Whether one of them is not shown.
    pub unshown: bool,
}

/// Those who find the rows of principals.
#[derive(Clone, Copy)]
pub struct Principals<'a> {
    pub asked: Asked<'a>,
    /// The resources of the world that a line matches.
    pub matched: &'a [u64],
    pub principals: &'a [u64],
    pub words: &'a [Word],
    pub brief: bool,
}

impl<'a> Crew for Principals<'a> {
    type Output = Chosen;

    type Tools = Walks;

    ghost fits = { λ crew walks. AreWalksOf crew.asked.world.now walks };

    ghost takes = { λ crew tile. IsTile crew tile };

    ghost gives = { λ crew tile output _. IsChosen crew.brief (every_of crew.asked) crew.words.now (slice_index crew.principals.now tile) output };

    fn tools(&self, alloc: Global) -> Result<Walks, OutOfMemory> {
        let names = names_of(alloc, self.asked.world)?;
        let walks = Walks::new(alloc, names.as_slice())?;
        Ok(walks)
    }

    fn work(
        &self,
        alloc: Global,
        walks: &mut Walks,
        _bound: &mut Bound<'_>,
        tile: u64,
    ) -> Result<Chosen, OutOfMemory> {
        chosen_of(
            alloc,
            walks,
            self.asked,
            self.matched,
            self.words,
            self.brief,
            self.principals[tile as usize],
        )
    }

    ghost lasts = { λ _ _ _ _ _ _ given. given };
}

/// Whether a row is asked for.
fn is_wanted(row: &Row, words: &[Word]) -> bool
    ensures { IsTrue result ↔ IsWanted words.now (row_of row.now) }
{
    match &row.said {
        Some(said) => words.is_empty() || words.contains(&word_of(&said.turned)),
        None => true,
    }
}

/// Those of the rows that are asked for.
fn wanted(mut rows: Vec<Row>, words: &[Word]) -> Vec<Row>
    ensures { Selects (IsWanted words.now) (map row_of rows.items) (map row_of result.items) }
{
    rows.retain(|row| is_wanted(row, words));
    rows
}

/// Whether there are rows.
fn has_some(rows: &[Row]) -> bool
    ensures { MatchBool result (0 < length rows.now) (rows.now ≡ []) }
{
    !rows.is_empty()
}

/// Whether one of the rows is not shown.
fn has_unshown(rows: &[Row]) -> bool
    ensures { result ≡ list_any (λ row. is_none row.said) rows.now }
{
    rows.iter().any(|row| row.said.is_none())
}

/// The rows of principal p that are asked for.
fn chosen_of(
    alloc: Global,
    walks: &mut Walks,
    asked: Asked<'_>,
    matched: &[u64],
    words: &[Word],
    brief: bool,
    p: u64,
) -> Result<Chosen, OutOfMemory>
    requires principal { p < length asked.world.now.principals }
    requires there { AreThere (every_of asked) }
    requires matched { AreMatched asked.world.now (map line_of asked.lines.now) matched.now }
    requires walks { AreWalksOf asked.world.now walks.old }
    ensures walks { AreWalksOf asked.entry.world.now walks.new }
    ensures chosen { IfOk result (IsChosen brief (every_of asked.entry) words.now p) }
{
    let rows = rows_of(alloc, walks, asked, matched, p, brief)?;
    let some = has_some(rows.as_slice());
    let unshown = has_unshown(rows.as_slice());
    Ok(Chosen {
        principal: p,
        rows: Items::from_vec(wanted(rows, words)),
        some,
        unshown,
    })
}

/// The rows of a few principals that are asked for, in the order of these.
fn chosen_of_few<R: Threads + Sync, G: Gate + Sync>(
    rt: &R,
    alloc: Global,
    asked: Asked<'_>,
    matched: &[u64],
    principals: &[u64],
    words: &[Word],
    brief: bool,
    workers: u32,
    gate: &G,
) -> Result<Vec<Chosen>, OutOfMemory>
    requires tiles { length principals.now ≤ 4096 }
    requires known { All (λ p. p < length asked.world.now.principals) principals.now }
    requires there { AreThere (every_of asked) }
    requires matched { AreMatched asked.world.now (map line_of asked.lines.now) matched.now }
    requires some { 1 ≤ workers }
    requires few { workers ≤ 64 }
    ensures { IfOk result (λ all. AllZip (IsChosen brief (every_of asked.entry) words.now) principals.now all.items) }
{
    let crew = Principals {
        asked,
        matched,
        principals,
        words,
        brief,
    };
    let gathered = gather(rt, alloc, &crew, principals.len() as u64, workers, gate)?;
    Ok(gathered.outputs)
}

/// The rows of principals that are asked for, in the order of these.
pub fn chosen_of_all<R: Threads + Sync, G: Gate + Sync>(
    rt: &R,
    alloc: Global,
    asked: Asked<'_>,
    principals: &[u64],
    words: &[Word],
    brief: bool,
    workers: u32,
    gate: &G,
) -> Result<Vec<Chosen>, OutOfMemory>
    requires known { All (λ p. p < length asked.world.now.principals) principals.now }
    requires there { AreThere (every_of asked) }
    requires some { 1 ≤ workers }
    requires few { workers ≤ 64 }
    ensures { IfOk result (λ all. AllZip (IsChosen brief (every_of asked.entry) words.now) principals.now all.items) }
{
    let matched = matched_resources(alloc, asked.world, asked.lines)?;
    let mut all = Vec::new(alloc);
    for some in principals.chunks(TILES) {
        let mut more = chosen_of_few(
            rt,
            alloc,
            asked,
            matched.as_slice(),
            some,
            words,
            brief,
            workers,
            gate,
        )?;
        all.append(&mut more)?;
    }
    Ok(all)
}
