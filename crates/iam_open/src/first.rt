// The first request of those that are selected of which it is not seen that it is never allowed, sought by many workers.
ghost use Rattle.std.specs.Prelude.{◌≡◌, ◌↔◌, ◌<◌, ◌≤◌, ⊤, IfOk, IsTrue, string_bytes};
ghost use Rattle.iam_crew.specs.Bound.{bound_of};
ghost use Rattle.iam_layers.specs.Cell.{IsCell};
ghost use Rattle.iam_open.specs.Asked.{asked_of};
ghost use Rattle.iam_open.specs.Code.Parts.{AreNeverBelow, IsFirstIn, IsFoundHere, found_report, from_of, to_of};
ghost use Rattle.iam_open.specs.First.{IsFirstTurnedReport};
ghost use Rattle.iam_world.specs.World.{world_cells};

use crate::answer::turned_of;
use crate::asked::{Asked, Word, is_selected, word_of};
use crate::brief::brief_row;
use crate::report::TILES;
use crate::row::opening;
use iam_crew::{Bound, Crew, Gate, gather};
use iam_layers::{OutOfMemory, World};
use iam_row::{Format, Position};
use std::alloc::Global;
use std::thread::Threads;

/// A cell with its row in brief.
#[derive(Drop)]
struct Found {
    cell: u64,
    text: String,
}

/// Those who look for the first cell, so many cells a tile.
#[derive(Clone, Copy)]
struct Search<'a> {
    world: &'a World,
    asked: Asked<'a>,
    length: u64,
}

impl<'a> Crew for Search<'a> {
    ghost use Rattle.std.proofs.Math.Nat.{le_trans};

    type Output = ();

    type Tools = ();

    ghost fits = { λ _ _. ⊤ };

    ghost takes = { λ _ _. ⊤ };

    ghost offers = { λ _ _. ⊤ };

    ghost gives = { λ crew tile _ bound. AreNeverBelow (asked_of crew.asked) crew.world.now (from_of crew.world.now crew.length tile)
        (to_of crew.world.now crew.length tile) bound };

    fn tools(&self, _alloc: Global) -> Result<(), OutOfMemory> {
        Ok(())
    }

    fn skip(&self, bound: &mut Bound<'_>, tile: u64) -> Option<()> {
        let from = tile.saturating_mul(self.length).min(self.world.cells());
        if is_behind(bound.look(), from) {
            Some(())
        } else {
            None
        }
    }

    fn work(
        &self,
        alloc: Global,
        _tools: &mut (),
        bound: &mut Bound<'_>,
        tile: u64,
    ) -> Result<(), OutOfMemory> {
        let cells = self.world.cells();
        let from = tile.saturating_mul(self.length).min(cells);
        let to = from.saturating_add(self.length).min(cells);
        let Some(found) = first_in(alloc, self.world, self.asked, from, to)? else {
            return Ok(());
        };
        bound.offer(found.cell);
        Ok(())
    }

    ghost lasts = { λ _ _ _ _ _ lower given cell from to below. given cell from to (le_trans below lower) };
}

/// Whether all cells from this one on lie behind the least cell offered.
fn is_behind(low: Option<u64>, from: u64) -> bool
    ensures { IsTrue result → bound_of low < from }
{
    match low {
        Some(cell) => cell < from,
        None => false,
    }
}

/// The first cell from one up to another that is selected, and of which another word than `never` is said.
fn first_in(
    alloc: Global,
    world: &World,
    asked: Asked<'_>,
    from: u64,
    to: u64,
) -> Result<Option<Found>, OutOfMemory>
    requires { to ≤ world_cells world.now }
    ensures { IfOk result (IsFirstIn (asked_of asked.entry) world.now from to) }
{
    let mut at = Position::of(world, from);
    while at.cell < to {
        if let Some(found) = found_at(alloc, world, asked, at)? {
            return Ok(Some(found));
        }
        at = at.next_in(world);
    }
    Ok(None)
}

fn is_never(word: Word) -> bool
    ensures { IsTrue result ↔ (word ≡ Word.Never) }
{
    matches!(word, Word::Never)
}

/// The row of a cell that is selected, and of which another word than `never` is said.
fn found_at(
    alloc: Global,
    world: &World,
    asked: Asked<'_>,
    at: Position,
) -> Result<Option<Found>, OutOfMemory>
    requires { IsCell world.now at.cell at.principal at.action at.resource }
    ensures { IfOk result (IsFoundHere (asked_of asked.entry) world.now at.cell) }
{
    if !is_selected(asked, world, at) {
        return Ok(None);
    }
    let turned = turned_of(alloc, world, at.principal, at.action, at.resource)?;
    if is_never(word_of(&turned)) {
        return Ok(None);
    }
    let text = brief_row(alloc, world, at, &turned)?;
    Ok(Some(Found {
        cell: at.cell,
        text,
    }))
}

/// The cell from which on one is looked for: none is found before it.
fn low_of(low: Option<u64>, cells: u64) -> u64
    ensures { result ≤ bound_of low }
{
    match low {
        Some(cell) => cell,
        None => cells,
    }
}

/// The brief header, and the brief row of the first request in the order of cells that is selected and of which another word than `never` is
/// said, where there is one; what is wanted of words plays no part. The workers and the gate are as in [`crate::turned_report`].
///
/// AWS IAM User Guide, "AWS global condition context keys" and "Policy evaluation logic".
pub fn first_turned_report<R: Threads + Sync, G: Gate + Sync>(
    rt: &R,
    alloc: Global,
    world: &World,
    asked: Asked<'_>,
    workers: u32,
    gate: &G,
) -> Result<String, OutOfMemory>
    requires some { 1 ≤ workers }
    requires few { workers ≤ 64 }
    ensures { IfOk result (λ text. IsFirstTurnedReport (asked_of asked.entry) world.now (string_bytes text)) }
{
    let cells = world.cells();
    let length = cells / TILES + 1;
    let search = Search {
        world,
        asked,
        length,
    };
    let tiles = cells / length + 1;
    let gathered = gather(rt, alloc, &search, tiles, workers, gate)?;
    let from = low_of(gathered.low, cells);
    let found = first_in(alloc, world, asked, from, cells)?;
    header_and(alloc, found)
}

/// The brief header, and the row, where there is one.
fn header_and(alloc: Global, found: Option<Found>) -> Result<String, OutOfMemory>
    ensures { IfOk result (λ text. string_bytes text ≡ found_report found) }
{
    let header = opening(Format::Csv, true);
    match found {
        Some(found) => {
            let row = found.text.as_str();
            format!(in alloc; "{header}{row}")
        }
        None => String::from_str(alloc, header),
    }
}
