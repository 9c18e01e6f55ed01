// The report on the requests of a world that are asked for, made by many workers.
ghost use Rattle.std.specs.Prelude.{◌≡◌, ◌≤◌, ◌++◌, ◌∷◌, [], IfOk, OnOk, Option, string_bytes};
ghost use Rattle.iam_layers.specs.Cell.{IsCell};
ghost use Rattle.iam_open.specs.Asked.{asked_of};
ghost use Rattle.iam_open.specs.Code.Pairs.{AreKept};
ghost use Rattle.iam_open.specs.Code.Parts.{IsPart, all_together, from_of, to_of};
ghost use Rattle.iam_open.specs.Report.{IsRow, IsTold, IsTurnedReport};
ghost use Rattle.iam_open.specs.Rows.{TurnedRow, row_text, together, told_text};
ghost use Rattle.iam_open.specs.Turned.{IsTurned};
ghost use Rattle.iam_row.specs.Piece.{IsQuotedOf};
ghost use Rattle.iam_world.specs.World.{world_cells};

use crate::answer::{Turned, kept_turned};
use crate::asked::{Asked, is_selected, is_wanted, word_of};
use crate::brief::put_brief;
use crate::kept::{Kept, ROOM};
use crate::row::{opening, row};
use iam_crew::{Bound, Crew, Gate, gather};
use iam_layers::{OutOfMemory, World};
use iam_row::{Format, Position, Quoted, closing};
use std::alloc::Global;
use std::thread::Threads;

/// How many tiles a crew works off at most.
pub const TILES: u64 = 4096;

/// Those who make the rows of the cells of a world, so many cells a tile.
#[derive(Clone, Copy)]
struct Cells<'a> {
    world: &'a World,
    asked: Asked<'a>,
    length: u64,
    quoted: &'a Quoted,
    brief: bool,
    room: u64,
}

impl<'a> Crew for Cells<'a> {
    type Output = String;

    type Tools = Kept<'a>;

    ghost fits = { λ crew kept. AreKept crew.world.now kept };

    ghost takes = { λ crew _. IsQuotedOf crew.world.now crew.quoted.now };

    ghost gives = { λ crew tile output _. IsPart crew.quoted.now.format crew.brief (asked_of crew.asked) crew.world.now
        (from_of crew.world.now crew.length tile) (to_of crew.world.now crew.length tile) (string_bytes output) };

    fn tools(&self, alloc: Global) -> Result<Kept<'a>, OutOfMemory> {
        Ok(Kept::new(alloc, self.world.resources(), self.room))
    }

    fn work(
        &self,
        alloc: Global,
        kept: &mut Kept<'a>,
        _bound: &mut Bound<'_>,
        tile: u64,
    ) -> Result<String, OutOfMemory> {
        let cells = self.world.cells();
        let from = tile.saturating_mul(self.length).min(cells);
        let to = from.saturating_add(self.length).min(cells);
        part(alloc, *self, kept, from, to)
    }

    ghost lasts = { λ _ _ _ _ _ _ given. given };
}

/// The rows of the cells from one up to another.
fn part<'a>(
    alloc: Global,
    cells: Cells<'a>,
    kept: &mut Kept<'a>,
    from: u64,
    to: u64,
) -> Result<String, OutOfMemory>
    requires order { from ≤ to }
    requires inside { to ≤ world_cells cells.world.now }
    requires quoted { IsQuotedOf cells.world.now cells.quoted.now }
    requires kept { AreKept cells.world.now kept.old }
    ensures rows { IfOk result (λ text. IsPart cells.entry.quoted.now.format cells.entry.brief (asked_of cells.entry.asked) cells.entry.world.now from to (string_bytes text)) }
    ensures kept { AreKept cells.entry.world.now kept.new }
{
    let mut text = String::new(alloc);
    let mut at = Position::of(cells.world, from);
    while at.cell < to {
        put_told(alloc, cells, kept, at, &mut text)?;
        at = at.next_in(cells.world);
    }
    Ok(text)
}

/// Puts the row of a cell behind those before it, where it is asked for.
fn put_told<'a>(
    alloc: Global,
    cells: Cells<'a>,
    kept: &mut Kept<'a>,
    at: Position,
    text: &mut String,
) -> Result<(), OutOfMemory>
    requires cell { IsCell cells.world.now at.cell at.principal at.action at.resource }
    requires quoted { IsQuotedOf cells.world.now cells.quoted.now }
    requires kept { AreKept cells.world.now kept.old }
    ensures told { OnOk result ((told : Option TurnedRow) × IsTold cells.entry.brief (asked_of cells.entry.asked) cells.entry.world.now at.cell told
        × (string_bytes text.new ≡ together cells.entry.quoted.now.format (string_bytes text.old)
        (told_text cells.entry.quoted.now.format cells.entry.brief at.cell told))) }
    ensures kept { AreKept cells.entry.world.now kept.new }
{
    if !is_selected(cells.asked, cells.world, at) {
        return Ok(());
    }
    let (p, a, r) = (at.principal, at.action, at.resource);
    let turned = kept_turned(alloc, kept, cells.world, p, a, r)?;
    if !is_wanted(cells.asked, word_of(&turned)) {
        return Ok(());
    }
    put_row(alloc, cells, at, &turned, text)
}

/// Puts the row of a cell, of whose request this is said.
fn put_row(
    alloc: Global,
    cells: Cells<'_>,
    at: Position,
    turned: &Turned,
    text: &mut String,
) -> Result<(), OutOfMemory>
    requires cell { IsCell cells.world.now at.cell at.principal at.action at.resource }
    requires quoted { IsQuotedOf cells.world.now cells.quoted.now }
    requires turned { IsTurned (cells.world.now ∷ []) cells.world.now at.principal at.action at.resource turned.now }
    ensures { OnOk result ((row : TurnedRow) × IsRow cells.entry.brief cells.entry.world.now at.cell row × (row.turned ≡ turned.now)
        × (string_bytes text.new ≡ together cells.entry.quoted.now.format (string_bytes text.old)
        (row_text cells.entry.quoted.now.format cells.entry.brief at.cell row))) }
{
    if cells.brief {
        return put_brief(text, cells.quoted, at, word_of(turned));
    }
    let format = cells.quoted.format;
    let more = row(alloc, cells.world, format, at, turned)?;
    put(format, text, more.as_str())
}

/// Puts rows behind others: in JSON with a comma between them.
fn put(format: Format, text: &mut String, more: &str) -> Result<(), OutOfMemory>
    ensures { OnOk result (string_bytes text.new ≡ together format (string_bytes text.old) more.now) }
{
    if format == Format::Json && !text.is_empty() && !more.is_empty() {
        text.push_str(",")?;
    }
    text.push_str(more)?;
    Ok(())
}

/// The rows of all parts.
fn all_rows(alloc: Global, format: Format, parts: &[String]) -> Result<String, OutOfMemory>
    ensures { IfOk result (λ text. string_bytes text ≡ all_together format [] parts.now) }
{
    let mut text = String::new(alloc);
    for part in parts {
        put(format, &mut text, part.as_str())?;
    }
    Ok(text)
}

/// A text between what stands before and after it.
fn between(alloc: Global, front: &str, text: &str, back: &str) -> Result<String, OutOfMemory>
    ensures { IfOk result (λ whole. string_bytes whole ≡ front.now ++ (text.now ++ back.now)) }
{
    format!(in alloc; "{front}{text}{back}")
}

/// The report on the requests of a world that are asked for: of each, whether it is allowed in each of the contexts in question, in none of
/// them, or in one that is shown. A request that is not selected is not looked at. The cells are worked off by 1 to 64 workers; the gate is
/// told before each tile that a worker begins.
///
/// AWS IAM User Guide, "AWS global condition context keys" and "Policy evaluation logic".
pub fn turned_report<R: Threads + Sync, G: Gate + Sync>(
    rt: &R,
    alloc: Global,
    world: &World,
    asked: Asked<'_>,
    workers: u32,
    gate: &G,
    format: Format,
    brief: bool,
) -> Result<String, OutOfMemory>
    requires some { 1 ≤ workers }
    requires few { workers ≤ 64 }
    ensures { IfOk result (λ text. IsTurnedReport format brief (asked_of asked.entry) world.now (string_bytes text)) }
{
    let length = world.cells() / TILES + 1;
    let quoted = Quoted::of(alloc, world, format)?;
    let cells = Cells {
        world,
        asked,
        length,
        quoted: &quoted,
        brief,
        room: ROOM / u64::from(workers),
    };
    let tiles = world.cells() / length + 1;
    let gathered = gather(rt, alloc, &cells, tiles, workers, gate)?;
    let rows = all_rows(alloc, format, gathered.outputs.as_slice())?;
    between(
        alloc,
        opening(format, brief),
        rows.as_str(),
        closing(format),
    )
}
