// Whole reports.
ghost use Rattle.std.specs.Prelude.{◌≡◌, ◌<◌, ◌≤◌, ◌^◌, IfOk, length, map};
ghost use Rattle.iam_world.specs.World.{world_cells};
ghost use Rattle.iam_row.specs.Piece.{brief_tail, full_tail, text_of};
ghost use Rattle.iam_row.specs.Report.{IsReport, brief_layout, full_layout};
ghost use Rattle.iam_row.specs.declared.quoted.Format.TheVariants.{Csv, Json};

use crate::matrix::MatrixText;
use crate::output::buffer;
use iam_layers::{Decision, Verdict, World};
use iam_row::{Format, Quoted, brief_texts, full_texts};
use iam_text::OutOfMemory;
use iam_tiles::{Decisions, Kept, Tile};
use std::alloc::Global;

/// The text of a report.
fn written(alloc: Global, matrix: &MatrixText) -> Result<Vec<u8>, OutOfMemory>
    ensures { IfOk result (λ text. text.items ≡ text_of matrix.now) }
{
    let mut kept = buffer(alloc)?;
    let mut text = Vec::new(alloc);
    match matrix.write_to(&mut text, &mut kept) {
        Ok(()) => Ok(text),
        Err(_) => Err(OutOfMemory),
    }
}

/// The tails of the rows of these verdicts.
fn full_tile(alloc: Global, format: Format, verdicts: &[Verdict]) -> Result<Tile, OutOfMemory>
    requires { length verdicts.now < 2 ^ 32 }
    ensures { IfOk result (λ tile. tile ≡ map (full_tail format) verdicts.now) }
{
    let mut kept: Kept<Verdict> = Kept::new(alloc, verdicts.len())?;
    for verdict in verdicts {
        kept.push(alloc, 0, verdict)?;
    }
    kept.tile(alloc, format, false)
}

/// The tails of the rows of these decisions, in brief.
fn brief_tile(alloc: Global, format: Format, decisions: &[Decision]) -> Result<Tile, OutOfMemory>
    ensures { IfOk result (λ tile. tile ≡ map (brief_tail format) decisions.now) }
{
    let mut kept = Decisions::new(alloc, decisions.len())?;
    for decision in decisions {
        kept.push(*decision)?;
    }
    kept.tile(alloc, format)
}

/// The report of these texts with these tails.
fn report(alloc: Global, quoted: Quoted, brief: bool, tile: Tile) -> Result<Vec<u8>, OutOfMemory>
    requires { length tile ≤ 16777216 }
    ensures { IfOk result (λ text. text.items ≡ text_of (record { quoted = quoted; brief = brief; tails = tile })) }
{
    let mut tiles = Vec::new(alloc);
    tiles.push(tile)?;
    written(alloc, &MatrixText::of(quoted, brief, tiles))
}

fn full_report(
    alloc: Global,
    world: &World,
    format: Format,
    verdicts: &[Verdict],
) -> Result<Vec<u8>, OutOfMemory>
    requires { length verdicts.now ≡ world_cells world.now }
    ensures { IfOk result (λ text. IsReport full_layout format world.now verdicts.now text.items) }
{
    full_texts();
    let _cells = world.cells();
    let quoted = Quoted::of(alloc, world, format)?;
    let tile = full_tile(alloc, format, verdicts)?;
    report(alloc, quoted, false, tile)
}

fn brief_report(
    alloc: Global,
    world: &World,
    format: Format,
    decisions: &[Decision],
) -> Result<Vec<u8>, OutOfMemory>
    requires { length decisions.now ≡ world_cells world.now }
    ensures { IfOk result (λ text. IsReport brief_layout format world.now decisions.now text.items) }
{
    brief_texts();
    let _cells = world.cells();
    let quoted = Quoted::of(alloc, world, format)?;
    let tile = brief_tile(alloc, format, decisions)?;
    report(alloc, quoted, true, tile)
}

/// The report of all cells as CSV, from one verdict a cell: a header and a row a cell, fields joined by commas and put
/// in double quotes where one has to, each row ended by a line feed. `OutOfMemory` comes where the text finds no memory.
pub fn csv_text(alloc: Global, world: &World, verdicts: &[Verdict]) -> Result<Vec<u8>, OutOfMemory>
    requires { length verdicts.now ≡ world_cells world.now }
    ensures { IfOk result (λ text. IsReport full_layout Csv world.now verdicts.now text.items) }
{
    full_report(alloc, world, Format::Csv, verdicts)
}

/// The report of all cells as JSON, from one verdict a cell: a list of objects without spaces, and a line feed.
/// `OutOfMemory` comes where the text finds no memory.
pub fn json_text(alloc: Global, world: &World, verdicts: &[Verdict]) -> Result<Vec<u8>, OutOfMemory>
    requires { length verdicts.now ≡ world_cells world.now }
    ensures { IfOk result (λ text. IsReport full_layout Json world.now verdicts.now text.items) }
{
    full_report(alloc, world, Format::Json, verdicts)
}

/// The report of all cells as CSV without statements and lacks, from one decision a cell. `OutOfMemory` comes where the
/// text finds no memory.
pub fn csv_brief(
    alloc: Global,
    world: &World,
    decisions: &[Decision],
) -> Result<Vec<u8>, OutOfMemory>
    requires { length decisions.now ≡ world_cells world.now }
    ensures { IfOk result (λ text. IsReport brief_layout Csv world.now decisions.now text.items) }
{
    brief_report(alloc, world, Format::Csv, decisions)
}

/// The report of all cells as JSON without statements and lacks, from one decision a cell. `OutOfMemory` comes where
/// the text finds no memory.
pub fn json_brief(
    alloc: Global,
    world: &World,
    decisions: &[Decision],
) -> Result<Vec<u8>, OutOfMemory>
    requires { length decisions.now ≡ world_cells world.now }
    ensures { IfOk result (λ text. IsReport brief_layout Json world.now decisions.now text.items) }
{
    brief_report(alloc, world, Format::Json, decisions)
}
