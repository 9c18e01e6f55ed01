// The reports of the matrix and of the first allowed cell.
ghost use Rattle.std.specs.Prelude.{◌≡◌, ◌<◌, ◌≤◌, ◌↔◌, IfOk, IfSome, sum};
ghost use Rattle.iam_world.specs.World.{world_cells};
ghost use Rattle.iam_row.specs.Piece.{text_of};
ghost use Rattle.iam_matrix.specs.Report.{IsFirstReport, IsFirstText, IsMatrixReport};
ghost use Rattle.iam_matrix.specs.Code.Tiles.{AreTailsOf, Chain};
ghost use Rattle.iam_matrix.specs.Workers.{IsUnlawful};

use crate::cut::Cut;
use crate::fault::MatrixFault;
use crate::rows::{Asked, Rows};
use crate::search::first;
use crate::survey::survey_of;
use crate::workers::is_unlawful;
use iam_classes::Index;
use iam_crew::{Gate, gather};
use iam_layers::{Decision, World, one_triple};
use iam_report::{MatrixText, Tile};
use iam_row::{Format, Quoted, brief_texts, csv_row_brief, full_texts, opening};
use iam_text::OutOfMemory;
use std::alloc::Global;
use std::thread::Threads;

/// The report of the matrix of a world, which is written by [`MatrixText::write_to`]: the tails of the rows of each tile are
/// made by the worker that has the tile. The cut, the workers and the gate are as in [`crate::matrix`], and so are the faults.
pub fn matrix_report<R: Threads + Sync, G: Gate + Sync>(
    rt: &R,
    alloc: Global,
    world: &World,
    cut: &Cut,
    workers: u32,
    gate: &G,
    format: Format,
    brief: bool,
) -> Result<MatrixText, MatrixFault>
    requires { sum cut.now ≡ world_cells world.now }
    ensures ok { IfOk result (λ report. IsMatrixReport format brief world.now (text_of report)) }
    ensures workers { (result ≡ Err MatrixFault.Workers) ↔ IsUnlawful workers }
{
    if is_unlawful(workers) {
        return Err(MatrixFault::Workers);
    }
    full_texts();
    brief_texts();
    // A world has at most 16,777,216 cells.
    let _cells = world.cells();
    let quoted = Quoted::of(alloc, world, format)?;
    let index = Index::build(alloc, world)?;
    let asked = Asked {
        workers,
        format,
        brief,
    };
    let tiles = indexed_tiles(rt, alloc, &index, cut, gate, asked)?;
    Ok(MatrixText::of(quoted, brief, tiles))
}

/// The tails of the rows of all tiles, in the order of tiles.
fn indexed_tiles<R: Threads + Sync, G: Gate + Sync>(
    rt: &R,
    alloc: Global,
    index: &Index<'_>,
    cut: &Cut,
    gate: &G,
    asked: Asked,
) -> Result<Vec<Tile>, OutOfMemory>
    requires some { 1 ≤ asked.workers }
    requires few { asked.workers ≤ 64 }
    requires cut { sum cut.now ≡ world_cells index.now }
    ensures { IfOk result (λ tiles. Chain (AreTailsOf asked.format asked.brief index.now) 0 cut.now tiles.items) }
{
    let survey = survey_of(rt, alloc, index, asked.workers);
    let tiles = cut.lengths().len() as u64;
    let crew = Rows {
        survey: &survey,
        cut,
        asked,
    };
    let gathered = gather(rt, alloc, &crew, tiles, asked.workers, gate)?;
    Ok(gathered.outputs)
}

/// The brief header, and the brief row of the first allowed cell where there is one. The cut, the workers and the gate
/// are as in [`crate::first`], and so are the faults.
pub fn first_report<R: Threads + Sync, G: Gate + Sync>(
    rt: &R,
    alloc: Global,
    world: &World,
    cut: &Cut,
    workers: u32,
    gate: &G,
) -> Result<Vec<u8>, MatrixFault>
    requires { sum cut.now ≡ world_cells world.now }
    ensures ok { IfOk result (λ text. IsFirstReport world.now text.items) }
    ensures workers { (result ≡ Err MatrixFault.Workers) ↔ IsUnlawful workers }
{
    let found = first(rt, alloc, world, cut, workers, gate)?;
    Ok(first_text(alloc, world, found)?)
}

/// The brief header, and the brief row of this cell with the decision that it is allowed, where one is given.
pub fn first_text(alloc: Global, world: &World, found: Option<u64>) -> Result<Vec<u8>, OutOfMemory>
    requires { IfSome found (λ cell. cell < world_cells world.now) }
    ensures { IfOk result (λ text. IsFirstText world.now found text.items) }
{
    one_triple();
    match found {
        Some(cell) => csv_row_brief(alloc, world, cell, Decision::Allowed),
        None => Vec::from_slice(alloc, opening(Format::Csv, true).as_bytes()),
    }
}
