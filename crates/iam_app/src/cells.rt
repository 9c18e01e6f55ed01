// The commands that are about all cells.
ghost use Rattle.std.specs.Prelude.{◌≡◌, ◌≢◌, IfOk, IfErr, OnOk, sum};
ghost use Rattle.iam_world.specs.World.{world_cells};
ghost use Rattle.iam_matrix.specs.Cut.{IsEvenFault};
ghost use Rattle.iam_matrix.specs.Report.{IsFirstReport, IsMatrixReport};
ghost use Rattle.iam_matrix.specs.declared.cut.CutFault.TheVariants as c;
ghost use Rattle.iam_app.specs.Code.Pieces.{report_text};
ghost use Rattle.iam_app.specs.Output.{CanWork, HasCut, IsCellsRefusal, format_of, tile_or_default};

use crate::fault::RunFault;
use crate::output::Report;
use iam_layers::World;
use iam_matrix::{Cut, CutFault, Format, Open, first_report, matrix_report};
use iam_options::Options;
use std::alloc::Global;
use std::thread::Threads;

/// Where the options say no length, there are at most so many tiles.
const TILES: u64 = 256;

/// The length of a tile, where this one or none is asked for.
pub fn tile_length(tile: Option<u64>, cells: u64) -> u64
    ensures { result ≡ tile_or_default tile cells }
{
    match tile {
        Some(tile) => tile,
        None => cells.div_ceil(TILES).max(1),
    }
}

/// The world's cells in tiles of this length.
pub fn cut_cells(alloc: Global, options: &Options, world: &World) -> Result<Cut, CutFault>
    ensures whole { IfOk result (λ cut. sum cut ≡ world_cells world.now) }
    ensures cut { OnOk result (HasCut options.now world.now) }
    ensures fault { IfErr result (λ fault. fault ≢ c.OutOfMemory
        → IsEvenFault (tile_or_default options.now.tile (world_cells world.now)) (world_cells world.now) fault) }
{
    let cells = world.cells();
    Cut::even(alloc, tile_length(options.tile, cells), cells)
}

/// JSON where it is asked for, else CSV.
pub fn format_in(json: bool) -> Format
    ensures { result ≡ format_of json }
{
    if json { Format::Json } else { Format::Csv }
}

/// The report of all cells.
pub fn matrix<T: Threads + Sync>(
    rt: &T,
    alloc: Global,
    options: &Options,
    world: &World,
) -> Result<Report, RunFault>
    ensures work { OnOk result (CanWork options.now world.now) }
    ensures ok { IfOk result (λ report. IsMatrixReport (format_of options.now.json) options.now.brief world.now (report_text report)) }
    ensures fault { IfErr result (λ fault. IsCellsRefusal options.now world.now fault) }
{
    let cut = cut_cells(alloc, options, world)?;
    let format = format_in(options.json);
    let report = matrix_report(
        rt,
        alloc,
        world,
        &cut,
        options.workers,
        &Open,
        format,
        options.brief,
    )?;
    Ok(Report::Matrix(report))
}

/// The report of the first cell that is allowed.
pub fn first<T: Threads + Sync>(
    rt: &T,
    alloc: Global,
    options: &Options,
    world: &World,
) -> Result<Report, RunFault>
    ensures work { OnOk result (CanWork options.now world.now) }
    ensures ok { IfOk result (λ report. IsFirstReport world.now (report_text report)) }
    ensures fault { IfErr result (λ fault. IsCellsRefusal options.now world.now fault) }
{
    let cut = cut_cells(alloc, options, world)?;
    let text = first_report(rt, alloc, world, &cut, options.workers, &Open)?;
    Ok(Report::Whole(text))
}
