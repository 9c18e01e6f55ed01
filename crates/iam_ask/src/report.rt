// The report of requests, made by many workers.
ghost use Rattle.std.specs.Prelude.{◌≡◌, ◌≤◌, ◌↔◌, IfOk, length, sum};
ghost use Rattle.iam_matrix.specs.Code.Tiles.{Chain};
ghost use Rattle.iam_matrix.specs.Workers.{IsUnlawful};
ghost use Rattle.iam_ask.specs.Code.Rows.{AreTailsOf, ask_text};
ghost use Rattle.iam_ask.specs.Report.{IsAskReport};

use crate::rows::Rows;
use crate::text::AskText;
use iam_asked::Requests;
use iam_crew::{Gate, gather};
use iam_engine::Index;
use iam_matrix::{Cut, MatrixFault, is_unlawful};
use iam_report::Tile;
use iam_row::{Format, Quoted};
use iam_text::OutOfMemory;
use std::alloc::Global;
use std::thread::Threads;

/// The report of requests: of each, in order, a row with its verdict, or in brief with its decision, made alone in its own context. It
/// is written by [`AskText::write_to`]. The tiles of the cut, which has to be one of the requests, are worked off by 1 to 64 workers; the
/// gate is told before each that a worker begins.
///
/// `Workers` comes for another number of workers, before any work; where one worker is refused memory the answer is
/// `OutOfMemory`.
pub fn ask_report<'a, R: Threads + Sync, G: Gate + Sync>(
    rt: &R,
    alloc: Global,
    requests: &'a Requests<'a>,
    cut: &Cut,
    workers: u32,
    gate: &G,
    format: Format,
    brief: bool,
) -> Result<AskText<'a>, MatrixFault>
    requires { sum cut.now ≡ length requests.now.asked }
    ensures ok { IfOk result (λ report. IsAskReport format brief requests.entry.now (ask_text report)) }
    ensures workers { (result ≡ Err MatrixFault.Workers) ↔ IsUnlawful workers }
{
    if is_unlawful(workers) {
        return Err(MatrixFault::Workers);
    }
    let world = requests.world();
    let quoted = Quoted::of(alloc, world, format)?;
    let index = Index::numbered(alloc, world)?;
    let tiles = answered_tiles(
        rt, alloc, &index, requests, cut, workers, gate, format, brief,
    )?;
    Ok(AskText::of(requests, quoted, brief, tiles))
}

/// The tails of the rows of all tiles, in the order of tiles.
fn answered_tiles<R: Threads + Sync, G: Gate + Sync>(
    rt: &R,
    alloc: Global,
    index: &Index<'_>,
    requests: &Requests<'_>,
    cut: &Cut,
    workers: u32,
    gate: &G,
    format: Format,
    brief: bool,
) -> Result<Vec<Tile>, OutOfMemory>
    requires some { 1 ≤ workers }
    requires few { workers ≤ 64 }
    requires world { requests.now.world ≡ index.now }
    requires cut { sum cut.now ≡ length requests.now.asked }
    ensures { IfOk result (λ tiles. Chain (AreTailsOf format brief requests.now) 0 cut.now tiles.items) }
{
    let tiles = cut.lengths().len() as u64;
    let crew = Rows {
        index,
        requests,
        cut,
        format,
        brief,
    };
    let gathered = gather(rt, alloc, &crew, tiles, workers, gate)?;
    Ok(gathered.outputs)
}
