// The reports of what is asked.
ghost use Rattle.std.specs.Prelude.{◌≡◌, ◌≤◌, ◌↔◌, IfOk, sum};
ghost use Rattle.iam_world.specs.World.{world_cells};
ghost use Rattle.iam_matrix.specs.Code.Tiles.{Chain};
ghost use Rattle.iam_matrix.specs.Workers.{IsUnlawful};
ghost use Rattle.iam_selection.specs.Code.Listing.{AreFound, list_text};
ghost use Rattle.iam_selection.specs.Report.{IsFirstSelectedReport, IsSelectedReport};
ghost use Rattle.iam_selection.specs.Selection.{IsFirstSelected};

use crate::found::Found;
use crate::list::ListText;
use crate::picker::Picker;
use crate::rows::Rows;
use crate::selection::Selection;
use iam_crew::{Gate, gather};
use iam_layers::{World, one_triple};
use iam_matrix::{Cut, Index, MatrixFault, first_asked, first_text, is_unlawful};
use iam_row::{Format, Quoted};
use iam_text::OutOfMemory;
use std::alloc::Global;
use std::thread::Threads;

/// The report of the rows that are asked for of a world's matrix, each as it stands in the report of all cells, in their
/// order; it is written by [`ListText::write_to`]. What is not asked for is not decided. The cut, the workers and the gate are
/// as in [`iam_matrix::matrix`], and so are the faults.
pub fn selected_report<R: Threads + Sync, G: Gate + Sync>(
    rt: &R,
    alloc: Global,
    world: &World,
    selection: &Selection,
    cut: &Cut,
    workers: u32,
    gate: &G,
    format: Format,
    brief: bool,
) -> Result<ListText, MatrixFault>
    requires { sum cut.now ≡ world_cells world.now }
    ensures ok { IfOk result (λ report. IsSelectedReport format brief selection.now world.now (list_text report)) }
    ensures workers { (result ≡ Err MatrixFault.Workers) ↔ IsUnlawful workers }
{
    if is_unlawful(workers) {
        return Err(MatrixFault::Workers);
    }
    one_triple();
    let quoted = Quoted::of(alloc, world, format)?;
    let picker = Picker::of(alloc, world, selection)?;
    let index = index_of(alloc, world, picker.is_broad())?;
    let tiles = picked_tiles(
        rt, alloc, &index, &picker, cut, workers, gate, format, brief,
    )?;
    Ok(ListText::of(quoted, brief, tiles))
}

/// The index of a world; with the rows of resource elements, which cost time at first, where many pairs are looked at.
pub fn index_of<'a>(
    alloc: Global,
    world: &'a World,
    is_broad: bool,
) -> Result<Index<'a>, OutOfMemory>
    ensures { IfOk result (λ index. index ≡ world.entry.now) }
{
    if is_broad {
        Index::build(alloc, world)
    } else {
        Index::sparse(alloc, world)
    }
}

/// The rows of all tiles that are asked for, in the order of tiles.
fn picked_tiles<R: Threads + Sync, G: Gate + Sync>(
    rt: &R,
    alloc: Global,
    index: &Index<'_>,
    picker: &Picker<'_>,
    cut: &Cut,
    workers: u32,
    gate: &G,
    format: Format,
    brief: bool,
) -> Result<Vec<Found>, OutOfMemory>
    requires some { 1 ≤ workers }
    requires few { workers ≤ 64 }
    requires world { picker.now.world ≡ index.now }
    requires cut { sum cut.now ≡ world_cells index.now }
    ensures { IfOk result (λ tiles. Chain (AreFound format brief picker.now.selection index.now) 0 cut.now tiles.items) }
{
    let tiles = cut.lengths().len() as u64;
    let crew = Rows {
        index,
        cut,
        picker,
        workers,
        format,
        brief,
    };
    let gathered = gather(rt, alloc, &crew, tiles, workers, gate)?;
    Ok(gathered.outputs)
}

/// The brief header, and the brief row of the first cell that is selected and allowed, where there is one; of a selection,
/// its decisions play no part. The cut, the workers and the gate are as in [`iam_matrix::first`], and so are the faults.
pub fn first_selected_report<R: Threads + Sync, G: Gate + Sync>(
    rt: &R,
    alloc: Global,
    world: &World,
    selection: &Selection,
    cut: &Cut,
    workers: u32,
    gate: &G,
) -> Result<Vec<u8>, MatrixFault>
    requires { sum cut.now ≡ world_cells world.now }
    ensures ok { IfOk result (λ text. IsFirstSelectedReport selection.now world.now text.items) }
    ensures workers { (result ≡ Err MatrixFault.Workers) ↔ IsUnlawful workers }
{
    let found = first_selected(rt, alloc, world, selection, cut, workers, gate)?;
    Ok(first_text(alloc, world, found)?)
}

/// The least cell of a world that is selected and allowed, or nothing where none is. The cut, the workers, the gate and the
/// faults are as in [`iam_matrix::first`].
fn first_selected<R: Threads + Sync, G: Gate + Sync>(
    rt: &R,
    alloc: Global,
    world: &World,
    selection: &Selection,
    cut: &Cut,
    workers: u32,
    gate: &G,
) -> Result<Option<u64>, MatrixFault>
    requires { sum cut.now ≡ world_cells world.now }
    ensures ok { IfOk result (IsFirstSelected selection.now world.now) }
    ensures workers { (result ≡ Err MatrixFault.Workers) ↔ IsUnlawful workers }
{
    if is_unlawful(workers) {
        return Err(MatrixFault::Workers);
    }
    let picker = Picker::of(alloc, world, selection)?;
    let index = Index::sparse(alloc, world)?;
    Ok(first_asked(rt, alloc, &index, &picker, cut, workers, gate)?)
}
