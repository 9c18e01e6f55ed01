// The first allowed cell of those that are asked about, sought by many workers.
ghost use Rattle.std.specs.Prelude.{◌≡◌, ◌+◌, ◌<◌, ◌≤◌, ◌↔◌, IfOk, IsTrue, sum, slice_index};
ghost use Rattle.iam_world.specs.World.{world_cells};
ghost use Rattle.iam_crew.specs.Bound.{bound_of};
ghost use Rattle.iam_matrix.specs.Matrix.{IsFirstAllowed};
ghost use Rattle.iam_matrix.specs.Code.Tiles.{IsAllowedCell, IsFirstIn, AreNotAllowedBelow, IsTileOf};
ghost use Rattle.iam_matrix.specs.Workers.{IsUnlawful};

use crate::asks::Asks;
use crate::cut::{Cells, Cut};
use crate::each::{decision_at, end_of, past_row};
use crate::fault::MatrixFault;
use crate::workers::is_unlawful;
use iam_classes::{ClassEngine, Index};
use iam_crew::{Bound, Crew, Gate, gather};
use iam_layers::{Decision, World};
use iam_row::Position;
use iam_text::OutOfMemory;
use std::alloc::Global;
use std::thread::Threads;

/// Those who look for the first allowed cell of those that are asked about.
#[derive(Drop)]
struct Search<'a, A> {
    index: &'a Index<'a>,
    cut: &'a Cut,
    asker: &'a A,
    workers: u32,
}

impl<'a, A: Asks + Sync> Crew for Search<'a, A> {
    ghost use Rattle.std.proofs.Math.Nat.{le_trans};
    ghost use Rattle.iam_matrix.specs.Cut.{start_of};

    type Output = ();

    type Tools = ClassEngine<'a>;

    ghost fits = { λ crew engine. engine.world ≡ crew.index.now };

    ghost takes = { λ crew tile. (A.world crew.asker.now ≡ crew.index.now) × IsTileOf crew.index.now crew.cut.now tile };

    ghost offers = { λ crew cell. IsAllowedCell (A.asked crew.asker.now) crew.index.now cell };

    ghost gives = { λ crew tile _ bound. AreNotAllowedBelow (A.asked crew.asker.now) crew.index.now (start_of crew.cut.now tile)
        (slice_index crew.cut.now tile) bound };

    fn tools(&self, alloc: Global) -> Result<ClassEngine<'a>, OutOfMemory> {
        ClassEngine::new(alloc, self.index, self.workers)
    }

    fn skip(&self, bound: &mut Bound<'_>, tile: u64) -> Option<()> {
        if is_behind(bound.look(), self.cut.cells(tile).from) {
            Some(())
        } else {
            None
        }
    }

    fn work(
        &self,
        alloc: Global,
        engine: &mut ClassEngine<'a>,
        bound: &mut Bound<'_>,
        tile: u64,
    ) -> Result<(), OutOfMemory> {
        let tile = self.cut.cells(tile);
        let Some(cell) = first_in(alloc, engine, self.asker, tile)? else {
            return Ok(());
        };
        bound.offer(cell);
        Ok(())
    }

    ghost lasts = { λ _ _ _ _ _ lower given cell from to below. given cell from to (le_trans below lower) };
}

/// Whether all cells from this one on lie behind the least cell offered.
fn is_behind(low: Option<u64>, from: u64) -> bool
    ensures { IsTrue result → bound_of low < from }
{
    match low {
        Some(cell) => cell < from,
        None => false,
    }
}

fn is_allowed(decision: Decision) -> bool
    ensures { IsTrue result ↔ (decision ≡ Decision.Allowed) }
{
    matches!(decision, Decision::Allowed)
}

/// The first allowed cell of a tile of those that are asked about.
fn first_in<A: Asks>(
    alloc: Global,
    engine: &mut ClassEngine<'_>,
    asker: &A,
    tile: Cells,
) -> Result<Option<u64>, OutOfMemory>
    requires cells { tile.from + tile.count ≤ world_cells engine.old.world }
    requires world { A.world asker.now ≡ engine.old.world }
    ensures first { IfOk result (IsFirstIn (A.asked asker.now) engine.old.world tile.from tile.count) }
    ensures same { engine.new.world ≡ engine.old.world }
{
    let world = engine.world();
    let end = end_of(world, tile.from, tile.count);
    let mut at = Position::of(world, tile.from);
    while at.cell < end {
        if !asker.asks_row(at) {
            at = past_row(world, at, end);
            continue;
        }
        if asker.asks(at) && is_allowed(decision_at(alloc, engine, at)?) {
            return Ok(Some(at.cell));
        }
        at = at.next_in(world);
    }
    Ok(None)
}

/// The least allowed cell of a world, or nothing where none is. The cut, the workers and the gate are as in
/// [`crate::matrix`], and so are the faults; a tile that lies wholly behind a cell that was found is skipped, and the
/// gate is not told.
pub fn first<R: Threads + Sync, G: Gate + Sync>(
    rt: &R,
    alloc: Global,
    world: &World,
    cut: &Cut,
    workers: u32,
    gate: &G,
) -> Result<Option<u64>, MatrixFault>
    requires { sum cut.now ≡ world_cells world.now }
    ensures ok { IfOk result (IsFirstAllowed world.now) }
    ensures workers { (result ≡ Err MatrixFault.Workers) ↔ IsUnlawful workers }
{
    if is_unlawful(workers) {
        return Err(MatrixFault::Workers);
    }
    let index = Index::sparse(alloc, world)?;
    Ok(first_asked(rt, alloc, &index, world, cut, workers, gate)?)
}

/// The least allowed cell of an index's world of those that are asked about, or nothing where none is.
pub fn first_asked<R: Threads + Sync, G: Gate + Sync, A: Asks + Sync>(
    rt: &R,
    alloc: Global,
    index: &Index<'_>,
    asker: &A,
    cut: &Cut,
    workers: u32,
    gate: &G,
) -> Result<Option<u64>, OutOfMemory>
    requires some { 1 ≤ workers }
    requires few { workers ≤ 64 }
    requires world { A.world asker.now ≡ index.now }
    requires cut { sum cut.now ≡ world_cells index.now }
    ensures { IfOk result (IsFirstIn (A.asked asker.now) index.now 0 (world_cells index.now)) }
{
    // A world has at most 16,777,216 cells, so each is below the bound that stands for none.
    let _cells = index.world().cells();
    let tiles = cut.lengths().len() as u64;
    let crew = Search {
        index,
        cut,
        asker,
        workers,
    };
    let gathered = gather(rt, alloc, &crew, tiles, workers, gate)?;
    Ok(gathered.low)
}
