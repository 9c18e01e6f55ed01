// The verdicts, or the decisions, of all cells by many workers.
ghost use Rattle.std.specs.Prelude.{◌≡◌, ◌+◌, ◌<◌, ◌≤◌, ◌↔◌, ℕ, IfOk, sum, slice_index};
ghost use Rattle.std.specs.List.{flat_map};
ghost use Rattle.iam_world.specs.World.{world_cells, WorldValue};
ghost use Rattle.iam_layers.specs.Cell.{IsDecisionOf, IsVerdictOf};
ghost use Rattle.iam_matrix.specs.Matrix.{IsMatrix};
ghost use Rattle.iam_matrix.specs.Code.Tiles.{AreEntries, IsTileOf};
ghost use Rattle.iam_matrix.specs.Workers.{IsUnlawful};

use crate::cut::{Cells, Cut};
use crate::each::end_of;
use crate::fault::MatrixFault;
use crate::workers::is_unlawful;
use iam_crew::{Bound, Crew, Gate, gather};
use iam_engine::{Engine, Index};
use iam_layers::{Decision, Verdict, World};
use iam_text::OutOfMemory;
use std::alloc::Global;
use std::marker::PhantomData;
use std::thread::Threads;

/// How many matches the cache of an engine holds, of which each worker has one.
pub const CAPACITY: usize = 1024;

/// What an engine says of a cell.
trait Entry: Drop {
    // It is what has to be said of this cell.
    ghost is: { WorldValue → ℕ → Self → Type 0 };

    fn at(alloc: Global, engine: &mut Engine<'_>, cell: u64) -> Result<Self, OutOfMemory>
        requires { cell < world_cells engine.old }
        ensures is { IfOk result (is engine.old cell) }
        ensures same { engine.new ≡ engine.old };
}

impl Entry for Verdict {
    ghost is = { λ world cell verdict. IsVerdictOf world cell verdict };

    fn at(alloc: Global, engine: &mut Engine<'_>, cell: u64) -> Result<Verdict, OutOfMemory> {
        engine.decide(alloc, cell)
    }
}

impl Entry for Decision {
    ghost is = { λ world cell decision. IsDecisionOf world cell decision };

    fn at(alloc: Global, engine: &mut Engine<'_>, cell: u64) -> Result<Decision, OutOfMemory> {
        engine.decide_brief(alloc, cell)
    }
}

/// Those who make the entries of a world's cells.
#[derive(Drop)]
struct Entries<'a, E> {
    index: &'a Index<'a>,
    cut: &'a Cut,
    made: PhantomData<E>,
}

impl<'a, E: Entry + Send + Sync> Crew for Entries<'a, E> {
    ghost use Rattle.iam_matrix.specs.Cut.{start_of};

    type Output = Vec<E>;

    type Tools = Engine<'a>;

    ghost fits = { λ crew engine. engine ≡ crew.index.now };

    ghost takes = { λ crew tile. IsTileOf crew.index.now crew.cut.now tile };

    ghost gives = { λ crew tile output _. AreEntries (E.is crew.index.now) (start_of crew.cut.now tile) (slice_index crew.cut.now tile) output.items };

    fn tools(&self, alloc: Global) -> Result<Engine<'a>, OutOfMemory> {
        Engine::new(alloc, self.index.world(), self.index, CAPACITY)
    }

    fn work(
        &self,
        alloc: Global,
        engine: &mut Engine<'a>,
        _bound: &mut Bound<'_>,
        tile: u64,
    ) -> Result<Vec<E>, OutOfMemory> {
        entries_of(alloc, engine, self.cut.cells(tile))
    }

    ghost lasts = { λ _ _ _ _ _ _ given. given };
}

/// The entries of the cells of a tile.
fn entries_of<E: Entry>(
    alloc: Global,
    engine: &mut Engine<'_>,
    tile: Cells,
) -> Result<Vec<E>, OutOfMemory>
    requires { tile.from + tile.count ≤ world_cells engine.old }
    ensures entries { IfOk result (λ entries. AreEntries (E.is engine.old) tile.from tile.count entries.items) }
    ensures same { engine.new ≡ engine.old }
{
    let end = end_of(engine.world(), tile.from, tile.count);
    let mut entries = Vec::new(alloc);
    for cell in tile.from..end {
        entries.push(E::at(alloc, engine, cell)?)?;
    }
    Ok(entries)
}

/// The entries of all tiles, one behind the other.
fn joined<E: Drop>(alloc: Global, tiles: Vec<Vec<E>>) -> Result<Vec<E>, OutOfMemory>
    ensures { IfOk result (λ all. all.items ≡ flat_map (λ tile. tile.items) tiles.items) }
{
    let mut all = Vec::new(alloc);
    for mut entries in tiles {
        all.append(&mut entries)?;
    }
    Ok(all)
}

/// The entries of all cells, in the order of the cells' numbers.
fn all_entries<R: Threads + Sync, G: Gate + Sync, E: Entry + Send + Sync>(
    rt: &R,
    alloc: Global,
    world: &World,
    cut: &Cut,
    workers: u32,
    gate: &G,
) -> Result<Vec<E>, MatrixFault>
    requires { sum cut.now ≡ world_cells world.now }
    ensures ok { IfOk result (λ entries. AreEntries (E.is world.now) 0 (world_cells world.now) entries.items) }
    ensures workers { (result ≡ Err MatrixFault.Workers) ↔ IsUnlawful workers }
{
    if is_unlawful(workers) {
        return Err(MatrixFault::Workers);
    }
    let index = Index::sparse(alloc, world)?;
    Ok(indexed_entries(rt, alloc, &index, cut, workers, gate)?)
}

/// The entries of all cells of an index's world, in the order of the cells' numbers.
fn indexed_entries<R: Threads + Sync, G: Gate + Sync, E: Entry + Send + Sync>(
    rt: &R,
    alloc: Global,
    index: &Index<'_>,
    cut: &Cut,
    workers: u32,
    gate: &G,
) -> Result<Vec<E>, OutOfMemory>
    requires some { 1 ≤ workers }
    requires few { workers ≤ 64 }
    requires cut { sum cut.now ≡ world_cells index.now }
    ensures { IfOk result (λ entries. AreEntries (E.is index.now) 0 (world_cells index.now) entries.items) }
{
    let tiles = cut.lengths().len() as u64;
    let crew = Entries {
        index,
        cut,
        made: PhantomData,
    };
    let gathered = gather(rt, alloc, &crew, tiles, workers, gate)?;
    joined(alloc, gathered.outputs)
}

/// The matrix of a world: the verdict of each cell, in the order of the cells' numbers. The tiles of the cut, which has
/// to be one of the world's cells, are worked off by 1 to 64 workers; the gate is told before each that a worker begins.
///
/// `Workers` comes for another number of workers, before any work; where one worker is refused memory the answer is
/// `OutOfMemory`.
pub fn matrix<R: Threads + Sync, G: Gate + Sync>(
    rt: &R,
    alloc: Global,
    world: &World,
    cut: &Cut,
    workers: u32,
    gate: &G,
) -> Result<Vec<Verdict>, MatrixFault>
    requires { sum cut.now ≡ world_cells world.now }
    ensures ok { IfOk result (λ verdicts. IsMatrix IsVerdictOf world.now verdicts.items) }
    ensures workers { (result ≡ Err MatrixFault.Workers) ↔ IsUnlawful workers }
{
    all_entries(rt, alloc, world, cut, workers, gate)
}

/// The decisions of the matrix of a world, made as [`matrix`] makes its verdicts, with the same faults.
pub fn matrix_brief<R: Threads + Sync, G: Gate + Sync>(
    rt: &R,
    alloc: Global,
    world: &World,
    cut: &Cut,
    workers: u32,
    gate: &G,
) -> Result<Vec<Decision>, MatrixFault>
    requires { sum cut.now ≡ world_cells world.now }
    ensures ok { IfOk result (λ decisions. IsMatrix IsDecisionOf world.now decisions.items) }
    ensures workers { (result ≡ Err MatrixFault.Workers) ↔ IsUnlawful workers }
{
    all_entries(rt, alloc, world, cut, workers, gate)
}
