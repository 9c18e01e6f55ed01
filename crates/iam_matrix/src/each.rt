// Cells that follow one another, their rows, and the decision on each.
ghost use Rattle.std.specs.Prelude.{◌≡◌, ◌⊎◌, ◌+◌, ◌-◌, ◌<◌, ◌≤◌, ◌^◌, ℕ, IfOk, length};
ghost use Rattle.iam_layers.specs.Cell.{IsCell, IsDecisionOf};
ghost use Rattle.iam_world.specs.World.{world_cells};

use iam_classes::ClassEngine;
use iam_layers::{Decision, World};
use iam_row::Position;
use iam_text::OutOfMemory;
use std::alloc::Global;

/// The cell behind so many from this one on. A world has at most 16,777,216 cells, so its number fits.
pub fn end_of(world: &World, from: u64, count: u64) -> u64
    requires { from + count ≤ world_cells world.now }
    ensures value { result ≡ from + count }
    ensures few { result ≤ 16777216 }
{
    let _cells = world.cells();
    from + count
}

/// The decision on the request of a cell.
#[inline(always)]
pub fn decision_at(
    alloc: Global,
    engine: &mut ClassEngine<'_>,
    at: Position,
) -> Result<Decision, OutOfMemory>
    requires { IsCell engine.old.world at.cell at.principal at.action at.resource }
    ensures decision { IfOk result (IsDecisionOf engine.old.world at.cell) }
    ensures same { engine.new.world ≡ engine.old.world }
{
    let number = engine.find(alloc, at.principal, at.action, at.resource)?;
    Ok(engine.verdict(number).decision)
}

/// How many cells from a position on, up to an end, have the same principal and action.
pub fn left_in_row(world: &World, at: Position, end: u64) -> u64
    requires is { IsCell world.now at.cell at.principal at.action at.resource }
    requires some { at.cell < end }
    ensures some { 1 ≤ result }
    ensures few { at.resource + result < 2 ^ 64 }
    ensures cells { at.cell + result ≤ end }
    ensures resources { at.resource + result ≤ length world.now.resources }
    ensures all { (at.cell + result ≡ end) ⊎ (at.resource + result ≡ length world.now.resources) }
{
    (end - at.cell).min(world.resources() - at.resource)
}

/// The position behind so many cells of a row.
pub fn along(world: &World, at: Position, count: u64) -> Position
    requires is { IsCell world.now at.cell at.principal at.action at.resource }
    requires some { 1 ≤ count }
    requires row { at.resource + count ≤ length world.now.resources }
    ensures cell { result.cell ≡ at.cell + count }
    ensures is { at.cell + count < world_cells world.now → IsCell world.now result.cell result.principal result.action result.resource }
{
    let _cells = world.cells();
    let last = Position {
        cell: at.cell + count - 1,
        resource: at.resource + count - 1,
        ..at
    };
    last.next_in(world)
}

/// The first cell behind those of this one's principal and action, or the one at the end where that comes first.
pub fn past_row(world: &World, at: Position, end: u64) -> Position
    requires is { IsCell world.now at.cell at.principal at.action at.resource }
    requires before { at.cell < end }
    requires end { end ≤ world_cells world.now }
    ensures more { at.cell < result.cell }
    ensures most { result.cell ≤ end }
    ensures is { result.cell < world_cells world.now → IsCell world.now result.cell result.principal result.action result.resource }
    ensures same { (cell : ℕ) → at.cell ≤ cell → cell < result.cell → IsCell world.now cell at.principal at.action (at.resource + (cell - at.cell)) }
{
    along(world, at, left_in_row(world, at, end))
}
