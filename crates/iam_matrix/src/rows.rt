// The tails of the rows of each tile.
ghost use Rattle.std.specs.Prelude.{◌≡◌, ◌+◌, ◌≤◌, [], IfOk, OnOk, slice_index, true};
ghost use Rattle.iam_world.specs.World.{world_cells};
ghost use Rattle.iam_classes.specs.Engine.{IsSameEngine};
ghost use Rattle.iam_matrix.specs.Code.Tiles.{AreEntries, AreTailsOf, IsOf, IsTileOf};

use crate::cut::{Cells, Cut};
use crate::each::{along, end_of, left_in_row};
use crate::said::{Said, Verdicts};
use iam_classes::{ClassEngine, Survey};
use iam_crew::{Bound, Crew};
use iam_layers::World;
use iam_report::{Decisions, Tile};
use iam_row::{Format, Position};
use iam_text::OutOfMemory;
use std::alloc::Global;

/// What is asked of a report: by how many workers it is made, and what its rows are.
#[derive(Clone, Copy)]
pub struct Asked {
    pub workers: u32,
    pub format: Format,
    pub brief: bool,
}

/// Those who make the tails of the rows of a world's cells.
#[derive(Clone, Copy)]
pub struct Rows<'a> {
    pub survey: &'a Survey<'a>,
    pub cut: &'a Cut,
    pub asked: Asked,
}

impl<'a> Crew for Rows<'a> {
    ghost use Rattle.iam_matrix.specs.Cut.{start_of};

    type Output = Tile;

    type Tools = ClassEngine<'a>;

    ghost fits = { λ crew engine. (engine.world ≡ crew.survey.now) × (engine.surveyed ≡ true) };

    ghost takes = { λ crew tile. IsTileOf crew.survey.now crew.cut.now tile };

    ghost gives = { λ crew tile output _. AreTailsOf crew.asked.format crew.asked.brief crew.survey.now (start_of crew.cut.now tile) (slice_index crew.cut.now tile) output };

    fn tools(&self, alloc: Global) -> Result<ClassEngine<'a>, OutOfMemory> {
        ClassEngine::surveyed(alloc, self.survey, self.asked.workers)
    }

    fn work(
        &self,
        alloc: Global,
        engine: &mut ClassEngine<'a>,
        _bound: &mut Bound<'_>,
        tile: u64,
    ) -> Result<Tile, OutOfMemory> {
        let tile = self.cut.cells(tile);
        tile_of(alloc, engine, self.asked.format, self.asked.brief, tile)
    }

    ghost lasts = { λ _ _ _ _ _ _ given. given };
}

/// The tails of the cells of a tile.
fn tile_of(
    alloc: Global,
    engine: &mut ClassEngine<'_>,
    format: Format,
    brief: bool,
    tile: Cells,
) -> Result<Tile, OutOfMemory>
    requires { tile.from + tile.count ≤ world_cells engine.old.world }
    ensures tails { IfOk result (λ tails. AreTailsOf format brief engine.old.world tile.from tile.count tails) }
    ensures same { IsSameEngine engine.old engine.new }
{
    if brief && has_rows(engine.world(), tile) {
        let mut decisions = Decisions::new(alloc, tile.count as usize)?;
        say_all(alloc, engine, tile, &mut decisions)?;
        return decisions.tile(alloc, format);
    }
    let mut verdicts = Verdicts::new(alloc, tile.count)?;
    say_all(alloc, engine, tile, &mut verdicts)?;
    verdicts.entries.tile(alloc, format, brief)
}

/// Whether a tile is as long as two rows, so that decisions that the engine keeps along one serve the next.
fn has_rows(world: &World, tile: Cells) -> bool {
    tile.count / 2 >= world.resources()
}

/// Says of each cell of a tile what has to be said, behind nothing.
fn say_all<T, S: Said<T>>(
    alloc: Global,
    engine: &mut ClassEngine<'_>,
    tile: Cells,
    said: &mut S,
) -> Result<(), OutOfMemory>
    requires tile { tile.from + tile.count ≤ world_cells engine.old.world }
    requires fits { S.fits said.old engine.old }
    requires none { S.list said.old ≡ [] }
    ensures said { OnOk result (AreEntries (IsOf S.is engine.old.world) tile.from tile.count (S.list said.new)) }
    ensures same { IsSameEngine engine.old engine.new }
{
    let world = engine.world();
    let end = end_of(world, tile.from, tile.count);
    let mut at = Position::of(world, tile.from);
    while at.cell < end {
        let most = left_in_row(world, at, end);
        let count = said.say(alloc, engine, at, most)?;
        at = along(world, at, count);
    }
    Ok(())
}
