// The rows that are asked for among the cells of each tile.
ghost use Rattle.std.specs.Prelude.{◌≡◌, ◌+◌, ◌<◌, ◌≤◌, ◌^◌, IfOk, OnOk, length, slice_index};
ghost use Rattle.iam_world.specs.World.{world_cells};
ghost use Rattle.iam_layers.specs.Cell.{IsCell};
ghost use Rattle.iam_selection.specs.Code.Listing.{Adds, AreFound, IsPickerTile};

use crate::found::Found;
use crate::picker::Picker;
use crate::selection::Selection;
use iam_crew::{Bound, Crew};
use iam_layers::{Verdict, one_decision_at};
use iam_matrix::{Asks, Cells, ClassEngine, Cut, Index, end_of, past_row};
use iam_report::Kept;
use iam_row::{Format, Position};
use iam_text::OutOfMemory;
use std::alloc::Global;

/// Those who make the rows that are asked for, of a world's cells.
#[derive(Clone, Copy)]
pub struct Rows<'a> {
    pub index: &'a Index<'a>,
    pub cut: &'a Cut,
    pub picker: &'a Picker<'a>,
    pub workers: u32,
    pub format: Format,
    pub brief: bool,
}

impl<'a> Crew for Rows<'a> {
    ghost use Rattle.iam_matrix.specs.Cut.{start_of};

    type Output = Found;

    type Tools = ClassEngine<'a>;

    ghost fits = { λ crew engine. engine.world ≡ crew.index.now };

    ghost takes = { λ crew tile. IsPickerTile crew.picker.now crew.index.now crew.cut.now tile };

    ghost gives = { λ crew tile output _. AreFound crew.format crew.brief crew.picker.now.selection crew.index.now (start_of crew.cut.now tile) (slice_index crew.cut.now tile) output };

    fn tools(&self, alloc: Global) -> Result<ClassEngine<'a>, OutOfMemory> {
        ClassEngine::new(alloc, self.index, self.workers)
    }

    fn work(
        &self,
        alloc: Global,
        engine: &mut ClassEngine<'a>,
        _bound: &mut Bound<'_>,
        tile: u64,
    ) -> Result<Found, OutOfMemory> {
        let tile = self.cut.cells(tile);
        found_in(alloc, engine, self.picker, self.format, self.brief, tile)
    }

    ghost lasts = { λ _ _ _ _ _ _ given. given };
}

/// The rows that are asked for among the cells of a tile.
fn found_in(
    alloc: Global,
    engine: &mut ClassEngine<'_>,
    picker: &Picker<'_>,
    format: Format,
    brief: bool,
    tile: Cells,
) -> Result<Found, OutOfMemory>
    requires cells { tile.from + tile.count ≤ world_cells engine.old.world }
    requires world { picker.now.world ≡ engine.old.world }
    ensures rows { IfOk result (λ found. AreFound format brief picker.now.selection engine.old.world tile.from tile.count found) }
    ensures same { engine.new.world ≡ engine.old.world }
{
    let world = engine.world();
    let end = end_of(world, tile.from, tile.count);
    let mut cells = Vec::new(alloc);
    let mut entries: Kept<Verdict> = Kept::new(alloc, 0)?;
    let mut at = Position::of(world, tile.from);
    while at.cell < end {
        if !picker.asks_row(at) {
            at = past_row(world, at, end);
            continue;
        }
        if picker.asks(at) {
            let selection = picker.selection();
            add(
                alloc,
                engine,
                selection,
                brief,
                at,
                &mut cells,
                &mut entries,
            )?;
        }
        at = at.next_in(world);
    }
    Ok(Found::of(cells, entries.tile(alloc, format, brief)?))
}

/// Adds the row of a cell, where its decision is asked for.
fn add(
    alloc: Global,
    engine: &mut ClassEngine<'_>,
    selection: &Selection,
    brief: bool,
    at: Position,
    cells: &mut Vec<u32>,
    entries: &mut Kept<Verdict>,
) -> Result<(), OutOfMemory>
    requires cell { IsCell engine.old.world at.cell at.principal at.action at.resource }
    requires few { at.cell < 2 ^ 32 }
    requires entries { length entries.old < 2 ^ 32 }
    ensures added { OnOk result (Adds brief selection.now engine.old.world at.cell cells.old.items cells.new.items entries.old entries.new) }
    ensures same { engine.new.world ≡ engine.old.world }
{
    one_decision_at();
    let number = engine.find(alloc, at.principal, at.action, at.resource)?;
    let verdict = engine.verdict(number);
    if !selection.wants(verdict.decision) {
        return Ok(());
    }
    cells.push(at.cell as u32)?;
    if brief {
        entries.push(alloc, verdict.decision as usize, &verdict.decision)
    } else {
        entries.push(alloc, number, verdict)
    }
}
