// The tails of the rows of each tile of requests.
ghost use Rattle.std.specs.Prelude.{◌≡◌, ◌+◌, ◌≤◌, IfOk, length, slice_index};
ghost use Rattle.iam_ask.specs.Code.Rows.{AreTailsOf, IsTileOf};

use crate::answer::answer_to;
use iam_asked::Requests;
use iam_crew::{Bound, Crew};
use iam_engine::{Engine, Index};
use iam_layers::Verdict;
use iam_matrix::{CAPACITY, Cells, Cut};
use iam_report::{Kept, Tile};
use iam_row::Format;
use iam_text::OutOfMemory;
use std::alloc::Global;

/// Those who make the tails of the rows of requests.
#[derive(Clone, Copy)]
pub struct Rows<'a> {
    pub index: &'a Index<'a>,
    pub requests: &'a Requests<'a>,
    pub cut: &'a Cut,
    pub format: Format,
    pub brief: bool,
}

impl<'a> Crew for Rows<'a> {
    ghost use Rattle.iam_matrix.specs.Cut.{start_of};

    type Output = Tile;

    type Tools = Engine<'a>;

    ghost fits = { λ crew engine. engine ≡ crew.index.now };

    ghost takes = { λ crew tile. IsTileOf crew.index.now crew.requests.now crew.cut.now tile };

    ghost gives = { λ crew tile output _. AreTailsOf crew.format crew.brief crew.requests.now (start_of crew.cut.now tile) (slice_index crew.cut.now tile) output };

    fn tools(&self, alloc: Global) -> Result<Engine<'a>, OutOfMemory> {
        Engine::new(alloc, self.index.world(), self.index, CAPACITY)
    }

    fn work(
        &self,
        alloc: Global,
        engine: &mut Engine<'a>,
        _bound: &mut Bound<'_>,
        tile: u64,
    ) -> Result<Tile, OutOfMemory> {
        let tile = self.cut.cells(tile);
        tile_of(alloc, engine, self.requests, self.format, self.brief, tile)
    }

    ghost lasts = { λ _ _ _ _ _ _ given. given };
}

/// The tails of the rows of the requests of a tile.
fn tile_of(
    alloc: Global,
    engine: &mut Engine<'_>,
    requests: &Requests<'_>,
    format: Format,
    brief: bool,
    tile: Cells,
) -> Result<Tile, OutOfMemory>
    requires world { requests.now.world ≡ engine.old }
    requires tile { tile.from + tile.count ≤ length requests.now.asked }
    ensures tails { IfOk result (λ tails. AreTailsOf format brief requests.now tile.from tile.count tails) }
    ensures same { engine.new ≡ engine.old }
{
    // There are at most 16,777,216 requests, so the numbers fit.
    let _count = requests.count();
    let end = tile.from + tile.count;
    let mut entries: Kept<Verdict> = Kept::new(alloc, tile.count as usize)?;
    for n in tile.from..end {
        let verdict = answer_to(alloc, engine, requests, n, brief)?;
        entries.push(alloc, verdict.decision as usize, &verdict)?;
    }
    entries.tile(alloc, format, brief)
}
