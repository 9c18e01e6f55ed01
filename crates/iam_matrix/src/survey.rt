// What the requests of a world's pairs share, found by all workers before its tiles.
ghost use Rattle.std.specs.Prelude.{◌≡◌, ◌*◌, ◌≤◌, ⊤};

use iam_classes::{Block, Index, Survey, Surveyor, wants_survey};
use iam_crew::{Bound, Crew, Open, gather};
use iam_text::OutOfMemory;
use std::alloc::Global;
use std::thread::Threads;

/// How many blocks the pairs of a world are cut into.
const BLOCKS: u64 = 256;

/// Those who find what the requests of a world's pairs share, in blocks of so many.
#[derive(Clone, Copy)]
struct Surveyors<'a> {
    index: &'a Index<'a>,
    length: u64,
    workers: u32,
}

impl<'a> Crew for Surveyors<'a> {
    type Output = Block<'a>;

    type Tools = Surveyor<'a>;

    ghost fits = { λ crew surveyor. surveyor ≡ crew.index.now };

    ghost takes = { λ _ _. ⊤ };

    ghost gives = { λ crew _ block _. block ≡ crew.index.now };

    fn tools(&self, alloc: Global) -> Result<Surveyor<'a>, OutOfMemory> {
        Surveyor::new(alloc, self.index, self.workers)
    }

    fn work(
        &self,
        alloc: Global,
        surveyor: &mut Surveyor<'a>,
        _bound: &mut Bound<'_>,
        tile: u64,
    ) -> Result<Block<'a>, OutOfMemory> {
        surveyor.block(alloc, tile.saturating_mul(self.length), self.length)
    }

    ghost lasts = { λ _ _ _ _ _ _ given. given };
}

/// How many pairs stand in a block, where so many are cut into blocks of which none leaves any out.
fn block_length(pairs: u64) -> u64
    ensures { pairs ≤ result * 256 }
{
    pairs.div_ceil(BLOCKS)
}

/// What the requests of a world's pairs share, found by so many workers where they had else to wait for one of them. Where they had
/// not, or memory is refused, it has nothing, and each worker finds what it needs.
pub fn survey_of<'a, R: Threads + Sync>(
    rt: &R,
    alloc: Global,
    index: &'a Index<'a>,
    workers: u32,
) -> Survey<'a>
    requires some { 1 ≤ workers }
    requires few { workers ≤ 64 }
    ensures { result ≡ index.entry.now }
{
    let world = index.world();
    if !wants_survey(index, workers) {
        return Survey::of(index, 1, Vec::new(alloc));
    }
    let pairs = world.principals().saturating_mul(world.resources());
    let crew = Surveyors {
        index,
        length: block_length(pairs),
        workers,
    };
    match gather(rt, alloc, &crew, BLOCKS, workers, &Open) {
        Ok(gathered) => Survey::of(index, crew.length, gathered.outputs),
        Err(_) => Survey::of(index, 1, Vec::new(alloc)),
    }
}
