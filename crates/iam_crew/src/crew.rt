// What a crew makes of a tile, and what is told before it begins one.
ghost use Rattle.std.specs.Prelude.{ℕ, ◌≤◌, All, IfOk, IfSome};
ghost use Rattle.iam_crew.specs.Bound.{Lowers};

use crate::bound::Bound;
use iam_text::OutOfMemory;
use std::alloc::Global;

/// Told before a worker begins a tile: a place to count tiles, to wait, or to do nothing.
pub trait Gate {
    /// A worker begins this tile.
    fn before(&self, tile: u64);
}

/// The gate that does nothing.
#[derive(Clone, Copy, Debug)]
pub struct Open;

impl Gate for Open {
    fn before(&self, _tile: u64) {}
}

/// What is made of a tile, by any number of workers at once, each with tools of its own.
///
/// A crew is read by all workers and changed by none; what a worker changes, as a cache, stands in its
/// tools. A crew says four things of its work, as ghost members: `fits`, which tools belong to it; `takes`,
/// which tiles it may be given; `offers`, which cells it may offer; and `gives`, what the output of a tile
/// has to be, where the least cell that anybody offered is at or below a bound. Its law `lasts` says that
/// what is given at a bound is given at every lower one. Cells and tiles are numbers of the crew's own; what
/// cells a tile has is known to `gives` alone.
///
/// A plain crew offers nothing (`offers` is `⊥`), makes the same output at any bound (`gives` does not look
/// at it, and `lasts` hands its last argument back), skips no tile and leaves the bound alone. A crew that searches
/// for the least cell of some kind gives, of a tile, that each such cell is at or above the bound. It looks at the
/// bound ([`Bound::look`]) and skips a tile that lies behind it; else it searches the tile, and offers what it finds
/// ([`Bound::offer`]). Both calls say what becomes of the bound, so `skip` and `work` are proved from their clauses
/// where the search of one tile stands in a function of its own.
///
/// No crew sees the gate: it is told in one place, before a tile that is not skipped is worked.
pub trait Crew {
    /// What is made of one tile.
    type Output: Drop + Send;

    /// What one worker keeps from tile to tile.
    type Tools: Drop + Send;

    // The tools belong to this crew.
    ghost fits: { Self → Self.Tools → Type 0 };

    // The tile may be worked.
    ghost takes: { Self → ℕ → Type 0 };

    // The cell may be offered: none, where a crew does not say which.
    ghost offers: { Self → ℕ → Type 0 } = { λ _ _. ⊥ };

    // The tile's output, where the least cell offered is at or below a bound.
    ghost gives: { Self → ℕ → Self.Output → ℕ → Type 0 };

    /// The tools of a worker that begins. The only error is want of memory.
    fn tools(&self, alloc: Global) -> Result<Self::Tools, OutOfMemory>
        ensures { IfOk result (fits self.now) };

    /// The output of a tile that need not be worked, where the bound says so; `None` for one that has to be.
    fn skip(&self, bound: &mut Bound<'_>, tile: u64) -> Option<Self::Output>
        requires tile { takes self.now tile }
        requires offered { All (offers self.now) bound.old.offers }
        ensures given { IfSome result (λ output. gives self.now tile output bound.new.floor) }
        ensures offered { All (offers self.now) bound.new.offers }
        ensures lower { Lowers bound.old bound.new }
    {
        None
    }

    /// Makes the output of a tile. It may look at the bound and offer cells. The only error is want of memory.
    fn work(
        &self,
        alloc: Global,
        tools: &mut Self::Tools,
        bound: &mut Bound<'_>,
        tile: u64,
    ) -> Result<Self::Output, OutOfMemory>
        requires tile { takes self.now tile }
        requires tools { fits self.now tools.old }
        requires offered { All (offers self.now) bound.old.offers }
        ensures fits { fits self.now tools.new }
        ensures given { IfOk result (λ output. gives self.now tile output bound.new.floor) }
        ensures offered { All (offers self.now) bound.new.offers }
        ensures lower { Lowers bound.old bound.new };

    // What is given at a bound is given at every lower one.
    ghost lasts: { (crew : Self) (tile : ℕ) (output : Self.Output) (bound lower : ℕ) → lower ≤ bound → gives crew tile output bound → gives crew tile output lower };
}

/// The output of a tile, which the crew skips, or works once the gate was told. The only error is want of memory.
pub fn output_at<G: Gate, C: Crew>(
    alloc: Global,
    crew: &C,
    tools: &mut C::Tools,
    gate: &G,
    bound: &mut Bound<'_>,
    tile: u64,
) -> Result<C::Output, OutOfMemory>
    requires tile { C.takes crew.now tile }
    requires tools { C.fits crew.now tools.old }
    requires offered { All (C.offers crew.now) bound.old.offers }
    ensures fits { C.fits crew.now tools.new }
    ensures given { IfOk result (λ output. C.gives crew.now tile output bound.new.floor) }
    ensures offered { All (C.offers crew.now) bound.new.offers }
    ensures lower { Lowers bound.old bound.new }
{
    if let Some(output) = crew.skip(bound, tile) {
        return Ok(output);
    }
    gate.before(tile);
    crew.work(alloc, tools, bound, tile)
}
