// Verdicts as they are kept, and the tails of their rows.
ghost use Rattle.std.specs.Prelude.{◌≡◌, ◌↔◌, IfOk, IsTrue, map};
ghost use Rattle.iam_row.specs.Piece.{bare, tail_of};

use crate::guess::mix;
use crate::kept::{Form, Item, Kept};
use crate::tile::Tile;
use iam_layers::{Decision, Layer, Place, Verdict};
use iam_row::{Format, Tail, bare};
use iam_text::OutOfMemory;
use std::alloc::Global;

impl Item for Verdict {
    ghost use Rattle.iam_tiles.specs.Code.Numbered.{no_verdict};

    ghost none = { no_verdict };
}

impl Form<Verdict> for Verdict {
    ghost means = { λ verdict. verdict };

    fn is(&self, item: &Verdict) -> bool {
        is_same(item, self)
    }

    fn copy(&self, alloc: Global) -> Result<Verdict, OutOfMemory> {
        Verdict::copy(self, alloc)
    }

    fn hash(&self) -> u64 {
        hash_of(self)
    }
}

/// A decision stands for the verdict without places and layers.
impl Form<Verdict> for Decision {
    ghost means = { bare };

    #[inline(always)]
    fn is(&self, item: &Verdict) -> bool {
        is_bare(item, *self)
    }

    fn copy(&self, alloc: Global) -> Result<Verdict, OutOfMemory> {
        Ok(bare(alloc, *self))
    }

    fn hash(&self) -> u64 {
        *self as u64
    }
}

impl Kept<Verdict> {
    /// The tails of their rows, in full or in brief.
    pub fn tile(self, alloc: Global, format: Format, brief: bool) -> Result<Tile, OutOfMemory>
        ensures { IfOk result (λ tile. tile ≡ map (tail_of format brief) self) }
    {
        let (distinct, numbers) = self.parts();
        let tails = tails_of(alloc, format, brief, distinct.as_slice())?;
        Ok(Tile { tails, numbers })
    }
}

/// The tails of these verdicts.
fn tails_of(
    alloc: Global,
    format: Format,
    brief: bool,
    verdicts: &[Verdict],
) -> Result<Vec<Tail>, OutOfMemory>
    ensures { IfOk result (λ tails. tails.items ≡ map (tail_of format brief) verdicts.now) }
{
    let mut tails = Vec::with_capacity(alloc, verdicts.len())?;
    for verdict in verdicts {
        tails.push(Tail::of(alloc, format, brief, verdict)?)?;
    }
    Ok(tails)
}

/// Whether a verdict is found to be this decision without places and layers.
pub fn is_bare(verdict: &Verdict, decision: Decision) -> bool
    ensures { IsTrue result → verdict.now ≡ bare decision }
{
    verdict.decision == decision
        && verdict.statements.as_slice().is_empty()
        && verdict.lacks.as_slice().is_empty()
}

/// Whether two verdicts are equal, wholly.
pub fn is_same(a: &Verdict, b: &Verdict) -> bool
    ensures { IsTrue result ↔ (a.now ≡ b.now) }
{
    a.decision == b.decision
        && same_places(a.statements.as_slice(), b.statements.as_slice())
        && same_layers(a.lacks.as_slice(), b.lacks.as_slice())
}

fn same_places(a: &[Place], b: &[Place]) -> bool
    ensures { IsTrue result ↔ (a.now ≡ b.now) }
{
    a == b
}

fn same_layers(a: &[Layer], b: &[Layer]) -> bool
    ensures { IsTrue result ↔ (a.now ≡ b.now) }
{
    a == b
}

/// The hash of a verdict.
pub fn hash_of(verdict: &Verdict) -> u64 {
    let mut hash = verdict.decision as u64;
    for place in verdict.statements.as_slice() {
        hash = mix(
            hash,
            place.layer as u64 ^ u64::from(place.level).rotate_left(8),
        );
        hash = mix(
            hash,
            u64::from(place.policy).rotate_left(32) ^ u64::from(place.statement),
        );
    }
    for layer in verdict.lacks.as_slice() {
        hash = mix(hash, *layer as u64);
    }
    mix(hash, 0)
}
