// Decisions one behind the other.
ghost use Rattle.std.specs.Prelude.{◌≡◌, ◌++◌, ◌∷◌, [], IfOk, OnErr, OnOk, Some, map, slice_get};
ghost use Rattle.iam_row.specs.Piece.{brief_tail};
ghost use Rattle.iam_tiles.specs.Code.Numbered.{all_decisions};

use crate::numbers::Numbers;
use crate::tile::Tile;
use iam_layers::Decision;
use iam_row::{Format, Tail, bare};
use iam_text::OutOfMemory;
use std::alloc::Global;
use std::marker::Model;

/// Decisions one behind the other. A contract sees their list; each is kept as a byte.
#[derive(Debug, Drop)]
pub struct Decisions {
    // The number of each.
    numbers: Numbers,
}

impl Model for Decisions {
    ghost use Rattle.std.specs.Prelude.{◌<◌, All, List, length};
    ghost use Rattle.iam_decision.specs.declared.verdict.Decision.{Decision};
    ghost use Rattle.iam_decision.specs.declared.verdict.Decision.TheVariants.{ImplicitDeny};
    ghost use Rattle.iam_tiles.specs.Code.Numbered.{all_decisions, picked};

    ghost Value = { List Decision };

    ghost view = { λ decisions. picked ImplicitDeny all_decisions decisions.numbers };

    ghost invariant = { λ decisions. All (λ n. n < length all_decisions) decisions.numbers };
}

impl Decisions {
    /// None yet, with room for so many.
    pub fn new(alloc: Global, room: usize) -> Result<Decisions, OutOfMemory>
        ensures { IfOk result (λ decisions. decisions ≡ []) }
    {
        Ok(Decisions {
            numbers: Numbers::new(alloc, room)?,
        })
    }

    /// Puts a decision behind the others.
    #[inline(always)]
    pub fn push(&mut self, decision: Decision) -> Result<(), OutOfMemory>
        ensures ok { OnOk result (self.new ≡ self.old ++ decision ∷ []) }
        ensures err { OnErr result (self.new ≡ self.old) }
    {
        self.numbers.push(number_of(decision))
    }

    /// The tails of their rows, in brief.
    pub fn tile(self, alloc: Global, format: Format) -> Result<Tile, OutOfMemory>
        ensures { IfOk result (λ tile. tile ≡ map (brief_tail format) self) }
    {
        let tails = all_tails(alloc, format)?;
        Ok(Tile {
            tails,
            numbers: self.numbers,
        })
    }
}

/// The number of a decision.
#[inline(always)]
fn number_of(decision: Decision) -> u32
    ensures { slice_get all_decisions result ≡ Some decision }
{
    match decision {
        Decision::Allowed => 0,
        Decision::ExplicitDeny => 1,
        Decision::ImplicitDeny => 2,
    }
}

/// The tail of each decision, by their numbers.
fn all_tails(alloc: Global, format: Format) -> Result<Vec<Tail>, OutOfMemory>
    ensures { IfOk result (λ tails. tails.items ≡ map (brief_tail format) all_decisions) }
{
    let decisions = [
        Decision::Allowed,
        Decision::ExplicitDeny,
        Decision::ImplicitDeny,
    ];
    let mut tails = Vec::with_capacity(alloc, decisions.len())?;
    for decision in decisions {
        tails.push(Tail::of(alloc, format, true, &bare(alloc, decision))?)?;
    }
    Ok(tails)
}
