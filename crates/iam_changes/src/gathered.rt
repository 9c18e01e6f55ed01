// Rows of changes, as they are gathered.
ghost use Rattle.std.specs.Prelude.{◌≡◌, ◌+◌, ◌≤◌, ◌<◌, ◌^◌, ◌++◌, ◌∷◌, [], IfOk, OnOk, length, map};
ghost use Rattle.iam_changes.specs.Code.Kept.{no_kinds, part_row, with_kind, GatheredValue, end_of, placed};
ghost use Rattle.iam_changes.specs.Code.Pieces.{pair_tail};

use crate::change::Kinds;
use crate::pair::Pair;
use crate::part::Part;
use crate::tail::tail_of;
use iam_row::{Change, Format, Tail};
use iam_text::OutOfMemory;
use iam_tiles::{Form, Kept, Numbers, Tile};
use std::alloc::Global;
use std::marker::Model;

/// Rows of changes in the order of their cells. A contract sees each with its cell and what is said before and after, the cell
/// behind the last, and which kinds of changes there are.
#[derive(Debug, Drop)]
pub struct Gathered {
    from: u64,
    // How many cells without a row stand before each row.
    gaps: Numbers,
    pairs: Kept<Pair>,
    // The cell behind the last row.
    end: u64,
    kinds: Kinds,
}

impl Model for Gathered {
    ghost Value = { GatheredValue };

    ghost view = { λ gathered. record { rows = placed gathered.from gathered.gaps gathered.pairs; end = gathered.end; kinds = gathered.kinds } };

    ghost invariant = { λ gathered. (length gathered.gaps ≡ length gathered.pairs) × (end_of gathered.from gathered.gaps ≡ gathered.end)
        × (gathered.end ≤ 2 ^ 32) };
}

impl Gathered {
    /// None yet, of cells from this one on.
    pub fn new(alloc: Global, from: u64) -> Result<Gathered, OutOfMemory>
        requires { from ≤ 2 ^ 32 }
        ensures { IfOk result (λ gathered. gathered ≡ record { rows = []; end = from; kinds = no_kinds }) }
    {
        Ok(Gathered {
            from,
            gaps: Numbers::new(alloc, 0)?,
            pairs: Kept::new(alloc, 0)?,
            end: from,
            kinds: Kinds::none(),
        })
    }

    /// Puts the row of a cell behind the others, of which there are fewer than 2 ^ 32.
    pub fn add<F: Form<Pair>>(
        &mut self,
        alloc: Global,
        cell: u64,
        change: Change,
        hint: usize,
        form: &F,
    ) -> Result<(), OutOfMemory>
        requires behind { self.old.end ≤ cell }
        requires small { cell < 2 ^ 32 }
        requires few { length self.old.rows < 2 ^ 32 }
        ensures { OnOk result (self.new ≡ record { rows = self.old.rows ++ (cell, F.means form.now) ∷ []; end = cell + 1; kinds = with_kind self.old.kinds change }) }
    {
        let gap = (cell - self.end) as u32;
        self.gaps.push(gap)?;
        if let Err(fault) = self.pairs.push(alloc, hint, form) {
            self.gaps.pop();
            return Err(fault);
        }
        self.end = cell + 1;
        self.kinds = self.kinds.with(change);
        Ok(())
    }

    /// The rows with their tails, in full or in brief.
    pub fn part(self, alloc: Global, format: Format, brief: bool) -> Result<Part, OutOfMemory>
        ensures { IfOk result (λ part. (part.rows ≡ map (part_row format brief) self.rows) × (part.kinds ≡ self.kinds)) }
    {
        let Gathered {
            from,
            gaps,
            pairs,
            end: _,
            kinds,
        } = self;
        let (distinct, numbers) = pairs.parts();
        let tails = tails_of(alloc, format, brief, distinct.as_slice())?;
        Ok(Part::of(from, gaps, Tile::of(tails, numbers), kinds))
    }
}

/// The tails of rows of these pairs.
fn tails_of(
    alloc: Global,
    format: Format,
    brief: bool,
    pairs: &[Pair],
) -> Result<Vec<Tail>, OutOfMemory>
    ensures { IfOk result (λ tails. tails.items ≡ map (pair_tail format brief) pairs.now) }
{
    let mut tails = Vec::with_capacity(alloc, pairs.len())?;
    for pair in pairs {
        tails.push(tail_of(alloc, format, brief, pair)?)?;
    }
    Ok(tails)
}
