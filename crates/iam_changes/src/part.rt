// The rows of a tile.
ghost use Rattle.std.specs.Prelude.{◌≡◌, ◌<◌, ◌≤◌, ◌^◌, length};
ghost use Rattle.iam_changes.specs.Code.Kept.{cell_behind, end_of, placed, row_at};
ghost use Rattle.iam_changes.specs.Code.Pieces.{PartValue};

use crate::change::Kinds;
use iam_row::Tail;
use iam_tiles::{Numbers, Tile};
use std::marker::Model;

/// Rows of changes in the order of their cells. A contract sees each with its cell and its tail, and which kinds of changes there
/// are.
#[derive(Debug, Drop)]
pub struct Part {
    from: u64,
    // How many cells without a row stand before each row.
    gaps: Numbers,
    tile: Tile,
    kinds: Kinds,
}

impl Model for Part {
    ghost Value = { PartValue };

    ghost view = { λ part. record { from = part.from; rows = placed part.from part.gaps part.tile; kinds = part.kinds } };

    ghost invariant = { λ part. (length part.gaps ≡ length part.tile) × (end_of part.from part.gaps ≤ 2 ^ 32) };
}

impl Part {
    /// Rows with these tails, behind so many cells each, from this one on.
    pub fn of(from: u64, gaps: Numbers, tile: Tile, kinds: Kinds) -> Part
        requires count { length gaps ≡ length tile }
        requires end { end_of from gaps ≤ 2 ^ 32 }
        ensures { result ≡ record { from = from; rows = placed from gaps tile; kinds = kinds } }
    {
        Part {
            from,
            gaps,
            tile,
            kinds,
        }
    }

    /// The cell from which on they are.
    pub fn from(&self) -> u64
        ensures { result ≡ self.now.from }
    {
        self.from
    }

    /// How many rows.
    pub fn len(&self) -> usize
        ensures { result ≡ length self.now.rows }
    {
        self.tile.len()
    }

    /// The cell of row i, where this one stands behind the row before it.
    pub fn cell(&self, i: usize, behind: u64) -> u64
        requires row { i < length self.now.rows }
        requires behind { behind ≡ cell_behind self.now i }
        ensures cell { result ≡ (row_at self.now i).0 }
        ensures small { result < 2 ^ 32 }
    {
        behind + u64::from(self.gaps.at(i))
    }

    /// The tail of row i.
    pub fn tail(&self, i: usize) -> &Tail
        requires { i < length self.now.rows }
        ensures { result.now ≡ (row_at self.now i).1 }
    {
        self.tile.tail(i)
    }

    /// Which kinds of changes there are.
    pub fn kinds(&self) -> Kinds
        ensures { result ≡ self.now.kinds }
    {
        self.kinds
    }
}
