// The tails of a tile's rows.
ghost use Rattle.std.specs.Prelude.{◌≡◌, ◌<◌, All, get_or, length, List};
ghost use Rattle.iam_row.specs.declared.tail.Tail.{Tail};
ghost use Rattle.iam_tiles.specs.Code.Numbered.{no_tail, picked};

use crate::numbers::Numbers;
use iam_row::Tail;
use std::marker::Model;

/// The tails of the rows of cells that follow one another. A contract sees their list; each different one is kept once,
/// and a small number for each cell.
#[derive(Debug, Drop)]
pub struct Tile {
    pub(crate) tails: Vec<Tail>,
    // The number of each in `tails`.
    pub(crate) numbers: Numbers,
}

impl Model for Tile {
    ghost Value = { List Tail };

    ghost view = { λ tile. picked no_tail tile.tails.items tile.numbers };

    ghost invariant = { λ tile. All (λ n. n < length tile.tails.items) tile.numbers };
}

impl Tile {
    /// Rows with these tails, by their numbers.
    pub fn of(tails: Vec<Tail>, numbers: Numbers) -> Tile
        requires { All (λ n. n < length tails.items) numbers }
        ensures { result ≡ picked no_tail tails.items numbers }
    {
        Tile { tails, numbers }
    }

    /// The different tails, and the number of each row's among them.
    pub fn parts(&self) -> (&[Tail], &Numbers)
        ensures rows { picked no_tail result.0.now result.1.now ≡ self.now }
        ensures known { All (λ n. n < length result.0.now) result.1.now }
    {
        (self.tails.as_slice(), &self.numbers)
    }

    /// How many rows it has.
    pub fn len(&self) -> usize
        ensures { result ≡ length self.now }
    {
        self.numbers.len()
    }

    /// The tail of row i.
    #[inline]
    pub fn tail(&self, i: usize) -> &Tail
        requires { i < length self.now }
        ensures { result.now ≡ get_or self.now i no_tail }
    {
        &self.tails[self.numbers.at(i) as usize]
    }
}
