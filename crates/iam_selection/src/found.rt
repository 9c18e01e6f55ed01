// The rows of a tile that are asked for.
ghost use Rattle.std.specs.Prelude.{◌≡◌, ◌<◌, get_or, length, List};
ghost use Rattle.iam_selection.specs.Code.Listing.{no_row, rows_in, RowValue};

use iam_report::Tile;
use iam_row::Tail;
use std::marker::Model;

/// Rows of some cells of a tile, in their order. A contract sees each with its cell and its tail.
#[derive(Debug, Drop)]
pub struct Found {
    cells: Vec<u32>,
    tile: Tile,
}

impl Model for Found {
    ghost Value = { List RowValue };

    ghost view = { λ found. rows_in found.cells.items found.tile };

    ghost invariant = { λ found. length found.cells.items ≡ length found.tile };
}

impl Found {
    /// The rows of these cells, with these tails.
    pub fn of(cells: Vec<u32>, tile: Tile) -> Found
        requires { length cells.items ≡ length tile }
        ensures { result ≡ rows_in cells.items tile }
    {
        Found { cells, tile }
    }

    /// How many rows.
    pub fn len(&self) -> usize
        ensures { result ≡ length self.now }
    {
        self.cells.len()
    }

    /// The cell of row i.
    pub fn cell(&self, i: usize) -> u64
        requires { i < length self.now }
        ensures { result ≡ (get_or self.now i no_row).cell }
    {
        u64::from(self.cells[i])
    }

    /// The tail of row i.
    pub fn tail(&self, i: usize) -> &Tail
        requires { i < length self.now }
        ensures { result.now ≡ (get_or self.now i no_row).tail }
    {
        self.tile.tail(i)
    }
}
