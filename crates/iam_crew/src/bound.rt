// The shared bound, as one worker sees it.
ghost use Rattle.std.specs.Prelude.{◌≡◌, ◌<◌, ◌≤◌, ◌++◌, ◌∷◌, [], IfSome};
ghost use Rattle.iam_lanes.specs.Lanes.{no_cell};
ghost use Rattle.iam_crew.specs.Bound.{bound_of, view_of, Lowers, BoundView};

use iam_lanes::{LaneSeat, Lanes};
use std::marker::Model;

/// The bound that all workers of a crew share, the least cell that any of them has offered, as one worker sees it.
///
/// A contract sees which lanes keep the bound, the cells that this worker offered, and its floor: the least cell that
/// it offered or saw.
#[derive(Drop)]
pub struct Bound<'a> {
    lanes: &'a Lanes,
    seat: LaneSeat,
}

impl<'a> Model for Bound<'a> {
    ghost Value = { BoundView };

    ghost view = { λ b. view_of b.seat };

    ghost invariant = { λ b. b.seat.lanes ≡ b.lanes.now };
}

impl<'a> Bound<'a> {
    pub(crate) fn new(lanes: &'a Lanes, seat: LaneSeat) -> Bound<'a>
        requires { seat.lanes ≡ lanes.now }
        ensures { result ≡ view_of seat }
    {
        Bound { lanes, seat }
    }

    pub(crate) fn into_seat(self) -> LaneSeat
        ensures { view_of result ≡ self.entry }
    {
        let Bound { lanes: _, seat } = self;
        seat
    }

    /// The least cell that any worker has offered so far, `None` while there is none.
    ///
    /// A tile all of whose cells are above it need not be searched. The floor is then that cell.
    pub fn look(&mut self) -> Option<u64>
        ensures cell { IfSome result (λ cell. cell < no_cell) }
        ensures seen { self.new.floor ≡ bound_of result }
        ensures lower { Lowers self.old self.new }
        ensures offers { self.new.offers ≡ self.old.offers }
    {
        self.lanes.low(&mut self.seat)
    }

    /// Offers a cell: the bound falls to it where it was above. The floor is then at or below the cell.
    ///
    /// The cell has to be below `u64::MAX`.
    pub fn offer(&mut self, cell: u64)
        requires { cell < no_cell }
        ensures offered { self.new.floor ≤ cell }
        ensures lower { Lowers self.old self.new }
        ensures offers { self.new.offers ≡ self.old.offers ++ cell ∷ [] }
    {
        self.lanes.offer(&mut self.seat, cell);
    }
}
