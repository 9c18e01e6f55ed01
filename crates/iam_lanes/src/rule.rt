// The table that the lanes stand on: its words, the rule that they keep, and what each step tells.
//
// Word 0 is the bound, and word `lane + 1` is the count of a lane.
ghost use Rattle.std.specs.Prelude.{◌≡◌};
ghost use Rattle.iam_lanes.specs.Code.LaneRule.{without_seat, one_seat, unseated, joined_view};
ghost use Rattle.iam_lanes.specs.Code.Words.{tells_take, tells_offer, tells_look, IsRuled, opened};

use crate::view::LaneView;
use atomic_table::{Join, Play, Seat, Split, Table, TableRule};
use std::alloc::Global;

/// The bound's word while no cell was offered.
pub const NO_CELL: u64 = u64::MAX;

/// What was opened: the lengths of the lanes, and the number of seats.
#[derive(Drop)]
pub struct Plan {
    pub lengths: Vec<u64>,
    pub seats: u64,
}

/// The rule of the lanes, as the rule of a table.
pub struct Ruled;

impl TableRule<(), LaneView, Plan> for Ruled {
    ghost holds = { λ plan s. IsRuled plan.lengths.items plan.seats s };

    ghost first = { λ plan. opened plan.lengths.items plan.seats };
}

pub type LaneTable = Table<(), LaneView, Plan, Ruled, Global>;

pub type LanePass = Seat<(), LaneView>;

/// A take, by one `fetch_add` on the lane's word.
pub struct Take;

impl Play<(), LaneView> for Take {
    ghost then = { λ step me found after. tells_take step.word me.0 found after.0 × (after.1 ≡ me.1) };
}

/// An offer, by one `fetch_min` on the bound's word.
pub struct Offer;

impl Play<(), LaneView> for Offer {
    ghost then = { λ step me found after. tells_offer step.first me.0 after.0 × (after.1 ≡ me.1) };
}

/// A look, by one load of the bound's word.
pub struct Look;

impl Play<(), LaneView> for Look {
    ghost then = { λ step me found after. tells_look me.0 found after.0 × (after.1 ≡ me.1) };
}

/// One seat is split off from a view, or a view is joined into another.
pub struct Seats;

impl Split<LaneView> for Seats {
    ghost left = { without_seat };

    ghost right = { one_seat };
}

impl Join<LaneView> for Seats {
    ghost both = { joined_view };

    ghost spent = { unseated };
}
