// The table that the marks stand on: its words, the rule that they keep, and what a mark tells.
//
// The bit of grain g is bit `g % 64` of word `g / 64`.
ghost use Rattle.std.specs.Prelude.{◌≡◌};
ghost use Rattle.iam_work.specs.Code.MarkRule.{without_seat, one_seat, unseated, joined_view};
ghost use Rattle.iam_work.specs.Code.Words.{tells_mark, IsRuled, opened};

use crate::view::MarkView;
use atomic_table::{Join, Play, Seat, Split, Table, TableRule};
use std::alloc::Global;

/// What was opened: how many grains, and the number of seats.
#[derive(Clone, Copy)]
pub struct Plan {
    pub grains: u64,
    pub seats: u64,
}

/// The rule of the marks, as the rule of a table.
pub struct Marked;

impl TableRule<(), MarkView, Plan> for Marked {
    ghost holds = { λ plan s. IsRuled plan.grains plan.seats s };

    ghost first = { λ plan. opened plan.grains plan.seats };
}

pub type MarkTable = Table<(), MarkView, Plan, Marked, Global>;

pub type MarkPass = Seat<(), MarkView>;

/// A mark, by one `fetch_or` on the word of its grain.
pub struct Mark;

impl Play<(), MarkView> for Mark {
    ghost then = { λ step me found after. tells_mark step.word step.first me.0 found after.0 × (after.1 ≡ me.1) };
}

/// One seat is split off from a view, or a view is joined into another.
pub struct Seats;

impl Split<MarkView> for Seats {
    ghost left = { without_seat };

    ghost right = { one_seat };
}

impl Join<MarkView> for Seats {
    ghost both = { joined_view };

    ghost spent = { unseated };
}
