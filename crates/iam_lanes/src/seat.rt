// A seat of the lanes, as a caller holds it.
ghost use Rattle.std.specs.Prelude.{◌≡◌, []};
ghost use Rattle.iam_lanes.specs.Code.Fields.{seat_view, IsSeatOf};
ghost use Rattle.iam_lanes.specs.Lanes.{SeatView};

use crate::rule::LanePass;
use crate::view::LaneView;
use std::marker::Model;

/// The right of one thread to take from its lanes, to offer and to look. It is handed out by
/// `Lanes::open`, may go to another thread, and goes back to `Lanes::close`.
///
/// A contract sees the lanes that it belongs to, and what it took, saw ended, offered and saw.
#[derive(Drop)]
pub struct LaneSeat {
    pub(crate) pass: LanePass,
    // The lanes that this seat saw ended.
    pub(crate) ended: [bool; 64],
}

impl Model for LaneSeat {
    ghost Value = { SeatView };

    ghost view = { λ s. seat_view s.pass.table_id s.pass.me.0 };

    ghost invariant = { λ s. IsSeatOf s.pass.me.1 s.pass.me.0 s.ended };
}

impl LaneSeat {
    pub(crate) fn new(pass: LanePass) -> LaneSeat
        requires slots { pass.me.1 ≡ [] }
        requires seat { pass.me.0.seats ≡ 1 }
        requires ends { pass.me.0.ends ≡ [] }
        ensures { result ≡ seat_view pass.table_id pass.me.0 }
    {
        LaneSeat {
            pass,
            ended: [false; 64],
        }
    }

    pub(crate) fn into_pass(self) -> LanePass
        ensures slots { result.me.1 ≡ [] }
        ensures seat { result.me.0.seats ≡ 1 }
        ensures shown { seat_view result.table_id result.me.0 ≡ self }
    {
        let LaneSeat { pass, ended: _ } = self;
        pass
    }
}
