// How lanes are closed: the seats joined into one view, and the words read.
ghost use Rattle.std.specs.Prelude.{◌≡◌, ◌+◌, ◌<◌, ◌≤◌, [], length, vec_len, All};
ghost use Rattle.std.specs.Mem.Slots.{slots_items, slots_len, IsFull};
ghost use Rattle.iam_lanes.specs.Code.Closing.{Gathers, passed_below};

use crate::rule::{LanePass, LaneTable, Seats};
use crate::seat::LaneSeat;
use atomic_table::Closed;
use std::alloc::Global;

// Joins all seats into one, whose view has all that they took, saw ended, offered and saw.
pub fn gather(table: &LaneTable, mut seats: Vec<LaneSeat>) -> LanePass
    requires some { 0 < vec_len seats }
    requires words { 0 < table.now.shared.table_id.words }
    requires seats { All (λ s. s.lanes.table ≡ table.now.shared.table_id) seats.items }
    ensures table { result.table_id ≡ table.now.shared.table_id }
    ensures gathered { Gathers seats.items [] result.me.0 }
{
    let Some(first) = seats.pop() else {
        unreachable!()
    };
    let mut pass = first.into_pass();
    while let Some(seat) = seats.pop() {
        table.shared.join_seat::<Seats>(&mut pass, seat.into_pass());
    }
    pass
}

// How many lanes have a count past their length.
pub fn count_ended(closed: &Closed<(), Global>, lengths: &[u64]) -> u32
    requires words { slots_len closed.now.words ≡ length lengths.now + 1 }
    requires full { IsFull closed.now.words }
    requires few { length lengths.now ≤ 64 }
    ensures { result ≡ passed_below (length lengths.now) (slots_items closed.now.words) lengths.now }
{
    let mut ended = 0;
    for lane in 0..lengths.len() {
        ended += u32::from(closed.word(lane + 1) > lengths[lane]);
    }
    ended
}
