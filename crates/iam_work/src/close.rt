// How work is closed: the seats joined into one view, and the bits counted.
ghost use Rattle.std.specs.Prelude.{◌≡◌, ◌+◌, ◌<◌, ◌≤◌, [], vec_len, All};
ghost use Rattle.std.specs.Mem.Slots.{slots_items, slots_len, IsFull};
ghost use Rattle.iam_work.specs.Code.Closing.{Gathers, set_below};
ghost use Rattle.iam_work.specs.Code.Words.{words_for};

use crate::marks::{MarkPass, MarkTable, Seats};
use crate::seat::WorkSeat;
use atomic_table::Closed;
use std::alloc::Global;

// Joins all seats into one, whose view has all that they marked and found.
pub fn gather(table: &MarkTable, mut seats: Vec<WorkSeat>) -> MarkPass
    requires some { 0 < vec_len seats }
    requires words { 0 < table.now.shared.table_id.words }
    requires seats { All (λ s. s.work.marks ≡ table.now.shared.table_id) seats.items }
    ensures table { result.table_id ≡ table.now.shared.table_id }
    ensures gathered { Gathers seats.items [] result.me.0 }
{
    let Some(first) = seats.pop() else {
        unreachable!()
    };
    let mut pass = first.into_pass();
    while let Some(seat) = seats.pop() {
        table.shared.join_seat::<Seats>(&mut pass, seat.into_pass());
    }
    pass
}

// How many of so many grains are marked.
pub fn count_marked(closed: &Closed<(), Global>, grains: u64) -> u64
    requires words { slots_len closed.now.words ≡ words_for grains }
    requires full { IsFull closed.now.words }
    requires few { grains ≤ 4096 }
    ensures { result ≡ set_below grains (slots_items closed.now.words) }
{
    let mut marked = 0;
    for grain in 0..grains {
        marked += closed.word((grain / 64) as usize) >> (grain % 64) & 1;
    }
    marked
}
