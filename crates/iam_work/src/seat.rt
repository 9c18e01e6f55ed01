// A seat of the work, as a caller holds it.
ghost use Rattle.std.specs.Prelude.{◌≡◌, [], All, map, vec_len};
ghost use mathlib.Core.Option.{some};
ghost use lib.ListN.{get_elem?};
ghost use Rattle.crossbeam_deque.specs.Handles.{worker_deque, worker_view};
ghost use Rattle.iam_work.specs.Work.{fresh, work_id, SeatView};
ghost use Rattle.iam_work.specs.Code.Fields.{seat_view, pass_deque, IsUnused, IsNew, IsSeatOf};

use crate::deque::{Owner, RunPass};
use crate::marks::MarkPass;
use crate::view::MarkView;
use std::marker::Model;

/// The right of one thread to push and pop at its own deque, to steal from the others and to mark grains.
/// It is handed out by `Work::open`, may go to another thread, and goes back to `Work::close`.
///
/// A contract sees the work that it belongs to, its number, and what it marked, found, pushed, popped and stole.
#[derive(Drop)]
pub struct WorkSeat {
    pub(crate) pass: MarkPass,
    pub(crate) number: u32,
    pub(crate) owner: Owner,
    // One for each deque. That of the seat's own deque stays unused, since its owner has one of its own.
    pub(crate) passes: Vec<RunPass>,
}

impl Model for WorkSeat {
    ghost Value = { SeatView };

    ghost view = { λ s. seat_view s.pass.table_id s.pass.me.0 s.number (worker_view s.owner) s.passes.items };

    ghost invariant = { λ s. IsSeatOf s.pass.me.1 s.pass.me.0 s.number s.owner s.passes.items };
}

impl WorkSeat {
    pub(crate) fn new(pass: MarkPass, number: u32, owner: Owner, passes: Vec<RunPass>) -> WorkSeat
        requires slots { pass.me.1 ≡ [] }
        requires seat { pass.me.0.seats ≡ 1 }
        requires marked { pass.me.0.marked ≡ [] }
        requires found { pass.me.0.found ≡ [] }
        requires owner { IsUnused pass.me.0.grains owner }
        requires owns { get_elem? (map pass_deque passes.items) number ≡ some (worker_deque owner) }
        requires passes { All (IsNew pass.me.0.grains) passes.items }
        requires every { vec_len passes ≡ pass.me.0.all }
        ensures { result ≡ fresh (work_id pass.table_id (map pass_deque passes.items) pass.me.0.grains pass.me.0.all) number }
    {
        WorkSeat {
            pass,
            number,
            owner,
            passes,
        }
    }

    /// The number of the seat, which is that of its own deque.
    pub fn number(&self) -> u32
        ensures { result ≡ self.now.number }
    {
        self.number
    }

    pub(crate) fn into_pass(self) -> MarkPass
        ensures slots { result.me.1 ≡ [] }
        ensures seat { result.me.0.seats ≡ 1 }
        ensures work { result.table_id ≡ self.work.marks }
        ensures marked { result.me.0.marked ≡ self.marked }
        ensures found { result.me.0.found ≡ self.found }
    {
        let WorkSeat {
            pass,
            number: _,
            owner: _,
            passes: _,
        } = self;
        pass
    }
}
