// What workers begin with: their seats, and the runs of their own on their deques.
ghost use Rattle.std.specs.Prelude.{◌≡◌, ◌+◌, ◌<◌, ◌≤◌, [], All, IfOk, map, vec_len};
ghost use Rattle.std.specs.List.{range_with_len};
ghost use Rattle.iam_lanes.specs.Work.{fresh};
ghost use Rattle.iam_crew.specs.Code.Runs.{IsDealt};
ghost use Rattle.iam_crew.specs.Code.Worker.{IsFresh, IsOwn, IsReady, IsUntouched};

use crate::shares::Shares;
use iam_lanes::{LaneFault, LaneSeat, Lanes, Run, Work, WorkSeat};
use iam_text::OutOfMemory;
use std::alloc::Global;

/// What a worker begins with: its seats, at the lanes that keep the bound and at the work, and the run that it has in hand.
#[derive(Drop)]
pub struct Seats {
    pub bound: LaneSeat,
    pub work: WorkSeat,
    /// No tile where the run of its own is on its deque.
    pub in_hand: Run,
}

/// The bound of so many workers: lanes without a lane, with a seat for each. The only error is want of memory.
pub fn open_bound(alloc: Global, workers: u32) -> Result<(Lanes, Vec<LaneSeat>), OutOfMemory>
    requires some { 1 ≤ workers }
    requires few { workers ≤ 64 }
    ensures count { IfOk result (λ r. r.0.seats ≡ workers) }
    ensures len { IfOk result (λ r. vec_len r.1 ≡ workers) }
    ensures seats { IfOk result (λ r. All (IsFresh r.0) r.1.items) }
{
    match Lanes::open(alloc, &[], workers) {
        Ok(opened) => Ok(opened),
        Err(LaneFault::OutOfMemory) => Err(OutOfMemory),
        Err(LaneFault::NoSeat | LaneFault::TooMany) => unreachable!(),
    }
}

/// The work of these shares, with a seat for each worker. The only error is want of memory.
pub fn open_work(alloc: Global, shares: Shares) -> Result<(Work, Vec<WorkSeat>), OutOfMemory>
    ensures tiles { IfOk result (λ r. r.0.grains ≡ shares.tiles) }
    ensures workers { IfOk result (λ r. r.0.seats ≡ shares.workers) }
    ensures seats { IfOk result (λ r. r.1.items ≡ map (fresh r.0) (range_with_len 0 shares.workers)) }
{
    match Work::open(alloc, shares.tiles, shares.workers) {
        Ok(opened) => Ok(opened),
        Err(LaneFault::OutOfMemory) => Err(OutOfMemory),
        Err(LaneFault::NoSeat | LaneFault::TooMany) => unreachable!(),
    }
}

// Pushes the run of a worker's own onto its deque, unless it is empty, and answers what is in hand afterwards: where the push
// is refused, the run.
fn push_own(work: &Work, shares: Shares, seat: &mut WorkSeat) -> Run
    requires tiles { work.now.grains ≡ shares.tiles }
    requires workers { work.now.seats ≡ shares.workers }
    requires seat { IsUntouched work.now seat.old }
    ensures own { IsOwn work.now seat.new }
    ensures marked { seat.new.marked ≡ [] }
    ensures dealt { IsDealt shares.tiles shares.workers seat.new result }
    ensures inside { result.first + result.count ≤ shares.tiles }
{
    let run = shares.run_of(seat.number());
    if run.count == 0 {
        return run;
    }
    match work.push(seat, run) {
        Ok(()) => Run {
            first: run.first,
            count: 0,
        },
        Err(refused) => refused,
    }
}

/// What all workers begin with, each with the run of its own on its deque or in hand.
pub fn deal(
    alloc: Global,
    lanes: &Lanes,
    work: &Work,
    shares: Shares,
    mut bounds: Vec<LaneSeat>,
    seats: Vec<WorkSeat>,
) -> Result<Vec<Seats>, OutOfMemory>
    requires tiles { work.now.grains ≡ shares.tiles }
    requires workers { work.now.seats ≡ shares.workers }
    requires count { vec_len bounds ≡ vec_len seats }
    requires bounds { All (IsFresh lanes.now) bounds.items }
    requires seats { All (IsUntouched work.now) seats.items }
    ensures count { IfOk result (λ v. vec_len v ≡ vec_len seats) }
    ensures ready { IfOk result (λ v. All (IsReady lanes.now work.now) v.items) }
{
    let mut all = Vec::new(alloc);
    for mut seat in seats {
        let Some(bound) = bounds.pop() else {
            unreachable!()
        };
        let in_hand = push_own(work, shares, &mut seat);
        all.push(Seats {
            bound,
            work: seat,
            in_hand,
        })?;
    }
    Ok(all)
}
