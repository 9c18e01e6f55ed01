// A run of workers in threads.
ghost use Rattle.std.specs.Prelude.{◌≡◌, ◌++◌, All, IfOk, MatchResult, vec_len};
ghost use Rattle.std.specs.Thread.{IsSync};
ghost use Rattle.iam_crew.specs.Code.Job.{IsJob};
ghost use Rattle.iam_crew.specs.Code.Worker.{AreDone, IsReady};

use crate::crew::{Crew, Gate};
use crate::seats::Seats;
use crate::shares::Shares;
use crate::worker::{Done, Job};
use iam_lanes::{Lanes, Work};
use iam_text::OutOfMemory;
use std::alloc::Global;
use std::thread::{Threads, join};

// What two runs brought back, the second behind the first.
fn both<O: Drop>(
    first: Result<Vec<Done<O>>, OutOfMemory>,
    second: Result<Vec<Done<O>>, OutOfMemory>,
) -> Result<Vec<Done<O>>, OutOfMemory>
    ensures { IfOk result (λ v. MatchResult first (λ a. MatchResult second (λ b. v.items ≡ a.items ++ b.items) (λ _. ⊥)) (λ _. ⊥)) }
{
    let mut all = first?;
    let mut others = second?;
    all.append(&mut others)?;
    Ok(all)
}

/// One worker for each of these seats, each in a thread of its own where one can be made.
///
/// The parts of the job are passed loose: of a closure that holds a type with a lifetime `join` tells nothing.
pub fn run<R: Threads + Sync, G: Gate + Sync, C: Crew + Sync>(
    rt: &R,
    alloc: Global,
    crew: &C,
    lanes: &Lanes,
    work: &Work,
    gate: &G,
    shares: Shares,
    mut seats: Vec<Seats>,
) -> Result<Vec<Done<C::Output>>, OutOfMemory>
    requires job { IsJob C.takes crew.now work.now shares }
    requires seats { All (IsReady lanes.now work.now) seats.items }
    ensures done { IfOk result (AreDone C.offers C.gives crew.now lanes.now shares.tiles) }
    ensures len { IfOk result (λ v. vec_len v ≡ vec_len seats) }
{
    if seats.len() <= 1 {
        let job = Job {
            crew,
            lanes,
            work,
            gate,
            shares,
        };
        return job.run_alone(alloc, seats);
    }
    let half = seats.len() / 2;
    let right = seats.split_off(half)?;
    let (first, second) = join(
        rt,
        move || -> Result<Vec<Done<C::Output>>, OutOfMemory>
            requires sync { IsSync R.row × IsSync G.row × IsSync C.row }
            requires job { IsJob C.takes crew.now work.now shares }
            requires seats { All (IsReady lanes.now work.now) seats.items }
            ensures done { IfOk result (AreDone C.offers C.gives crew.entry.now lanes.entry.now shares.tiles) }
            ensures len { IfOk result (λ v. vec_len v ≡ vec_len seats) }
        { run(rt, alloc, crew, lanes, work, gate, shares, seats) },
        move || -> Result<Vec<Done<C::Output>>, OutOfMemory>
            requires sync { IsSync R.row × IsSync G.row × IsSync C.row }
            requires job { IsJob C.takes crew.now work.now shares }
            requires seats { All (IsReady lanes.now work.now) right.items }
            ensures done { IfOk result (AreDone C.offers C.gives crew.entry.now lanes.entry.now shares.tiles) }
            ensures len { IfOk result (λ v. vec_len v ≡ vec_len right) }
        { run(rt, alloc, crew, lanes, work, gate, shares, right) },
    );
    both(first, second)
}
