// How work is opened: its deques, a pass of each for every seat, and the seats dealt out.
ghost use Rattle.std.specs.Prelude.{◌≡◌, ◌<◌, true, [], map, vec_len, IfOk, IfErr, All};
ghost use Rattle.std.specs.List.{range_with_len};
ghost use Rattle.crossbeam_deque.specs.Handles.{worker_deque, stealer_deque, worker_view};
ghost use Rattle.iam_work.specs.Work.{fresh, work_id};
ghost use Rattle.iam_work.specs.Code.Words.{opened};
ghost use Rattle.iam_work.specs.Code.Fields.{pass_deque, IsUnused, IsNew, IsLaid};

use crate::deque::{Clears, Owner, RunPass, Shares, Tells, Thief};
use crate::fault::LaneFault;
use crate::marks::{MarkPass, MarkTable, Plan, Seats};
use crate::run::Run;
use crate::seat::WorkSeat;
use std::alloc::{AllocError, Global};

// The slots of a new deque. It grows where a worker halves a run of many grains: of 4,096 grains it pushes 12 runs.
const FIRST_SLOTS: usize = 4;

// An empty deque for runs of so many grains. A rule is not told a number, so the deque learns it from a first run.
fn open_deque(alloc: Global, grains: u64) -> Result<Owner, AllocError>
    ensures unused { IfOk result (IsUnused grains) }
    ensures empty { IfOk result (λ o. ((worker_view o).alone ≡ true) × ((worker_view o).held ≡ [])) }
{
    let mut owner = Owner::fifo_as(alloc, FIRST_SLOTS)?;
    if grains == 0 {
        return Ok(owner);
    }
    let all = Run {
        first: 0,
        count: grains,
    };
    match owner.push_as::<Tells>(all) {
        Ok(()) => {}
        Err(_) => unreachable!(),
    }
    let _all = owner.pop_as::<Clears>();
    Ok(owner)
}

// A deque for each seat.
pub fn open_deques(alloc: Global, plan: &Plan) -> Result<Vec<Owner>, LaneFault>
    ensures count { IfOk result (λ v. vec_len v ≡ plan.now.seats) }
    ensures unused { IfOk result (λ v. All (IsUnused plan.now.grains) v.items) }
    ensures memory { IfErr result (λ fault. fault ≡ LaneFault.OutOfMemory) }
{
    let mut owners = Vec::new(alloc);
    for _seat in 0..plan.seats {
        owners.push(open_deque(alloc, plan.grains)?)?;
    }
    Ok(owners)
}

// A thief of each deque.
pub fn thieves_of(alloc: Global, owners: &[Owner]) -> Result<Vec<Thief>, LaneFault>
    ensures deques { IfOk result (λ v. map stealer_deque v.items ≡ map worker_deque owners.now) }
    ensures memory { IfErr result (λ fault. fault ≡ LaneFault.OutOfMemory) }
{
    let mut thieves = Vec::new(alloc);
    for owner in owners {
        thieves.push(owner.stealer()?)?;
    }
    Ok(thieves)
}

// A new pass of each deque.
fn passes_of(alloc: Global, owners: &mut [Owner], grains: u64) -> Result<Vec<RunPass>, LaneFault>
    requires unused { All (IsUnused grains) owners.old }
    ensures unused { All (IsUnused grains) owners.new }
    ensures deques { map worker_deque owners.new ≡ map worker_deque owners.old }
    ensures passes { IfOk result (λ v. map pass_deque v.items ≡ map worker_deque owners.old) }
    ensures fresh { IfOk result (λ v. All (IsNew grains) v.items) }
    ensures memory { IfErr result (λ fault. fault ≡ LaneFault.OutOfMemory) }
{
    let mut passes = Vec::new(alloc);
    for k in 0..owners.len() {
        let pass = owners[k].another::<Shares>();
        passes.push(pass)?;
    }
    Ok(passes)
}

// Deals out the seats that stand in the opener's view: each has a view and a deque of its own, and a pass of each deque.
pub fn hand_out(
    alloc: Global,
    table: &MarkTable,
    plan: &Plan,
    mut pass: MarkPass,
    mut owners: Vec<Owner>,
) -> Result<Vec<WorkSeat>, LaneFault>
    requires key { table.now.shared.key ≡ plan.now }
    requires laid { IsLaid table.now.shared.table_id plan.now.grains plan.now.seats }
    requires table { pass.table_id ≡ table.now.shared.table_id }
    requires all { pass.me ≡ (opened plan.now.grains plan.now.seats, []) }
    requires count { vec_len owners ≡ plan.now.seats }
    requires unused { All (IsUnused plan.now.grains) owners.items }
    ensures seats { IfOk result (λ v. v.items ≡ map (fresh (work_id table.now.shared.table_id (map worker_deque owners.items) plan.now.grains plan.now.seats)) (range_with_len 0 plan.now.seats)) }
    ensures memory { IfErr result (λ fault. fault ≡ LaneFault.OutOfMemory) }
{
    let mut bundles = Vec::new(alloc);
    for _seat in 0..plan.seats {
        bundles.push(passes_of(alloc, owners.as_mut_slice(), plan.grains)?)?;
    }
    let mut seats = Vec::new(alloc);
    while let Some(owner) = owners.pop() {
        let Some(passes) = bundles.pop() else {
            unreachable!()
        };
        let other = table.shared.split_seat::<Seats>(&mut pass);
        let number = owners.len() as u32;
        seats.push(WorkSeat::new(other, number, owner, passes))?;
    }
    seats.reverse();
    Ok(seats)
}
