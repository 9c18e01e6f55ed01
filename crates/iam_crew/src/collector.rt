// All workers together, and what they brought back.
ghost use Rattle.std.specs.Prelude.{◌≡◌, ℕ, ◌<◌, ◌≤◌, ◌⊎◌, All, IfNone, IfOk, IfSome, IsSome, OnOk, Some, length, map, slice_get, vec_len};
ghost use Rattle.std.specs.List.{flat_map};
ghost use Rattle.iam_crew.specs.Bound.{bound_of, Lowers};
ghost use Rattle.iam_crew.specs.Code.Order.{AreBrought, AreGivenBelow, IsCompleted, IsKept};
ghost use Rattle.iam_crew.specs.Code.Worker.{IsDone};

use crate::bound::Bound;
use crate::crew::{Crew, Gate, Open, output_at};
use crate::order::place;
use crate::seats::{deal, open_bound, open_work};
use crate::shares::Shares;
use crate::team::run;
use crate::worker::{Done, Made};
use iam_lanes::{LaneSeat, Lanes};
use iam_text::OutOfMemory;
use std::alloc::Global;
use std::thread::Threads;

/// What a crew brought back.
#[derive(Drop)]
pub struct Gathered<O> {
    /// The output of each tile, in the order of tiles.
    pub outputs: Vec<O>,
    /// The least cell that any worker offered, `None` where none was.
    pub low: Option<u64>,
}

// The seats of the workers, and what all of them made.
fn part<O: Drop>(
    alloc: Global,
    workers: Vec<Done<O>>,
) -> Result<(Vec<LaneSeat>, Vec<Made<O>>), OutOfMemory>
    ensures seats { IfOk result (λ r. r.0.items ≡ map (λ d. d.seat) workers.items) }
    ensures made { IfOk result (λ r. r.1.items ≡ flat_map (λ d. d.made.items) workers.items) }
{
    let mut seats = Vec::new(alloc);
    let mut all = Vec::new(alloc);
    for done in workers {
        let Done {
            seat,
            work: _,
            mut made,
            idle: _,
            halves: _,
        } = done;
        seats.push(seat)?;
        all.append(&mut made)?;
    }
    Ok((seats, all))
}

// The tools that there are, or new ones.
fn tools_of<C: Crew>(
    alloc: Global,
    crew: &C,
    tools: Option<C::Tools>,
) -> Result<C::Tools, OutOfMemory>
    requires { IfSome tools (C.fits crew.now) }
    ensures fits { IfOk result (C.fits crew.now) }
    ensures kept { IfSome tools (λ own. IfOk result (λ r. r ≡ own)) }
{
    match tools {
        Some(tools) => Ok(tools),
        None => crew.tools(alloc),
    }
}

// The output that a worker brought of a tile, or one that is made now, without a gate. Tools that it took are put back.
fn output_of<C: Crew>(
    alloc: Global,
    crew: &C,
    tools: &mut Option<C::Tools>,
    bound: &mut Bound<'_>,
    tile: u64,
    brought: Option<C::Output>,
) -> Result<C::Output, OutOfMemory>
    requires tile { C.takes crew.now tile }
    requires tools { IfSome tools.old (C.fits crew.now) }
    requires offered { All (C.offers crew.now) bound.old.offers }
    ensures fits { OnOk result (IfSome tools.new (C.fits crew.now)) }
    ensures back { OnOk result (IfNone brought (IsSome tools.new)) }
    ensures kept { IfSome brought (λ own. IfOk result (λ output. output ≡ own)) }
    ensures given { IfOk result (λ output. (brought ≡ Some output) ⊎ C.gives crew.now tile output bound.new.floor) }
    ensures offered { OnOk result (All (C.offers crew.now) bound.new.offers) }
    ensures lower { OnOk result (Lowers bound.old bound.new) }
{
    if let Some(output) = brought {
        return Ok(output);
    }
    let mut own = tools_of(alloc, crew, tools.take())?;
    let output = output_at(alloc, crew, &mut own, &Open, bound, tile)?;
    *tools = Some(own);
    Ok(output)
}

// The outputs of all tiles, in order: those that the workers brought, and for each other tile one that is made now.
fn complete<C: Crew>(
    alloc: Global,
    crew: &C,
    bound: &mut Bound<'_>,
    slots: Vec<Option<C::Output>>,
) -> Result<Vec<C::Output>, OutOfMemory>
    requires takes { (tile : ℕ) → tile < length slots.items → C.takes crew.now tile }
    requires offered { All (C.offers crew.now) bound.old.offers }
    ensures count { IfOk result (λ v. length v.items ≡ length slots.items) }
    ensures from { IfOk result (λ v. IsCompleted (C.gives crew.now) bound.new.floor slots.items v.items) }
    ensures offered { OnOk result (All (C.offers crew.now) bound.new.offers) }
    ensures lower { OnOk result (Lowers bound.old bound.new) }
{
    let mut tools = None;
    let mut outputs = Vec::new(alloc);
    for slot in slots {
        let tile = outputs.len() as u64;
        outputs.push(output_of(alloc, crew, &mut tools, bound, tile, slot)?)?;
    }
    Ok(outputs)
}

// Closes the lanes of the bound once the tiles that nobody brought are made, with a seat that a worker gave back.
fn finish<C: Crew>(
    alloc: Global,
    crew: &C,
    lanes: Lanes,
    mut seats: Vec<LaneSeat>,
    slots: Vec<Option<C::Output>>,
) -> Result<Gathered<C::Output>, OutOfMemory>
    requires takes { (tile : ℕ) → tile < length slots.items → C.takes crew.now tile }
    requires some { 0 < vec_len seats }
    requires count { vec_len seats ≡ lanes.seats }
    requires lanes { All (λ s. s.lanes ≡ lanes) seats.items }
    requires offered { All (λ s. All (C.offers crew.now) s.offers) seats.items }
    requires given { AreGivenBelow (C.gives crew.now) seats.items slots.items }
    ensures count { IfOk result (λ g. length g.outputs.items ≡ length slots.items) }
    ensures given { IfOk result (λ g. (tile : ℕ) (output : C.Output) → slice_get g.outputs.items tile ≡ Some output → C.gives crew.now tile output (bound_of g.low)) }
    ensures kept { IfOk result (λ g. IsKept slots.items g.outputs.items) }
    ensures low { IfOk result (λ g. IfSome g.low (C.offers crew.now)) }
{
    let Some(seat) = seats.pop() else {
        unreachable!()
    };
    let mut bound = Bound::new(&lanes, seat);
    let outputs = complete(alloc, crew, &mut bound, slots)?;
    seats.push(bound.into_seat())?;
    let closed = lanes.close(seats);
    Ok(Gathered {
        outputs,
        low: closed.low,
    })
}

// The outputs of all tiles, of what the workers brought back: each output that one of them made of a tile, or where two made one
// of it either, and for each other tile one that is made now.
fn collect<C: Crew>(
    alloc: Global,
    crew: &C,
    lanes: Lanes,
    done: Vec<Done<C::Output>>,
    tiles: u64,
) -> Result<Gathered<C::Output>, OutOfMemory>
    requires takes { (tile : ℕ) → tile < tiles → C.takes crew.now tile }
    requires some { 0 < vec_len done }
    requires count { vec_len done ≡ lanes.seats }
    requires done { All (IsDone tiles lanes (C.offers crew.now) (C.gives crew.now)) done.items }
    ensures count { IfOk result (λ g. length g.outputs.items ≡ tiles) }
    ensures brought { IfOk result (λ g. AreBrought (flat_map (λ d. d.made.items) done.items) g.outputs.items) }
    ensures given { IfOk result (λ g. (tile : ℕ) (output : C.Output) → slice_get g.outputs.items tile ≡ Some output → C.gives crew.now tile output (bound_of g.low)) }
    ensures low { IfOk result (λ g. IfSome g.low (C.offers crew.now)) }
{
    let (seats, made) = part(alloc, done)?;
    let slots = place(alloc, made, tiles)?;
    finish(alloc, crew, lanes, seats, slots)
}

/// Has a crew work off the tiles 0, 1, 2, .. below `tiles`, and gathers its outputs in the order of tiles.
///
/// There are 1 to 64 workers, each in a thread of its own where one can be made, and at most 4,096 tiles. Each
/// worker begins with a run of tiles of its own. It halves what it has in hand and pushes the rest onto its deque,
/// and where it has nothing it steals from the others. Once all have ended, a tile that nobody brought is worked
/// here, without the gate. Each output is what the crew gives of its tile at the least cell that was offered in the
/// end, also where another worker offered it later. The outputs are moved, not copied.
///
/// The only error is want of memory: a worker that is refused it ends at once, the others go on, and the
/// answer is the error.
pub fn gather<R: Threads + Sync, G: Gate + Sync, C: Crew + Sync>(
    rt: &R,
    alloc: Global,
    crew: &C,
    tiles: u64,
    workers: u32,
    gate: &G,
) -> Result<Gathered<C::Output>, OutOfMemory>
    requires some { 1 ≤ workers }
    requires few { workers ≤ 64 }
    requires tiles { tiles ≤ 4096 }
    requires takes { (tile : ℕ) → tile < tiles → C.takes crew.now tile }
    ensures count { IfOk result (λ g. length g.outputs.items ≡ tiles) }
    ensures given { IfOk result (λ g. (tile : ℕ) (output : C.Output) → slice_get g.outputs.items tile ≡ Some output → C.gives crew.now tile output (bound_of g.low)) }
    ensures low { IfOk result (λ g. IfSome g.low (C.offers crew.now)) }
{
    let shares = Shares { tiles, workers };
    let (lanes, bounds) = open_bound(alloc, workers)?;
    let (work, seats) = open_work(alloc, shares)?;
    let all = deal(alloc, &lanes, &work, shares, bounds, seats)?;
    let done = run(rt, alloc, crew, &lanes, &work, gate, shares, all)?;
    collect(alloc, crew, lanes, done, tiles)
}
