// A job, its workers and their turns.
ghost use Rattle.std.specs.Prelude.{◌≡◌, ◌+◌, ◌<◌, ◌≤◌, All, IfOk, OnOk, vec_len};
ghost use Rattle.iam_lanes.specs.Work.{IsWithin};
ghost use Rattle.iam_crew.specs.Code.Runs.{IsAsReady, IsMarked, IsOver, IsTurn};
ghost use Rattle.iam_crew.specs.Code.Worker.{AreDone, IsAtWork, IsDone, IsReady};

use crate::bound::Bound;
use crate::crew::{Crew, Gate, output_at};
use crate::runs::{IDLE_IN_ALL, halve, next_run};
use crate::seats::Seats;
use crate::shares::Shares;
use iam_lanes::{LaneSeat, Lanes, Run, Work, WorkSeat};
use iam_text::OutOfMemory;
use std::alloc::Global;
use std::marker::Model;

/// The output of a tile.
#[derive(Drop)]
pub struct Made<O> {
    pub tile: u64,
    pub output: O,
}

/// What a worker brings back: its seats, at the lanes and at the work, the outputs that it made, and what was left to
/// it when it stopped.
#[derive(Drop)]
pub struct Done<O> {
    pub seat: LaneSeat,
    pub work: WorkSeat,
    pub made: Vec<Made<O>>,
    /// In how many more turns it might have found no run.
    pub idle: u32,
    /// Whether no push was refused.
    pub halves: bool,
}

/// A worker between two turns.
#[derive(Drop)]
struct Worker<'a, T, O> {
    seat: WorkSeat,
    bound: Bound<'a>,
    tools: T,
    made: Vec<Made<O>>,
    // In how many more turns it may find no run.
    idle: u32,
    // Whether it halves runs, which it does until a push is refused.
    halves: bool,
}

/// What the workers of a crew are at: the crew, the lanes of the bound, the work, the gate, and the shares of tiles.
///
/// A contract sees the crew, the lanes, the work and how many tiles there are. That these belong together is said here
/// once: the work has a grain for each tile and a seat for each worker, and the crew takes each tile.
#[derive(Drop)]
pub struct Job<'a, C: Crew, G> {
    pub crew: &'a C,
    pub lanes: &'a Lanes,
    pub work: &'a Work,
    pub gate: &'a G,
    pub shares: Shares,
}

impl<'a, C: Crew, G> Model for Job<'a, C, G> {
    ghost use Rattle.iam_crew.specs.Code.Job.{IsJob, JobView};

    ghost Value = { JobView C };

    ghost view = { λ j. record { crew = j.crew.now; lanes = j.lanes.now; work = j.work.now; tiles = j.shares.tiles } };

    ghost invariant = { λ j. IsJob C.takes j.crew.now j.work.now j.shares };
}

impl<'a, G: Gate, C: Crew> Job<'a, C, G> {
    // Marks a tile, and makes its output where no other worker had marked it.
    fn work_tile(
        &self,
        alloc: Global,
        worker: &mut Worker<'_, C::Tools, C::Output>,
        tile: u64,
    ) -> Result<(), OutOfMemory>
        requires worker { IsAtWork C.fits C.offers C.gives self.now worker.old }
        requires tile { tile < self.now.work.grains }
        ensures worker { OnOk result (IsAtWork C.fits C.offers C.gives self.now worker.new) }
        ensures marked { OnOk result (IsMarked tile worker.old worker.new) }
        ensures ready { OnOk result (IsAsReady worker.old worker.new) }
    {
        if !self.work.mark(&mut worker.seat, tile) {
            return Ok(());
        }
        let output = output_at(
            alloc,
            self.crew,
            &mut worker.tools,
            self.gate,
            &mut worker.bound,
            tile,
        )?;
        worker.made.push(Made { tile, output })?;
        Ok(())
    }

    // A turn with a run in hand: halves it, or works its first tile. The answer is what is in hand afterwards.
    fn take_turn(
        &self,
        alloc: Global,
        worker: &mut Worker<'_, C::Tools, C::Output>,
        run: Run,
    ) -> Result<Run, OutOfMemory>
        requires worker { IsAtWork C.fits C.offers C.gives self.now worker.old }
        requires run { IsWithin self.now.work.grains run }
        ensures worker { OnOk result (IsAtWork C.fits C.offers C.gives self.now worker.new) }
        ensures inside { IfOk result (λ left. left.first + left.count ≤ self.now.work.grains) }
        ensures turn { IfOk result (IsTurn worker.old run worker.new) }
    {
        if worker.halves && run.count > 1 {
            return Ok(halve(self.work, &mut worker.seat, &mut worker.halves, run));
        }
        self.work_tile(alloc, worker, run.first)?;
        Ok(Run {
            first: run.first + 1,
            count: run.count - 1,
        })
    }

    // The turns of a worker that begins with this run in hand, until it finds no further run. At most `2 * tiles + 1`
    // of them have a run in hand that is not empty.
    fn take_turns(
        &self,
        alloc: Global,
        worker: &mut Worker<'_, C::Tools, C::Output>,
        in_hand: Run,
    ) -> Result<(), OutOfMemory>
        requires worker { IsAtWork C.fits C.offers C.gives self.now worker.old }
        requires in_hand { in_hand.first + in_hand.count ≤ self.now.work.grains }
        ensures worker { OnOk result (IsAtWork C.fits C.offers C.gives self.now worker.new) }
        ensures over { OnOk result (IsOver self.now.tiles worker.old worker.new) }
    {
        let mut run = in_hand;
        for _turn in 0..2 * self.shares.tiles + 1 {
            let Some(next) = next_run(
                self.work,
                &mut worker.seat,
                self.shares.workers,
                &mut worker.idle,
                run,
            ) else {
                return Ok(());
            };
            run = self.take_turn(alloc, worker, next)?;
        }
        Ok(())
    }

    // A worker, from its first turn to its last.
    fn work_by_turns(&self, alloc: Global, seats: Seats) -> Result<Done<C::Output>, OutOfMemory>
        requires { IsReady self.now.lanes self.now.work seats }
        ensures { IfOk result (IsDone self.now.tiles self.now.lanes (C.offers self.now.crew) (C.gives self.now.crew)) }
    {
        let mut worker = Worker {
            seat: seats.work,
            bound: Bound::new(self.lanes, seats.bound),
            tools: self.crew.tools(alloc)?,
            made: Vec::new(alloc),
            idle: IDLE_IN_ALL,
            halves: true,
        };
        self.take_turns(alloc, &mut worker, seats.in_hand)?;
        Ok(Done {
            seat: worker.bound.into_seat(),
            work: worker.seat,
            made: worker.made,
            idle: worker.idle,
            halves: worker.halves,
        })
    }

    /// The worker of the only seats.
    pub fn run_alone(
        &self,
        alloc: Global,
        mut seats: Vec<Seats>,
    ) -> Result<Vec<Done<C::Output>>, OutOfMemory>
        requires seats { All (IsReady self.now.lanes self.now.work) seats.items }
        requires few { vec_len seats ≤ 1 }
        ensures done { IfOk result (AreDone C.offers C.gives self.now.crew self.now.lanes self.now.tiles) }
        ensures len { IfOk result (λ v. vec_len v ≡ vec_len seats) }
    {
        let mut all = Vec::new(alloc);
        let Some(own) = seats.pop() else {
            return Ok(all);
        };
        all.push(self.work_by_turns(alloc, own)?)?;
        Ok(all)
    }
}
