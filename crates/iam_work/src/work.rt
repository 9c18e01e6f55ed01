// The work: opened, pushed, popped, stolen, marked, and closed.
ghost use Rattle.std.specs.Prelude.{◌≡◌, ◌+◌, ◌<◌, ◌≤◌, ◌↔◌, ℕ, map, vec_len, IsTrue, IfSome, IfNone, IfOk, IfErr, OnOk, All, if◌then◌else◌};
ghost use Rattle.std.specs.List.{range_with_len};
ghost use Rattle.crossbeam_deque.specs.Handles.{stealer_deque};
ghost use Rattle.iam_work.specs.Work.{WorkId, work_id, fresh, IsTooMany, gains_mark, finds_mark, gains_pushed, gains_popped, gains_stolen, IfTook, IfNothing, marked_by, found_by, marked_below, times, IsWithin};
ghost use Rattle.iam_work.specs.Code.Words.{words_for};
ghost use Rattle.iam_work.specs.Code.Fields.{IsLaid};
ghost use Rattle.iam_work.specs.Code.Thefts.{stolen_of};

use crate::close::{count_marked, gather};
use crate::deque::{Pushes, Takes, Thief};
use crate::fault::LaneFault;
use crate::marks::{Mark, MarkTable, Plan};
use crate::opening::{hand_out, open_deques, thieves_of};
use crate::run::Run;
use crate::seat::WorkSeat;
use crate::stolen::Stolen;
use crossbeam_deque::Steal;
use std::alloc::Global;
use std::marker::Model;

const MOST_SEATS: u32 = 64;

const MOST_GRAINS: u64 = 4096;

/// Grains of work that threads share by reference, each with a seat and a deque of its own: runs of grains are
/// pushed, popped and stolen, and a mark says who works a grain.
///
/// No call waits for another. `pop`, `steal` and `mark` allocate nothing. What holds between any two marks, in every
/// schedule, is `MarkRule` of `specs/Code/`, and what holds of each deque is `HoldsRuns`. Nothing is said of which seat
/// gets a run, nor of progress.
///
/// A contract sees which work it is, how many grains and how many seats.
#[derive(Drop)]
pub struct Work {
    table: MarkTable,
    thieves: Vec<Thief>,
    plan: Plan,
}

impl Model for Work {
    ghost Value = { WorkId };

    ghost view = { λ w. work_id w.table.shared.table_id (map stealer_deque w.thieves.items) w.plan.grains w.plan.seats };

    ghost invariant = { λ w. (w.table.shared.key ≡ w.plan) × IsLaid w.table.shared.table_id w.plan.grains w.plan.seats × (vec_len w.thieves ≡ w.plan.seats) };
}

// Whether `open` has to refuse so many grains or seats.
fn is_too_many(grains: u64, seats: u32) -> bool
    ensures { IsTrue result ↔ IsTooMany grains seats }
{
    seats > MOST_SEATS || grains > MOST_GRAINS
}

// How many words hold the bits of so many grains.
fn word_count(grains: u64) -> usize
    requires { grains ≤ 4096 }
    ensures { result ≡ words_for grains }
{
    (grains.saturating_sub(1) / 64) as usize + 1
}

// What a theft gave, as a seat is told.
fn stolen_of(found: Steal<Run>) -> Stolen
    ensures { result ≡ stolen_of found }
{
    match found {
        Steal::Success(run) => Stolen::Took(run),
        Steal::Empty => Stolen::Empty,
        Steal::Retry => Stolen::Lost,
    }
}

impl Work {
    /// Work of so many grains, with so many seats. Seat k owns deque k.
    ///
    /// There may be no grain. The answer is `NoSeat` where no seat is asked for, else `TooMany` where there are more
    /// than 64 seats or more than 4,096 grains, and `OutOfMemory` only where memory was refused.
    pub fn open(alloc: Global, grains: u64, seats: u32) -> Result<(Work, Vec<WorkSeat>), LaneFault>
        ensures no_seat { (result ≡ Err LaneFault.NoSeat) ↔ (seats ≡ 0) }
        ensures too_many { (result ≡ Err LaneFault.TooMany) ↔ ((0 < seats) × IsTooMany grains seats) }
        ensures work { IfOk result (λ r. (r.0.grains ≡ grains) × (r.0.seats ≡ seats)) }
        ensures seats { IfOk result (λ r. r.1.items ≡ map (fresh r.0) (range_with_len 0 seats)) }
    {
        if seats == 0 {
            return Err(LaneFault::NoSeat);
        }
        if is_too_many(grains, seats) {
            return Err(LaneFault::TooMany);
        }
        let plan = Plan {
            grains,
            seats: u64::from(seats),
        };
        let words = vec![in alloc; 0u64; word_count(grains)]?;
        let (table, pass) = MarkTable::of_words(alloc, words.as_slice(), &plan)?;
        let owners = open_deques(alloc, &plan)?;
        let thieves = thieves_of(alloc, owners.as_slice())?;
        let seats = hand_out(alloc, &table, &plan, pass, owners)?;
        let work = Work {
            table,
            thieves,
            plan,
        };
        Ok((work, seats))
    }

    /// Adds a run at the back of the seat's own deque, or gives it back where the deque cannot grow.
    ///
    /// The seat has to be one of this work, and the run not empty and within its grains.
    pub fn push(&self, seat: &mut WorkSeat, run: Run) -> Result<(), Run>
        requires seat { seat.old.work ≡ self.now }
        requires run { IsWithin self.now.grains run }
        ensures work { seat.new.work ≡ self.now }
        ensures number { seat.new.number ≡ seat.old.number }
        ensures pushed { OnOk result (seat.new ≡ gains_pushed run seat.old) }
        ensures refused { IfErr result (λ back. (back ≡ run) × (seat.new ≡ seat.old)) }
    {
        seat.owner.push_as::<Pushes>(run)
    }

    /// Takes the run at the front of the seat's own deque. The answer is `None` only where it was empty at one moment
    /// of the call, of which no contract says more than that the seat is as it was.
    ///
    /// The seat has to be one of this work.
    pub fn pop(&self, seat: &mut WorkSeat) -> Option<Run>
        requires { seat.old.work ≡ self.now }
        ensures work { seat.new.work ≡ self.now }
        ensures number { seat.new.number ≡ seat.old.number }
        ensures within { IfSome result (IsWithin self.now.grains) }
        ensures popped { IfSome result (λ run. seat.new ≡ gains_popped run seat.old) }
        ensures none { IfNone result (seat.new ≡ seat.old) }
    {
        seat.owner.pop_as::<Takes>()
    }

    /// Takes the run at the front of another seat's deque. The answer is `Empty` only where that deque was empty at one
    /// moment of the call, and `Lost` where it may be tried again: it was empty, or a run has left it since this seat
    /// last looked. Of both no contract says more than that the seat is as it was.
    ///
    /// The seat has to be one of this work, and `from` another seat's number.
    pub fn steal(&self, seat: &mut WorkSeat, from: u32) -> Stolen
        requires seat { seat.old.work ≡ self.now }
        requires from { from < self.now.seats }
        requires other { ¬ (from ≡ seat.old.number) }
        ensures work { seat.new.work ≡ self.now }
        ensures number { seat.new.number ≡ seat.old.number }
        ensures within { IfTook result (IsWithin self.now.grains) }
        ensures took { IfTook result (λ run. seat.new ≡ gains_stolen from run seat.old) }
        ensures nothing { IfNothing result (seat.new ≡ seat.old) }
    {
        let thief = &self.thieves[from as usize];
        stolen_of(thief.steal_as::<Takes>(&mut seat.passes[from as usize]))
    }

    /// Marks a grain. The answer is true where no seat had marked it, and the grain is then this seat's.
    ///
    /// The seat has to be one of this work, and the grain below their number.
    pub fn mark(&self, seat: &mut WorkSeat, grain: u64) -> bool
        requires seat { seat.old.work ≡ self.now }
        requires grain { grain < self.now.grains }
        ensures work { seat.new.work ≡ self.now }
        ensures number { seat.new.number ≡ seat.old.number }
        ensures gained { seat.new ≡ (if result then gains_mark grain seat.old else finds_mark grain seat.old) }
        ensures first { IsTrue result → (times grain seat.old.marked ≡ 0) × (times grain seat.old.found ≡ 0) }
    {
        let shared = &self.table.shared;
        let word = (grain / 64) as usize;
        let found = shared.fetch_or::<Mark>(&mut seat.pass, word, 1 << (grain % 64));
        found >> (grain % 64) & 1 == 0
    }

    /// Takes all seats back, and says how many grains they marked: no grain was marked by two of them, and none twice.
    ///
    /// Each grain that a seat found marked was marked by one of them. The seats have to be all those that `open` gave
    /// with this work.
    pub fn close(self, seats: Vec<WorkSeat>) -> u64
        requires count { vec_len seats ≡ self.seats }
        requires work { All (λ s. s.work ≡ self) seats.items }
        ensures once { (grain : ℕ) → marked_by grain seats.items ≤ 1 }
        ensures inside { (grain : ℕ) → self.grains ≤ grain → marked_by grain seats.items ≡ 0 }
        ensures found { (grain : ℕ) → 0 < found_by grain seats.items → marked_by grain seats.items ≡ 1 }
        ensures count { result ≡ marked_below self.grains seats.items }
    {
        let Work {
            table,
            thieves: _,
            plan,
        } = self;
        let pass = gather(&table, seats);
        let closed = table.close_with(pass);
        let marked = count_marked(&closed, plan.grains);
        closed.free();
        marked
    }
}
