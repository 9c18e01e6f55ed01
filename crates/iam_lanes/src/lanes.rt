// The lanes: opened, taken from, and closed.
ghost use Rattle.std.specs.Prelude.{◌≡◌, ◌+◌, ◌-◌, ◌<◌, ◌≤◌, ◌↔◌, [], ℕ, length, slice_index, sum, replicate, vec_len, IsTrue, IsNone, unwrap_or, IfSome, IfNone, IfOk, IfErr, All};
ghost use Rattle.iam_lanes.specs.Code.Words.{opened};
ghost use Rattle.iam_lanes.specs.Lanes.{LanesId, fresh, lanes_id, IsTooMany, gains_number, sees_end, gains_offer, gains_look, left_in, taken_by, ends_by, offers_by, looks_by, ended_below, no_cell, times, times_taken};
ghost use Rattle.iam_lanes.specs.Code.Fields.{IsLaid};

use crate::close::{count_ended, gather};
use crate::rule::{LanePass, LaneTable, Look, NO_CELL, Offer, Plan, Seats, Take};
use crate::seat::LaneSeat;
use iam_work::LaneFault;
use std::alloc::{AllocError, Global};
use std::marker::Model;

const MOST_SEATS: u32 = 64;

const MOST_LANES: usize = 64;

const MOST_NUMBERS: u64 = 4096;

/// Lanes of numbers, and a bound, that threads share by reference, each with a seat of its own.
///
/// `take`, `offer` and `low` are one atomic step each at most. They wait for nobody, allocate nothing and
/// always succeed. What holds between any two steps, in every schedule, is `LaneRule` of `specs/Code/`. Nothing
/// is said of which seat gets a number, nor of progress.
///
/// A contract sees which lanes they are, the length of each, and the number of their seats.
#[derive(Drop)]
pub struct Lanes {
    table: LaneTable,
    plan: Plan,
}

/// What is known of lanes once they are closed.
#[derive(Clone, Copy, Debug, PartialEq, Eq)]
pub struct Closed {
    /// The number of lanes that some seat saw ended.
    pub ended: u32,
    /// The least cell that a seat offered, `None` where none was.
    pub low: Option<u64>,
}

impl Model for Lanes {
    ghost Value = { LanesId };

    ghost view = { λ l. lanes_id l.table.shared.table_id l.plan.lengths.items l.plan.seats };

    ghost invariant = { λ l. (l.table.shared.key ≡ l.plan) × IsLaid l.table.shared.table_id l.plan.lengths.items l.plan.seats };
}

// Whether the lengths add up to at most 4,096.
fn fits(lengths: &[u64]) -> bool
    ensures { IsTrue result ↔ (sum lengths.now ≤ 4096) }
{
    let mut left = MOST_NUMBERS;
    for length in lengths {
        if *length > left {
            return false;
        }
        left -= *length;
    }
    true
}

// Whether `open` has to refuse so many lanes, numbers or seats.
fn is_too_many(lengths: &[u64], seats: u32) -> bool
    ensures { IsTrue result ↔ IsTooMany lengths.now seats }
{
    seats > MOST_SEATS || lengths.len() > MOST_LANES || !fits(lengths)
}

// The words of lanes that nobody has taken from: no cell, and a count of 0 for each lane.
fn first_words(alloc: Global, lanes: usize) -> Result<Vec<u64>, AllocError>
    requires { lanes ≤ 64 }
    ensures length { IfOk result (λ v. vec_len v ≡ lanes + 1) }
    ensures bound { IfOk result (λ v. slice_index v.items 0 ≡ no_cell) }
    ensures counts { IfOk result (λ v. (lane : ℕ) → slice_index v.items (lane + 1) ≡ 0) }
{
    let mut words = vec![in alloc; 0u64; lanes + 1]?;
    words[0] = NO_CELL;
    Ok(words)
}

// The cell that a word of the bound stands for.
fn cell_of(word: u64) -> Option<u64>
    ensures cell { IfSome result (λ cell. cell < no_cell) }
    ensures word { unwrap_or result no_cell ≡ word }
    ensures some { IfSome result (λ cell. cell ≡ word) }
    ensures none { IfNone result (word ≡ no_cell) }
{
    if word == NO_CELL { None } else { Some(word) }
}

// The number that a count stands for in a lane of this length: none where the lane has ended.
fn number_at(count: u64, length: u64) -> Option<u64>
    ensures number { IfSome result (λ n. n ≡ count) }
    ensures inside { IfSome result (λ n. n < length) }
    ensures ended { IfNone result (length ≤ count) }
{
    if count < length { Some(count) } else { None }
}

// Deals out the seats that stand in the opener's view, each with a view of its own.
fn hand_out(
    alloc: Global,
    table: &LaneTable,
    plan: &Plan,
    mut pass: LanePass,
) -> Result<Vec<LaneSeat>, LaneFault>
    requires key { table.now.shared.key ≡ plan.now }
    requires laid { IsLaid table.now.shared.table_id plan.now.lengths.items plan.now.seats }
    requires table { pass.table_id ≡ table.now.shared.table_id }
    requires all { pass.me ≡ (opened plan.now.lengths.items plan.now.seats, []) }
    ensures seats { IfOk result (λ v. v.items ≡ replicate plan.now.seats (fresh (lanes_id table.now.shared.table_id plan.now.lengths.items plan.now.seats))) }
    ensures memory { IfErr result (λ fault. fault ≡ LaneFault.OutOfMemory) }
{
    let mut seats = Vec::new(alloc);
    for _dealt in 0..plan.seats - 1 {
        let other = table.shared.split_seat::<Seats>(&mut pass);
        seats.push(LaneSeat::new(other))?;
    }
    seats.push(LaneSeat::new(pass))?;
    Ok(seats)
}

impl Lanes {
    /// Lanes of these lengths, with so many seats.
    ///
    /// The lengths may be 0, and there may be no lane. The answer is `NoSeat` where no seat is asked for,
    /// else `TooMany` where there are more than 64 seats, more than 64 lanes or more than 4,096 numbers in
    /// all lanes together, and `OutOfMemory` only where memory was refused.
    pub fn open(
        alloc: Global,
        lengths: &[u64],
        seats: u32,
    ) -> Result<(Lanes, Vec<LaneSeat>), LaneFault>
        ensures no_seat { (result ≡ Err LaneFault.NoSeat) ↔ (seats ≡ 0) }
        ensures too_many { (result ≡ Err LaneFault.TooMany) ↔ ((0 < seats) × IsTooMany lengths.now seats) }
        ensures lanes { IfOk result (λ r. (r.0.lengths ≡ lengths.now) × (r.0.seats ≡ seats)) }
        ensures seats { IfOk result (λ r. r.1.items ≡ replicate seats (fresh r.0)) }
    {
        if seats == 0 {
            return Err(LaneFault::NoSeat);
        }
        if is_too_many(lengths, seats) {
            return Err(LaneFault::TooMany);
        }
        let plan = Plan {
            lengths: Vec::from_slice(alloc, lengths)?,
            seats: u64::from(seats),
        };
        let words = first_words(alloc, lengths.len())?;
        let (table, pass) = LaneTable::of_words(alloc, words.as_slice(), &plan)?;
        let seats = hand_out(alloc, &table, &plan, pass)?;
        Ok((Lanes { table, plan }, seats))
    }

    /// Takes a number of a lane that no seat had, greater than every number of this lane that this seat had.
    ///
    /// The answer is `None` where the lane has ended, and for this seat it has then ended for good: no later
    /// call with this seat and lane gives a number or raises the lane's count.
    ///
    /// The seat has to be one of these lanes, and the lane below their number.
    pub fn take(&self, seat: &mut LaneSeat, lane: usize) -> Option<u64>
        requires seat { seat.old.lanes ≡ self.now }
        requires lane { lane < length self.now.lengths }
        ensures lanes { seat.new.lanes ≡ self.now }
        ensures inside { IfSome result (λ n. n < slice_index self.now.lengths lane) }
        ensures fresh { IfSome result (λ n. (m : ℕ) → n ≤ m → times_taken lane m seat.old.taken ≡ 0) }
        ensures gained { IfSome result (λ n. seat.new ≡ gains_number lane n seat.old) }
        ensures nearer { IfSome result (λ _. left_in lane seat.new < left_in lane seat.old) }
        ensures ended { IfNone result (seat.new ≡ sees_end lane seat.old) }
        ensures for_good { 0 < times lane seat.old.ends → IsNone result }
    {
        let length = self.plan.lengths[lane];
        if seat.ended[lane] {
            return None;
        }
        let found = self
            .table
            .shared
            .fetch_add::<Take>(&mut seat.pass, lane + 1, 1);
        let Some(number) = number_at(found, length) else {
            seat.ended[lane] = true;
            return None;
        };
        Some(number)
    }

    /// Offers a cell: the bound falls to it where the bound is above it.
    ///
    /// The seat has to be one of these lanes, and the cell below `u64::MAX`.
    pub fn offer(&self, seat: &mut LaneSeat, cell: u64)
        requires seat { seat.old.lanes ≡ self.now }
        requires cell { cell < no_cell }
        ensures { seat.new ≡ gains_offer cell seat.old }
    {
        let shared = &self.table.shared;
        shared.fetch_min::<Offer>(&mut seat.pass, 0, cell);
    }

    /// Looks at the bound: a cell that some seat offered, not above any that this seat offered or saw.
    ///
    /// The answer is `None` only where this seat has offered nothing and seen no cell. A look that gave no
    /// cell is kept among the seat's looks as `u64::MAX`. The seat has to be one of these lanes.
    pub fn low(&self, seat: &mut LaneSeat) -> Option<u64>
        requires { seat.old.lanes ≡ self.now }
        ensures cell { IfSome result (λ cell. cell < no_cell) }
        ensures least { IfSome result (λ cell. (other : ℕ) → 0 < times other seat.old.offers + times other seat.old.looks → cell ≤ other) }
        ensures nothing { IfNone result ((other : ℕ) → other < no_cell → times other seat.old.offers + times other seat.old.looks ≡ 0) }
        ensures gained { seat.new ≡ gains_look (unwrap_or result no_cell) seat.old }
    {
        let found = self.table.shared.load::<Look>(&mut seat.pass, 0);
        cell_of(found)
    }

    /// Takes all seats back, and says in how many lanes some seat saw the end, and the least cell offered.
    ///
    /// No number was taken twice, and of a lane that some seat saw ended each number below its length was
    /// taken once. Each cell that a seat saw was offered by some seat. The seats have to be all those that
    /// `open` gave with these lanes.
    pub fn close(self, seats: Vec<LaneSeat>) -> Closed
        requires count { vec_len seats ≡ self.seats }
        requires lanes { All (λ s. s.lanes ≡ self) seats.items }
        ensures once { (lane n : ℕ) → taken_by lane n seats.items ≤ 1 }
        ensures inside { (lane n : ℕ) → slice_index self.lengths lane ≤ n → taken_by lane n seats.items ≡ 0 }
        ensures all { (lane n : ℕ) → 0 < ends_by lane seats.items → n < slice_index self.lengths lane → taken_by lane n seats.items ≡ 1 }
        ensures ended { result.ended ≡ ended_below (length self.lengths) seats.items }
        ensures cell { IfSome result.low (λ cell. cell < no_cell) }
        ensures low { IfSome result.low (λ cell. 0 < offers_by cell seats.items) }
        ensures least { IfSome result.low (λ cell. (other : ℕ) → 0 < offers_by other seats.items → cell ≤ other) }
        ensures none { IfNone result.low ((cell : ℕ) → offers_by cell seats.items ≡ 0) }
        ensures looks { (cell : ℕ) → cell < no_cell → 0 < looks_by cell seats.items → 0 < offers_by cell seats.items }
    {
        let Lanes { table, plan } = self;
        let pass = gather(&table, seats);
        let closed = table.close_with(pass);
        let low = cell_of(closed.word(0));
        let ended = count_ended(&closed, plan.lengths.as_slice());
        closed.free();
        Closed { ended, low }
    }
}
