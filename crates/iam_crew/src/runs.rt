// How a worker comes by a run of tiles, and how it shares one.
ghost use Rattle.std.specs.Prelude.{◌≡◌, ◌+◌, ◌-◌, ◌%◌, ◌<◌, ◌≤◌, IfNone, IfSome, Some};
ghost use Rattle.iam_lanes.specs.Work.{IsWithin};
ghost use Rattle.iam_crew.specs.Code.Runs.{IsFound, IsHalved, IsSpent};

use iam_lanes::{Run, Stolen, Work, WorkSeat};

// A worker that found no run in so many turns, one after the other, looks for none any more.
const IDLE_IN_A_ROW: u32 = 65_536;

/// In so many turns in all a worker may find no run.
pub const IDLE_IN_ALL: u32 = 1_048_576;

// The seat that is so many seats behind this one, round from the last to the first.
fn seat_behind(number: u32, steps: u32, seats: u32) -> u32
    requires few { seats ≤ 64 }
    requires number { number < seats }
    requires steps { steps ≤ seats }
    ensures behind { result ≡ (number + steps) % seats }
    ensures inside { result < seats }
    ensures other { 0 < steps → steps < seats → ¬ (result ≡ number) }
{
    let behind = number + steps;
    if behind < seats {
        behind
    } else {
        behind - seats
    }
}

// The run at the front of the deque that is so many seats behind: with no step, of the worker's own.
fn find(work: &Work, seat: &mut WorkSeat, steps: u32, seats: u32) -> Option<Run>
    requires seat { seat.old.work ≡ work.now }
    requires number { seat.old.number < seats }
    requires seats { work.now.seats ≡ seats }
    requires few { seats ≤ 64 }
    requires steps { steps < seats }
    ensures work { seat.new.work ≡ work.now }
    ensures number { seat.new.number ≡ seat.old.number }
    ensures marked { seat.new.marked ≡ seat.old.marked }
    ensures within { IfSome result (IsWithin work.now.grains) }
    ensures found { IfSome result (λ run. IsFound seats steps seat.old run seat.new) }
    ensures none { IfNone result (seat.new ≡ seat.old) }
{
    if steps == 0 {
        return work.pop(seat);
    }
    let from = seat_behind(seat.number(), steps, seats);
    match work.steal(seat, from) {
        Stolen::Took(run) => Some(run),
        Stolen::Empty | Stolen::Lost => None,
    }
}

// Looks for a run where there is one worker. Nobody else pushes onto its deque, so once that is empty its further turns are
// counted without a look.
fn seek_alone(work: &Work, seat: &mut WorkSeat, idle: &mut u32) -> Option<Run>
    requires seat { seat.old.work ≡ work.now }
    requires number { seat.old.number < 1 }
    requires seats { work.now.seats ≡ 1 }
    ensures work { seat.new.work ≡ work.now }
    ensures number { seat.new.number ≡ seat.old.number }
    ensures marked { seat.new.marked ≡ seat.old.marked }
    ensures within { IfSome result (IsWithin work.now.grains) }
    ensures found { IfSome result (λ run. IsFound 1 0 seat.old run seat.new) }
    ensures left { IfSome result (λ _. (idle.new ≡ idle.old) × (0 < idle.old)) }
    ensures none { IfNone result ((seat.new ≡ seat.old) × IsSpent idle.old idle.new) }
{
    if *idle == 0 {
        return None;
    }
    let found = find(work, seat, 0, 1);
    if found.is_none() {
        *idle -= IDLE_IN_A_ROW.min(*idle);
    }
    found
}

// Looks for a run, one deque a turn: first in the worker's own, then in the others', and so round.
fn seek(work: &Work, seat: &mut WorkSeat, seats: u32, idle: &mut u32) -> Option<Run>
    requires seat { seat.old.work ≡ work.now }
    requires number { seat.old.number < seats }
    requires seats { work.now.seats ≡ seats }
    requires few { seats ≤ 64 }
    ensures work { seat.new.work ≡ work.now }
    ensures number { seat.new.number ≡ seat.old.number }
    ensures marked { seat.new.marked ≡ seat.old.marked }
    ensures within { IfSome result (IsWithin work.now.grains) }
    ensures found { IfSome result (λ run. IsFound seats ((idle.old - idle.new) % seats) seat.old run seat.new) }
    ensures left { IfSome result (λ _. (idle.new ≤ idle.old) × (idle.old < idle.new + 65_536) × (0 < idle.new)) }
    ensures none { IfNone result ((seat.new ≡ seat.old) × IsSpent idle.old idle.new) }
{
    if seats == 1 {
        return seek_alone(work, seat, idle);
    }
    let mut steps = 0;
    for _turn in 0..IDLE_IN_A_ROW.min(*idle) {
        let found = find(work, seat, steps, seats);
        if found.is_some() {
            return found;
        }
        *idle -= 1;
        // Steps go round as seats do: behind the last deque comes the worker's own.
        steps = seat_behind(steps, 1, seats);
    }
    None
}

/// The run that a worker goes on with: what it has in hand, or the next that it finds where that is nothing.
///
/// `idle` is in how many more turns the worker may find none. The answer is `None` where those are spent, and where
/// it found none in 65,536 turns one after the other.
pub fn next_run(
    work: &Work,
    seat: &mut WorkSeat,
    seats: u32,
    idle: &mut u32,
    in_hand: Run,
) -> Option<Run>
    requires seat { seat.old.work ≡ work.now }
    requires number { seat.old.number < seats }
    requires seats { work.now.seats ≡ seats }
    requires few { seats ≤ 64 }
    requires in_hand { in_hand.first + in_hand.count ≤ work.now.grains }
    ensures work { seat.new.work ≡ work.now }
    ensures number { seat.new.number ≡ seat.old.number }
    ensures marked { seat.new.marked ≡ seat.old.marked }
    ensures within { IfSome result (IsWithin work.now.grains) }
    ensures in_hand { 0 < in_hand.count → (result ≡ Some in_hand) × (seat.new ≡ seat.old) × (idle.new ≡ idle.old) }
    ensures found { in_hand.count ≡ 0 → IfSome result (λ run. IsFound seats ((idle.old - idle.new) % seats) seat.old run seat.new) }
    ensures left { IfSome result (λ _. (idle.new ≤ idle.old) × (idle.old < idle.new + 65_536)) }
    ensures none { IfNone result ((in_hand.count ≡ 0) × (seat.new ≡ seat.old) × IsSpent idle.old idle.new) }
{
    if in_hand.count > 0 {
        return Some(in_hand);
    }
    seek(work, seat, seats, idle)
}

/// Keeps the first half of a run of several tiles, and pushes the rest for all to take.
///
/// Where the push is refused the whole run is kept, and `halves` is false from then on.
pub fn halve(work: &Work, seat: &mut WorkSeat, halves: &mut bool, run: Run) -> Run
    requires seat { seat.old.work ≡ work.now }
    requires few { work.now.grains ≤ 4096 }
    requires several { 1 < run.count }
    requires inside { run.first + run.count ≤ work.now.grains }
    ensures work { seat.new.work ≡ work.now }
    ensures number { seat.new.number ≡ seat.old.number }
    ensures marked { seat.new.marked ≡ seat.old.marked }
    ensures first { result.first ≡ run.first }
    ensures some { 0 < result.count }
    ensures fewer { result.count ≤ run.count }
    ensures halved { IsHalved halves.old seat.old run halves.new seat.new result }
{
    let kept = Run {
        first: run.first,
        count: run.count / 2,
    };
    let rest = Run {
        first: run.first + kept.count,
        count: run.count - kept.count,
    };
    match work.push(seat, rest) {
        Ok(()) => kept,
        Err(_refused) => {
            *halves = false;
            run
        }
    }
}
