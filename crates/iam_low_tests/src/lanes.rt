// Lanes in one thread, and lanes that threads share.
ghost use Rattle.std.specs.Prelude.{◌≡◌, ◌<◌, All, IfOk, length, vec_len};

use iam_lanes::{Closed, LaneFault, LaneSeat, Lanes};
use std::alloc::{AllocError, Global};
use std::sync::{Mutex, Wait};
use std::test::Fail;
use std::thread::{Threads, map_vec};

/// Whether two seats take the three numbers of lane 0 and the two of lane 1 in turn, and see that the lanes end.
fn take_in_turn(lanes: &Lanes, a: &mut LaneSeat, b: &mut LaneSeat) -> bool
    requires lanes { length lanes.now.lengths ≡ 2 }
    requires first { a.old.lanes ≡ lanes.now }
    requires second { b.old.lanes ≡ lanes.now }
    ensures first { a.new.lanes ≡ lanes.now }
    ensures second { b.new.lanes ≡ lanes.now }
{
    lanes.take(a, 0) == Some(0)
        && lanes.take(b, 0) == Some(1)
        && lanes.take(a, 0) == Some(2)
        && lanes.take(b, 0).is_none()
        && lanes.take(a, 1) == Some(0)
        && lanes.take(b, 1) == Some(1)
        && lanes.take(a, 1).is_none()
}

/// What two seats see of the bound: before any offer, and after each of three.
fn look_in_turn(lanes: &Lanes, a: &mut LaneSeat, b: &mut LaneSeat) -> [Option<u64>; 4]
    requires first { a.old.lanes ≡ lanes.now }
    requires second { b.old.lanes ≡ lanes.now }
    ensures first { a.new.lanes ≡ lanes.now }
    ensures second { b.new.lanes ≡ lanes.now }
{
    let before = lanes.low(a);
    lanes.offer(a, 9);
    let once = lanes.low(b);
    lanes.offer(b, 4);
    let twice = lanes.low(a);
    lanes.offer(a, 7);
    [before, once, twice, lanes.low(b)]
}

#[test]
fn two_seats_take_offer_and_look_in_turn(rt: HostRuntime) -> Result<(), Fail> {
    let Ok((lanes, mut seats)) = Lanes::open(rt.alloc(), &[3, 2], 2) else {
        panic!(rt; "the lanes are lawful")
    };
    let mut b = seats.pop().expect(&rt, "two seats");
    let mut a = seats.pop().expect(&rt, "two seats");
    assert!(rt; take_in_turn(&lanes, &mut a, &mut b));
    let seen = look_in_turn(&lanes, &mut a, &mut b);
    assert_eq!(rt; seen, [None, Some(9), Some(4), Some(4)]);
    seats.push(a)?;
    seats.push(b)?;
    let closed = lanes.close(seats);
    assert_eq!(rt;
        closed,
        Closed {
            ended: 2,
            low: Some(4)
        }
    );
    Ok(())
}

/// Takes from lane 0 until it has ended, and gives the seat back.
fn take_all<R: Wait>(rt: &R, lanes: &Lanes, mut seat: LaneSeat, taken: &Mutex<Vec<u64>>) -> LaneSeat
    requires seat { seat.lanes ≡ lanes.now }
    requires lane { 0 < length lanes.now.lengths }
    ensures { result.lanes ≡ lanes.now }
{
    while let Some(number) = lanes.take(&mut seat, 0) {
        if taken.lock(rt).push(number).is_err() {
            return seat;
        }
    }
    seat
}

/// Each seat takes in a thread of its own, where one can be made, and comes back.
fn take_in_threads<R: Threads + Wait + Sync>(
    rt: &R,
    lanes: &Lanes,
    seats: Vec<LaneSeat>,
    taken: &Mutex<Vec<u64>>,
) -> Result<Vec<LaneSeat>, AllocError>
    requires lane { 0 < length lanes.now.lengths }
    requires seats { All (λ s. s.lanes ≡ lanes.now) seats.items }
    ensures len { IfOk result (λ back. vec_len back ≡ vec_len seats) }
    ensures seats { IfOk result (λ back. All (λ s. s.lanes ≡ lanes.now) back.items) }
{
    map_vec(
        rt,
        seats,
        &|seat: LaneSeat| -> LaneSeat
            requires seat { seat.lanes ≡ lanes.now }
            requires lane { 0 < length lanes.now.lengths }
            ensures { result.lanes ≡ lanes.entry.now }
        { take_all(rt, lanes, seat, taken) },
    )
}

/// Whether threads take each of so many numbers of lane 0 once, and see its end.
fn are_taken_once<R: Threads + Wait + Sync>(
    rt: &R,
    alloc: Global,
    lanes: Lanes,
    seats: Vec<LaneSeat>,
    count: usize,
) -> Result<bool, AllocError>
    requires lane { 0 < length lanes.lengths }
    requires count { vec_len seats ≡ lanes.seats }
    requires seats { All (λ s. s.lanes ≡ lanes) seats.items }
{
    let taken = Mutex::new(Vec::new(alloc));
    let seats = take_in_threads(rt, &lanes, seats, &taken)?;
    let closed = lanes.close(seats);
    let mut numbers = taken.into_inner();
    numbers.sort_unstable();
    let mut places = numbers.iter().enumerate();
    let is_each = places.all(|(place, number)| place as u64 == *number);
    // None asks for another lane.
    let end = Closed {
        ended: 1,
        low: None,
    };
    Ok(is_each && numbers.len() == count && closed == end)
}

#[test]
fn threads_take_each_number_once(rt: HostRuntime) -> Result<(), Fail> {
    let Ok((lanes, seats)) = Lanes::open(rt.alloc(), &[1, 1], 64) else {
        panic!(rt; "the lanes are lawful")
    };
    assert!(rt; are_taken_once(&rt, rt.alloc(), lanes, seats, 1)?);
    let Ok((lanes, seats)) = Lanes::open(rt.alloc(), &[400], 4) else {
        panic!(rt; "the lanes are lawful")
    };
    assert!(rt; are_taken_once(&rt, rt.alloc(), lanes, seats, 400)?);
    Ok(())
}

#[test]
fn lanes_are_refused_for_their_seats_and_lengths(rt: HostRuntime) -> Result<(), Fail> {
    let alloc = rt.alloc();
    let many = vec![in alloc; 0; 65]?;
    let opened: [(&[u64], u32, Option<LaneFault>); 8] = [
        (&[1], 0, Some(LaneFault::NoSeat)),
        (many.as_slice(), 0, Some(LaneFault::NoSeat)),
        (&[1], 65, Some(LaneFault::TooMany)),
        (many.as_slice(), 1, Some(LaneFault::TooMany)),
        (&[4096, 1], 1, Some(LaneFault::TooMany)),
        (
            &[18_446_744_073_709_551_615, 1],
            1,
            Some(LaneFault::TooMany),
        ),
        (&[], 1, None),
        (&[4095, 1], 64, None),
    ];
    for (lengths, seats, fault) in opened {
        assert_eq!(rt; Lanes::open(alloc, lengths, seats).err(), fault);
    }
    Ok(())
}
