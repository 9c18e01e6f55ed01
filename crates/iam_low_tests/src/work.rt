// Runs that are pushed, stolen and marked, in one thread.
ghost use Rattle.std.specs.Prelude.{◌≡◌};

use iam_lanes::{LaneFault, Run, Stolen, Work, WorkSeat};
use std::test::Fail;

/// Whether seat a has back what nobody took, and seat 1 steals the run that has been there longest.
fn push_pop_and_steal(work: &Work, a: &mut WorkSeat, b: &mut WorkSeat) -> bool
    requires grains { work.now.grains ≡ 6 }
    requires seats { work.now.seats ≡ 2 }
    requires pushes { a.old.work ≡ work.now }
    requires steals { b.old.work ≡ work.now }
    requires other { b.old.number ≡ 1 }
    ensures pushes { a.new.work ≡ work.now }
    ensures steals { b.new.work ≡ work.now }
{
    let all = Run { first: 0, count: 6 };
    let half = Run { first: 3, count: 3 };
    let rest = Run { first: 1, count: 2 };
    work.push(a, all).is_ok()
        && work.pop(a) == Some(all)
        && work.push(a, half).is_ok()
        && work.push(a, rest).is_ok()
        && work.steal(b, 0) == Stolen::Took(half)
        && work.pop(a) == Some(rest)
        && work.pop(a).is_none()
        && work.steal(b, 0) == Stolen::Empty
}

/// Whether a grain is marked by the first that comes.
fn mark_in_turn(work: &Work, a: &mut WorkSeat, b: &mut WorkSeat) -> bool
    requires grains { work.now.grains ≡ 6 }
    requires first { a.old.work ≡ work.now }
    requires second { b.old.work ≡ work.now }
    ensures first { a.new.work ≡ work.now }
    ensures second { b.new.work ≡ work.now }
{
    work.mark(a, 0) && !work.mark(b, 0) && work.mark(b, 3) && !work.mark(b, 3)
}

#[test]
fn two_seats_push_pop_steal_and_mark_in_turn(rt: HostRuntime) -> Result<(), Fail> {
    let Ok((work, mut seats)) = Work::open(rt.alloc(), 6, 2) else {
        panic!(rt; "the work is lawful")
    };
    let mut b = seats.pop().expect(&rt, "two seats");
    let mut a = seats.pop().expect(&rt, "two seats");
    assert!(rt; push_pop_and_steal(&work, &mut a, &mut b));
    assert!(rt; mark_in_turn(&work, &mut a, &mut b));
    seats.push(a)?;
    seats.push(b)?;
    assert_eq!(rt; work.close(seats), 2);
    Ok(())
}

#[test]
fn a_deque_grows_and_gives_its_runs_in_their_order(rt: HostRuntime) {
    let Ok((work, mut seats)) = Work::open(rt.alloc(), 100, 1) else {
        panic!(rt; "the work is lawful")
    };
    let mut seat = seats.pop().expect(&rt, "one seat");
    for first in 0..100 {
        let run = Run { first, count: 1 };
        assert_eq!(rt; work.push(&mut seat, run), Ok(()));
    }
    for first in 0..100 {
        let run = Run { first, count: 1 };
        assert_eq!(rt; work.pop(&mut seat), Some(run));
    }
    assert_eq!(rt; work.pop(&mut seat), None);
}

#[test]
fn work_is_refused_for_its_seats_and_grains(rt: HostRuntime) {
    for (grains, seats, fault) in [
        (4096, 0, Some(LaneFault::NoSeat)),
        (4097, 0, Some(LaneFault::NoSeat)),
        (4097, 1, Some(LaneFault::TooMany)),
        (1, 65, Some(LaneFault::TooMany)),
        (0, 1, None),
        (4096, 64, None),
    ] {
        assert_eq!(rt; Work::open(rt.alloc(), grains, seats).err(), fault);
    }
}
