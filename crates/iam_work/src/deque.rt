// The deques of runs: their rule, and what each call on one tells.
ghost use Rattle.std.specs.Prelude.{◌≡◌, [], All};
ghost use Rattle.iam_work.specs.Code.RunRule.{told, cleared, with_pushed, with_taken, accompanied, companion, HoldsRuns, founder};
ghost use Rattle.iam_work.specs.Work.{IsWithin};

use crate::run::Run;
use crate::view::DequeView;
use crossbeam_deque::protocol::{Outcome, Protocol, Split};
use crossbeam_deque::{Pass, Stealer, Worker};
use std::alloc::Global;

/// The rule of one deque: it holds non-empty runs within the grains.
pub struct Runs;

impl Protocol<Run, DequeView> for Runs {
    ghost holds = { HoldsRuns };

    ghost first = { founder };

    ghost guest = { founder };
}

pub type Owner = Worker<Run, Global, DequeView, Runs>;

pub type Thief = Stealer<Run, Global, DequeView, Runs>;

pub type RunPass = Pass<Run, DequeView>;

/// The run of all grains tells a new deque how many there are.
pub struct Tells;

impl Outcome<Run, DequeView> for Tells {
    ghost then = { λ v runs w. w ≡ told runs v };
}

/// The run of all grains is taken out again.
pub struct Clears;

impl Outcome<Run, DequeView> for Clears {
    ghost then = { λ v runs w. w ≡ cleared runs v };

    ghost empty = { λ v. v.held ≡ [] };
}

/// A push: the view gains the run.
pub struct Pushes;

impl Outcome<Run, DequeView> for Pushes {
    ghost then = { λ v runs w. w ≡ with_pushed runs v };
}

/// A pop or a theft: the view gains the run, which lies within the grains.
pub struct Takes;

impl Outcome<Run, DequeView> for Takes {
    ghost then = { λ v runs w. (w ≡ with_taken runs v) × All (IsWithin v.grains) runs };
}

/// A pass for a seat, made by the owner.
pub struct Shares;

impl Split<DequeView> for Shares {
    ghost left = { accompanied };

    ghost right = { companion };
}
