//! Lanes of numbered pieces of work, and a bound, that threads share without waiting for one another.
//!
//! A lane is a run of numbers 0, 1, 2, .. below its length. Threads take numbers from lanes, each with a
//! seat of its own, and no number is given to two of them. Beside the lanes stands one bound, the least of
//! the cells that the seats offered. Once the threads have ended, `Lanes::close` takes all seats back and
//! says what they took, offered and saw.
//!
//! Work that is cut in runs of grains while it goes on is that of `iam_work`, which stands below and is passed on.
#![tactic(auto)]

mod close;
mod lanes;
mod rule;
mod seat;
mod view;

pub use iam_work::{LaneFault, Run, Stolen, Work, WorkSeat};
pub use lanes::{Closed, Lanes};
pub use seat::LaneSeat;
