//! Threads that work off tiles together, and a collector that puts what they made in order.
//!
//! Work is cut into tiles 0, 1, 2, .. A [`Crew`] says what is made of one tile; [`gather`] deals the tiles out
//! in runs that its workers halve and steal from one another, and hands back the outputs in the order of tiles,
//! whatever the schedule was. Beside the tiles stands one [`Bound`], the least cell that any worker offered: a
//! crew that searches looks at it before a tile and passes over what lies behind it.
#![tactic(auto)]

mod bound;
mod collector;
mod crew;
mod order;
mod runs;
mod seats;
mod shares;
mod team;
mod worker;

pub use bound::Bound;
pub use collector::{Gathered, gather};
pub use crew::{Crew, Gate, Open};
pub use iam_text::OutOfMemory;
