//! Which resources of a world the resource elements of its statements match, and which resources none of them tells apart; and tables of
//! slots, for what may be found again: each slot holds what was kept there last.
#![tactic(auto)]

mod columns;
mod numbered;
mod rows;
mod slots;

pub use columns::Columns;
pub use iam_layers::{Standing, World};
pub use iam_text::OutOfMemory;
pub use numbered::{Numbered, keep_number, number_in};
pub use rows::{Row, Rows};
pub use slots::{WIDTH, empty, empty_slots, keep, kept, slot_at, slot_of, slots_or_none};
