//! Verdicts of cells that follow one another, of which equal ones are kept once, and the tails of their rows.
//!
//! `Kept` keeps items of any kind so, verdicts among them, and `Decisions` keeps decisions alone. A `Tile` is what kept
//! verdicts or `Decisions` are made for a report.
#![tactic(auto)]

mod decisions;
mod guess;
mod kept;
mod numbers;
mod tile;
mod verdicts;

pub use decisions::Decisions;
pub use guess::mix;
pub use iam_layers::{Decision, Verdict};
pub use iam_row::{Format, Tail};
pub use iam_text::OutOfMemory;
pub use kept::{Form, Item, Kept};
pub use numbers::Numbers;
pub use tile::Tile;
pub use verdicts::{hash_of, is_bare, is_same};
