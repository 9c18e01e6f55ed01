//! Which of the statements that an index lists live in requests, as a list and as the bits of numbers that tell such lists apart; and a
//! survey of what the requests of all pairs of a principal and a resource share, found before any cell is decided.
#![tactic(auto)]

mod asker;
mod asking;
mod keys;
mod listing;
mod lists;
mod marks;
mod survey;
mod walk;
mod word;

pub use asker::{Asker, Bits};
pub use asking::Asking;
pub use iam_index::Index;
pub use iam_layers::{Living, Shared, World};
pub use iam_text::OutOfMemory;
pub use keys::{Keys, Lives, no_keys, shared_by};
pub use survey::{Block, Survey, Surveyor, wants_survey};
