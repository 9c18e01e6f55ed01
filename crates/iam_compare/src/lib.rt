//! The report of what has changed from one world to another.
//!
//! `changes_report` is the report of the `Requests` of two worlds. Whatever the cut of the requests into tiles and the number of
//! workers, the answer is that of one thread.
#![tactic(auto)]

mod report;
mod walk;

pub use iam_changes::{
    Axis, Change, ChangesText, Kinds, OutputFault, Requests, Twice, first_twice,
};
pub use iam_layers::World;
pub use iam_matrix::{Cut, Format, Gate, MatrixFault, Open};
pub use iam_selection::Selection;
pub use iam_text::OutOfMemory;
pub use report::changes_report;
