//! Reports of a world's matrix, as CSV and as JSON, each in full or in brief.
//!
//! `csv_text` and its like give a whole report. Where many make a report, each puts the verdicts of some cells into `Kept`,
//! or their decisions into `Decisions`, and makes them a `Tile`; a `MatrixText` of one `Quoted` of `iam_row` and of the tiles
//! in the order of their cells is the report, as the laws of `iam_row` say, and is written without taking memory.
#![tactic(auto)]

mod block;
mod front;
mod line;
mod matrix;
mod output;
mod place;
mod rows;
mod text;

pub use iam_layers::{Decision, Verdict, World};
pub use iam_row::{Format, Quoted};
pub use iam_text::OutOfMemory;
pub use iam_tiles::{Decisions, Kept, Tile};
pub use matrix::{MatrixText, put_pieces, write_end};
pub use output::{OutputFault, buffer, put, put_all, write_text};
pub use place::{comma_of, position_in};
pub use text::{csv_brief, csv_text, json_brief, json_text};
