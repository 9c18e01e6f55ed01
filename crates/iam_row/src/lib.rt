//! Rows of reports, as CSV and as JSON, each in full or in brief; and what a report of a world's matrix is.
//!
//! `csv_row` gives the header and one row. Who makes many rows keeps the texts of a world as they stand in rows, in a `Quoted`,
//! and what stands in a row beside them and its number, in a `Tail`; the laws of this crate say that rows put together from
//! these are the report.
//!
//! Rows of what has changed from one world to another have columns of their own: `change_tail` is what stands in one beside its
//! texts, and `ChangeRows` a report of them that is made row by row.
#![tactic(auto)]

mod cell;
mod change_rows;
mod changes;
mod laws;
mod piece;
mod position;
mod quoted;
mod tail;
mod words;

pub use cell::{csv_row, csv_row_brief};
pub use change_rows::ChangeRows;
pub use changes::{Change, change_action, change_tail, changes_opening, is_allowed, kind_of};
pub use iam_layers::{Decision, Verdict, World};
pub use iam_text::{Items, OutOfMemory, Text};
pub use laws::{brief_texts, full_texts, one_row, one_text};
pub use piece::{closing, comma_before, opening};
pub use position::Position;
pub use quoted::{Format, Quoted, principals, quote, resources, text_at};
pub use tail::{Tail, bare};
pub use words::{Layers, Places, decision_word};
