//! The access matrix of a world: the verdicts of all cells by many workers, the first allowed cell, and the reports.
//!
//! Whatever the cut of the cells into tiles and the number of workers, the answer is that of one thread.
#![tactic(auto)]

mod asks;
mod cells;
mod cut;
mod each;
mod fault;
mod laws;
mod leads;
mod report;
mod rows;
mod said;
mod search;
mod survey;
mod workers;

pub use asks::Asks;
pub use cells::{CAPACITY, matrix, matrix_brief};
pub use cut::{Cells, Cut, CutFault};
pub use each::{end_of, past_row};
pub use fault::MatrixFault;
pub use iam_classes::{ClassEngine, Index, Survey};
pub use iam_crew::{Gate, Open};
pub use iam_layers::{Decision, Verdict, World};
pub use iam_report::{MatrixText, csv_brief, csv_text, json_brief, json_text};
pub use iam_row::{Format, csv_row, csv_row_brief};
pub use iam_text::OutOfMemory;
pub use laws::{one_brief_matrix, one_first, one_matrix, one_report};
pub use report::{first_report, first_text, matrix_report};
pub use search::{first, first_asked};
pub use survey::survey_of;
pub use workers::is_unlawful;
