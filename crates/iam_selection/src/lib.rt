//! Reports of what is asked of a world's matrix: the rows of some requests, and the first of them that is allowed.
//!
//! Whatever the cut of the cells into tiles and the number of workers, the answer is that of one thread.
#![tactic(auto)]

mod found;
mod laws;
mod list;
mod pattern;
mod picker;
mod report;
mod rows;
mod selection;

pub use iam_layers::{Decision, World};
pub use iam_matrix::{Cut, Format, Gate, MatrixFault, Open};
pub use iam_report::OutputFault;
pub use iam_text::{Glob, Items, OutOfMemory};
pub use laws::{
    each_stands_in_all, each_text_is_named, nothing_selects_all, one_selected_report,
    reads_as_policies,
};
pub use list::ListText;
pub use pattern::pattern_of;
pub use picker::{Picker, selects_some};
pub use report::{first_selected_report, index_of, selected_report};
pub use selection::Selection;
