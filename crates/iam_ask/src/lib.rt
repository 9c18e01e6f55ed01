//! The report of requests that a file asks of a world: one row each, in the order of the file.
//!
//! Each request is decided alone, by an engine that remembers within bounds which texts match which resources; each worker has one.
//! Whatever the cut of the requests into tiles and the number of workers, the report is that of one thread.
#![tactic(auto)]

mod answer;
mod laws;
mod report;
mod rows;
mod text;

pub use iam_asked::{AskFault, Requests, read_requests};
pub use iam_matrix::{Cut, Format, Gate, MatrixFault};
pub use iam_report::OutputFault;
pub use iam_text::OutOfMemory;
pub use laws::{all_cells_give_the_matrix, one_ask_report, without_keys_as_its_cell};
pub use report::ask_report;
pub use text::AskText;
