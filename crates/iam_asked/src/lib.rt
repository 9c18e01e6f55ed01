//! Requests that a file asks of a world, one a line; and lines of which each says something of texts that a world does not name.
//!
//! `read_requests` (`read.rt`) reads a file in blocks, and `Reading` (`reading.rt`) a line: `said.rt` has what a line says,
//! `finder.rt` finds what it names, by the maps of `places.rt`, and `requests.rt` keeps the requests, by numbers, with the keys that
//! they give themselves (`own.rt`). `fault.rt` says why a line is no request.
//!
//! `read_texts` (`texts.rt`) reads what lines say of texts that a world does not name, and `text_fault.rt` says why a line says nothing
//! of them; `lines_before` (`before.rt`) says the same of another state of the same accounts.
#![tactic(auto)]

mod asked;
mod before;
mod entry;
mod fault;
mod finder;
mod laws;
mod own;
mod places;
mod read;
mod reading;
mod requests;
mod said;
mod text_fault;
mod texts;

pub use asked::Asked;
pub use before::lines_before;
pub use fault::{AskFault, FaultyLine, LineFault};
pub use iam_context::{ContextFault, Part};
pub use iam_layers::World;
pub use iam_text::OutOfMemory;
pub use laws::{
    no_fault_of_read, no_fault_of_request, no_fault_of_text_line, one_asked, one_first_faulty,
    one_size, one_text_line,
};
pub use places::{Place, principal_places, resource_places};
pub use read::read_requests;
pub use reading::Reading;
pub use requests::Requests;
pub use text_fault::{FaultyText, TextFault};
pub use texts::{SaidOf, TextLine, check_said, read_texts};
