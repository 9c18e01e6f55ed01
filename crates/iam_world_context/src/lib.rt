//! The contexts that a world document gives, and the first fault of them.
//!
//! `read_contexts` (`contexts.rt`) reads, from the view that the walk of a document's shape lends (`iam_shape`), the keys
//! that the world, each principal and each resource give to the context of a request, and tests each part beside those
//! that it is joined with. `fault.rt` says why the reading stops.
#![tactic(auto)]

mod contexts;
mod fault;

pub use contexts::{Contexts, read_contexts, read_part};
pub use fault::PartFault;
pub use iam_context::{ContextFault, Part};
pub use iam_shape::{Path, WorldView};
pub use iam_text::OutOfMemory;
