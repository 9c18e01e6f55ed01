//! The actions of a world by their service prefixes: which of them a pattern can match at all.
#![tactic(auto)]

mod services;
mod tried;

pub use iam_glob::{Glob, OutOfMemory};
pub use services::Services;
pub use tried::Tried;
