//! The keys of a request with their values, texts with variables resolved in them, and who asks.
#![tactic(auto)]

mod arn;
mod context;
mod fault;
mod find;
mod key;
mod keys;
mod laws;
mod part;
mod parts;
mod pattern;
mod places;
mod requester;
mod sought;
mod values;
mod wide;

pub use context::Context;
pub use fault::ContextFault;
pub use iam_text::{Draft, Glob, OutOfMemory, Text};
pub use keys::Keys;
pub use laws::one_requester;
pub use part::{Derived, Part, part_fault};
pub use pattern::{lone_value, resolve};
pub use requester::Requester;
pub use sought::Sought;
pub use values::{DerivedKey, KeyName, Values};
pub use wide::wide_pattern;
