//! Patterns of IAM policies: texts with wildcards, and which texts they match, with and without regard to case.
#![tactic(auto)]

mod ascii;
mod case;
mod compiled;
mod glob;
mod short;
mod sign;
mod signs;
mod walk;

pub use compiled::Compiled;
pub use glob::Glob;
pub use sign::{Sign, add_signs, sign_of};
pub use signs::Signs;
/// The error of an allocator that refused a growth.
pub use std::alloc::AllocError as OutOfMemory;
