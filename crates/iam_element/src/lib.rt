//! The elements of a statement: each tested, and read, by itself.
#![tactic(auto)]

mod action_pattern;
mod actions;
mod element;
mod grammar;
mod members;
mod principal_grammar;
mod principals;
mod resources;

pub use actions::{Actions, read_action};
pub use element::{MOST, has_both, has_neither, is_bad_list, is_no_text, is_this, is_too_long};
pub use grammar::TextForm;
pub use iam_text::{Glob, Template, Version};
pub use members::Members;
pub use principal_grammar::{has_long_kind, is_bad_principal, is_everyone};
pub use principals::{PrincipalKind, PrincipalName, Principals, read_principal};
pub use resources::{Resources, has_bad_variable, read_resource};
/// The error of an allocator that refused a growth.
pub use iam_text::OutOfMemory;
