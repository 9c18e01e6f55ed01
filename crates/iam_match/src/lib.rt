//! Requests, and which statements match them.
#![tactic(auto)]

mod arn;
mod asked;
mod compare;
mod entry;
mod fixed;
mod principal;
mod request;
mod resource;
mod statement;
mod wide;

pub use entry::holds;
pub use fixed::Fixed;
pub use iam_condition::Entry;
pub use iam_context::{Context, Requester};
pub use iam_policy::{Actions, Statement};
pub use iam_text::OutOfMemory;
pub use principal::{Grant, grant_kind, principal_matches};
pub use request::{Access, Request};
pub use statement::{action_matches, rest_matches, rest_matches_with, statement_matches};
pub use wide::Wide;
