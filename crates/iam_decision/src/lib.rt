//! Decisions: which statements of the applicable policies match a request, and what they decide.
#![tactic(auto)]

mod applicable;
mod decide;
mod early;
mod frame;
mod laws;
mod living;
mod place;
mod ruling;
mod scan;
mod shared;
mod verdict;

pub use applicable::Applicable;
pub use decide::{decision_of, early_decision, early_verdict};
pub use early::{
    Findings, candidates_suffice, deny_decides, is_open, suffices_one_by_one, tells_one_by_one,
};
pub use frame::Frame;
pub use iam_match::{Access, Grant};
pub use iam_policy::{Actions, Effect, Policy};
pub use iam_text::{Items, OutOfMemory};
pub use laws::{
    acting_are_found, allowed_is_granted, both_accounts_allow, boundary_and_session_bind,
    deny_wins, direct_grant_names_itself, each_level_allows, found_decide,
    further_allow_takes_nothing, further_deny_allows_no_more, further_limits_allow_no_more,
    one_decision, one_verdict, order_is_free, sealed_resource_grants,
};
pub use living::{Living, Matched, add_living, push_living};
pub use place::{Layer, Place};
pub use ruling::Ruling;
pub use scan::Standing;
pub use shared::Shared;
pub use verdict::{Decision, Verdict};
