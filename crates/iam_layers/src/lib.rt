//! Worlds, and the verdicts of their policies on requests.
//!
//! `World::read`, `World::from_vec` and `World::from_vec_leaking` read the bytes of a world document, or answer their first fault;
//! `World::decide_plain` gives the verdict on one request by a scan of all statements that apply. `own.rt` has what is asked of a world
//! for requests that give keys of their own, and `unnamed.rt` for resources that the world does not name.
#![tactic(auto)]

mod applicable;
mod derived;
mod laws;
mod own;
mod unnamed;
mod world;

pub use iam_context::{Context, Derived};
pub use iam_decision::{
    Applicable, Decision, Frame, Layer, Living, Matched, Place, Ruling, Shared, Standing, Verdict,
};
pub use iam_match::Requester;
pub use iam_text::OutOfMemory;
pub use iam_world::WorldFault;
pub use laws::{
    management_is_not_bound, no_keys_change_nothing, one_decision_at, one_own_decision,
    one_own_verdict, one_request, one_triple, one_verdict_at, statements_are_kept,
};
pub use unnamed::Unnamed;
pub use world::World;
