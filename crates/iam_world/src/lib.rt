//! Worlds as data: the first fault of a world document, and the plain record that it says.
//!
//! `WorldParts::read` reads a document in the order of its faults, on the view that the walk of its shape lends
//! (`iam_shape`): `names.rt` reads the requesters and tests actions, resources and accounts, `iam_world_context` reads the
//! contexts, `documents.rt` the policy documents layer by layer, and `limits.rt` counts cells and statements. `parts.rt`
//! has what a world is made of, `world.rt` puts it together, `fault.rt` names the faults.
#![tactic(auto)]

mod documents;
mod fault;
mod laws;
mod limits;
mod names;
mod parts;
mod world;

pub use fault::WorldFault;
pub use iam_context::{ContextFault, Part, Requester};
pub use iam_policy::{Policy, Refused};
pub use iam_shape::Path;
pub use iam_text::OutOfMemory;
pub use laws::{no_world_and_fault, one_first_fault, one_world};
pub use parts::{Account, Principal, Resource};
pub use world::WorldParts;
