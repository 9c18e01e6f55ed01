//! Policy documents: read, or refused by their least fault.
#![tactic(auto)]

mod document_checks;
mod effect;
mod fault;
mod laws;
mod policy;
mod sids;
mod statement;
mod statement_checks;
mod table;
mod version;

pub use effect::Effect;
pub use fault::{Fault, Kind, Refused};
pub use iam_condition::Entry;
pub use iam_element::{Actions, PrincipalKind, PrincipalName, Principals, Resources};
pub use laws::{one_least_fault, one_policy};
pub use policy::Policy;
pub use statement::Statement;
/// The versions, and the allocator's refusal of a growth.
pub use iam_text::{OutOfMemory, Version};
