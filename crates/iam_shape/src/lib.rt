//! The shape of a world document: what a document of the right shape says, and the path of the first place where
//! one of the wrong shape is wrong.
//!
//! `walk` (`shape.rt`) goes through a document in a fixed order, with `accounts.rt`, `principals.rt`, `resources.rt`,
//! `levels.rt` and `context.rt` for its parts, and lends what it finds as a `WorldView` (`view.rt`): texts, numbers and
//! lists, with policies and contexts as the JSON values that they are. Whether a text is an ARN or an action, and
//! whether a policy is one, is left to the caller. `path.rt` names places, `fault.rt` says why a walk stops, `look.rt`
//! looks into JSON objects, and `account_members.rt` finds the members of an account at once.
#![tactic(auto)]

mod account_members;
mod accounts;
mod context;
mod fault;
mod laws;
mod levels;
mod look;
mod path;
mod principals;
mod resources;
mod shape;
mod view;

pub use context::is_context;
pub use fault::ShapeFault;
pub use iam_text::OutOfMemory;
pub use laws::{few_documents, one_view};
pub use levels::{Levels, policies_in};
pub use path::{Name, Path};
pub use shape::walk;
pub use view::{AccountView, Accounts, PrincipalView, ResourceView, WorldView};
