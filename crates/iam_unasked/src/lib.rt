//! Which conditions ask for none of some keys: they hold or not, whatever values these have.
#![tactic(auto)]

mod asks;
mod laws;
mod names;

pub use asks::asks_for;
pub use iam_policy::Statement;
pub use laws::unasked_keys;
pub use names::Names;
