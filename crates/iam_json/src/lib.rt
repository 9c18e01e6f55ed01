//! Looking into JSON values: the values of a list, unknown members, single values that stand for a text, and how
//! many values one holds.
#![tactic(auto)]

mod laws;
mod look;
mod scalar;

pub use laws::{item_is_smaller, list_is_small, member_is_smaller, read_is_small};
pub use look::{has_unknown, values};
pub use scalar::{is_scalar, scalar_text};
