//! The conditions of statements: their operators, and their values, read once.
#![tactic(auto)]

mod apart;
mod entry;
mod form;
mod laws;
mod names;
mod operand;
mod operator;
mod reading;
mod values;

pub use apart::Apart;
pub use entry::Entry;
pub use form::{has_bad_text, has_many_values, has_unknown_operator, is_bad_form};
pub use iam_text::{Items, OutOfMemory, Template, Version};
pub use iam_value::Range;
pub use laws::one_condition;
pub use names::operator_of;
pub use operand::Operand;
pub use operator::{Base, Operator, Order, Quantifier, TextTest};
pub use reading::read_entries;
pub use values::has_bad_value;
