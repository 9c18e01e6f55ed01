//! Whether two statements are the same, parts of them, and lists of them.
#![tactic(auto)]

mod conditions;
mod lists;
mod patterns;
mod plain;
mod principals;
mod prints;
mod statement;
mod texts;

pub use conditions::{is_same_operator, is_same_value};
pub use lists::{are_all_equal, print_all};
pub use prints::{action_print, text_print};
pub use statement::say_same;
