//! The kinds of texts that patterns tell apart: all texts on which the same patterns match are decided alike, so one text of each
//! kind answers for all texts.
#![tactic(auto)]

mod asked;
mod cased;
mod grammar;
mod kinds;
mod laws;
mod letters;
mod lists;
mod table;
mod walk;
mod walks;

pub use grammar::Grammar;
pub use iam_glob::{OutOfMemory, Sign, Signs};
pub use kinds::{Kinds, find_kinds, find_kinds_fold};
pub use laws::{one_list_of_kinds, one_list_of_kinds_fold};
pub use walks::Walks;
