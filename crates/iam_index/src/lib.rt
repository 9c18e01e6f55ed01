//! An index of a world: its statements that may match requests for the actions of the world, by whom their policies are had.
#![tactic(auto)]

mod elements;
mod given;
mod index;
mod known;
mod list_rows;
mod lists;
mod numbers;
mod parts;
mod signs;
mod texts;

pub use elements::{Element, Elements, put_acting, signature};
pub use iam_columns::{Columns, Row, Rows};
pub use iam_layers::{Living, Place, Standing, World};
pub use iam_text::OutOfMemory;
pub use index::Index;
pub use known::{Known, Theirs};
pub use lists::{Listed, ResourceLists};
pub use parts::Parts;
pub use signs::{Sign, keep_signed, number_signed};
pub use texts::Texts;
