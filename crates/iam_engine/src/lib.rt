//! An engine that decides requests of a world one at a time, in any order, also such as give keys of their own: it looks at the candidates
//! of each alone, remembers within bounds which texts match which resources, and stops as soon as the answer is settled.
#![tactic(auto)]

mod cache;
mod engine;
mod own;
mod walk;

pub use engine::Engine;
pub use iam_index::Index;
pub use iam_layers::{Decision, Verdict, World};
pub use iam_text::OutOfMemory;
