//! An engine for whole matrices: what the requests of a principal for a resource share is found once, and pairs that share the
//! same are of one class.
//!
//! `decided` (`batch.rt`) says what is decided on requests that share the same for up to 64 actions at once, by two words with a bit for
//! each action; a `Span` (`span.rt`) keeps that side by side for resources that follow one another.
#![tactic(auto)]

mod batch;
mod batches;
mod engine;
mod gather;
mod held;
mod lanes;
mod laws;
mod memo;
mod source;
mod span;
mod words;

pub use engine::ClassEngine;
pub use iam_columns::Numbered;
pub use iam_index::Index;
pub use iam_layers::{Decision, Shared, Verdict, World};
pub use iam_living::{Block, Survey, Surveyor, wants_survey};
pub use iam_text::OutOfMemory;
pub use memo::Found;
pub use span::Known;
