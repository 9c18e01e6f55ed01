//! Which requests are allowed in one of two worlds alone, whatever values the keys have that nothing gives.
//!
//! A key is open for a request of two worlds where neither world gives it and it follows from nothing; so is the moment, from the later of
//! theirs on. In the contexts in question the open keys have whatever values they may have, the same in both worlds. [`change_of`] says of
//! a request that it is gained in one of these contexts, which it shows, or in none of them, or tells that this is not known; and so of
//! losses. [`scene_change`] says so of a request for what may be no resource of the worlds.
//!
//! How it goes: what is certain of a request in one of the worlds (`iam_open`) may exclude that it is gained, or lost (`certain.rt`). Where
//! the one world has no allow that may match and that the other lacks, and lacks no deny, it is not lost to the other (`same.rt`,
//! `kept.rt`); where both decide by the same, it is neither gained nor lost. Else values are tried (`trials.rt`, `seek.rt`), of which
//! nothing is claimed: an example is one since both worlds decide it again in that very context (`example.rt`). The report has rows of
//! what is told (`row.rt`, `rows.rt`), which workers make (`report.rt`).
#![tactic(auto)]

mod certain;
mod change;
mod example;
mod implied;
mod kept;
mod laws;
mod network;
mod numbers;
mod report;
mod row;
mod rows;
mod same;
mod seek;
mod side;
mod trials;
mod turn;
mod wider;

pub use change::{Change, Told, change_of, scene_change};
pub use example::Example;
pub use iam_changes::Requests;
pub use iam_layers::{OutOfMemory, World};
pub use iam_row::Format;
pub use laws::{
    never_is_not_shown, no_more_is_allowed, no_more_is_not_turned, same_access, shown_is_turned,
};
pub use numbers::{Both, Numbers};
pub use report::{ChangesAnswer, any_key_changes_report};
pub use rows::Kinds;
pub use side::{Request, Side, Sides};
pub use turn::Turn;
