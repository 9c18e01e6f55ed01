//! Requests for all names, whatever values the keys have that nothing gives: texts of resources that are read alike in each of the
//! contexts in question, whose requests are decided alike there.
//!
//! Which statements may concern the requests of a principal in these contexts is found first (`concerned.rt`). What their resource
//! elements ask of known keys alone becomes the same patterns in all of them: texts on which the groups of these patterns agree are read
//! alike (`groups.rt`). Then what is told of the requests for one such text holds of those for each other (`laws.rt`).
#![tactic(auto)]

mod actions;
mod concerned;
mod crew;
mod groups;
mod laws;
mod lines;
mod report;
mod row_text;
mod rows;
mod said;
mod scene;
mod spots;
mod texts;

pub use actions::{alike_actions_are_turned_alike, all_actions};
pub use concerned::concerns;
pub use groups::open_groups;
pub use laws::{
    agreeing_texts_are_read_alike, agreeing_texts_are_turned_alike, alike_texts_are_told_alike,
    contexts_in_question_follow, read_alike_are_turned_alike, read_alike_decide_alike,
};
pub use lines::{LineTexts, line_texts};
pub use report::open_every_report;
pub use rows::{Row, rows_of};
pub use said::{Said, said_on};
pub use scene::scene_groups;
pub use spots::{Spot, spots_of};
pub use texts::all_texts;
