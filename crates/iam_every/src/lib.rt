//! Requests for all names: the kinds of actions and of texts of resources that the decisions of a principal tell apart, rows that answer
//! for all of them by one of each kind, and the report of such rows.
#![tactic(auto)]

mod acting;
mod actions;
mod asked;
mod concerned;
mod crew;
mod eligible;
mod given;
mod groups;
mod laws;
mod lines;
mod meant;
mod pattern;
mod report;
mod row_text;
mod rows;
mod scene;
mod telling;
mod text;
mod texts;
mod told;
mod verdict;

pub use actions::{action_groups, action_kinds, are_same};
pub use asked::{Asked, Line, Which};
pub use given::{
    Given, first_line, is_among, is_first_line, line_patterns, matched_resources, names_of,
};
pub use groups::{Side, text_groups};
pub use laws::{
    alike_actions_at_decide_alike, alike_actions_decide_alike, alike_names_decide_alike,
    alike_texts_decide_alike, named_resources_have_their_cells, one_every_report,
    one_list_of_groups, one_list_of_rows, own_groups_tell_apart,
};
pub use meant::{all_said, meant_actions, policies_of};
pub use pattern::{Pattern, add_patterns};
pub use report::{EveryAnswer, EveryFault, every_report};
pub use rows::{Row, Said, action_text, rows_of, shared_text};
pub use text::EveryText;
pub use texts::text_kinds;
pub use verdict::verdict_on;
