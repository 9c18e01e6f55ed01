//! Where the access of a principal differs between two states of the same accounts, for all names.
//!
//! What is asked of all names is asked in both states at once (`states.rt`). Actions and texts that neither state tells apart are decided
//! alike in both, so one of each kind is looked at (`actions.rt`, `lines.rt`), beside the texts that one of the worlds names
//! (`own.rt`). A request that one state alone allows is told (`looked.rt`, `rows.rt`). What requests of a principal share for resources of
//! which the same is said is a `Scene` (`scene.rt`).
//!
//! The principals of two worlds (`compared.rt`) are looked at by many workers (`crew.rt`), and the report of them is made
//! (`report.rt`). Whatever the number of workers, it is that of one thread.
#![tactic(auto)]

mod actions;
mod compared;
mod crew;
mod distinct;
mod given;
mod laws;
mod lines;
mod looked;
mod own;
mod principals;
mod report;
mod rows;
mod scene;
mod states;

pub use compared::{Compared, Who};
pub use laws::{one_every_changes_report, one_list_of_changes, same_access_without_a_row};
pub use looked::{Changed, Looked, Verdicts};
pub use principals::principals_of;
pub use report::{ChangesAnswer, ChangesTold, every_changes_report};
pub use rows::{changes_of, walks_of};
pub use states::{Both, State};
