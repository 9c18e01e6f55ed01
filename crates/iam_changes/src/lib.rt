//! What has changed from one world to another: the requests that one of them allows and the other does not, and those of which they
//! say something else; the rows of changes, and their report.
//!
//! The requests of two worlds are known by the texts of principal, action and resource: `first_twice` (`twice.rt`) tells whether those
//! of a world can be told apart; `Requests` (`requests.rt`) are those of two worlds, and find the requests of each in the other
//! (`finder.rt`).
//!
//! A row is gathered with what is said before and after (`Gathered`), and kept for the report with the texts around it (`Part`). A
//! `ChangesText` of the texts of two worlds and of parts in the order of their cells is written without taking memory. The laws
//! say that two worlds have one report, and what follows from what a change is.
#![tactic(auto)]

mod change;
mod finder;
mod gathered;
mod laws;
mod pair;
mod part;
mod pieces;
mod requests;
mod tail;
mod text;
mod twice;

pub use change::{Kinds, change_of, differ};
pub use finder::Finder;
pub use gathered::Gathered;
pub use iam_layers::{Decision, Verdict, World};
pub use iam_report::OutputFault;
pub use iam_row::{Change, Format, Quoted, Tail};
pub use iam_text::OutOfMemory;
pub use iam_tiles::{Numbers, Tile};
pub use laws::{
    each_change_once, exactly_the_changes, gained_is_lost, no_changes_against_itself, one_changes,
    one_count, one_twice, same_access,
};
pub use pair::{Decisions, Pair, Verdicts};
pub use part::Part;
pub use pieces::pieces_of;
pub use requests::Requests;
pub use text::{ChangesText, Pieces};
pub use twice::{Axis, Twice, first_twice};
