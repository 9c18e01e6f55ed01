//! What no value of a key that nothing gives can turn.
//!
//! A key is open for a request where no part of its context gives it and it follows from nothing; so is the moment, from the world's on.
//! In the contexts in question the open keys have whatever values they may have. [`turned_of`] says of a request that it is allowed in each
//! of these contexts, or in none, or shows one of them in which it is, or tells that it is not known.
//!
//! How it goes: what a statement asks of known keys alone holds in all these contexts or in none (`entry.rt`, `resource.rt`,
//! `statement.rt`). What is not known of an allow or a deny may be so or not: with all such allows and without such denies at least as
//! much is allowed as in any of the contexts, and the other way round at most as much (`bounds.rt`, `sure.rt`). Where that settles
//! nothing, values are tried (`trials.rt`, `seek.rt`), of which nothing is claimed: an example is one since the decision is made again in
//! that very context (`decide.rt`, `example.rt`).
//!
//! What is neither always nor never allowed hangs on the statements of which it is not known whether they match, and on the keys that these
//! ask for (`hangs.rt`).
#![tactic(auto)]

mod answer;
mod asked;
mod beyond;
mod bounds;
mod brief;
mod certain;
mod decide;
mod entry;
mod example;
mod finds;
mod first;
mod hangs;
mod kept;
mod known;
mod pair;
mod report;
mod resource;
mod row;
mod scene;
mod seek;
mod statement;
mod sure;
mod time;
mod trials;
mod unmet;

pub use answer::{Turned, scene_turned, turned_of};
pub use asked::{Asked, Word, word_of, word_text};
pub use beyond::text_beyond;
pub use certain::Certain;
pub use decide::{scene_verdict, verdict_in};
pub use entry::{conditions_certain, entry_certain};
pub use example::{Example, LAST_MOMENT, are_single};
pub use first::first_turned_report;
pub use hangs::{Hangs, scene_hangs};
pub use iam_layers::{OutOfMemory, World};
pub use known::Known;
pub use pair::{Pair, certainly, certainly_where, pair_certain, pair_of, scene_certain};
pub use report::turned_report;
pub use resource::resource_certain;
pub use row::{brief_text, example_text, full_row, full_text, opening};
pub use scene::{Scene, Target};
pub use statement::statement_certain;
pub use sure::{known_of, statements_at};
pub use trials::{Trial, moments_of, part_of, trials_of};
