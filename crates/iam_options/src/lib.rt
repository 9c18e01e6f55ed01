//! The command line of `iamsim`, read by `clap`.
#![tactic(auto)]

mod any_key;
mod any_key_changes;
mod arguments;
mod ask;
mod changes;
mod command;
mod every;
mod every_changes;
mod options;

pub use any_key::AnyKeyCommand;
pub use any_key_changes::AnyKeyChangesCommand;
pub use ask::AskCommand;
pub use changes::{ChangesCommand, ChangesOptions, FailOn};
pub use command::{Asked, Command, WorldCommand, command_of};
pub use every::{EveryCommand, Texts};
pub use every_changes::EveryChangesCommand;
pub use options::{Options, RunOptions, Task, Usage, options_of};
