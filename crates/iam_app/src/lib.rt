//! The program behind `iamsim`: its command line, its streams and what it says of a fault.
#![tactic(auto)]

mod any_key;
mod any_key_changes;
mod ask;
mod cells;
mod changes;
mod changes_fault;
mod command;
mod every;
mod every_changes;
mod every_changes_fault;
mod fault;
mod input;
mod laws;
mod names_fault;
mod output;
mod program;
mod requests_fault;
mod selected;

pub use any_key::run_any_key;
pub use any_key_changes::{TurnedChanges, any_key_changes_status, run_any_key_changes};
pub use ask::{ask_status, run_ask};
pub use changes::{Comparison, changes_status, run_changes};
pub use changes_fault::{ChangesFault, Side, changes_fault_line};
pub use command::{changes_command_status, command_status, run_changes_command, run_command};
pub use every::{Told, every_status, run_every};
pub use every_changes::{every_changes_status, run_every_changes};
pub use every_changes_fault::{EveryChangesFault, every_changes_fault_line};
pub use fault::{RunFault, fault_line, status};
pub use iam_asked::{FaultyLine, FaultyText, LineFault, TextFault};
pub use iam_changes::{Axis, Kinds, Twice};
pub use iam_every_changes::ChangesTold;
pub use iam_layers::WorldFault;
pub use iam_matrix::{CutFault, MatrixFault};
pub use iam_options::{
    AnyKeyChangesCommand, AnyKeyCommand, AskCommand, Asked, ChangesCommand, ChangesOptions,
    Command, EveryChangesCommand, EveryCommand, FailOn, Options, RunOptions, Task, Texts, Usage,
    WorldCommand, command_of, options_of,
};
pub use iam_selection::Selection;
pub use iam_text::OutOfMemory;
pub use laws::{one_changes_output, one_output};
pub use names_fault::{NamesFault, names_fault_line};
pub use program::run;
pub use requests_fault::{RequestsFault, requests_fault_line};
pub use selected::{run_selected, selection_of};
