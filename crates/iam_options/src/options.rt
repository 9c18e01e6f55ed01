// The command line, read by `clap`.
ghost use Rattle.std.specs.Prelude.{◌≡◌, IfSome, Some};
ghost use Rattle.clap.specs.Words.{subcommand_name_of};
ghost use Rattle.iam_options.specs.Words.{HasRun, IfDecide, IsDecide, IsNumberAt, OfCommand, command_name};

use crate::arguments::iamsim;
use clap::error::ErrorKind;
use clap::{ArgMatches, Command as Parser, Error};
use std::alloc::{AllocError, Global};

/// How many workers there are where the command line does not say.
const WORKERS: u32 = 4;

/// What the command line asks for.
#[derive(Clone, Copy, Debug, PartialEq, Eq)]
pub struct Options {
    /// The command.
    pub task: Task,
    /// How many workers decide the cells; 4 where nothing is said.
    pub workers: u32,
    /// How many cells a worker takes at once, where this is said.
    pub tile: Option<u64>,
    /// Whether the report is JSON, in place of CSV.
    pub json: bool,
    /// Whether the report has the decisions alone, without statements and lacks.
    pub brief: bool,
}

/// How the report of a command is made.
#[derive(Clone, Copy, Debug, PartialEq, Eq)]
pub struct RunOptions {
    /// How many workers decide; 4 where nothing is said.
    pub workers: u32,
    /// How many requests a worker takes at once, where this is said.
    pub tile: Option<u64>,
    /// Whether the report is JSON, in place of CSV.
    pub json: bool,
    /// Whether the report has the decisions alone, without statements and lacks.
    pub brief: bool,
}

/// A command.
#[derive(Clone, Copy, Debug, PartialEq, Eq)]
pub enum Task {
    /// Read the world, and count what it has.
    Check,
    /// Decide one request: the numbers of its principal, its action and its resource.
    Decide(u64, u64, u64),
    /// Decide all requests.
    Matrix,
    /// Find the first request that is allowed.
    First,
}

/// Why a command line gives no options.
#[derive(Debug, Drop, thiserror::Error)]
pub enum Usage {
    /// Help or the version was asked for; this is its text.
    #[error("{0}")]
    Help(String),
    /// The command line is refused, with this text.
    #[error("{0}")]
    Refused(String),
    /// The allocator refused a growth.
    #[error("out of memory")]
    OutOfMemory,
}

impl From<AllocError> for Usage {
    ghost use Rattle.iam_options.specs.declared.options.Usage.TheVariants as usage;

    ghost from_gives = { λ _ answer. answer ≡ usage.OutOfMemory };

    fn from(_: AllocError) -> Usage {
        Usage::OutOfMemory
    }
}

/// Reads a command line; `words` are those after the program's name.
pub fn options_of(alloc: Global, words: &[&str]) -> Result<Options, Usage> {
    let mut parser = iamsim(alloc)?;
    match parser.try_get_matches_from_mut(words) {
        Ok(matches) => options_or_usage(&mut parser, &matches),
        Err(error) => Err(usage_of(alloc, &error)),
    }
}

fn options_or_usage(parser: &mut Parser<'_>, matches: &ArgMatches<'_>) -> Result<Options, Usage> {
    match options_in(matches) {
        Some(options) => Ok(options),
        None => Err(Usage::Refused(parser.render_usage()?)),
    }
}

/// The command that was read, with its options. `None` does not come.
pub fn options_in(matches: &ArgMatches<'_>) -> Option<Options>
    ensures name { IfSome result (λ options. subcommand_name_of matches.now ≡ Some (command_name options.task)) }
    ensures decide { IfSome result (λ options. IfDecide matches.now options.task) }
    ensures run { IfSome result (λ options. OfCommand matches.now
        (λ command. HasRun command options.workers options.tile options.json options.brief)) }
{
    let task = task_of(matches)?;
    let (_, command) = matches.subcommand()?;
    Some(with_options(task, command))
}

/// How the report of a command is made.
pub fn run_options(command: &ArgMatches<'_>) -> RunOptions
    ensures { HasRun command.now result.workers result.tile result.json result.brief }
{
    RunOptions {
        workers: command.get_one("workers").unwrap_or(WORKERS),
        tile: command.get_one("tile"),
        json: command.get_str("format") == Some("json"),
        brief: command.get_flag("brief"),
    }
}

/// A task with the options that stand behind its command; one that the command does not have is left as it is where
/// nothing is said.
fn with_options(task: Task, command: &ArgMatches<'_>) -> Options
    ensures task { result.task ≡ task }
    ensures run { HasRun command.now result.workers result.tile result.json result.brief }
{
    let run = run_options(command);
    Options {
        task,
        workers: run.workers,
        tile: run.tile,
        json: run.json,
        brief: run.brief,
    }
}

/// The command that was read. `None`, where a command or a number is absent, does not come: that is refused before.
fn task_of(matches: &ArgMatches<'_>) -> Option<Task>
    ensures name { IfSome result (λ task. subcommand_name_of matches.now ≡ Some (command_name task)) }
    ensures decide { IfSome result (λ task. IfDecide matches.now task) }
{
    match matches.subcommand() {
        Some(("check", _)) => Some(Task::Check),
        Some(("decide", decide)) => decide_task(decide),
        Some(("matrix", _)) => Some(Task::Matrix),
        Some(("first", _)) => Some(Task::First),
        _ => None,
    }
}

fn decide_task(decide: &ArgMatches<'_>) -> Option<Task>
    ensures { IfSome result (λ task. IsDecide decide.now task) }
{
    let principal = number_at(decide, "P")?;
    let action = number_at(decide, "A")?;
    let resource = number_at(decide, "R")?;
    Some(Task::Decide(principal, action, resource))
}

/// The number that stands under this name.
pub fn number_at(matches: &ArgMatches<'_>, name: &str) -> Option<u64>
    ensures { IsNumberAt matches.now name.now 64 result }
{
    matches.get_one(name)
}

/// What is told of an error of `clap`.
pub fn usage_of(alloc: Global, error: &Error) -> Usage {
    let kind = error.kind();
    let Ok(text) = error.to_string(alloc) else {
        return Usage::OutOfMemory;
    };
    match kind {
        ErrorKind::OutOfMemory => Usage::OutOfMemory,
        ErrorKind::DisplayHelp | ErrorKind::DisplayVersion => Usage::Help(text),
        _ => Usage::Refused(text),
    }
}
