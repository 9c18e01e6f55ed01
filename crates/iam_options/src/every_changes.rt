// The command line of `changes --every`.
ghost use Rattle.std.specs.Prelude.{◌≡◌, ◌≢◌, ◌≤◌, ◌∷◌, ◌↔◌, [], IfErr, IfOk, IsTrue, MatchOption, codes, length, map, string_bytes};
ghost use Rattle.iam_options.specs.EveryChanges.{AreShared, IsOnlyAt, IsRefused};
ghost use Rattle.iam_options.specs.Words.{HasRun, IsFailOn, IsFileAt, IsFlag, texts_at};
ghost use Rattle.iam_options.specs.declared.options.Usage.TheVariants as u;

use crate::changes::{FailOn, NAME, changes, fail_on_of};
use crate::command::{file_at, refused, texts_at};
use crate::options::{RunOptions, Usage, run_options};
use clap::ArgMatches;
use clap::error::ErrorKind;
use std::alloc::{AllocError, Global};

const INPUTS: &str = "BEFORE, AFTER and --texts: only one can come from standard input";

const ACTIONS: &str = "--every takes one --action";

/// What a command line asks for of the changes between two worlds, for all names.
#[derive(Debug, Drop)]
pub struct EveryChangesCommand {
    /// The name of the file with the world before; standard input where there is none.
    pub before: Option<String>,
    /// The name of the file with the world after; standard input where there is none.
    pub after: Option<String>,
    /// The name of the file with the lines that say what holds of which texts; standard input where there is none.
    pub texts: Option<String>,
    /// Patterns of principals. An empty list says nothing.
    pub principals: Vec<String>,
    /// The pattern of the actions that are asked about; those of both worlds where there is none.
    pub action: Option<String>,
    /// How the report is made; of tiles nothing is said.
    pub options: RunOptions,
    /// Which rows end the run with a status of its own.
    pub fail_on: Option<FailOn>,
    /// Whether a run in which nothing is looked at is done too.
    pub allow_empty: bool,
}

/// The command that was read, with all that stands behind it; refused where two of its inputs come from standard input, and where it has
/// several patterns of actions.
pub fn every_changes_in(
    alloc: Global,
    command: &ArgMatches<'_>,
) -> Result<EveryChangesCommand, Usage>
    ensures before { IfOk result (λ read. IsFileAt command.now (codes "BEFORE") read.before) }
    ensures after { IfOk result (λ read. IsFileAt command.now (codes "AFTER") read.after) }
    ensures texts { IfOk result (λ read. IsFileAt command.now (codes "texts") read.texts) }
    ensures principals { IfOk result (λ read. map string_bytes read.principals.items ≡ texts_at command.now (codes "principal")) }
    ensures action { IfOk result (λ read. IsOnlyAt command.now (codes "action") read.action) }
    ensures run { IfOk result (λ read.
        HasRun command.now read.options.workers read.options.tile read.options.json read.options.brief) }
    ensures fail_on { IfOk result (λ read. IsFailOn command.now read.fail_on) }
    ensures empty { IfOk result (λ read. IsFlag command.now (codes "allow-empty") read.allow_empty) }
    ensures one { IfOk result (λ read. ¬ AreShared read.before read.after read.texts) }
    ensures refused { IfErr result (λ usage. usage ≢ u.OutOfMemory → IsRefused command.now) }
{
    let before = file_at(alloc, command, "BEFORE")?;
    let after = file_at(alloc, command, "AFTER")?;
    let texts = file_at(alloc, command, "texts")?;
    if share_input(&before, &after, &texts) {
        return Err(conflict(alloc, INPUTS)?);
    }
    let actions = texts_at(alloc, command, "action")?;
    if actions.len() > 1 {
        return Err(conflict(alloc, ACTIONS)?);
    }
    Ok(EveryChangesCommand {
        before,
        after,
        texts,
        principals: texts_at(alloc, command, "principal")?,
        action: only(actions),
        options: run_options(command),
        fail_on: fail_on_of(command),
        allow_empty: command.get_flag("allow-empty"),
    })
}

/// Whether at least two of the inputs are standard input.
fn share_input(before: &Option<String>, after: &Option<String>, texts: &Option<String>) -> bool
    ensures { IsTrue result ↔ AreShared before.now after.now texts.now }
{
    let lines_too = texts.is_none();
    if before.is_none() {
        return after.is_none() || lines_too;
    }
    after.is_none() && lines_too
}

/// The command is refused with this message.
fn conflict(alloc: Global, message: &str) -> Result<Usage, AllocError> {
    refused(
        alloc,
        changes(alloc)?,
        NAME,
        ErrorKind::ArgumentConflict,
        message,
    )
}

/// The only one of these texts, where there is one.
fn only(mut texts: Vec<String>) -> Option<String>
    requires { length texts.items ≤ 1 }
    ensures { MatchOption result (texts.items ≡ []) (λ text. texts.items ≡ text ∷ []) }
{
    texts.pop()
}
