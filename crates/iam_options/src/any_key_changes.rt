// The command line of `changes --any-key`.
ghost use Rattle.std.specs.Prelude.{◌≡◌, ◌≢◌, IfErr, IfOk, None, codes};
ghost use Rattle.iam_options.specs.Words.{HasRun, IsFailOn, IsFileAt, IsFlag, NamesNeither};
ghost use Rattle.iam_options.specs.declared.options.Usage.TheVariants as u;

use crate::changes::{FailOn, fail_on_of, sides_in};
use crate::options::{RunOptions, Usage, run_options};
use clap::ArgMatches;
use std::alloc::Global;

/// What a command line asks for of the changes between two worlds, whatever values the keys have that neither gives.
#[derive(Debug, Drop)]
pub struct AnyKeyChangesCommand {
    /// The name of the file with the world before; standard input where there is none.
    pub before: Option<String>,
    /// The name of the file with the world after; standard input where there is none.
    pub after: Option<String>,
    /// How the report is made; of tiles nothing is said.
    pub options: RunOptions,
    /// Which rows end the run with a status of its own.
    pub fail_on: Option<FailOn>,
    /// Whether a run of worlds without a request is done too.
    pub allow_empty: bool,
}

/// The command that was read, with all that stands behind it; refused where both worlds come from standard input.
pub fn any_key_changes_in(
    alloc: Global,
    command: &ArgMatches<'_>,
) -> Result<AnyKeyChangesCommand, Usage>
    ensures before { IfOk result (λ read. IsFileAt command.now (codes "BEFORE") read.before) }
    ensures after { IfOk result (λ read. IsFileAt command.now (codes "AFTER") read.after) }
    ensures run { IfOk result (λ read.
        HasRun command.now read.options.workers read.options.tile read.options.json read.options.brief) }
    ensures fail_on { IfOk result (λ read. IsFailOn command.now read.fail_on) }
    ensures empty { IfOk result (λ read. IsFlag command.now (codes "allow-empty") read.allow_empty) }
    ensures one { IfOk result (λ read. ¬ ((read.before ≡ None) × (read.after ≡ None))) }
    ensures refused { IfErr result (λ usage. usage ≢ u.OutOfMemory → NamesNeither command.now (codes "BEFORE") (codes "AFTER")) }
{
    let (before, after) = sides_in(alloc, command)?;
    Ok(AnyKeyChangesCommand {
        before,
        after,
        options: run_options(command),
        fail_on: fail_on_of(command),
        allow_empty: command.get_flag("allow-empty"),
    })
}
