// The command line of `changes`.
ghost use Rattle.std.specs.Prelude.{◌≡◌, ◌≢◌, IfErr, IfOk, None, Some, codes};
ghost use Rattle.clap.specs.Matches.{first_value, found_of};
ghost use Rattle.iam_options.specs.Words.{HasAsked, HasRun, IsFailOn, IsFileAt, IsFlag, NamesNeither, fail_on_word};
ghost use Rattle.iam_options.specs.declared.changes.FailOn.{FailOn};
ghost use Rattle.iam_options.specs.declared.options.Usage.TheVariants as u;

use crate::any_key::any_key as any_key_flag;
use crate::arguments::{brief, format, run};
use crate::command::{Asked, asked_in, file, file_at, refused, texts_file, with_patterns};
use crate::options::{Usage, run_options};
use clap::error::ErrorKind;
use clap::{Arg, ArgAction, ArgMatches, Command as Parser};
use std::alloc::{AllocError, Global};

const ABOUT: &str =
    "Compare two worlds, and report each request that is allowed in one of them alone";

const INPUT: &str =
    "Requests are the same where the texts of principal, action and resource are. A world is read from
its file, or from standard input for -, which AFTER is where it is not named.

With --every requests on all names are compared. A line of --texts says what holds of all texts that
its pattern matches and the worlds do not name: all that each world says of one of AFTER's resources,
by its number, or that they are of an account:
{\"pattern\": \"arn:aws:s3:::homes/*\", \"like\": 3}
{\"pattern\": \"arn:aws:s3:::logs/*\", \"account\": \"111122223333\"}
The lines are read from FILE, or from standard input for -. Texts, and with --action actions, of which
the policies tell no two apart have one row. A line that cannot be looked at whole has a row notShown.

With --any-key requests are compared whatever values the keys have that neither world gives, at whatever
moment from the worlds' on: gained and lost have an example, and what is neither shown nor excluded is open.

In a PATTERN * and ? are wild; given several times, one of them has to match. With --every there may
be one --action, and no --resource.";

/// What the command is called by.
pub const NAME: &str = "iamsim changes";

const ANY_KEY: &str =
    "Report what values of keys that neither world gives can turn: gained, lost or open";

const BOTH: &str = "BEFORE and AFTER cannot both come from standard input";

/// What `--fail-on` takes.
static CHANGES: [&str; 3] = ["gained", "lost", "any"];

/// What a command line asks for of the changes between two worlds.
#[derive(Debug, Drop)]
pub struct ChangesCommand {
    /// The name of the file with the world before; standard input where there is none.
    pub before: Option<String>,
    /// The name of the file with the world after; standard input where there is none.
    pub after: Option<String>,
    /// Which requests are asked for; of decisions nothing is said.
    pub asked: Asked,
    /// How the report is made.
    pub options: ChangesOptions,
    /// Which rows end the run with a status of its own.
    pub fail_on: Option<FailOn>,
    /// Whether a run in which no request is selected is done too.
    pub allow_empty: bool,
}

/// How a report of changes is made.
#[derive(Clone, Copy, Debug, PartialEq, Eq)]
pub struct ChangesOptions {
    /// How many workers decide the cells; 4 where nothing is said.
    pub workers: u32,
    /// How many cells a worker takes at once, where this is said.
    pub tile: Option<u64>,
    /// Whether the report is JSON, in place of CSV.
    pub json: bool,
    /// Whether the report has the decisions alone, without statements and lacks.
    pub brief: bool,
    /// Whether requests that are decided otherwise with the same access have rows too.
    pub all: bool,
}

/// Rows that end a run with a status of its own.
#[derive(Clone, Copy, Debug, PartialEq, Eq)]
pub enum FailOn {
    /// A request that is allowed newly.
    Gained,
    /// A request that is allowed no longer.
    Lost,
    /// A row of any kind.
    Any,
}

/// The command that was read, with all that stands behind it; refused where both worlds come from standard input.
pub fn changes_in(alloc: Global, command: &ArgMatches<'_>) -> Result<ChangesCommand, Usage>
    ensures before { IfOk result (λ read. IsFileAt command.now (codes "BEFORE") read.before) }
    ensures after { IfOk result (λ read. IsFileAt command.now (codes "AFTER") read.after) }
    ensures asked { IfOk result (λ read. HasAsked command.now read.asked) }
    ensures run { IfOk result (λ read.
        HasRun command.now read.options.workers read.options.tile read.options.json read.options.brief) }
    ensures all { IfOk result (λ read. IsFlag command.now (codes "all") read.options.all) }
    ensures fail_on { IfOk result (λ read. IsFailOn command.now read.fail_on) }
    ensures empty { IfOk result (λ read. IsFlag command.now (codes "allow-empty") read.allow_empty) }
    ensures one { IfOk result (λ read. ¬ ((read.before ≡ None) × (read.after ≡ None))) }
    ensures refused { IfErr result (λ usage. usage ≢ u.OutOfMemory → NamesNeither command.now (codes "BEFORE") (codes "AFTER")) }
{
    let (before, after) = sides_in(alloc, command)?;
    Ok(ChangesCommand {
        before,
        after,
        asked: asked_in(alloc, command)?,
        options: options_at(command),
        fail_on: fail_on_of(command),
        allow_empty: command.get_flag("allow-empty"),
    })
}

/// The files with the worlds before and after, if not standard input; refused where both come from there.
pub fn sides_in(
    alloc: Global,
    command: &ArgMatches<'_>,
) -> Result<(Option<String>, Option<String>), Usage>
    ensures before { IfOk result (λ sides. IsFileAt command.now (codes "BEFORE") sides.0) }
    ensures after { IfOk result (λ sides. IsFileAt command.now (codes "AFTER") sides.1) }
    ensures one { IfOk result (λ sides. ¬ ((sides.0 ≡ None) × (sides.1 ≡ None))) }
    ensures refused { IfErr result (λ usage. usage ≢ u.OutOfMemory → NamesNeither command.now (codes "BEFORE") (codes "AFTER")) }
{
    let before = file_at(alloc, command, "BEFORE")?;
    let after = file_at(alloc, command, "AFTER")?;
    if before.is_none() && after.is_none() {
        let kind = ErrorKind::ArgumentConflict;
        return Err(refused(alloc, changes(alloc)?, NAME, kind, BOTH)?);
    }
    Ok((before, after))
}

fn options_at(command: &ArgMatches<'_>) -> ChangesOptions
    ensures run { HasRun command.now result.workers result.tile result.json result.brief }
    ensures all { IsFlag command.now (codes "all") result.all }
{
    let run = run_options(command);
    ChangesOptions {
        workers: run.workers,
        tile: run.tile,
        json: run.json,
        brief: run.brief,
        all: command.get_flag("all"),
    }
}

/// The rows that end a run with a status of its own, where they are said.
pub fn fail_on_of(command: &ArgMatches<'_>) -> Option<FailOn>
    ensures none { first_value (found_of command.now) (codes "fail-on") ≡ None → result ≡ None }
    ensures said { (said : FailOn) → first_value (found_of command.now) (codes "fail-on") ≡ Some (fail_on_word said) → result ≡ Some said }
{
    match command.get_str("fail-on")? {
        "gained" => Some(FailOn::Gained),
        "lost" => Some(FailOn::Lost),
        _ => Some(FailOn::Any),
    }
}

/// The parser of the command.
pub fn changes<'a>(alloc: Global) -> Result<Parser<'a>, AllocError> {
    let parser = run(alloc, "changes", ABOUT)?
        .after_help(INPUT)
        .arg(file(alloc, "BEFORE", "The file with the world before").required(true))?
        .arg(file(
            alloc,
            "AFTER",
            "The file with the world after [default: standard input]",
        ))?
        .arg(format(alloc))?
        .arg(brief(alloc))?
        .arg(all(alloc))?
        .arg(fail_on(alloc))?
        .arg(every(alloc)?)?
        .arg(texts_file(alloc).requires_arg("every")?)?
        .arg(any_key(alloc)?)?;
    with_patterns(alloc, parser)
}

fn all<'a>(alloc: Global) -> Arg<'a> {
    Arg::new(alloc, "all")
        .long("all")
        .action(ArgAction::SetTrue)
        .help("Report also requests that are decided otherwise with the same access")
}

fn fail_on<'a>(alloc: Global) -> Arg<'a> {
    Arg::new(alloc, "fail-on")
        .long("fail-on")
        .value_name("CHANGE")
        .value_parser(CHANGES.as_slice())
        .help("End with status 3 where such a request was reported")
}

fn any_key<'a>(alloc: Global) -> Result<Arg<'a>, AllocError> {
    any_key_flag(alloc, ANY_KEY)?
        .conflicts_with("all")?
        .conflicts_with("principal")?
        .conflicts_with("action")?
        .conflicts_with("resource")
}

fn every<'a>(alloc: Global) -> Result<Arg<'a>, AllocError> {
    Arg::new(alloc, "every")
        .long("every")
        .action(ArgAction::SetTrue)
        .help("Compare requests on all names of which --texts speaks, and report one of each kind")
        .requires_arg("texts")?
        .conflicts_with("resource")?
        .conflicts_with("all")?
        .conflicts_with("tile")
}
