// The command line of `ask`.
ghost use Rattle.std.specs.Prelude.{◌≡◌, ◌≢◌, IfErr, IfOk, None, codes};
ghost use Rattle.iam_options.specs.Words.{HasRun, IsFileAt, IsFlag, NamesNeither};
ghost use Rattle.iam_options.specs.declared.options.Usage.TheVariants as u;

use crate::arguments::{brief, format, run};
use crate::command::{allow_empty, file, file_at, refused};
use crate::options::{RunOptions, Usage, run_options};
use clap::builder::ValueParser;
use clap::error::ErrorKind;
use clap::{Arg, ArgMatches, Command as Parser};
use std::alloc::{AllocError, Global};

const ABOUT: &str =
    "Decide the requests of a file one by one, each with keys of its own, and report each";

const INPUT: &str = "A request is a line, a JSON object as
{\"principal\": \"arn:..\", \"action\": \"s3:GetObject\", \"resource\": \"arn:..\", \"context\": {\"aws:SourceIp\": \"10.0.0.1\"}}
with texts of the world; it may have no context. World and requests are each read from a file, or
from standard input for -, which WORLD is where it is not named.";

const BOTH: &str = "WORLD and --requests cannot both come from standard input";

/// What a command line asks for of the requests of a file.
#[derive(Debug, Drop)]
pub struct AskCommand {
    /// The name of the file with the world; standard input where there is none.
    pub world: Option<String>,
    /// The name of the file with the requests; standard input where there is none.
    pub requests: Option<String>,
    /// How the report is made.
    pub options: RunOptions,
    /// Whether a run without a request is done too.
    pub allow_empty: bool,
}

/// The command that was read, with all that stands behind it; refused where world and requests both come from standard input.
pub fn ask_in(alloc: Global, command: &ArgMatches<'_>) -> Result<AskCommand, Usage>
    ensures world { IfOk result (λ read. IsFileAt command.now (codes "WORLD") read.world) }
    ensures requests { IfOk result (λ read. IsFileAt command.now (codes "requests") read.requests) }
    ensures run { IfOk result (λ read.
        HasRun command.now read.options.workers read.options.tile read.options.json read.options.brief) }
    ensures empty { IfOk result (λ read. IsFlag command.now (codes "allow-empty") read.allow_empty) }
    ensures one { IfOk result (λ read. ¬ ((read.world ≡ None) × (read.requests ≡ None))) }
    ensures refused { IfErr result (λ usage. usage ≢ u.OutOfMemory → NamesNeither command.now (codes "WORLD") (codes "requests")) }
{
    let world = file_at(alloc, command, "WORLD")?;
    let requests = file_at(alloc, command, "requests")?;
    if world.is_none() && requests.is_none() {
        let kind = ErrorKind::ArgumentConflict;
        return Err(refused(alloc, ask(alloc)?, "iamsim ask", kind, BOTH)?);
    }
    Ok(AskCommand {
        world,
        requests,
        options: run_options(command),
        allow_empty: command.get_flag("allow-empty"),
    })
}

/// The parser of the command.
pub fn ask<'a>(alloc: Global) -> Result<Parser<'a>, AllocError> {
    run(alloc, "ask", ABOUT)?
        .after_help(INPUT)
        .arg(file(
            alloc,
            "WORLD",
            "The file with the world [default: standard input]",
        ))?
        .arg(requests(alloc))?
        .arg(format(alloc))?
        .arg(brief(alloc))?
        .arg(allow_empty(
            alloc,
            "End with status 0, not 4, where the file has no request",
        ))
}

fn requests<'a>(alloc: Global) -> Arg<'a> {
    Arg::new(alloc, "requests")
        .long("requests")
        .value_name("FILE")
        .required(true)
        .value_parser(ValueParser::NonEmptyString)
        .help("The file with the requests, one a line")
}
