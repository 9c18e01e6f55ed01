// The command line of `every`.
ghost use Rattle.std.specs.Prelude.{◌≡◌, ◌≢◌, IfErr, IfOk, IfSome, IsTrue, None, Some, codes, map, option_map, string_bytes};
ghost use Rattle.clap.specs.Matches.{first_value, found_of};
ghost use Rattle.iam_options.specs.AnyKey.{AreWords};
ghost use Rattle.iam_options.specs.Every.{AreTextsAt, IsRefused, NamesNoTexts};
ghost use Rattle.iam_options.specs.Words.{HasRun, IsFileAt, IsFlag, IsNumberAt, texts_at};
ghost use Rattle.iam_options.specs.declared.every.Texts.TheVariants as t;
ghost use Rattle.iam_options.specs.declared.options.Usage.TheVariants as u;

use crate::any_key::{any_key_at, flag};
use crate::arguments::{brief, format, working};
use crate::command::{
    ANY_KEY, OTHER_WORD, allow_empty, decision, file, file_at, pattern, refused, text_at, texts_at,
    texts_file,
};
use crate::options::{RunOptions, Usage, number_at, run_options};
use clap::builder::ValueParser;
use clap::error::ErrorKind;
use clap::{Arg, ArgMatches, Command as Parser, value_parser};
use std::alloc::{AllocError, Global};

const ABOUT: &str =
    "Decide requests on all names that a pattern matches, and report one of each kind";

const INPUT: &str =
    "A line says what holds of all texts that its pattern matches and the world does not name: all that
the world says of one of its resources, by its number, or that they are of an account:
{\"pattern\": \"arn:aws:s3:::homes/*\", \"like\": 3}
{\"pattern\": \"arn:aws:s3:::logs/*\", \"account\": \"111122223333\"}
--resource with --like or --account is such a line. World and lines are each read from a file, or
from standard input for -, which WORLD is where it is not named.

Texts, and with --action actions, of which the policies tell no two apart have one row.
A line that cannot be looked at whole has a row notShown.

With --any-key a row holds whatever values the keys have that nothing gives, at whatever moment from the
world's on: possible has an example, and what is neither shown nor excluded is open.

In a PATTERN * and ? are wild; given several times, one of them has to match.";

/// What the command is called by.
const NAME: &str = "iamsim every";

const BOTH: &str = "WORLD and --texts cannot both come from standard input";

const NO_TEXTS: &str = "--texts, or --resource with --like or --account, is wanted";

/// Of which texts something is said, and what.
#[derive(Debug, Drop)]
pub enum Texts {
    /// Those of the lines of the file with this name; of standard input where there is none.
    File(Option<String>),
    /// Those that the pattern matches: all that the world says of the resource with this number.
    Like(String, u64),
    /// Those that the pattern matches: that they are of the account with this id.
    Account(String, String),
}

/// What a command line asks for of all names.
#[derive(Debug, Drop)]
pub struct EveryCommand {
    /// The name of the file with the world; standard input where there is none.
    pub world: Option<String>,
    /// Of which texts something is said.
    pub texts: Texts,
    /// Patterns of principals. An empty list says nothing.
    pub principals: Vec<String>,
    /// The pattern of the actions that are asked about; those of the world where there is none.
    pub action: Option<String>,
    /// Whether requests are asked about whatever values the keys have that nothing gives.
    pub any_key: bool,
    /// Words for decisions: `allowed`, `explicitDeny` or `implicitDeny`; beside `--any-key` `always`, `never`, `possible` or `open`. An
    /// empty list says nothing.
    pub decisions: Vec<String>,
    /// How the report is made; of tiles nothing is said.
    pub options: RunOptions,
    /// Whether a run in which nothing is asked about is done too.
    pub allow_empty: bool,
}

/// The command that was read, with all that stands behind it; refused where no texts are said, where world and lines both come from
/// standard input, and where a word for decisions is one of the other kind.
pub fn every_in(alloc: Global, command: &ArgMatches<'_>) -> Result<EveryCommand, Usage>
    ensures world { IfOk result (λ read. IsFileAt command.now (codes "WORLD") read.world) }
    ensures texts { IfOk result (λ read. AreTextsAt command.now read.texts) }
    ensures principals { IfOk result (λ read. map string_bytes read.principals.items ≡ texts_at command.now (codes "principal")) }
    ensures action { IfOk result (λ read. option_map string_bytes read.action ≡ first_value (found_of command.now) (codes "action")) }
    ensures any_key { IfOk result (λ read. IsFlag command.now (codes "any-key") read.any_key) }
    ensures decisions { IfOk result (λ read. map string_bytes read.decisions.items ≡ texts_at command.now (codes "decision")) }
    ensures words { IfOk result (λ read. AreWords command.now read.any_key) }
    ensures run { IfOk result (λ read.
        HasRun command.now read.options.workers read.options.tile read.options.json read.options.brief) }
    ensures empty { IfOk result (λ read. IsFlag command.now (codes "allow-empty") read.allow_empty) }
    ensures refused { IfErr result (λ usage. usage ≢ u.OutOfMemory → IsRefused command.now) }
{
    let world = file_at(alloc, command, "WORLD")?;
    let Some(texts) = texts_in(alloc, command)? else {
        let kind = ErrorKind::MissingRequiredArgument;
        return Err(refused(alloc, every(alloc)?, NAME, kind, NO_TEXTS)?);
    };
    if world.is_none() && is_standard(&texts) {
        let kind = ErrorKind::ArgumentConflict;
        return Err(refused(alloc, every(alloc)?, NAME, kind, BOTH)?);
    }
    let Some(any_key) = any_key_at(alloc, command)? else {
        let kind = ErrorKind::InvalidValue;
        return Err(refused(alloc, every(alloc)?, NAME, kind, OTHER_WORD)?);
    };
    Ok(EveryCommand {
        world,
        texts,
        principals: texts_at(alloc, command, "principal")?,
        action: text_at(alloc, command, "action")?,
        any_key,
        decisions: texts_at(alloc, command, "decision")?,
        options: run_options(command),
        allow_empty: command.get_flag("allow-empty"),
    })
}

/// Whether the lines come from standard input.
fn is_standard(texts: &Texts) -> bool
    ensures { IsTrue result → texts.now ≡ t.File None }
{
    match texts {
        Texts::File(None) => true,
        _ => false,
    }
}

/// The texts of which something is said, if there are any.
fn texts_in(alloc: Global, command: &ArgMatches<'_>) -> Result<Option<Texts>, AllocError>
    ensures some { IfOk result (λ read. IfSome read (AreTextsAt command.now)) }
    ensures none { IfOk result (λ read. read ≡ None → NamesNoTexts command.now) }
{
    if command.get_str("texts").is_some() {
        return Ok(Some(Texts::File(file_at(alloc, command, "texts")?)));
    }
    let Some(pattern) = text_at(alloc, command, "resource")? else {
        return Ok(None);
    };
    if let Some(number) = number_at(command, "like") {
        return Ok(Some(Texts::Like(pattern, number)));
    }
    match text_at(alloc, command, "account")? {
        Some(account) => Ok(Some(Texts::Account(pattern, account))),
        None => Ok(None),
    }
}

/// The parser of the command.
pub fn every<'a>(alloc: Global) -> Result<Parser<'a>, AllocError> {
    working(alloc, "every", ABOUT)?
        .after_help(INPUT)
        .arg(file(
            alloc,
            "WORLD",
            "The file with the world [default: standard input]",
        ))?
        .arg(texts_file(alloc).conflicts_with("resource")?)?
        .arg(resource(alloc))?
        .arg(like(alloc)?)?
        .arg(account(alloc)?)?
        .arg(pattern(alloc, "principal", "Only requests of principals that match"))?
        .arg(action(alloc))?
        .arg(decision(alloc))?
        .arg(flag(alloc, ANY_KEY))?
        .arg(format(alloc))?
        .arg(brief(alloc))?
        .arg(allow_empty(
            alloc,
            "End with status 0, not 4, where nothing is asked about",
        ))
}

fn resource<'a>(alloc: Global) -> Arg<'a> {
    Arg::new(alloc, "resource")
        .long("resource")
        .value_name("PATTERN")
        .value_parser(ValueParser::NonEmptyString)
        .help("The pattern of the texts, in place of a file")
}

fn like<'a>(alloc: Global) -> Result<Arg<'a>, AllocError> {
    Arg::new(alloc, "like")
        .long("like")
        .value_name("NUMBER")
        .value_parser(value_parser!(u64))
        .help("What the world says of its resource with this number holds of them")
        .requires_arg("resource")?
        .conflicts_with("account")
}

fn account<'a>(alloc: Global) -> Result<Arg<'a>, AllocError> {
    Arg::new(alloc, "account")
        .long("account")
        .value_name("ID")
        .value_parser(ValueParser::NonEmptyString)
        .help("They are of the account with this id, and no more is said of them")
        .requires_arg("resource")
}

fn action<'a>(alloc: Global) -> Arg<'a> {
    Arg::new(alloc, "action")
        .long("action")
        .value_name("PATTERN")
        .value_parser(ValueParser::NonEmptyString)
        .help("All actions that match, in any case of letters [default: those of the world]")
}
