// The whole command line: the options, the file of the world, and what is asked for.
ghost use Rattle.std.specs.Prelude.{◌≡◌, ◌≢◌, ◌↔◌, IsTrue, IfErr, IfOk, codes, length, map, option_map, string_bytes};
ghost use Rattle.clap.specs.Matches.{first_value, found_of};
ghost use Rattle.iam_options.specs.AnyKey.{AreWords, HasOtherWords, asks_any_key, asks_any_key_changes};
ghost use Rattle.iam_options.specs.EveryChanges.{asks_every};
ghost use Rattle.iam_options.specs.Words.{HasAsked, IsFileAt, IsFlag, texts_at};
ghost use Rattle.iam_options.specs.declared.options.Usage.TheVariants as u;

use crate::any_key::{AnyKeyCommand, any_key, any_key_at, any_key_in};
use crate::any_key_changes::{AnyKeyChangesCommand, any_key_changes_in};
use crate::arguments::{check, decide, first, matrix, named, with};
use crate::ask::{AskCommand, ask, ask_in};
use crate::changes::{ChangesCommand, NAME, changes, changes_in};
use crate::every::{EveryCommand, every, every_in};
use crate::every_changes::{EveryChangesCommand, every_changes_in};
use crate::options::{Options, Usage, options_in, usage_of};
use clap::builder::ValueParser;
use clap::error::ErrorKind;
use clap::{Arg, ArgAction, ArgMatches, Command as Parser};
use std::alloc::{AllocError, Global};

const ABOUT: &str =
    "Answers who may do what in AWS, from policy documents alone, before they are put in force.
The world is one JSON document with the accounts, the principals, the actions, the resources and
their policies, in a file or on standard input. The answer goes to standard output.";

const INPUT: &str = "The world is read from the file WORLD, as in: iamsim check world.json
Where none is named, or -, it is read from standard input.";

const SELECTION: &str =
    "The world is read from the file WORLD, or from standard input where none is named, or -.

In a PATTERN * and ? are wild: iamsim matrix world.json --principal '*:user/ann' --action 's3:*'
An option with PATTERN or WORD may be given several times; then one of its values has to match.";

/// The words that `--decision` takes: the last four beside `--any-key`, and the others without it.
static DECISIONS: [&str; 7] = [
    "allowed",
    "explicitDeny",
    "implicitDeny",
    "always",
    "never",
    "possible",
    "open",
];

pub const ANY_KEY: &str =
    "Tell whether keys that nothing gives can turn requests: always, never, possible or open";

const FIRST_ANY_KEY: &str =
    "Find the first request that is not never allowed, whatever values keys have that nothing gives";

const EVERY_KEY: &str = "--any-key cannot be used with --every";

/// What `matrix` is called by.
const MATRIX: &str = "iamsim matrix";

/// Why a word for decisions is refused.
pub const OTHER_WORD: &str =
    "--decision takes always, never, possible and open beside --any-key, and the other words without it";

/// What a command line asks for.
#[derive(Debug, Drop)]
pub enum Command {
    /// A command about one world.
    World(WorldCommand),
    /// Requests of one world, whatever values the keys have that nothing gives.
    AnyKey(AnyKeyCommand),
    /// The changes between two worlds.
    Changes(ChangesCommand),
    /// The changes between two worlds, for all names.
    EveryChanges(EveryChangesCommand),
    /// The changes between two worlds, whatever values the keys have that neither gives.
    AnyKeyChanges(AnyKeyChangesCommand),
    /// The requests of a file.
    Ask(AskCommand),
    /// All names.
    Every(EveryCommand),
}

/// What a command line asks for of one world: the options, where the world comes from, and which rows are asked for.
#[derive(Debug, Drop)]
pub struct WorldCommand {
    /// The command with its options.
    pub options: Options,
    /// The name of the file with the world; standard input where there is none.
    pub world: Option<String>,
    /// Which rows are asked for.
    pub asked: Asked,
    /// Whether a run in which no request is selected is done too.
    pub allow_empty: bool,
}

/// What stands behind `--principal`, `--action`, `--resource` and `--decision`, each in its order. An empty list says nothing.
#[derive(Debug, Drop)]
pub struct Asked {
    /// Patterns of principals.
    pub principals: Vec<String>,
    /// Patterns of actions.
    pub actions: Vec<String>,
    /// Patterns of resources.
    pub resources: Vec<String>,
    /// Words for decisions: `allowed`, `explicitDeny` or `implicitDeny`; beside `--any-key` `always`, `never`, `possible` or `open`.
    pub decisions: Vec<String>,
}

impl Asked {
    /// Whether nothing is said.
    pub fn is_nothing(&self) -> bool
        ensures { IsTrue result ↔ (length self.now.principals.items ≡ 0) × (length self.now.actions.items ≡ 0)
            × (length self.now.resources.items ≡ 0) × (length self.now.decisions.items ≡ 0) }
    {
        self.principals.is_empty()
            && self.actions.is_empty()
            && self.resources.is_empty()
            && self.decisions.is_empty()
    }
}

/// Reads a command line; `words` are those after the program's name.
pub fn command_of(alloc: Global, words: &[&str]) -> Result<Command, Usage> {
    let mut parser = iamsim(alloc)?;
    match parser.try_get_matches_from_mut(words) {
        Ok(matches) => command_or_usage(alloc, &mut parser, &matches),
        Err(error) => Err(usage_of(alloc, &error)),
    }
}

fn command_or_usage(
    alloc: Global,
    parser: &mut Parser<'_>,
    matches: &ArgMatches<'_>,
) -> Result<Command, Usage> {
    match (matches.subcommand(), options_in(matches)) {
        (Some(("changes", command)), _) => changes_of(alloc, command),
        (Some(("ask", command)), _) => Ok(Command::Ask(ask_in(alloc, command)?)),
        (Some(("every", command)), _) => Ok(Command::Every(every_in(alloc, command)?)),
        (Some((_, command)), Some(options)) => about_world(alloc, options, command),
        _ => Err(Usage::Refused(parser.render_usage()?)),
    }
}

/// A command about one world that was read: of its requests as they are, or whatever values the keys have that nothing gives. It is refused
/// where a word for decisions is one of the other kind.
fn about_world(alloc: Global, options: Options, command: &ArgMatches<'_>) -> Result<Command, Usage>
    ensures flag { IfOk result (λ read. IsFlag command.now (codes "any-key") (asks_any_key read)) }
    ensures words { IfOk result (λ read. AreWords command.now (asks_any_key read)) }
    ensures refused { IfErr result (λ usage. usage ≢ u.OutOfMemory → HasOtherWords command.now) }
{
    let Some(any_key) = any_key_at(alloc, command)? else {
        let kind = ErrorKind::InvalidValue;
        return Err(refused(alloc, matrix_of_world(alloc)?, MATRIX, kind, OTHER_WORD)?);
    };
    if any_key {
        return Ok(Command::AnyKey(any_key_in(alloc, options.task, command)?));
    }
    Ok(Command::World(world_in(alloc, options, command)?))
}

/// A command about two worlds that was read: of their requests as they are, or whatever values the keys have that neither gives, or for all
/// names; refused where it asks for both of these.
fn changes_of(alloc: Global, command: &ArgMatches<'_>) -> Result<Command, Usage>
    ensures every { IfOk result (λ read. IsFlag command.now (codes "every") (asks_every read)) }
    ensures any_key { IfOk result (λ read. IsFlag command.now (codes "any-key") (asks_any_key_changes read)) }
{
    match (command.get_flag("every"), command.get_flag("any-key")) {
        (true, true) => {
            let kind = ErrorKind::ArgumentConflict;
            Err(refused(alloc, changes(alloc)?, NAME, kind, EVERY_KEY)?)
        }
        (true, false) => Ok(Command::EveryChanges(every_changes_in(alloc, command)?)),
        (false, true) => Ok(Command::AnyKeyChanges(any_key_changes_in(alloc, command)?)),
        (false, false) => Ok(Command::Changes(changes_in(alloc, command)?)),
    }
}

/// The command with this parser is refused with this message; `name` is what it is called by.
pub fn refused<'a>(
    alloc: Global,
    parser: Parser<'a>,
    name: &'a str,
    kind: ErrorKind,
    message: &str,
) -> Result<Usage, AllocError> {
    let mut parser = parser.bin_name(name)?;
    let error = parser.error(kind, message)?;
    Ok(usage_of(alloc, &error))
}

/// A command about one world that was read, with all that stands behind it.
fn world_in(
    alloc: Global,
    options: Options,
    command: &ArgMatches<'_>,
) -> Result<WorldCommand, AllocError>
    ensures options { IfOk result (λ read. read.options ≡ options) }
    ensures world { IfOk result (λ read. IsFileAt command.now (codes "WORLD") read.world) }
    ensures asked { IfOk result (λ read. HasAsked command.now read.asked) }
    ensures empty { IfOk result (λ read. IsFlag command.now (codes "allow-empty") read.allow_empty) }
{
    Ok(WorldCommand {
        options,
        world: file_at(alloc, command, "WORLD")?,
        asked: asked_in(alloc, command)?,
        allow_empty: command.get_flag("allow-empty"),
    })
}

/// The file that is named, if not standard input.
pub fn file_at(
    alloc: Global,
    command: &ArgMatches<'_>,
    name: &str,
) -> Result<Option<String>, AllocError>
    ensures { IfOk result (IsFileAt command.now name.now) }
{
    match command.get_str(name) {
        None => Ok(None),
        Some(word) if word == "-" => Ok(None),
        Some(word) => Ok(Some(String::from_str(alloc, word)?)),
    }
}

/// What is asked for; nothing of what a command does not take.
pub fn asked_in(alloc: Global, command: &ArgMatches<'_>) -> Result<Asked, AllocError>
    ensures { IfOk result (λ asked. HasAsked command.now asked) }
{
    Ok(Asked {
        principals: texts_at(alloc, command, "principal")?,
        actions: texts_at(alloc, command, "action")?,
        resources: texts_at(alloc, command, "resource")?,
        decisions: texts_at(alloc, command, "decision")?,
    })
}

/// The text that stands under this name.
pub fn text_at(
    alloc: Global,
    command: &ArgMatches<'_>,
    name: &str,
) -> Result<Option<String>, AllocError>
    ensures { IfOk result (λ text. option_map string_bytes text ≡ first_value (found_of command.now) name.now) }
{
    match command.get_str(name) {
        Some(text) => Ok(Some(String::from_str(alloc, text)?)),
        None => Ok(None),
    }
}

/// The texts that stand under this name, in their order.
pub fn texts_at(
    alloc: Global,
    command: &ArgMatches<'_>,
    name: &str,
) -> Result<Vec<String>, AllocError>
    ensures { IfOk result (λ texts. map string_bytes texts.items ≡ texts_at command.now name.now) }
{
    match command.get_strs(name) {
        Some(texts) => copied(alloc, texts),
        None => Ok(Vec::new(alloc)),
    }
}

fn copied(alloc: Global, texts: &[&str]) -> Result<Vec<String>, AllocError>
    ensures { IfOk result (λ copies. map string_bytes copies.items ≡ map (λ text. text.now) texts.now) }
{
    let mut copies = Vec::new(alloc);
    for text in texts {
        copies.push(String::from_str(alloc, text)?)?;
    }
    Ok(copies)
}

/// The parser of whole command lines.
fn iamsim<'a>(alloc: Global) -> Result<Parser<'a>, AllocError> {
    let parser = with(named(alloc, ABOUT), of_world(alloc, Ok(check(alloc))));
    let parser = with(parser, of_world(alloc, decide(alloc)));
    let parser = with(parser, matrix_of_world(alloc));
    let first = selecting(alloc, of_world(alloc, first(alloc)));
    let parser = with(parser, first?.arg(any_key(alloc, FIRST_ANY_KEY)?));
    let parser = with(parser, changes(alloc));
    with(with(parser, ask(alloc)), every(alloc))
}

/// The parser of `matrix`.
fn matrix_of_world<'a>(alloc: Global) -> Result<Parser<'a>, AllocError> {
    selecting(alloc, of_world(alloc, matrix(alloc)))?
        .arg(decision(alloc))?
        .arg(any_key(alloc, ANY_KEY)?)
}

/// A command of a world that may be named.
fn of_world<'a>(
    alloc: Global,
    command: Result<Parser<'a>, AllocError>,
) -> Result<Parser<'a>, AllocError> {
    let world = file(
        alloc,
        "WORLD",
        "The file with the world [default: standard input]",
    );
    command?.after_help(INPUT).arg(world)
}

/// A command for some requests.
fn selecting<'a>(
    alloc: Global,
    command: Result<Parser<'a>, AllocError>,
) -> Result<Parser<'a>, AllocError> {
    with_patterns(alloc, command?.after_help(SELECTION))
}

/// A command with the patterns of requests.
pub fn with_patterns<'a>(alloc: Global, command: Parser<'a>) -> Result<Parser<'a>, AllocError> {
    command
        .arg(pattern(alloc, "principal", "Only requests of principals that match"))?
        .arg(pattern(
            alloc,
            "action",
            "Only requests for actions that match, in any case of letters",
        ))?
        .arg(pattern(alloc, "resource", "Only requests on resources that match"))?
        .arg(allow_empty(alloc, "End with status 0, not 4, where no request matches"))
}

pub fn allow_empty<'a>(alloc: Global, help: &'static str) -> Arg<'a> {
    Arg::new(alloc, "allow-empty")
        .long("allow-empty")
        .action(ArgAction::SetTrue)
        .help(help)
}

pub fn file<'a>(alloc: Global, name: &'static str, help: &'static str) -> Arg<'a> {
    Arg::new(alloc, name)
        .value_parser(ValueParser::NonEmptyString)
        .help(help)
}

pub fn pattern<'a>(alloc: Global, name: &'static str, help: &'static str) -> Arg<'a> {
    Arg::new(alloc, name)
        .long(name)
        .value_name("PATTERN")
        .value_parser(ValueParser::NonEmptyString)
        .action(ArgAction::Append)
        .help(help)
}

pub fn decision<'a>(alloc: Global) -> Arg<'a> {
    Arg::new(alloc, "decision")
        .long("decision")
        .value_name("WORD")
        .value_parser(DECISIONS.as_slice())
        .action(ArgAction::Append)
        .help("Only rows with this decision")
}

/// The file with lines on texts.
pub fn texts_file<'a>(alloc: Global) -> Arg<'a> {
    Arg::new(alloc, "texts")
        .long("texts")
        .value_name("FILE")
        .value_parser(ValueParser::NonEmptyString)
        .help("The file with the lines that say what holds of which texts")
}
