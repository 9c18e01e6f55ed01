// The flag `--any-key`, and the command lines of `matrix` and `first` with it.
ghost use Rattle.std.specs.Prelude.{◌≡◌, ◌↔◌, All, IfOk, IfSome, IsTrue, None, codes, string_bytes};
ghost use Rattle.iam_options.specs.AnyKey.{AreWords, HasOtherWords, is_any_key_word, is_first};
ghost use Rattle.iam_options.specs.Words.{HasAsked, HasRun, IsFileAt, IsFlag};

use crate::command::{Asked, asked_in, file_at, texts_at};
use crate::options::{RunOptions, Task, run_options};
use clap::{Arg, ArgAction, ArgMatches};
use std::alloc::{AllocError, Global};

/// What a command line asks for of requests of a world, whatever values the keys have that nothing gives.
#[derive(Debug, Drop)]
pub struct AnyKeyCommand {
    /// Whether the first request is asked for that is not never allowed, in place of the report on all.
    pub is_first: bool,
    /// How the report is made; of tiles nothing is said.
    pub options: RunOptions,
    /// The name of the file with the world; standard input where there is none.
    pub world: Option<String>,
    /// Which rows are asked for; the words for decisions are `always`, `never`, `possible` and `open`.
    pub asked: Asked,
    /// Whether a run in which no request is selected is done too.
    pub allow_empty: bool,
}

/// The command of this task that was read.
pub fn any_key_in(
    alloc: Global,
    task: Task,
    command: &ArgMatches<'_>,
) -> Result<AnyKeyCommand, AllocError>
    ensures first { IfOk result (λ read. read.is_first ≡ is_first task) }
    ensures run { IfOk result (λ read. HasRun command.now read.options.workers read.options.tile read.options.json read.options.brief) }
    ensures world { IfOk result (λ read. IsFileAt command.now (codes "WORLD") read.world) }
    ensures asked { IfOk result (λ read. HasAsked command.now read.asked) }
    ensures empty { IfOk result (λ read. IsFlag command.now (codes "allow-empty") read.allow_empty) }
{
    Ok(AnyKeyCommand {
        is_first: is_first(task),
        options: run_options(command),
        world: file_at(alloc, command, "WORLD")?,
        asked: asked_in(alloc, command)?,
        allow_empty: command.get_flag("allow-empty"),
    })
}

fn is_first(task: Task) -> bool
    ensures { result ≡ is_first task }
{
    match task {
        Task::First => true,
        Task::Check | Task::Decide(..) | Task::Matrix => false,
    }
}

/// Whether the word says what holds whatever values keys have.
fn is_any_key_word(word: &str) -> bool
    ensures { result ≡ is_any_key_word word.now }
{
    word == "always" || word == "never" || word == "possible" || word == "open"
}

/// Whether each of these words says what holds whatever values keys have; or, where that is not asked, none does.
fn are_words(words: &[String], any_key: bool) -> bool
    ensures { IsTrue result ↔ All (λ word. is_any_key_word (string_bytes word) ≡ any_key) words.now }
{
    words
        .iter()
        .all(|word| is_any_key_word(word.as_str()) == any_key)
}

/// Whether the words for decisions are those that stand beside the flag, or without it.
fn has_words(alloc: Global, command: &ArgMatches<'_>, any_key: bool) -> Result<bool, AllocError>
    ensures { IfOk result (λ are. IsTrue are ↔ AreWords command.now any_key) }
{
    let words = texts_at(alloc, command, "decision")?;
    Ok(are_words(words.as_slice(), any_key))
}

/// Whether the flag is set; nothing where a word for decisions is one of the other kind.
pub fn any_key_at(alloc: Global, command: &ArgMatches<'_>) -> Result<Option<bool>, AllocError>
    ensures flag { IfOk result (λ read. IfSome read (IsFlag command.now (codes "any-key"))) }
    ensures words { IfOk result (λ read. IfSome read (AreWords command.now)) }
    ensures none { IfOk result (λ read. read ≡ None → HasOtherWords command.now) }
{
    let any_key = command.get_flag("any-key");
    if has_words(alloc, command, any_key)? {
        return Ok(Some(any_key));
    }
    Ok(None)
}

/// The flag.
pub fn flag<'a>(alloc: Global, help: &'static str) -> Arg<'a> {
    Arg::new(alloc, "any-key")
        .long("any-key")
        .action(ArgAction::SetTrue)
        .help(help)
}

/// The flag, beside which no tile is said.
pub fn any_key<'a>(alloc: Global, help: &'static str) -> Result<Arg<'a>, AllocError> {
    flag(alloc, help).conflicts_with("tile")
}
