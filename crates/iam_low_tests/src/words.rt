// Words that ask what has changed between two worlds for all names, and words of that command that are refused.
use iam_options::{Command, EveryChangesCommand, FailOn, Usage, command_of};
use std::alloc::Global;
use std::test::Fail;

/// Inputs, patterns and options, each in a form of its own.
const ASKED: &str = "changes --every before.json after.json --texts - --action s3:* --principal *ann
    --principal *bob --format json --brief --fail-on lost --workers 7 --allow-empty";

/// Words that are refused, each with the first line of what is told.
static REFUSED: [(&str, &str); 9] = [
    (
        "changes --every before after",
        "error: the following required arguments were not provided:",
    ),
    (
        "changes --texts lines before after",
        "error: the following required arguments were not provided:",
    ),
    (
        "changes --every --texts lines -",
        "error: BEFORE, AFTER and --texts: only one can come from standard input",
    ),
    (
        "changes --every --texts - before",
        "error: BEFORE, AFTER and --texts: only one can come from standard input",
    ),
    (
        "changes --every --texts - - after",
        "error: BEFORE, AFTER and --texts: only one can come from standard input",
    ),
    (
        "changes --every --texts lines before after --action a:* --action b:*",
        "error: --every takes one --action",
    ),
    (
        "changes --every --texts lines before after --resource *",
        "error: the argument '--every' cannot be used with '--resource <PATTERN>'",
    ),
    (
        "changes --every --texts lines before after --all",
        "error: the argument '--every' cannot be used with '--all'",
    ),
    (
        "changes --every --texts lines before after --tile 1",
        "error: the argument '--every' cannot be used with '--tile <N>'",
    ),
];

/// Whether the words are refused so.
fn is_refused(alloc: Global, words: &str, line: &str) -> Result<bool, Fail> {
    let split: Vec<&str> = words.split_ascii_whitespace().collect(alloc)?;
    let read = command_of(alloc, split.as_slice());
    Ok(match &read {
        Err(Usage::Refused(text)) => text.as_str().lines().next() == Some(line),
        _ => false,
    })
}

#[test]
fn words_for_all_names_of_two_worlds_are_refused(rt: HostRuntime) -> Result<(), Fail> {
    for (words, line) in REFUSED {
        assert!(rt; is_refused(rt.alloc(), words, line)?, "{words}");
    }
    Ok(())
}

/// Whether a text stands there.
fn is_text(text: &Option<String>, wanted: &str) -> bool {
    text.as_deref() == Some(wanted)
}

/// Whether it is what was asked.
fn is_asked(command: &EveryChangesCommand) -> bool {
    is_text(&command.before, "before.json")
        && is_text(&command.after, "after.json")
        && command.texts.is_none()
        && is_text(&command.action, "s3:*")
        && command.principals.len() == 2
        && command.principals[1].as_str() == "*bob"
        && command.options.workers == 7
        && command.options.tile.is_none()
        && command.options.json
        && command.options.brief
        && command.fail_on == Some(FailOn::Lost)
        && command.allow_empty
}

/// Whether the words ask for this.
fn ask_so(alloc: Global) -> Result<bool, Fail> {
    let split: Vec<&str> = ASKED.split_ascii_whitespace().collect(alloc)?;
    let read = command_of(alloc, split.as_slice());
    Ok(match &read {
        Ok(Command::EveryChanges(command)) => is_asked(command),
        _ => false,
    })
}

#[test]
fn words_ask_for_all_names_of_two_worlds(rt: HostRuntime) -> Result<(), Fail> {
    assert!(rt; ask_so(rt.alloc())?);
    Ok(())
}
