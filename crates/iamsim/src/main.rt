//! `iamsim` answers who may do what in AWS, from policy documents alone.
#![tactic(auto)]

mod source;

use iam_app::{
    AnyKeyChangesCommand, AnyKeyCommand, AskCommand, ChangesCommand, Command, EveryChangesCommand,
    EveryCommand, OutOfMemory, Texts, Usage, WorldCommand, any_key_changes_status, ask_status,
    changes_command_status, changes_fault_line, command_of, command_status,
    every_changes_fault_line, every_changes_status, every_status, fault_line, names_fault_line,
    requests_fault_line, run_any_key, run_any_key_changes, run_ask, run_changes_command,
    run_command, run_every, run_every_changes,
};
use source::{Input, NotRead, Source, line_of_file};
use std::alloc::Global;
use std::env;
use std::io::{ErrorKind, Read, Write};
use std::process::ExitCode;
use std::rt::{Env, Files};
use std::thread::Threads;

const NOT_TEXT: &str = "error: a word of the command line is not UTF-8\n";

fn main(rt: HostRuntime) -> ExitCode {
    let alloc = rt.alloc();
    match asked(&rt, alloc) {
        Ok(Command::World(command)) => {
            let status = world(&rt, alloc, &command, &mut rt.stdin(), &mut rt.stdout());
            ExitCode::from(status)
        }
        Ok(Command::AnyKey(command)) => {
            let mut input = Input::of(&rt, &command.world, rt.stdin());
            let status = any_key(&rt, alloc, &command, &mut input, &mut rt.stdout());
            ExitCode::from(status)
        }
        Ok(Command::Changes(command)) => {
            let mut before = Input::of(&rt, &command.before, rt.stdin());
            let mut after = Input::of(&rt, &command.after, rt.stdin());
            let mut stdout = rt.stdout();
            let status = changes(&rt, alloc, &command, &mut before, &mut after, &mut stdout);
            ExitCode::from(status)
        }
        Ok(Command::AnyKeyChanges(command)) => {
            let mut before = Input::of(&rt, &command.before, rt.stdin());
            let mut after = Input::of(&rt, &command.after, rt.stdin());
            let mut stdout = rt.stdout();
            let status = any_key_changes(
                &rt,
                alloc,
                &command,
                &mut before,
                &mut after,
                &mut stdout,
            );
            ExitCode::from(status)
        }
        Ok(Command::Ask(command)) => {
            let mut input = Input::of(&rt, &command.world, rt.stdin());
            let mut file = Input::of(&rt, &command.requests, rt.stdin());
            let status = ask(
                &rt,
                alloc,
                &command,
                &mut input,
                &mut file,
                &mut rt.stdout(),
            );
            ExitCode::from(status)
        }
        Ok(Command::Every(command)) => {
            let none = None;
            let mut input = Input::of(&rt, &command.world, rt.stdin());
            let mut file = Input::of(&rt, lines_of(&command.texts, &none), rt.stdin());
            let mut stdout = rt.stdout();
            let status = every(&rt, alloc, &command, &mut input, &mut file, &mut stdout);
            ExitCode::from(status)
        }
        Ok(Command::EveryChanges(command)) => {
            let mut before = Input::of(&rt, &command.before, rt.stdin());
            let mut after = Input::of(&rt, &command.after, rt.stdin());
            let mut file = Input::of(&rt, &command.texts, rt.stdin());
            let mut stdout = rt.stdout();
            let status = every_changes(
                &rt,
                alloc,
                &command,
                &mut before,
                &mut after,
                &mut file,
                &mut stdout,
            );
            ExitCode::from(status)
        }
        Err(usage) => ExitCode::from(tell_usage(&rt, &usage)),
    }
}

/// What the command line asks for.
fn asked<R: Env + AllocGlobal>(rt: &R, alloc: Global) -> Result<Command, Usage> {
    let args = match env::args(rt) {
        Ok(args) => args,
        Err(error) if error.kind() == ErrorKind::OutOfMemory => return Err(Usage::OutOfMemory),
        Err(_) => return Err(Usage::Refused(String::from_str(alloc, NOT_TEXT)?)),
    };
    let words: Vec<String> = args.skip(1).collect(alloc)?;
    let texts: Vec<&str> = words.iter().map(|word| word.as_str()).collect(alloc)?;
    command_of(alloc, texts.as_slice())
}

/// Answers a command about one world, which comes from its file or from standard input; the exit status.
fn world<'a, T: Threads + Sync + Files + Eprint, R: Read, W: Write>(
    rt: &'a T,
    alloc: Global,
    command: &'a WorldCommand,
    stdin: &mut R,
    stdout: &mut W,
) -> u8 {
    let (outcome, not_read) = match &command.world {
        Some(name) => {
            let mut source = Source::of(rt, name.as_str());
            let outcome = run_command(rt, alloc, command, &mut source, stdout);
            (outcome, source.not_read())
        }
        None => (run_command(rt, alloc, command, stdin, stdout), None),
    };
    if let Err(fault) = &outcome {
        tell_fault(rt, alloc, fault_line(alloc, fault), not_read);
    }
    command_status(&outcome, command.allow_empty)
}

/// Answers what any value of a key that nothing gives can turn; the exit status.
fn any_key<T: Threads + Sync + Files + Eprint, R: Read + Drop, W: Write>(
    rt: &T,
    alloc: Global,
    command: &AnyKeyCommand,
    input: &mut Input<'_, R, T>,
    stdout: &mut W,
) -> u8 {
    let outcome = run_any_key(rt, alloc, command, input, stdout);
    if let Err(fault) = &outcome {
        tell_fault(rt, alloc, fault_line(alloc, fault), input.not_read());
    }
    command_status(&outcome, command.allow_empty)
}

/// Answers what has changed from one world to another; the exit status.
fn changes<T: Threads + Sync + Files + Eprint, R: Read + Drop, W: Write>(
    rt: &T,
    alloc: Global,
    command: &ChangesCommand,
    before: &mut Input<'_, R, T>,
    after: &mut Input<'_, R, T>,
    stdout: &mut W,
) -> u8 {
    let outcome = run_changes_command(rt, alloc, command, before, after, stdout);
    if let Err(fault) = &outcome {
        // Where BEFORE can't be read, AFTER was not.
        let not_read = before.not_read().or(after.not_read());
        tell_fault(rt, alloc, changes_fault_line(alloc, fault), not_read);
    }
    changes_command_status(&outcome, command.fail_on, command.allow_empty)
}

/// Answers what values of keys that neither world gives can turn from one to the other; the exit status.
fn any_key_changes<T: Threads + Sync + Files + Eprint, R: Read + Drop, W: Write>(
    rt: &T,
    alloc: Global,
    command: &AnyKeyChangesCommand,
    before: &mut Input<'_, R, T>,
    after: &mut Input<'_, R, T>,
    stdout: &mut W,
) -> u8 {
    let outcome = run_any_key_changes(rt, alloc, command.options, before, after, stdout);
    if let Err(fault) = &outcome {
        // Where BEFORE can't be read, AFTER was not.
        let not_read = before.not_read().or(after.not_read());
        tell_fault(rt, alloc, changes_fault_line(alloc, fault), not_read);
    }
    any_key_changes_status(&outcome, command.fail_on, command.allow_empty)
}

/// Answers the requests of a file; the exit status.
fn ask<T: Threads + Sync + Files + Eprint, R: Read + Drop, W: Write>(
    rt: &T,
    alloc: Global,
    command: &AskCommand,
    input: &mut Input<'_, R, T>,
    file: &mut Input<'_, R, T>,
    stdout: &mut W,
) -> u8 {
    let outcome = run_ask(rt, alloc, &command.options, input, file, stdout);
    if let Err(fault) = &outcome {
        // Where the world can't be read, the requests were not.
        let not_read = input.not_read().or(file.not_read());
        tell_fault(rt, alloc, requests_fault_line(alloc, fault), not_read);
    }
    ask_status(&outcome, command.allow_empty)
}

/// The file of the lines; `none` where no file has them, which then is not read.
fn lines_of<'a>(texts: &'a Texts, none: &'a Option<String>) -> &'a Option<String> {
    match texts {
        Texts::File(name) => name,
        _ => none,
    }
}

/// Answers for all names; the exit status.
fn every<T: Threads + Sync + Files + Eprint, R: Read + Drop, W: Write>(
    rt: &T,
    alloc: Global,
    command: &EveryCommand,
    input: &mut Input<'_, R, T>,
    file: &mut Input<'_, R, T>,
    stdout: &mut W,
) -> u8 {
    let outcome = run_every(rt, alloc, command, input, file, stdout);
    if let Err(fault) = &outcome {
        // Where the world can't be read, the lines were not.
        let not_read = input.not_read().or(file.not_read());
        tell_fault(rt, alloc, names_fault_line(alloc, fault), not_read);
    }
    every_status(&outcome, command.allow_empty)
}

/// Answers where access differs between two worlds, for all names; the exit status.
fn every_changes<T: Threads + Sync + Files + Eprint, R: Read + Drop, W: Write>(
    rt: &T,
    alloc: Global,
    command: &EveryChangesCommand,
    before: &mut Input<'_, R, T>,
    after: &mut Input<'_, R, T>,
    file: &mut Input<'_, R, T>,
    stdout: &mut W,
) -> u8 {
    let outcome = run_every_changes(rt, alloc, command, before, after, file, stdout);
    if let Err(fault) = &outcome {
        // Where one of them can't be read, those behind it were not.
        let not_read = before.not_read().or(after.not_read()).or(file.not_read());
        tell_fault(rt, alloc, every_changes_fault_line(alloc, fault), not_read);
    }
    every_changes_status(&outcome, command.fail_on, command.allow_empty)
}

/// Prints what a command line without options is answered, and gives the exit status.
fn tell_usage(rt: &(impl Print + Eprint), usage: &Usage) -> u8 {
    match usage {
        Usage::Help(text) => u8::from(rt.print(text).is_err()),
        Usage::Refused(text) => {
            let _told = rt.eprint(text);
            2
        }
        Usage::OutOfMemory => 1,
    }
}

/// Prints the line of a fault. Where that fails too, the exit status alone tells of it.
fn tell_fault(
    rt: &impl Eprint,
    alloc: Global,
    line: Result<String, OutOfMemory>,
    not_read: Option<NotRead<'_>>,
) {
    if let Ok(line) = whole_line(alloc, line, not_read) {
        let _told = rt.eprintln(line);
    }
}

/// The line of a fault; of a file that can't be read, with its name and the reason.
fn whole_line(
    alloc: Global,
    line: Result<String, OutOfMemory>,
    not_read: Option<NotRead<'_>>,
) -> Result<String, OutOfMemory> {
    let line = line?;
    match not_read {
        Some(file) => line_of_file(alloc, line.as_str(), file),
        None => Ok(line),
    }
}
