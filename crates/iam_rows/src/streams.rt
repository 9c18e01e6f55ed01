// Readers and writers that fail, at each of their calls, for all commands.
use iam_app::{
    AnyKeyChangesCommand, AnyKeyCommand, AskCommand, Command, EveryChangesCommand, EveryCommand,
    any_key_changes_status, ask_status, changes_command_status, changes_fault_line, command_of,
    command_status, every_changes_fault_line, every_changes_status, every_status, fault_line,
    names_fault_line, requests_fault_line, run_any_key, run_any_key_changes, run_ask,
    run_changes_command, run_command, run_every, run_every_changes,
};
use std::io;
use std::io::{ErrorKind, Read, Write};
use std::process::Abort;
use std::test::Fail;
use std::thread::Threads;

/// Nobody may do anything.
const EMPTY: &str = r#"{"moment":0,"accounts":[],"principals":[],"actions":[],"resources":[]}"#;

/// Ann may get what bucket b holds.
const WORLD: &str = r#"{"moment":0,"accounts":[{"id":"111122223333"}],
    "principals":[{"user":"arn:aws:iam::111122223333:user/ann","identity":[
    {"Version":"2012-10-17","Statement":{"Effect":"Allow","Action":"s3:Get*","Resource":"arn:aws:s3:::b/*"}}]}],
    "actions":["S3:getobject"],"resources":[{"arn":"arn:aws:s3:::b/k","account":"111122223333"}]}"#;

/// The same without a policy.
const BARE: &str = r#"{"moment":0,"accounts":[{"id":"111122223333"}],
    "principals":[{"user":"arn:aws:iam::111122223333:user/ann"}],
    "actions":["S3:getobject"],"resources":[{"arn":"arn:aws:s3:::b/k","account":"111122223333"}]}"#;

/// The report of its one cell.
const REPORT: &str = "cell,principal,action,resource,decision,statements,lacks
0,arn:aws:iam::111122223333:user/ann,S3:getobject,arn:aws:s3:::b/k,allowed,identity/0/0,
";

const BRIEF: &str = "cell,principal,action,resource,decision
0,arn:aws:iam::111122223333:user/ann,S3:getobject,arn:aws:s3:::b/k,allowed
";

const JSON: &str =
    r#"[{"action":"S3:getobject","cell":0,"decision":"allowed","lacks":[],"principal":"arn:aws:iam::111122223333:user/ann","resource":"arn:aws:s3:::b/k","statements":["identity/0/0"]}]
"#;

const JSON_BRIEF: &str =
    r#"[{"action":"S3:getobject","cell":0,"decision":"allowed","principal":"arn:aws:iam::111122223333:user/ann","resource":"arn:aws:s3:::b/k"}]
"#;

/// What no key can turn.
const ALWAYS: &str = "cell,principal,action,resource,decision
0,arn:aws:iam::111122223333:user/ann,S3:getobject,arn:aws:s3:::b/k,always
";

/// What is gained from the empty world to this one, and how it is asked for.
const GAINED: &str = "change,principal,action,resource,before,after
gained,arn:aws:iam::111122223333:user/ann,S3:getobject,arn:aws:s3:::b/k,,allowed
";

const CHANGES: &str = "changes - after.json --workers 1 --brief --fail-on lost";

/// A request for the cell of the world, and how it is asked for.
const REQUESTS: &str =
    r#"{"principal":"arn:aws:iam::111122223333:user/ann","action":"s3:GetObject","resource":"arn:aws:s3:::b/k"}
"#;

const ASK: &str = "ask world.json --requests - --workers 1 --brief";

/// A line that speaks of the resource of the world alone, and how it is asked about.
const LINES: &str = r#"{"pattern":"arn:aws:s3:::b/k","like":0}
"#;

const EVERY: &str = "every world.json --texts - --workers 1 --brief";

/// What is gained from the world without a policy to the one with it, for all names and whatever values keys have, and how it is asked for.
const GAINED_NAMES: &str = "change,principal,action,resource,before,after
gained,arn:aws:iam::111122223333:user/ann,S3:getobject,arn:aws:s3:::b/k,implicitDeny,allowed
";

const EVERY_CHANGES: &str =
    "changes before.json after.json --every --texts - --workers 1 --brief --fail-on lost";

const ANY_KEY_CHANGES: &str =
    "changes before.json after.json --any-key --workers 1 --brief --fail-on lost";

/// Each command, in each form of its report, and what it writes.
const RUNS: [(&str, &str); 14] = [
    (
        "check",
        "ok principals 1 actions 1 resources 1 cells 1 statements 1\n",
    ),
    ("decide 0 0 0", REPORT),
    ("matrix --workers 1", REPORT),
    ("matrix --workers 1 --action s3:*", REPORT),
    ("matrix --workers 1 --brief", BRIEF),
    ("matrix --workers 1 --format json", JSON),
    ("matrix --workers 1 --format json --brief", JSON_BRIEF),
    ("first --workers 1", BRIEF),
    ("matrix --any-key --workers 1 --brief", ALWAYS),
    (CHANGES, GAINED),
    (ASK, BRIEF),
    (EVERY, BRIEF),
    (EVERY_CHANGES, GAINED_NAMES),
    (ANY_KEY_CHANGES, GAINED_NAMES),
];

/// The command of these words.
fn asked_by(rt: &impl AllocGlobal, words: &str) -> Result<Command, Fail> {
    let split: Vec<&str> = words.split_ascii_whitespace().collect(rt.alloc())?;
    Ok(command_of(rt.alloc(), split.as_slice())?)
}

/// What stands beside the world: the requests, the lines, or a world before it.
fn beside(command: &Command) -> &'static str {
    match command {
        Command::Ask(_) => REQUESTS,
        Command::Every(_) => LINES,
        Command::EveryChanges(_) => BARE,
        Command::AnyKeyChanges(_) => BARE,
        Command::World(_) | Command::AnyKey(_) | Command::Changes(_) => EMPTY,
    }
}

/// Gives one byte a read, and fails once no more reads are left.
#[derive(Drop)]
struct Dripping<'a> {
    rest: &'a [u8],
    reads: usize,
}

impl Read for Dripping<'_> {
    fn read(&mut self, buf: &mut [u8]) -> io::Result<usize> {
        if self.reads == 0 {
            return Err(io::Error::from(ErrorKind::Interrupted));
        }
        self.reads -= 1;
        let count = buf.len().min(self.rest.len()).min(1);
        buf[..count].copy_from_slice(&self.rest[..count]);
        self.rest = &self.rest[count..];
        Ok(count)
    }
}

/// What a writer does once it has no room left.
#[derive(Clone, Copy)]
enum Full {
    Fails,
    TakesNothing,
}

/// Takes one byte a write while it has room.
#[derive(Drop)]
struct Narrow {
    taken: Vec<u8>,
    room: usize,
    full: Full,
    flushes: bool,
}

impl Write for Narrow {
    fn write(&mut self, buf: &[u8]) -> io::Result<usize> {
        let count = buf.len().min(self.room).min(1);
        self.room -= count;
        match self.full {
            Full::Fails if count == 0 => Err(io::Error::from(ErrorKind::Interrupted)),
            _ if self.taken.extend_from_slice(&buf[..count]).is_err() => {
                Err(io::Error::from(ErrorKind::OutOfMemory))
            }
            _ => Ok(count),
        }
    }

    fn flush(&mut self) -> io::Result<()> {
        if self.flushes {
            Ok(())
        } else {
            Err(io::Error::from(ErrorKind::Other))
        }
    }
}

/// The status of a run, and the line of its fault; of a run that is done there is none.
fn end_of<R: Read, S: Read, L: Read, W: Write>(
    rt: &(impl AllocGlobal + Threads + Sync),
    command: &Command,
    before: &mut R,
    after: &mut S,
    lines: &mut L,
    writer: &mut W,
) -> Result<(u8, String), Fail> {
    let alloc = rt.alloc();
    match command {
        Command::World(asked) => {
            let outcome = run_command(rt, alloc, asked, after, writer);
            let line = match &outcome {
                Ok(_) => String::new(alloc),
                Err(fault) => fault_line(alloc, fault)?,
            };
            Ok((command_status(&outcome, asked.allow_empty), line))
        }
        Command::Changes(asked) => {
            let outcome = run_changes_command(rt, alloc, asked, before, after, writer);
            let line = match &outcome {
                Ok(_) => String::new(alloc),
                Err(fault) => changes_fault_line(alloc, fault)?,
            };
            Ok((
                changes_command_status(&outcome, asked.fail_on, asked.allow_empty),
                line,
            ))
        }
        Command::AnyKey(asked) => end_of_any_key(rt, asked, after, writer),
        Command::AnyKeyChanges(asked) => {
            end_of_any_key_changes(rt, asked, before, after, writer)
        }
        Command::Ask(asked) => end_of_requests(rt, asked, after, before, writer),
        Command::Every(asked) => end_of_lines(rt, asked, after, before, writer),
        Command::EveryChanges(asked) => {
            end_of_names_changes(rt, asked, before, after, lines, writer)
        }
    }
}

/// The same of a run of two worlds whatever values the keys have.
fn end_of_any_key_changes<R: Read, S: Read, W: Write>(
    rt: &(impl AllocGlobal + Threads + Sync),
    asked: &AnyKeyChangesCommand,
    before: &mut R,
    after: &mut S,
    writer: &mut W,
) -> Result<(u8, String), Fail> {
    let alloc = rt.alloc();
    let outcome = run_any_key_changes(rt, alloc, asked.options, before, after, writer);
    let line = match &outcome {
        Ok(_) => String::new(alloc),
        Err(fault) => changes_fault_line(alloc, fault)?,
    };
    Ok((
        any_key_changes_status(&outcome, asked.fail_on, asked.allow_empty),
        line,
    ))
}

/// The same of a run whatever values the keys have.
fn end_of_any_key<R: Read, W: Write>(
    rt: &(impl AllocGlobal + Threads + Sync),
    asked: &AnyKeyCommand,
    world: &mut R,
    writer: &mut W,
) -> Result<(u8, String), Fail> {
    let outcome = run_any_key(rt, rt.alloc(), asked, world, writer);
    let line = match &outcome {
        Ok(_) => String::new(rt.alloc()),
        Err(fault) => fault_line(rt.alloc(), fault)?,
    };
    Ok((command_status(&outcome, asked.allow_empty), line))
}

/// The same of a run of requests.
fn end_of_requests<R: Read, S: Read, W: Write>(
    rt: &(impl AllocGlobal + Threads + Sync),
    asked: &AskCommand,
    world: &mut R,
    requests: &mut S,
    writer: &mut W,
) -> Result<(u8, String), Fail> {
    let outcome = run_ask(rt, rt.alloc(), &asked.options, world, requests, writer);
    let line = match &outcome {
        Ok(_) => String::new(rt.alloc()),
        Err(fault) => requests_fault_line(rt.alloc(), fault)?,
    };
    Ok((ask_status(&outcome, asked.allow_empty), line))
}

/// The same of a run about all names.
fn end_of_lines<R: Read, S: Read, W: Write>(
    rt: &(impl AllocGlobal + Threads + Sync),
    asked: &EveryCommand,
    world: &mut R,
    lines: &mut S,
    writer: &mut W,
) -> Result<(u8, String), Fail> {
    let outcome = run_every(rt, rt.alloc(), asked, world, lines, writer);
    let line = match &outcome {
        Ok(_) => String::new(rt.alloc()),
        Err(fault) => names_fault_line(rt.alloc(), fault)?,
    };
    Ok((every_status(&outcome, asked.allow_empty), line))
}

/// The same of a run of two worlds for all names.
fn end_of_names_changes<R: Read, S: Read, L: Read, W: Write>(
    rt: &(impl AllocGlobal + Threads + Sync),
    asked: &EveryChangesCommand,
    before: &mut R,
    after: &mut S,
    lines: &mut L,
    writer: &mut W,
) -> Result<(u8, String), Fail> {
    let outcome = run_every_changes(rt, rt.alloc(), asked, before, after, lines, writer);
    let line = match &outcome {
        Ok(_) => String::new(rt.alloc()),
        Err(fault) => every_changes_fault_line(rt.alloc(), fault)?,
    };
    let status = every_changes_status(&outcome, asked.fail_on, asked.allow_empty);
    Ok((status, line))
}

/// A run whose readers fail after so many reads writes the report, and ends by this line.
fn reads(
    rt: &(impl Abort + AllocGlobal + Threads + Sync),
    command: &Command,
    of_before: usize,
    of_after: usize,
    of_lines: usize,
    report: &str,
    line: &str,
) -> Result<(), Fail> {
    let mut before = Dripping {
        rest: beside(command).as_bytes(),
        reads: of_before,
    };
    let mut after = Dripping {
        rest: WORLD.as_bytes(),
        reads: of_after,
    };
    let mut lines = Dripping {
        rest: LINES.as_bytes(),
        reads: of_lines,
    };
    let mut writer = Vec::new(rt.alloc());
    let (status, found) = end_of(
        rt,
        command,
        &mut before,
        &mut after,
        &mut lines,
        &mut writer,
    )?;
    assert_eq!(rt; writer.as_slice(), report.as_bytes());
    assert_eq!(rt; found.as_str(), line);
    assert_eq!(rt; status, u8::from(!line.is_empty()));
    Ok(())
}

#[test]
fn readers_that_fail_at_each_read(rt: HostRuntime) -> Result<(), Fail> {
    let of_after = WORLD.len() + 1;
    let of_lines = LINES.len() + 1;
    for (words, report) in RUNS {
        let command = asked_by(&rt, words)?;
        let of_before = beside(&command).len().saturating_add(1);
        for count in 0..of_after {
            reads(
                &rt,
                &command,
                of_before,
                count,
                of_lines,
                "",
                "fault 1 Read",
            )?;
        }
        reads(&rt, &command, of_before, of_after, of_lines, report, "")?;
    }
    for words in [CHANGES, ASK, EVERY, EVERY_CHANGES] {
        let command = asked_by(&rt, words)?;
        for count in 0..beside(&command).len().saturating_add(1) {
            reads(&rt, &command, count, of_after, of_lines, "", "fault 1 Read")?;
        }
    }
    let command = asked_by(&rt, EVERY_CHANGES)?;
    let of_before = BARE.len() + 1;
    for count in 0..of_lines {
        reads(
            &rt,
            &command,
            of_before,
            of_after,
            count,
            "",
            "fault 1 Read",
        )?;
    }
    Ok(())
}

/// A run whose writer has this room writes the report as far as it goes, and ends by this line.
fn fills(
    rt: &(impl Abort + AllocGlobal + Threads + Sync),
    command: &Command,
    report: &str,
    room: usize,
    full: Full,
    flushes: bool,
    line: &str,
) -> Result<(), Fail> {
    let mut before = beside(command).as_bytes();
    let mut after = WORLD.as_bytes();
    let mut lines = LINES.as_bytes();
    let mut writer = Narrow {
        taken: Vec::new(rt.alloc()),
        room,
        full,
        flushes,
    };
    let (status, found) = end_of(
        rt,
        command,
        &mut before,
        &mut after,
        &mut lines,
        &mut writer,
    )?;
    let report = report.as_bytes();
    assert_eq!(rt; writer.taken.as_slice(), &report[..room.min(report.len())]);
    assert_eq!(rt; found.as_str(), line);
    assert_eq!(rt; status, u8::from(!line.is_empty()));
    Ok(())
}

#[test]
fn a_writer_that_fails_at_each_write_and_at_the_flush(rt: HostRuntime) -> Result<(), Fail> {
    for (words, report) in RUNS {
        let command = asked_by(&rt, words)?;
        let all = report.len();
        for full in [Full::Fails, Full::TakesNothing] {
            for room in 0..all {
                fills(&rt, &command, report, room, full, true, "fault 4 Write")?;
            }
            fills(&rt, &command, report, all, full, true, "")?;
            fills(&rt, &command, report, all, full, false, "fault 4 Write")?;
        }
    }
    Ok(())
}
