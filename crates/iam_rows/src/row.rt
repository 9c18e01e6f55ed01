// A row is an object: its name, the section of LOGIC.md that it tries (`rule`), an input, words, and what has to come of
// them: `output`, or `row` for the full header and that row, else nothing; `fault`, the line of the fault, else none;
// `status`, else 0 without a fault and 1 with one. Where it has `runs`, each of these has words and an answer of its own.
// Of two worlds `before` is the input of the one before, and `input` that of the one after, and `lines`, beside the words, that of
// a file of requests or of lines on texts, whatever files the words name.
use crate::input::{input_of, number_at, text_at};
use crate::problem::Problem;
use iam_app::{
    AnyKeyChangesCommand, AnyKeyCommand, AskCommand, ChangesCommand, Command, EveryChangesCommand,
    EveryCommand, Usage, WorldCommand, any_key_changes_status, ask_status, changes_command_status,
    changes_fault_line, command_of, command_status, every_changes_fault_line, every_changes_status,
    every_status, fault_line, names_fault_line, requests_fault_line, run_any_key,
    run_any_key_changes, run_ask, run_changes_command, run_command, run_every, run_every_changes,
};
use serde_json::Value;
use std::alloc::Global;
use std::thread::Threads;

const HEADER: &str = "cell,principal,action,resource,decision,statements,lacks";

/// How many rows were tried, and how many of them differ.
#[derive(Clone, Copy, Debug)]
pub struct Tally {
    pub tried: u64,
    pub differing: u64,
}

impl Tally {
    pub fn new() -> Tally {
        Tally {
            tried: 0,
            differing: 0,
        }
    }
}

/// What a run reads: its world, and that before where there are two.
#[derive(Drop)]
struct Inputs {
    before: Vec<u8>,
    world: Vec<u8>,
}

/// What comes of a run: its exit status, what is written on standard output, and the line of a fault.
#[derive(Drop)]
struct Answer {
    status: u64,
    output: Vec<u8>,
    fault: String,
}

/// Tries the rows, and names those that differ.
pub fn try_rows<R: AllocGlobal + Print + Threads + Sync>(
    rt: &R,
    worlds: &Value,
    rows: &Value,
    tally: &mut Tally,
) -> Result<(), Problem> {
    let rows = rows.as_array().ok_or(Problem::Form)?;
    for row in rows.as_slice() {
        let name = text_at(row, "name").ok_or(Problem::Form)?;
        let Ok(inputs) = inputs_of(rt.alloc(), worlds, row) else {
            count(tally, false);
            println!(rt; "{name}: its input can't be built")?;
            continue;
        };
        match row.get("runs").and_then(Value::as_array) {
            Some(runs) => {
                for answer in runs.as_slice() {
                    try_run(rt, name, worlds, &inputs, answer, tally)?;
                }
            }
            None => try_run(rt, name, worlds, &inputs, row, tally)?,
        }
    }
    Ok(())
}

/// What a row's runs read.
fn inputs_of(alloc: Global, worlds: &Value, row: &Value) -> Result<Inputs, Problem> {
    let before = match row.get("before") {
        Some(before) => input_of(alloc, worlds, before)?,
        None => Vec::new(alloc),
    };
    let world = input_of(alloc, worlds, row.get("input").ok_or(Problem::Form)?)?;
    Ok(Inputs { before, world })
}

fn count(tally: &mut Tally, same: bool) {
    tally.tried = tally.tried.saturating_add(1);
    if !same {
        tally.differing = tally.differing.saturating_add(1);
    }
}

fn try_run<R: AllocGlobal + Print + Threads + Sync>(
    rt: &R,
    name: &str,
    worlds: &Value,
    inputs: &Inputs,
    want: &Value,
    tally: &mut Tally,
) -> Result<(), Problem> {
    let alloc = rt.alloc();
    let words = text_at(want, "words").ok_or(Problem::Form)?;
    let split: Vec<&str> = words.split_ascii_whitespace().collect(alloc)?;
    let lines = match want.get("lines") {
        Some(lines) => input_of(alloc, worlds, lines)?,
        None => Vec::new(alloc),
    };
    let answer = answer_to(rt, split.as_slice(), inputs, lines.as_slice())?;
    let want = wanted(alloc, want)?;
    let same = is_same(&answer, &want);
    count(tally, same);
    if !same {
        println!(rt;
            "{name}: {words}: status {}, fault '{}'",
            answer.status, answer.fault
        )?;
        rt.print(String::from_utf8_lossy(alloc, answer.output.as_slice())?)?;
    }
    Ok(())
}

fn is_same(answer: &Answer, want: &Answer) -> bool {
    answer.status == want.status
        && answer.fault == want.fault
        && answer.output.as_slice() == want.output.as_slice()
}

/// What the row says has to come.
fn wanted(alloc: Global, want: &Value) -> Result<Answer, Problem> {
    let fault = text_at(want, "fault").unwrap_or("");
    let output = match text_at(want, "row") {
        Some(row) => format!(in alloc; "{HEADER}\n{row}\n")?,
        None => String::from_str(alloc, text_at(want, "output").unwrap_or(""))?,
    };
    let status = match want.get("status") {
        Some(_) => number_at(want, "status") as u64,
        None => u64::from(!fault.is_empty()),
    };
    Ok(Answer {
        status,
        output: output.into_bytes(),
        fault: String::from_str(alloc, fault)?,
    })
}

/// What comes of these words on these inputs.
fn answer_to<R: AllocGlobal + Threads + Sync>(
    rt: &R,
    words: &[&str],
    inputs: &Inputs,
    lines: &[u8],
) -> Result<Answer, Problem> {
    match command_of(rt.alloc(), words) {
        Ok(Command::World(command)) => world_answer(rt, &command, inputs.world.as_slice()),
        Ok(Command::AnyKey(command)) => any_key_answer(rt, &command, inputs.world.as_slice()),
        Ok(Command::Changes(command)) => changes_answer(rt, &command, inputs),
        Ok(Command::EveryChanges(command)) => every_changes_answer(rt, &command, inputs, lines),
        Ok(Command::AnyKeyChanges(command)) => any_key_changes_answer(rt, &command, inputs),
        Ok(Command::Ask(command)) => ask_answer(rt, &command, inputs.world.as_slice(), lines),
        Ok(Command::Every(command)) => every_answer(rt, &command, inputs.world.as_slice(), lines),
        Err(usage) => usage_answer(rt.alloc(), usage),
    }
}

/// What comes of a command about one world.
fn world_answer<R: AllocGlobal + Threads + Sync>(
    rt: &R,
    command: &WorldCommand,
    input: &[u8],
) -> Result<Answer, Problem> {
    let alloc = rt.alloc();
    let mut reader = input;
    let mut output = Vec::new(alloc);
    let outcome = run_command(rt, alloc, command, &mut reader, &mut output);
    let fault = match &outcome {
        Ok(_) => String::new(alloc),
        Err(fault) => fault_line(alloc, fault)?,
    };
    Ok(Answer {
        status: u64::from(command_status(&outcome, command.allow_empty)),
        output,
        fault,
    })
}

/// What comes of a command about one world, whatever values the keys have that nothing gives.
fn any_key_answer<R: AllocGlobal + Threads + Sync>(
    rt: &R,
    command: &AnyKeyCommand,
    input: &[u8],
) -> Result<Answer, Problem> {
    let alloc = rt.alloc();
    let mut reader = input;
    let mut output = Vec::new(alloc);
    let outcome = run_any_key(rt, alloc, command, &mut reader, &mut output);
    let fault = match &outcome {
        Ok(_) => String::new(alloc),
        Err(fault) => fault_line(alloc, fault)?,
    };
    Ok(Answer {
        status: u64::from(command_status(&outcome, command.allow_empty)),
        output,
        fault,
    })
}

/// What comes of a command about two worlds, whatever values the keys have that neither gives.
fn any_key_changes_answer<R: AllocGlobal + Threads + Sync>(
    rt: &R,
    command: &AnyKeyChangesCommand,
    inputs: &Inputs,
) -> Result<Answer, Problem> {
    let alloc = rt.alloc();
    let mut before = inputs.before.as_slice();
    let mut after = inputs.world.as_slice();
    let mut output = Vec::new(alloc);
    let outcome = run_any_key_changes(
        rt,
        alloc,
        command.options,
        &mut before,
        &mut after,
        &mut output,
    );
    let fault = match &outcome {
        Ok(_) => String::new(alloc),
        Err(fault) => changes_fault_line(alloc, fault)?,
    };
    Ok(Answer {
        status: u64::from(any_key_changes_status(&outcome, command.fail_on, command.allow_empty)),
        output,
        fault,
    })
}

/// What comes of a command about two worlds.
fn changes_answer<R: AllocGlobal + Threads + Sync>(
    rt: &R,
    command: &ChangesCommand,
    inputs: &Inputs,
) -> Result<Answer, Problem> {
    let alloc = rt.alloc();
    let mut before = inputs.before.as_slice();
    let mut after = inputs.world.as_slice();
    let mut output = Vec::new(alloc);
    let outcome = run_changes_command(rt, alloc, command, &mut before, &mut after, &mut output);
    let fault = match &outcome {
        Ok(_) => String::new(alloc),
        Err(fault) => changes_fault_line(alloc, fault)?,
    };
    Ok(Answer {
        status: u64::from(changes_command_status(&outcome, command.fail_on, command.allow_empty)),
        output,
        fault,
    })
}

/// What comes of a command about two worlds and all names.
fn every_changes_answer<R: AllocGlobal + Threads + Sync>(
    rt: &R,
    command: &EveryChangesCommand,
    inputs: &Inputs,
    lines: &[u8],
) -> Result<Answer, Problem> {
    let alloc = rt.alloc();
    let mut before = inputs.before.as_slice();
    let mut after = inputs.world.as_slice();
    let mut file = lines;
    let mut output = Vec::new(alloc);
    let outcome = run_every_changes(
        rt,
        alloc,
        command,
        &mut before,
        &mut after,
        &mut file,
        &mut output,
    );
    let fault = match &outcome {
        Ok(_) => String::new(alloc),
        Err(fault) => every_changes_fault_line(alloc, fault)?,
    };
    Ok(Answer {
        status: u64::from(every_changes_status(&outcome, command.fail_on, command.allow_empty)),
        output,
        fault,
    })
}

/// What comes of a command about the requests of a file.
fn ask_answer<R: AllocGlobal + Threads + Sync>(
    rt: &R,
    command: &AskCommand,
    world: &[u8],
    requests: &[u8],
) -> Result<Answer, Problem> {
    let alloc = rt.alloc();
    let mut input = world;
    let mut file = requests;
    let mut output = Vec::new(alloc);
    let outcome = run_ask(
        rt,
        alloc,
        &command.options,
        &mut input,
        &mut file,
        &mut output,
    );
    let fault = match &outcome {
        Ok(_) => String::new(alloc),
        Err(fault) => requests_fault_line(alloc, fault)?,
    };
    Ok(Answer {
        status: u64::from(ask_status(&outcome, command.allow_empty)),
        output,
        fault,
    })
}

/// What comes of a command about all names.
fn every_answer<R: AllocGlobal + Threads + Sync>(
    rt: &R,
    command: &EveryCommand,
    world: &[u8],
    lines: &[u8],
) -> Result<Answer, Problem> {
    let alloc = rt.alloc();
    let mut input = world;
    let mut file = lines;
    let mut output = Vec::new(alloc);
    let outcome = run_every(rt, alloc, command, &mut input, &mut file, &mut output);
    let fault = match &outcome {
        Ok(_) => String::new(alloc),
        Err(fault) => names_fault_line(alloc, fault)?,
    };
    Ok(Answer {
        status: u64::from(every_status(&outcome, command.allow_empty)),
        output,
        fault,
    })
}

/// What comes of words that ask for no run. Of a refused command line the first line of its text is the fault.
fn usage_answer(alloc: Global, usage: Usage) -> Result<Answer, Problem> {
    let (status, output, text) = match usage {
        Usage::Help(text) => (0, text, String::new(alloc)),
        Usage::Refused(text) => (2, String::new(alloc), text),
        Usage::OutOfMemory => return Err(Problem::OutOfMemory),
    };
    let line = text.as_str().lines().next().unwrap_or("");
    Ok(Answer {
        status,
        output: output.into_bytes(),
        fault: String::from_str(alloc, line)?,
    })
}
