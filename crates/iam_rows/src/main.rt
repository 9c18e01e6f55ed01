//! Tries the rows of `data/`: what `iamsim` has to answer to words and an input. Each is run over memory. Words of the command
//! line name the files of rows to try; without words all are tried. Its tests are of streams that fail.
#![tactic(auto)]

mod input;
mod problem;
mod row;
#[cfg(test)]
mod streams;

use crate::problem::Problem;
use crate::row::{Tally, try_rows};
use serde_json::Value;
use std::env;
use std::fs::{self, Files};
use std::process::ExitCode;
use std::rt::Env;
use std::thread::Threads;

/// The file of the worlds that the rows name.
const WORLDS: &str = "worlds.json";

/// The files of rows, by theme.
const ROWS: [&str; 17] = [
    "any_key.json",
    "any_key_changes.json",
    "ask.json",
    "changes.json",
    "commands.json",
    "conditions.json",
    "contexts.json",
    "decisions.json",
    "documents.json",
    "every.json",
    "every_changes.json",
    "layers.json",
    "limits.json",
    "matrix.json",
    "selections.json",
    "shape.json",
    "versions.json",
];

fn main(rt: HostRuntime) -> ExitCode {
    match try_files(&rt) {
        Ok(tally) => ExitCode::from(tell(&rt, tally)),
        Err(problem) => {
            let _told = rt.eprintln(problem.text());
            ExitCode::FAILURE
        }
    }
}

/// Prints how many rows were tried; the exit status, a failure where there was none.
fn tell(rt: &impl Print, tally: Tally) -> u8 {
    let Tally { tried, differing } = tally;
    let told = println!(rt; "{tried} rows tried, {differing} differ");
    u8::from(told.is_err() || differing > 0 || tried == 0)
}

fn try_files<R: Env + Files + AllocGlobal + Print + Threads + Sync>(
    rt: &R,
) -> Result<Tally, Problem> {
    let words: Vec<String> = env::args(rt)?.skip(1).collect(rt.alloc())?;
    let worlds = read(rt, WORLDS)?;
    let mut tally = Tally::new();
    for file in ROWS {
        if is_wanted(words.as_slice(), file) {
            let rows = read(rt, file)?;
            try_rows(rt, &worlds, &rows, &mut tally)?;
        }
    }
    Ok(tally)
}

/// Whether the words name this file, or are none.
fn is_wanted(words: &[String], file: &str) -> bool {
    words.is_empty() || words.iter().any(|word| word.as_str() == file)
}

fn read(rt: &(impl Files + AllocGlobal), file: &str) -> Result<Value, Problem> {
    let text = fs::read_to_string(rt, file)?;
    Ok(Value::from_str(rt.alloc(), text.as_str())?)
}
