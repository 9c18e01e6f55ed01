// A run of the requests of a file: each is decided alone, in its own context.
ghost use Rattle.std.specs.Prelude.{◌≡◌, ◌≢◌, ◌||◌, IfErr, IfOk, MatchResult, OnOk, if◌then◌else◌, length, sum};
ghost use Rattle.std.specs.Io.KnownBytes.{Appends};
ghost use Rattle.iam_matrix.specs.declared.cut.CutFault.TheVariants as c;
ghost use Rattle.iam_ask.specs.Code.Rows.{ask_text};
ghost use Rattle.iam_app.specs.Ask.{EndsAskBy, HasAnswers, HasCutOfAsked, HasNoCutOfAsked, HasWorld, IsAnswered, IsNotAnswered, IsOfWorld};
ghost use Rattle.iam_app.specs.Code.Asking.{AnswersAll, EndsLinesBy, IsNoInput, IsUnanswered, WritesAnswers};
ghost use Rattle.iam_app.specs.Streams.{ConsumesAtMost};

use crate::cells::{format_in, tile_length};
use crate::command::NOTHING_ASKED;
use crate::fault::RunFault;
use crate::input::read_input;
use crate::output::write_answers;
use crate::requests_fault::RequestsFault;
use iam_ask::{AskText, ask_report};
use iam_asked::{Requests, read_requests};
use iam_layers::World;
use iam_matrix::{Cut, CutFault, Open};
use iam_options::RunOptions;
use iam_report::buffer;
use std::alloc::Global;
use std::io::{Read, Write};
use std::mem;
use std::thread::Threads;

/// Reads a world.
pub fn read_world<R: Read>(alloc: Global, reader: &mut R) -> Result<World, RunFault>
    ensures most { ConsumesAtMost (R.remaining reader.old) (R.remaining reader.new) 8388609 }
    ensures ok { IfOk result (λ world. HasWorld (R.remaining reader.old) world) }
    ensures fault { IfErr result (IsNoInput (R.remaining reader.old)) }
{
    let bytes = read_input(alloc, reader)?;
    match World::from_vec_leaking(alloc, bytes) {
        Ok(world) => Ok(world),
        Err(fault) => Err(RunFault::World(fault)),
    }
}

/// The requests in tiles of the asked length.
fn cut_asked(alloc: Global, options: &RunOptions, requests: &Requests<'_>) -> Result<Cut, CutFault>
    ensures whole { IfOk result (λ cut. sum cut ≡ length requests.now.asked) }
    ensures cut { OnOk result (HasCutOfAsked options.now requests.now) }
    ensures fault { IfErr result (λ fault. fault ≢ c.OutOfMemory → HasNoCutOfAsked options.now requests.now fault) }
{
    let count = requests.count();
    Cut::even(alloc, tile_length(options.tile, count), count)
}

/// The report of the requests.
fn report_of<'a, T: Threads + Sync>(
    rt: &T,
    alloc: Global,
    options: &RunOptions,
    requests: &'a Requests<'a>,
) -> Result<AskText<'a>, RunFault>
    ensures ok { IfOk result (λ report. IsAnswered options.now requests.entry.now (ask_text report)) }
    ensures fault { IfErr result (IsNotAnswered options.now requests.entry.now) }
{
    let cut = cut_asked(alloc, options, requests)?;
    let report = ask_report(
        rt,
        alloc,
        requests,
        &cut,
        options.workers,
        &Open,
        format_in(options.json),
        options.brief,
    )?;
    Ok(report)
}

/// Writes the report of the requests.
fn answer<'a, T: Threads + Sync, W: Write>(
    rt: &T,
    alloc: Global,
    options: &RunOptions,
    requests: &'a Requests<'a>,
    writer: &mut W,
) -> Result<(), RunFault>
    ensures done { OnOk result (WritesAnswers options.now requests.entry.now (W.contents writer.old) (W.contents writer.new)) }
    ensures fault { IfErr result (IsUnanswered options.now requests.entry.now (W.contents writer.old) (W.contents writer.new)) }
{
    let report = report_of(rt, alloc, options, requests)?;
    let mut kept = buffer(alloc)?;
    write_answers(writer, &mut kept, &report).map_err(|_| RunFault::Write)
}

/// Reads the requests, and writes their report; whether there is one.
fn ask<T: Threads + Sync, S: Read, W: Write>(
    rt: &T,
    alloc: Global,
    options: &RunOptions,
    world: &World,
    file: &mut S,
    writer: &mut W,
) -> Result<bool, RequestsFault>
    ensures done { IfOk result (AnswersAll options.now world.now (S.remaining file.old) (W.contents writer.old) (W.contents writer.new)) }
    ensures fault { IfErr result (EndsLinesBy options.now world.now (S.remaining file.old) (W.contents writer.old) (W.contents writer.new)) }
{
    let requests = read_requests(alloc, world, file)?;
    answer(rt, alloc, options, &requests, writer)?;
    Ok(requests.count() > 0)
}

/// Reads a world and the requests of a file, one a line, and writes their report: of each, in order, a row with its verdict, made
/// alone in its own context; whether there is a request. The whole report is made before its first byte is written. At most
/// 8,388,609 bytes are read of the world. The first fault in this order ends the run: of the world `Read`, `World`; of the
/// requests `Read`, `Request`; then `Cut`, `Matrix`, `Write`. That there is no memory can come at any point before the writing, as
/// in [`crate::run`]. After every fault except `Write` nothing was written; after `Write` a beginning of the report. After
/// `World` nothing was read of the requests.
pub fn run_ask<T: Threads + Sync, R: Read, S: Read, W: Write>(
    rt: &T,
    alloc: Global,
    options: &RunOptions,
    input: &mut R,
    file: &mut S,
    writer: &mut W,
) -> Result<bool, RequestsFault>
    ensures most { ConsumesAtMost (R.remaining input.old) (R.remaining input.new) 8388609 }
    ensures done { IfOk result (HasAnswers options.now (R.remaining input.old) (S.remaining file.old) (Appends (W.contents writer.old) (W.contents writer.new))) }
    ensures fault { IfErr result (EndsAskBy options.now (R.remaining input.old) (S.remaining file.old) (W.contents writer.old) (W.contents writer.new)) }
    ensures unread { IfErr result (λ fault. IsOfWorld fault → S.remaining file.new ≡ S.remaining file.old) }
{
    let world = read_world(alloc, input)?;
    let asked = ask(rt, alloc, options, &world, file, writer);
    // The run ends soon, as one of all cells.
    mem::forget(world);
    asked
}

/// The exit status of a run of requests: 0 done, 1 a fault, 4 done without a request, unless this is allowed.
pub fn ask_status(outcome: &Result<bool, RequestsFault>, allow_empty: bool) -> u8
    ensures { MatchResult outcome.now (λ some. result ≡ (if some || allow_empty then 0 else 4)) (λ _. result ≡ 1) }
{
    match outcome {
        Ok(some) if *some || allow_empty => 0,
        Ok(_) => NOTHING_ASKED,
        Err(_) => 1,
    }
}
