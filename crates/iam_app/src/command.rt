// A run of what a command line asks for.
ghost use Rattle.std.specs.Prelude.{◌≡◌, ◌||◌, IfErr, IfOk, MatchResult, if◌then◌else◌};
ghost use Rattle.std.specs.Io.KnownBytes.{Appends};
ghost use Rattle.iam_app.specs.Changes.{EndsChangesBy, IsOfBefore, TellsChanges};
ghost use Rattle.iam_app.specs.ChangesFault.{fails_on};
ghost use Rattle.iam_app.specs.Command.{EndsCommandBy, HasCommandAnswer, HasSelection};
ghost use Rattle.iam_app.specs.Streams.{ConsumesAtMost};

use crate::changes::{Comparison, changes_status, fails_on, tell_changes};
use crate::changes_fault::ChangesFault;
use crate::fault::{RunFault, status};
use crate::program::run;
use crate::selected::{run_told, selection_of};
use iam_options::{ChangesCommand, FailOn, WorldCommand};
use std::alloc::Global;
use std::io::{Read, Write};
use std::thread::Threads;

/// The exit status of a run in which no request was asked about.
pub const NOTHING_ASKED: u8 = 4;

/// Answers a command about one world, whatever file it names: reads the world, and writes the report of all where nothing is
/// asked for, as [`crate::run`] does, else what is asked for, as [`crate::run_selected`] does, with the same faults; whether some
/// request was asked about. Where there is no memory for what is asked for, the run ends as `OutOfMemory` before it reads.
pub fn run_command<T: Threads + Sync, R: Read, W: Write>(
    rt: &T,
    alloc: Global,
    command: &WorldCommand,
    reader: &mut R,
    writer: &mut W,
) -> Result<bool, RunFault>
    ensures most { ConsumesAtMost (R.remaining reader.old) (R.remaining reader.new) 8388609 }
    ensures done { IfOk result (HasCommandAnswer command.now (R.remaining reader.old)
        (Appends (W.contents writer.old) (W.contents writer.new))) }
    ensures fault { IfErr result (λ fault. EndsCommandBy command.now (R.remaining reader.old)
        (W.contents writer.old) (W.contents writer.new) fault) }
{
    if command.asked.is_nothing() {
        return match run(rt, alloc, &command.options, reader, writer) {
            Ok(()) => Ok(true),
            Err(fault) => Err(fault),
        };
    }
    let selection = selection_of(alloc, &command.asked)?;
    run_told(rt, alloc, &command.options, &selection, reader, writer)
}

/// Answers a command about two worlds, whatever files it names: reads them, and writes what has changed among the requests that
/// are asked for, as [`crate::run_changes`] does, with the same faults; the kinds of changes, and whether some request was asked
/// about. Where there is no memory for what is asked for, the run ends as `OutOfMemory` before it reads.
pub fn run_changes_command<T: Threads + Sync, R: Read, S: Read, W: Write>(
    rt: &T,
    alloc: Global,
    command: &ChangesCommand,
    before: &mut R,
    after: &mut S,
    writer: &mut W,
) -> Result<Comparison, ChangesFault>
    ensures most_before { ConsumesAtMost (R.remaining before.old) (R.remaining before.new) 8388609 }
    ensures most_after { ConsumesAtMost (S.remaining after.old) (S.remaining after.new) 8388609 }
    ensures done { IfOk result (λ compared. HasSelection command.now.asked (λ selection. TellsChanges command.now.options selection
        (R.remaining before.old) (S.remaining after.old) (W.contents writer.old) (W.contents writer.new) compared)) }
    ensures fault { IfErr result (λ fault. HasSelection command.now.asked (λ selection. EndsChangesBy command.now.options selection
        (R.remaining before.old) (S.remaining after.old) (W.contents writer.old) (W.contents writer.new) fault)) }
    ensures unread { IfErr result (λ fault. IsOfBefore fault → S.remaining after.new ≡ S.remaining after.old) }
{
    let selection = selection_of(alloc, &command.asked)?;
    tell_changes(
        rt,
        alloc,
        &command.options,
        &selection,
        before,
        after,
        writer,
    )
}

/// The exit status of a command about one world: 0 done, 1 a fault, 4 done with no request asked about, unless this is allowed.
pub fn command_status(outcome: &Result<bool, RunFault>, allow_empty: bool) -> u8
    ensures { MatchResult outcome.now (λ some. result ≡ (if some || allow_empty then 0 else 4)) (λ _. result ≡ 1) }
{
    match outcome {
        Ok(some) if *some || allow_empty => status(&Ok(())),
        Ok(_) => NOTHING_ASKED,
        Err(fault) => status(&Err(*fault)),
    }
}

/// The exit status of a command about two worlds: 0 done, 1 a fault, 3 done with a row of the kind that is asked about, 4 done with no
/// request asked about, unless this is allowed.
pub fn changes_command_status(
    outcome: &Result<Comparison, ChangesFault>,
    fail_on: Option<FailOn>,
    allow_empty: bool,
) -> u8
    ensures { MatchResult outcome.now (λ found. result
        ≡ (if fails_on fail_on found.kinds then 3 else (if found.some || allow_empty then 0 else 4))) (λ _. result ≡ 1) }
{
    match outcome {
        Ok(found) if fails_on(fail_on, found.kinds) || found.some || allow_empty => {
            changes_status(&Ok(found.kinds), fail_on)
        }
        Ok(_) => NOTHING_ASKED,
        Err(fault) => changes_status(&Err(*fault), fail_on),
    }
}
